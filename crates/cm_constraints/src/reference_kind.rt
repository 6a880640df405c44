//! The kinds of method handles.
ghost use Rattle.std.specs.Prelude.{◌≡◌};

/// What a method handle does with the member that it names (JVMS 5.4.3.5, table 5.4.3.5-A).
#[derive(Clone, Copy)]
pub(crate) enum ReferenceKind {
    GetField,
    GetStatic,
    PutField,
    PutStatic,
    InvokeVirtual,
    InvokeStatic,
    InvokeSpecial,
    NewInvokeSpecial,
    InvokeInterface,
}

impl ReferenceKind {
    ghost use Rattle.std.specs.Prelude.{◌≡◌};
    ghost use Rattle.cm_constraints.specs.Constants.{reference_kind};

    /// The kind that has this number (JVMS 5.4.3.5, table 5.4.3.5-A).
    pub(crate) fn from_number(number: u8) -> Option<ReferenceKind>
        ensures { result ≡ reference_kind number }
    {
        match number {
            1 => Some(ReferenceKind::GetField),
            2 => Some(ReferenceKind::GetStatic),
            3 => Some(ReferenceKind::PutField),
            4 => Some(ReferenceKind::PutStatic),
            5 => Some(ReferenceKind::InvokeVirtual),
            6 => Some(ReferenceKind::InvokeStatic),
            7 => Some(ReferenceKind::InvokeSpecial),
            8 => Some(ReferenceKind::NewInvokeSpecial),
            9 => Some(ReferenceKind::InvokeInterface),
            _ => None,
        }
    }
}
