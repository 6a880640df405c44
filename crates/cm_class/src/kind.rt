ghost use Rattle.std.specs.Prelude.{◌≡◌};

/// The kinds of constant (JVMS 4.4, table 4.4-A).
#[derive(Clone, Copy, Debug, PartialEq, Eq)]
pub enum Kind {
    Utf8,
    Integer,
    Float,
    Long,
    Double,
    Class,
    String,
    Fieldref,
    Methodref,
    InterfaceMethodref,
    NameAndType,
    MethodHandle,
    MethodType,
    InvokeDynamic,
}

impl Kind {
    ghost use Rattle.std.specs.Prelude.{◌≡◌, Some};
    ghost use Rattle.cm_class.specs.Reading.{tag_of, tag_number, takes_two};

    /// The kind that has this tag; `None` if the number is no tag (JVMS 4.4, table 4.4-A).
    pub fn from_tag(tag: u16) -> Option<Kind>
        ensures { result ≡ tag_of tag }
    {
        match tag {
            1 => Some(Kind::Utf8),
            3 => Some(Kind::Integer),
            4 => Some(Kind::Float),
            5 => Some(Kind::Long),
            6 => Some(Kind::Double),
            7 => Some(Kind::Class),
            8 => Some(Kind::String),
            9 => Some(Kind::Fieldref),
            10 => Some(Kind::Methodref),
            11 => Some(Kind::InterfaceMethodref),
            12 => Some(Kind::NameAndType),
            15 => Some(Kind::MethodHandle),
            16 => Some(Kind::MethodType),
            18 => Some(Kind::InvokeDynamic),
            _ => None,
        }
    }

    /// The tag of this kind's constants (JVMS 4.4, table 4.4-A).
    pub fn tag(self) -> u16
        ensures number { result ≡ tag_number self }
        ensures told { tag_of result ≡ Some self }
    {
        match self {
            Kind::Utf8 => 1,
            Kind::Integer => 3,
            Kind::Float => 4,
            Kind::Long => 5,
            Kind::Double => 6,
            Kind::Class => 7,
            Kind::String => 8,
            Kind::Fieldref => 9,
            Kind::Methodref => 10,
            Kind::InterfaceMethodref => 11,
            Kind::NameAndType => 12,
            Kind::MethodHandle => 15,
            Kind::MethodType => 16,
            Kind::InvokeDynamic => 18,
        }
    }

    /// Whether a constant of this kind takes two indexes of the pool (JVMS 4.4.5).
    pub(crate) fn is_wide(self) -> bool
        ensures { result ≡ takes_two self }
    {
        matches!(self, Kind::Long | Kind::Double)
    }
}
