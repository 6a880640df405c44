//! Names of fields, methods and classes.
ghost use Rattle.std.specs.Prelude.{◌≡◌, ◌&&◌, ◌==◌, not};
ghost use Rattle.std.specs.List.{list_all};
ghost use Rattle.cm_descriptors.specs.Forms.{less, greater, is_name_byte, is_unqualified_name};
ghost use Rattle.cm_descriptors.specs.Forms.{is_method_name, is_class_name, name_after};

fn is_name_byte(byte: u8) -> bool
    ensures { result ≡ is_name_byte byte }
{
    (byte != b'.') & (byte != b';') & (byte != b'[') & (byte != b'/')
}

fn are_name_bytes(bytes: &[u8]) -> bool
    ensures { result ≡ list_all is_name_byte bytes.now }
{
    let mut all = true;
    for byte in bytes {
        all &= is_name_byte(*byte);
    }
    all
}

/// Whether the bytes are an unqualified name (JVMS 4.2.2).
#[tactic(auto, unfolding(crate::specs::Forms::is_unqualified_name))]
pub fn is_unqualified_name(bytes: &[u8]) -> bool
    ensures { result ≡ is_unqualified_name bytes.now }
{
    !bytes.is_empty() && are_name_bytes(bytes)
}

/// Whether there is no `<` and no `>`.
fn has_no_angles(bytes: &[u8]) -> bool
    ensures { result ≡ list_all (λ b. not (b == less) && not (b == greater)) bytes.now }
{
    let mut all = true;
    for byte in bytes {
        all &= (*byte != b'<') & (*byte != b'>');
    }
    all
}

/// Whether the bytes name a method (JVMS 4.2.2).
#[tactic(auto, unfolding(crate::specs::Forms::is_method_name))]
pub fn is_method_name(bytes: &[u8]) -> bool
    ensures { result ≡ is_method_name bytes.now }
{
    (is_unqualified_name(bytes) && has_no_angles(bytes))
        || bytes == b"<init>".as_slice()
        || bytes == b"<clinit>".as_slice()
}

/// Whether a name begins after this byte of a class name. `None` if the byte can't be there.
#[tactic(auto, unfolding(crate::specs::Forms::name_after))]
fn name_after(begins: bool, byte: u8) -> Option<bool>
    ensures { result ≡ name_after begins byte }
{
    match byte {
        b'/' if begins => None,
        b'/' => Some(true),
        b'.' | b';' | b'[' => None,
        _ => Some(false),
    }
}

/// Whether the bytes are a class name (JVMS 4.2.1). Most are unqualified names, each of which is a
/// class name.
#[tactic(auto, using(crate::proofs::FormLoops::name_is_class_name))]
pub fn is_class_name(bytes: &[u8]) -> bool
    ensures { result ≡ is_class_name bytes.now }
{
    is_unqualified_name(bytes) || are_joined_names(bytes)
}

/// Whether the bytes are a class name, byte by byte.
pub(crate) fn are_joined_names(bytes: &[u8]) -> bool
    ensures { result ≡ is_class_name bytes.now }
{
    let mut begins = true;
    for byte in bytes {
        match name_after(begins, *byte) {
            Some(after) => begins = after,
            None => return false,
        }
    }
    !begins
}
