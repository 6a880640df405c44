//! Names without any of the bytes that a name may lack, checked eight bytes at a time.
ghost use Rattle.std.specs.Prelude.{◌≡◌};
ghost use Rattle.std.specs.List.{list_all};
ghost use Rattle.cm_record_rules.specs.Plain.{is_plain_byte};

const LANES: usize = 8;

/// None of `.` `;` `[` `/` `<` `>`.
fn is_plain_byte(byte: u8) -> bool
    ensures { result ≡ is_plain_byte byte }
{
    (byte != b'.')
        & (byte != b';')
        & (byte != b'[')
        & (byte != b'/')
        & (byte != b'<')
        & (byte != b'>')
}

/// It always checks all bytes: eight of them at once.
#[inline(always)]
fn few_are_plain(bytes: &[u8]) -> bool
    ensures { result ≡ list_all is_plain_byte bytes.now }
{
    let mut all = true;
    for byte in bytes {
        all &= is_plain_byte(*byte);
    }
    all
}

/// Whether each byte is in the names of fields and methods, except the two special ones.
pub(crate) fn are_plain(bytes: &[u8]) -> bool
    ensures { result ≡ list_all is_plain_byte bytes.now }
{
    let mut rest = bytes;
    let mut all = true;
    while rest.len() >= LANES {
        let (front, behind) = rest.split_at(LANES);
        all &= few_are_plain(front);
        rest = behind;
    }
    all && few_are_plain(rest)
}
