//! The form of a Utf8.
ghost use Rattle.std.specs.Prelude.{◌≡◌};
ghost use Rattle.std.specs.List.{list_all};
ghost use Rattle.cm_descriptors.specs.Forms.{is_within, owed_after, has_utf8_form};

/// How many bytes a character still lacks after this one. `None` if the byte can't be there.
fn count_owed(owed: u8, byte: u8) -> Option<u8>
    ensures { result ≡ owed_after owed byte }
{
    match (owed, byte) {
        (0, 0x01..=0x7f) => Some(0),
        (0, 0xc0..=0xdf) => Some(1),
        (0, 0xe0..=0xef) => Some(2),
        (1.., 0x80..=0xbf) => Some(owed - 1),
        _ => None,
    }
}

/// Whether each byte is a character by itself. It always checks all of them, so that the loop can
/// be vectorised.
fn are_plain(bytes: &[u8]) -> bool
    ensures { result ≡ list_all (is_within 0x01 0x7F) bytes.now }
{
    let mut all = true;
    for byte in bytes {
        all &= (*byte >= 0x01) & (*byte <= 0x7f);
    }
    all
}

/// Whether the bytes have the form of a Utf8: a sequence of characters (JVMS 4.4.7). Most are
/// plain.
#[tactic(auto, using(crate::proofs::FormLoops::plain_has_form))]
pub fn has_utf8_form(bytes: &[u8]) -> bool
    ensures { result ≡ has_utf8_form bytes.now }
{
    are_plain(bytes) || are_characters(bytes)
}

/// Whether the bytes have the form, character by character.
pub(crate) fn are_characters(bytes: &[u8]) -> bool
    ensures { result ≡ has_utf8_form bytes.now }
{
    let mut owed = 0;
    for byte in bytes {
        match count_owed(owed, *byte) {
            Some(after) => owed = after,
            None => return false,
        }
    }
    owed == 0
}
