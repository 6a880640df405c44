//! Numbers as words spell them.

ghost use Rattle.std.specs.Prelude.{◌≡◌};
ghost use Rattle.cm_events.specs.Numbers.{digit_behind, number_in};

/// A number with one more digit after it.
fn push_digit(number: u64, byte: u8) -> Option<u64>
    ensures { result ≡ digit_behind number byte }
{
    match byte {
        b'0'..=b'9' => number.checked_mul(10)?.checked_add(u64::from(byte - b'0')),
        _ => None,
    }
}

/// The number that a word spells in decimal digits only, if it fits 64 bits.
pub(crate) fn number_in(word: &[u8]) -> Option<u64>
    ensures { result ≡ number_in word.now }
{
    if word.is_empty() {
        return None;
    }
    let mut number: u64 = 0;
    for byte in word {
        match push_digit(number, *byte) {
            Some(next) => number = next,
            None => return None,
        }
    }
    Some(number)
}
