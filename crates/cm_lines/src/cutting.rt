//! Cuts texts at a byte.

ghost use Rattle.std.specs.Prelude.{◌≡◌, ◌≢◌, ◌∷◌, ◌++◌, IfSome, IfNone};
ghost use Rattle.std.specs.List.{All};

use memchr::memchr;

/// The text before the first such byte, and the text after it; `None` if there is no such byte.
pub fn cut(text: &[u8], at: u8) -> Option<(&[u8], &[u8])>
    ensures found { IfSome result (λ parts. text.now ≡ parts.0.now ++ at ∷ parts.1.now) }
    ensures first { IfSome result (λ parts. All (λ b. b ≢ at) parts.0.now) }
    ensures none { IfNone result (All (λ b. b ≢ at) text.now) }
{
    let i = memchr(at, text)?;
    Some((&text[..i], &text[i + 1..]))
}
