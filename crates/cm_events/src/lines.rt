//! Texts that are cut into lines.

ghost use Rattle.std.specs.Prelude.{◌≡◌, ◌<◌, ◌∷◌, [], length, IfSome, IfNone};
ghost use Rattle.cm_lines.specs.Lines.{lines_of};

use cm_lines::cut;

/// The first line of a text and what is after it; `None` if there is no line.
pub(crate) fn next_line(text: &[u8]) -> Option<(&[u8], &[u8])>
    ensures some { IfSome result (λ parts. lines_of text.now ≡ parts.0.now ∷ lines_of parts.1.now) }
    ensures shorter { IfSome result (λ parts. length parts.1.now < length text.now) }
    ensures none { IfNone result (lines_of text.now ≡ []) }
{
    if text.is_empty() {
        return None;
    }
    match cut(text, b'\n') {
        Some((line, rest)) => Some((line, rest)),
        None => Some((text, &[])),
    }
}
