//! The lines of a text: each LF ends one, and what stands after the last LF is one unless it is empty.
ghost use Rattle.std.specs.Prelude.{◌≡◌, ◌≢◌, ◌↔◌, ◌<◌, ◌++◌, [], ◌∷◌, All, length, IsNone, IfNone, IfSome};
ghost use Rattle.text_lines.specs.Text.{after_line, lines_of};

use memchr::memchr;

/// The first line of a text, without its LF, and the text after it: None exactly where the text is empty.
pub fn first_line_of(text: &[u8]) -> Option<(&[u8], &[u8])>
    ensures empty { IsNone result ↔ (text.now ≡ []) }
    ensures line { IfSome result (λ cut. lines_of text.now ≡ cut.0.now ∷ lines_of cut.1.now) }
    ensures rest { IfSome result (λ cut. cut.1.now ≡ after_line text.now) }
    ensures shorter { IfSome result (λ cut. length cut.1.now < length text.now) }
{
    if text.is_empty() {
        return None;
    }
    match split_once(text, b'\n') {
        Some((line, rest)) => Some((line, rest)),
        None => Some((text, &[])),
    }
}

/// What stands before and after the first byte of this value: None exactly where there is none.
fn split_once(text: &[u8], byte: u8) -> Option<(&[u8], &[u8])>
    ensures none { IfNone result (All (λ b. b ≢ byte) text.now) }
    ensures parts { IfSome result (λ cut. text.now ≡ cut.0.now ++ byte ∷ cut.1.now) }
    ensures first { IfSome result (λ cut. All (λ b. b ≢ byte) cut.0.now) }
{
    let end = memchr(byte, text)?;
    Some((&text[..end], &text[end + 1..]))
}
