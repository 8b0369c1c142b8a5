//! A line of a text that users write, as it stands before its LF.
ghost use Rattle.std.specs.Prelude.{◌≡◌, ◌==◌, ◌||◌, IfSome, is_some};
ghost use Rattle.std.specs.List.{list_all};
ghost use Rattle.cube_base.specs.Name.{is_name_byte};
ghost use Rattle.text_lines.specs.LineText.{is_clean, is_long, is_skipped, without_cr};

use crate::blocks::are_plain;
use std::str;

/// The most bytes of a line, its final CR included.
const MAX_LINE: usize = 4_096;

/// The line without a final CR, which is taken off once.
pub fn without_cr(line: &[u8]) -> &[u8]
    ensures { result.now ≡ without_cr line.now }
{
    match line.split_last() {
        Some((last, rest)) => if *last == b'\r' { rest } else { line },
        None => line,
    }
}

/// Whether a line is skipped, whatever its length and its other bytes: but for a final CR it is empty, or it begins
/// with `#`.
pub fn is_skipped(line: &[u8]) -> bool
    ensures { result ≡ is_skipped line.now }
{
    match without_cr(line) {
        [] => true,
        [first, ..] => *first == b'#',
    }
}

/// Whether a line has more than 4,096 bytes, a final CR included.
pub fn is_long(line: &[u8]) -> bool
    ensures { result ≡ is_long line.now }
{
    line.len() > MAX_LINE
}

/// The line as a text: None exactly where it is not UTF-8, or has a byte below 32 other than TAB, or 127.
pub fn clean_text(line: &[u8]) -> Option<&str>
    ensures clean { is_some result ≡ is_clean line.now }
    ensures text { IfSome result (λ text. text.now ≡ line.now) }
{
    if are_plain(line) {
        // SAFETY: plain bytes are below 128, and such bytes are UTF-8, so `from_utf8` can be spared.
        return Some(unsafe { str::from_utf8_unchecked(line) });
    }
    text_of_clean(line)
}

/// The same by a test of UTF-8 and one of each byte, for the lines that have other bytes than plain ones.
fn text_of_clean(line: &[u8]) -> Option<&str>
    ensures clean { is_some result ≡ is_clean line.now }
    ensures text { IfSome result (λ text. text.now ≡ line.now) }
{
    let Ok(text) = str::from_utf8(line) else {
        return None;
    };
    if are_clean(line) { Some(text) } else { None }
}

/// Whether a line is UTF-8 with no byte below 32 but TAB, and no 127.
pub fn is_clean(line: &[u8]) -> bool
    ensures { result ≡ is_clean line.now }
{
    clean_text(line).is_some()
}

/// Whether each byte may stand in a line.
fn are_clean(bytes: &[u8]) -> bool
    ensures { result ≡ list_all (λ b. b == 9 || is_name_byte b) bytes.now }
{
    bytes
        .iter()
        .all(|byte| *byte == b'\t' || (*byte >= 32 && *byte != 127))
}
