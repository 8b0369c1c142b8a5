//! The fields of a line: what stands between its TABs.
ghost use Rattle.std.specs.Prelude.{◌≡◌, ℕ, ◌+◌, ◌==◌, ◌≤◌, if◌then◌else◌, List, ◌∷◌, drop, length, nat_lt, not, None, Some};
ghost use Rattle.std.specs.List.{prefix_len};
ghost use Rattle.std.specs.Str.{bytes_eq};
ghost use Rattle.text_lines.specs.FieldsLeft.{marks_from};
ghost use Rattle.text_lines.specs.Text.{fields_of};
ghost use Rattle.text_lines.specs.LineText.{field_at};

use crate::blocks::{MARKED, count_of, marks_in, place_of};
use std::marker::Model;

/// What hands out fields one after another, as the walk through a line does. What reads ids, names and values takes
/// their fields from any of these. Contracts see the fields that are left.
pub trait Fields<'a> {
    /// The fields that are left.
    ghost left: { Self → List (List ℕ) };

    /// Hands out the next of the fields.
    fn next_field(&mut self) -> &'a str
        requires { 1 ≤ length (left self.old) }
        ensures { left self.old ≡ result.now ∷ left self.new };
}

/// A walk through the fields of a line, which makes no list of them. Contracts see the fields that are left.
#[derive(Drop)]
pub struct FieldWalk<'a> {
    line: &'a str,
    // Where the next field begins: None after the last.
    next: Option<usize>,
    // A bit for each of the line's first 64 bytes from there on, the first lowest: set where it is a TAB.
    marks: u64,
}

impl<'a> Model for FieldWalk<'a> {
    ghost use Rattle.std.specs.Prelude.{ℕ, List, IfSome};
    ghost use Rattle.text_lines.specs.FieldsLeft.{IsMarkedFrom, fields_from};

    ghost Value = { List (List ℕ) };

    ghost view = { λ w. fields_from w.next w.line.now };

    ghost invariant = { λ w. IfSome w.next (IsMarkedFrom w.line.now w.marks) };
}

impl<'a> FieldWalk<'a> {
    /// The walk before the first field of a line. There is one at least: an empty line has an empty field.
    pub fn new(line: &'a str) -> Self
        ensures { result ≡ fields_of line.now }
    {
        FieldWalk {
            line,
            next: Some(0),
            marks: tabs_in_front(line.as_bytes()),
        }
    }

    /// The number of the fields that are left.
    pub fn len(&self) -> usize
        ensures { result ≡ length self.now }
    {
        match self.next {
            Some(first) => count_from(self.line.as_bytes(), first, self.marks),
            None => 0,
        }
    }
}

impl<'a> Fields<'a> for FieldWalk<'a> {
    ghost left = { λ walk. walk };

    fn next_field(&mut self) -> &'a str {
        let line = self.line;
        let first = self.next.unwrap();
        let end = end_from(line.as_bytes(), first, self.marks);
        self.next = next_behind(line, end);
        self.marks = marks_after(self.marks);
        &line[first..end]
    }
}

/// A bit for each of the first 64 bytes, the first lowest: set where it is a TAB.
fn tabs_in_front(line: &[u8]) -> u64
    ensures { result ≡ marks_from line.now 0 }
{
    marks_in(&line[..line.len().min(MARKED)], b'\t')
}

/// The place of the first TAB from a place on, by the marks there: the end of the line where it has none.
fn end_from(line: &[u8], from: usize, marks: u64) -> usize
    requires within { from ≤ length line.now }
    requires marked { marks ≡ marks_from line.now from }
    ensures place { result ≡ from + prefix_len (λ b. not (b == 9)) (drop from line.now) }
    ensures within { result ≤ length line.now }
{
    if marks != 0 {
        return from + marks.trailing_zeros() as usize;
    }
    if line.len() <= MARKED {
        return line.len();
    }
    place_of(line, from, b'\t')
}

/// The number of the fields from a place on, by the marks there.
fn count_from(line: &[u8], from: usize, marks: u64) -> usize
    requires within { from ≤ length line.now }
    requires marked { marks ≡ marks_from line.now from }
    ensures { result ≡ length (fields_of (drop from line.now)) }
{
    if line.len() <= MARKED {
        return marks.count_ones() as usize + 1;
    }
    field_count(&line[from..])
}

/// The marks behind the first TAB: none where there is none.
fn marks_after(marks: u64) -> u64
    ensures { (line : List ℕ) (i : ℕ) → marks ≡ marks_from line i → result ≡ marks_from line (i + prefix_len (λ b. not (b == 9)) (drop i line) + 1) }
{
    if marks == 0 {
        return 0;
    }
    marks >> marks.trailing_zeros() >> 1
}

/// Where the field begins after one that ends at this place: None where the line ends too.
fn next_behind(line: &str, end: usize) -> Option<usize>
    ensures { result ≡ if nat_lt end (length line.now) then Some (end + 1) else None }
{
    if end < line.len() {
        Some(end + 1)
    } else {
        None
    }
}

/// The number of fields of a line: one more than it has TABs.
pub fn field_count(line: &[u8]) -> usize
    ensures { result ≡ length (fields_of line.now) }
{
    count_of(line, b'\t') + 1
}

/// The field of a line at a place, counted from 0: empty where the line has fewer fields.
pub fn field_at(line: &[u8], place: usize) -> &[u8]
    ensures { result.now ≡ field_at (fields_of line.now) place }
{
    match line.split(|byte| *byte == b'\t').nth(place) {
        Some(field) => field,
        None => &[],
    }
}

/// Whether a field is this text, byte for byte.
pub fn is_text(field: &[u8], text: &str) -> bool
    ensures { result ≡ bytes_eq field.now text.now }
{
    field == text.as_bytes()
}
