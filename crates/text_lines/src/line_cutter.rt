//! Cutting an input that comes in pieces into lines.
ghost use Rattle.std.specs.Prelude.{◌≡◌, ◌≢◌, ◌↔◌, ◌+◌, ◌≤◌, ◌<◌, ◌++◌, ℕ, List, [], ◌∷◌, All, drop, take, length, IsNone, IfNone, IfSome, OnOk, OnErr};
ghost use Rattle.std.specs.Borrow.{sem};
ghost use Rattle.text_lines.specs.LineText.{LINE_FRONT};
ghost use Rattle.text_lines.specs.Lending.{EndsAs};
ghost use Rattle.text_lines.specs.Pieces.{behind_line, front, last_line, lines_ahead, pieces_of, rest_of};

use cube_base::Memory;
use memchr::memchr;
use std::alloc::Global;
use std::marker::Model;

/// The most bytes that are kept of a line: one more than a line may have, which tells that it is too long.
const MOST_KEPT: usize = 4_097;

/// An input that comes in pieces, cut into lines. The first 4,097 bytes of a line are kept, which tell what it means. A
/// line that is handed out with 4,097 bytes has more than the 4,096 that a line may have. Contracts see the lines that
/// are held whole, in order, and after them the rest. Beside them they see how many bytes the cutter has, those
/// included that were handed out since the last piece.
#[derive(Drop)]
pub struct LineCutter {
    bytes: Vec<u8>,
    // Where the first of the bytes stands that was not handed out yet.
    start: usize,
}

impl Model for LineCutter {
    ghost use Rattle.std.specs.Prelude.{◌≤◌, drop, length};
    ghost use Rattle.text_lines.specs.Pieces.{Held, pieces_of};

    ghost Value = { Held };

    ghost view = { λ c. record {
      lines = pieces_of (drop c.start c.bytes.items);
      bytes = length c.bytes.items;
    } };

    ghost invariant = { λ c. c.start ≤ length c.bytes.items };
}

impl LineCutter {
    /// Holds nothing yet.
    pub fn new(alloc: Global) -> Self
        ensures { result ≡ record { lines = [] ∷ []; bytes = 0 } }
    {
        LineCutter {
            bytes: Vec::new(alloc),
            start: 0,
        }
    }

    /// Takes the next piece of the input, once each whole line was handed out. What was handed out is let go here, and of a
    /// rest that is too long already all but its first bytes. On an error what was held is held still.
    pub fn feed(&mut self, piece: &[u8]) -> Result<(), Memory>
        requires { length self.old.lines ≡ 1 }
        ensures rest { OnOk result (self.new.lines ≡ pieces_of (rest_of self.old.lines ++ piece.now)) }
        ensures text { (text : List ℕ) → self.old.lines ≡ pieces_of text → OnOk result (self.new.lines ≡ pieces_of (text ++ piece.now)) }
        ensures few { OnOk result (length self.new.lines ≤ length piece.now + 1) }
        ensures room { OnOk result (self.new.bytes ≤ LINE_FRONT + length piece.now) }
        ensures same { OnErr result (self.new.lines ≡ self.old.lines) }
        ensures room_kept { OnErr result (self.new.bytes ≤ self.old.bytes) }
    {
        keep_front(&mut self.bytes, self.start);
        self.start = 0;
        self.bytes.extend_from_slice(piece)?;
        Ok(())
    }

    /// Hands out the first of the lines that are held whole, without its LF: None exactly where there is none.
    pub fn next_line(&mut self) -> Option<&[u8]>
        ensures* left { sem 𝓛 (EndsAs self.entry (record { lines = behind_line self.old.lines; bytes = self.old.bytes })) }
        ensures none { IsNone result ↔ (length self.old.lines ≡ 1) }
        ensures line { IfSome result (λ line. self.old.lines ≡ line.now ∷ behind_line self.old.lines) }
    {
        let start = self.start;
        let length = line_length(&self.bytes[start..])?;
        self.start += length + 1;
        Some(front(&self.bytes[start..start + length]))
    }

    /// Hands out the rest as the last line, once each whole line was handed out: None exactly where it is empty. No line is
    /// held afterwards, and no rest.
    pub fn finish(&mut self) -> Option<&[u8]>
        requires { length self.old.lines ≡ 1 }
        ensures* left { sem 𝓛 (EndsAs self.entry (record { lines = [] ∷ []; bytes = self.old.bytes })) }
        ensures none { IsNone result ↔ (self.old.lines ≡ [] ∷ []) }
        ensures line { IfSome result (λ line. self.old.lines ≡ line.now ∷ []) }
        ensures last { lines_ahead self.old.lines [] ≡ last_line (rest_of self.old.lines) }
    {
        let start = self.start;
        let end = self.bytes.len();
        self.start = end;
        if start == end {
            return None;
        }
        Some(front(&self.bytes[start..]))
    }
}

// Lets go what stands before a place, and what stands after the front of the rest.
fn keep_front(bytes: &mut Vec<u8>, start: usize)
    requires { start ≤ length bytes.old.items }
    ensures { bytes.new.items ≡ front (drop start bytes.old.items) }
{
    let left = bytes.len() - start;
    bytes.copy_within(start.., 0);
    bytes.truncate(left);
    bytes.truncate(MOST_KEPT);
}

// The length of the first line that stands whole in these bytes, without its LF: None exactly where there is no LF.
fn line_length(bytes: &[u8]) -> Option<usize>
    ensures none { IfNone result (All (λ b. b ≢ 10) bytes.now) }
    ensures within { IfSome result (λ n. n < length bytes.now) }
    ensures line { IfSome result (λ n. All (λ b. b ≢ 10) (take n bytes.now)) }
    ensures lf { IfSome result (λ n. bytes.now ≡ take n bytes.now ++ 10 ∷ drop (n + 1) bytes.now) }
{
    memchr(b'\n', bytes)
}

// As much of a line as tells what it means.
fn front(line: &[u8]) -> &[u8]
    ensures { result.now ≡ front line.now }
{
    &line[..line.len().min(MOST_KEPT)]
}
