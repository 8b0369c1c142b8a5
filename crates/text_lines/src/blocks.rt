//! Tests of all bytes of a text, 16 at a time. Most lines are two to four such blocks.
ghost use Rattle.std.specs.Prelude.{◌≡◌, ◌==◌, ◌+◌, ◌-◌, ◌≤◌, ◌++◌, count_by, drop, length, map, not, replicate};
ghost use Rattle.std.specs.Simd.Lanes.{chunk, mask_l};
ghost use Rattle.std.specs.List.{list_all, prefix_len};
ghost use Rattle.text_lines.specs.LineText.{is_plain};

use std::simd::prelude::*;

/// The bytes of a block.
const BLOCK: usize = 16;

/// The most bytes that are marked at once.
pub(crate) const MARKED: usize = 64;

/// How many of the bytes have this value.
pub(crate) fn count_of(bytes: &[u8], byte: u8) -> usize
    ensures count { result ≡ count_by (λ b. b == byte) bytes.now }
    ensures most { result ≤ length bytes.now }
{
    if bytes.len() < BLOCK {
        return count_behind(&fill_block(bytes), BLOCK - bytes.len(), byte);
    }
    let last = bytes.len() - BLOCK;
    let mut count = 0;
    let mut at = 0;
    while at <= last {
        count += marks_of(bytes, at, byte).count_ones() as usize;
        at += BLOCK;
    }
    count + count_behind(bytes, at, byte)
}

/// The place of the first byte of this value, of those from a place on: the end of the text where none has it.
pub(crate) fn place_of(bytes: &[u8], from: usize, byte: u8) -> usize
    requires { from ≤ length bytes.now }
    ensures place { result ≡ from + prefix_len (λ b. not (b == byte)) (drop from bytes.now) }
    ensures within { result ≤ length bytes.now }
{
    if bytes.len() < BLOCK {
        let gap = BLOCK - bytes.len();
        return place_behind(&fill_block(bytes), gap + from, byte) - gap;
    }
    let last = bytes.len() - BLOCK;
    let mut at = from;
    while at < last {
        let marks = marks_of(bytes, at, byte);
        if marks != 0 {
            return at + marks.trailing_zeros() as usize;
        }
        at += BLOCK;
    }
    place_behind(bytes, at, byte)
}

/// The same where all bytes from the place on lie in the last block.
fn place_behind(bytes: &[u8], from: usize, byte: u8) -> usize
    requires within { from ≤ length bytes.now }
    requires block { 16 ≤ length bytes.now }
    requires behind { length bytes.now ≤ from + 16 }
    ensures place { result ≡ from + prefix_len (λ b. not (b == byte)) (drop from bytes.now) }
    ensures within { result ≤ length bytes.now }
{
    let marks = marks_behind(bytes, from, byte);
    if marks == 0 {
        return bytes.len();
    }
    from + marks.trailing_zeros() as usize
}

/// How many of the bytes from a place on have this value. All of them lie in the last block.
fn count_behind(bytes: &[u8], at: usize, byte: u8) -> usize
    requires within { at ≤ length bytes.now }
    requires block { 16 ≤ length bytes.now }
    requires behind { length bytes.now ≤ at + 16 }
    ensures { result ≡ count_by (λ b. b == byte) (drop at bytes.now) }
{
    marks_behind(bytes, at, byte).count_ones() as usize
}

/// A bit for each of at most 64 bytes, the first lowest: set where the byte has this value.
pub(crate) fn marks_in(bytes: &[u8], byte: u8) -> u64
    requires { length bytes.now ≤ 64 }
    ensures { result ≡ mask_l (map (λ b. b == byte) bytes.now) }
{
    if bytes.len() < BLOCK {
        return marks_behind(&fill_block(bytes), BLOCK - bytes.len(), byte);
    }
    let last = bytes.len() - BLOCK;
    let mut marks = 0;
    let mut at = 0;
    while at < last {
        marks += marks_of(bytes, at, byte) << at;
        at += BLOCK;
    }
    marks + (marks_behind(bytes, at, byte) << at)
}

/// The marks of the bytes from a place on, the first lowest. All of them lie in the last block.
fn marks_behind(bytes: &[u8], at: usize, byte: u8) -> u64
    requires within { at ≤ length bytes.now }
    requires block { 16 ≤ length bytes.now }
    requires behind { length bytes.now ≤ at + 16 }
    ensures { result ≡ mask_l (map (λ b. b == byte) (drop at bytes.now)) }
{
    let last = bytes.len() - BLOCK;
    // The marks of the bytes before the place are shifted out.
    marks_of(bytes, last, byte) >> (at - last)
}

/// A bit for each byte of the block at a place, the first lowest: set where the byte has this value.
fn marks_of(bytes: &[u8], at: usize, byte: u8) -> u64
    requires { at + 16 ≤ length bytes.now }
    ensures { result ≡ mask_l (map (λ b. b == byte) (chunk at 16 bytes.now)) }
{
    let lanes = u8x16::from_slice(&bytes[at..]);
    lanes.simd_eq(u8x16::splat(byte)).to_bitmask()
}

/// Whether each byte is plain: TAB, or one from 32 to 126.
pub(crate) fn are_plain(bytes: &[u8]) -> bool
    ensures { result ≡ list_all is_plain bytes.now }
{
    if bytes.len() < BLOCK {
        return is_plain_block(&fill_block(bytes), 0);
    }
    let last = bytes.len() - BLOCK;
    let mut at = 0;
    while at < last {
        if !is_plain_block(bytes, at) {
            return false;
        }
        at += BLOCK;
    }
    // This block may overlap the one before.
    is_plain_block(bytes, last)
}

/// Whether each byte of the block at a place is plain.
fn is_plain_block(bytes: &[u8], at: usize) -> bool
    requires { at + 16 ≤ length bytes.now }
    ensures { result ≡ list_all is_plain (chunk at 16 bytes.now) }
{
    let lanes = u8x16::from_slice(&bytes[at..]);
    let control = lanes.simd_lt(u8x16::splat(32)) & lanes.simd_ne(u8x16::splat(b'\t'));
    let others = control | lanes.simd_gt(u8x16::splat(126));
    others.to_bitmask() == 0
}

/// At most 16 bytes as a block, after spaces: a short text then needs no loop over its bytes.
fn fill_block(bytes: &[u8]) -> [u8; BLOCK]
    requires { length bytes.now ≤ 16 }
    ensures { result ≡ replicate (16 - length bytes.now) 32 ++ bytes.now }
{
    let mut block = [b' '; BLOCK];
    block[BLOCK - bytes.len()..].copy_from_slice(bytes);
    block
}
