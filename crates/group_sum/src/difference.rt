//! What is left of terms without others.
ghost use Rattle.std.specs.Prelude.{◌≡◌, ◌-◌, ◌≤◌, Some, [], ◌∷◌, IfOk, IfErr, OnOk, MatchBool, MatchOption};
ghost use Rattle.std.specs.Option.{option_copied, option_map};
ghost use Rattle.cube_model.specs.Answer.{term_of};
ghost use Rattle.group_sum.specs.Terms.{AreTerms};
ghost use Rattle.group_sum.specs.Heads.{AreWithin, HasNoRemainder, HasOtherSums, HasRemainder, HasSameSums, remainder_in};
ghost use Rattle.group_sum.specs.Rows.{IsRowIn, row_term};
ghost use Rattle.group_sum.specs.Merge.{FitsDifference, HasDifference, HasRemainders, IsDifferenceFault, IsFirstBad, Subtracts};
ghost use Rattle.group_sum.specs.declared.difference.SubFault.TheVariants as sub_fault;

use crate::heads::{count, sum};
use crate::rows::Rows;
use cube_base::Memory;
use std::alloc::Global;

/// Why terms have no difference.
#[derive(Clone, Copy, Debug, PartialEq, Eq)]
pub enum SubFault {
    /// At this denominator, and at no smaller one, the count would be below 0, or 0 beside another numerator.
    Less { den: u64 },
    /// Out of memory.
    Memory,
}

impl From<Memory> for SubFault {
    ghost from_gives = { λ _ fault. fault ≡ sub_fault.Memory };

    fn from(_: Memory) -> Self {
        SubFault::Memory
    }
}

/// The terms that merged with a part give the whole. What is taken away is judged before any memory is taken.
pub fn subtract(alloc: Global, whole: &Rows, part: &Rows) -> Result<Rows, SubFault>
    requires columns { whole.now.columns ≡ part.now.columns }
    requires whole { AreTerms whole.now }
    requires part { AreTerms part.now }
    requires within { FitsDifference whole.now part.now }
    ensures difference { IfOk result (Subtracts whole.now part.now) }
    ensures fault { IfErr result (IsDifferenceFault whole.now part.now) }
    ensures possible { OnOk result (HasDifference whole.now part.now) }
    ensures terms { IfOk result AreTerms }
{
    match find_bad(whole, part) {
        Some(den) => Err(SubFault::Less { den }),
        None => Ok(subtract_all(alloc, whole, part)?),
    }
}

// The smallest denominator at which nothing can be left, if there is one. It is one of the part: where there is no part all is left.
fn find_bad(whole: &Rows, part: &Rows) -> Option<u64>
    requires columns { whole.now.columns ≡ part.now.columns }
    requires whole { AreTerms whole.now }
    requires part { AreTerms part.now }
    ensures { MatchOption result (HasRemainders whole.now part.now) (IsFirstBad whole.now part.now) }
{
    let values = whole.columns() - 1;
    for j in 0..part.len() {
        let den = part.den(j);
        if is_bad(values, find(whole, den), Some(part.row(j))) {
            return Some(den);
        }
    }
    None
}

// The numerators of the term of a denominator, if there is one.
fn find(terms: &Rows, den: u64) -> Option<&[i128]>
    requires { AreTerms terms.now }
    ensures { option_map (row_term den) (option_copied result) ≡ term_of terms.now.terms den }
{
    match terms.search(den) {
        Ok(at) => Some(terms.row(at)),
        Err(_) => None,
    }
}

// Whether nothing can be left of a term without a part of it.
fn is_bad(values: u32, whole: Option<&[i128]>, part: Option<&[i128]>) -> bool
    ensures { MatchBool result
        (HasNoRemainder values (option_map (row_term 0) (option_copied whole.entry)) (option_map (row_term 0) (option_copied part.entry)))
        (HasRemainder values (option_map (row_term 0) (option_copied whole.entry)) (option_map (row_term 0) (option_copied part.entry))) }
{
    let (has, takes) = (count(whole), count(part));
    has < takes || has == takes && differ(values, whole, part)
}

// Whether two terms have other sums.
fn differ(values: u32, whole: Option<&[i128]>, part: Option<&[i128]>) -> bool
    ensures { MatchBool result
        (HasOtherSums values (option_map (row_term 0) (option_copied whole.entry)) (option_map (row_term 0) (option_copied part.entry)))
        (HasSameSums values (option_map (row_term 0) (option_copied whole.entry)) (option_map (row_term 0) (option_copied part.entry))) }
{
    for k in 0..values {
        if sum(whole, k) != sum(part, k) {
            return true;
        }
    }
    false
}

// The terms that are left, where something can be left at each denominator.
fn subtract_all(alloc: Global, whole: &Rows, part: &Rows) -> Result<Rows, Memory>
    requires columns { whole.now.columns ≡ part.now.columns }
    requires whole { AreTerms whole.now }
    requires part { AreTerms part.now }
    requires within { FitsDifference whole.now part.now }
    requires possible { HasRemainders whole.now part.now }
    ensures difference { IfOk result (Subtracts whole.now part.now) }
    ensures terms { IfOk result AreTerms }
{
    let mut left = whole.duplicate(alloc)?;
    take_all(&mut left, part);
    Ok(left)
}

// Takes each term of a part away, where something can be left at each denominator.
fn take_all(left: &mut Rows, part: &Rows)
    requires columns { left.old.columns ≡ part.now.columns }
    requires whole { AreTerms left.old }
    requires part { AreTerms part.now }
    requires within { FitsDifference left.old part.now }
    requires possible { HasRemainders left.old part.now }
    ensures difference { Subtracts left.old part.now left.new }
    ensures terms { AreTerms left.new }
{
    for j in 0..part.len() {
        take_term(left, part.den(j), part.row(j));
    }
}

// Takes numerators from the term of their denominator. Where nothing is left of it, it goes.
fn take_term(left: &mut Rows, den: u64, row: &[i128])
    requires terms { AreTerms left.old }
    requires row { IsRowIn left.old.columns row.now }
    requires some { 1 ≤ (row_term den row.now).count }
    requires within { AreWithin (left.old.columns - 1) (remainder_in (term_of left.old.terms den) (Some (row_term den row.now))) }
    requires possible { HasRemainder (left.old.columns - 1) (term_of left.old.terms den) (Some (row_term den row.now)) }
    ensures difference { Subtracts left.old (record { columns = left.old.columns; terms = row_term den row.now ∷ [] }) left.new }
    ensures terms { AreTerms left.new }
{
    if let Ok(at) = left.search(den) {
        left.take_row(at, row);
        if count(Some(left.row(at))) == 0 {
            left.remove(at);
        }
    }
}
