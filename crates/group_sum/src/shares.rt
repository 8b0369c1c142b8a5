//! Many shares at once.
ghost use Rattle.std.specs.Prelude.{◌≡◌, ◌≤◌, [], All, IfOk, OnOk, IsPermutation};
ghost use Rattle.group_sum.specs.Terms.{AreTerms};
ghost use Rattle.group_sum.specs.Shares.{AddUpTo, IsShare, SharesFit, units_of};

use crate::terms::{MAX_COLUMNS, Terms};
use cube_base::{Cols, Memory};
use std::alloc::Global;

/// A weight at a denominator, with the values that it weighs: of one fact, or of several at once which all have this weight.
#[derive(Clone, Copy, Debug)]
pub struct Share {
    /// How many facts there are: at least 1.
    pub facts: u64,
    /// The denominator.
    pub den: u64,
    /// The weight of each of them.
    pub weight: u64,
    /// What their values add up to, in the columns after the count.
    pub cols: Cols,
}

impl Share {
    /// What it adds to the count: the weight, once for each of the facts.
    fn units(&self) -> u128
        ensures { result ≡ units_of self.now }
    {
        u128::from(self.weight) * u128::from(self.facts)
    }
}

/// The terms that shares in any order add up to, over a number of columns, the count included. The shares are sorted by
/// denominator, so that each term is put after the others. The only error is running out of memory.
///
/// Each share has a fact at least, a denominator of at least 1, and a value for each column but the count. At no denominator do
/// the weights, each once for each fact, or the absolute values of the products with the values of a column, add up to more than
/// 2^120.
pub fn terms_of_shares(alloc: Global, columns: u32, shares: &mut [Share]) -> Result<Terms, Memory>
    requires some { 1 ≤ columns }
    requires most { columns ≤ MAX_COLUMNS }
    requires shares { All (IsShare columns) shares.old }
    requires within { SharesFit columns shares.old }
    ensures ok { IfOk result (AddUpTo columns shares.old) }
    ensures terms { IfOk result AreTerms }
    ensures order { IsPermutation shares.old shares.new }
{
    shares.sort_unstable_by_key(|share| share.den);
    let mut terms = Terms::empty(alloc, columns);
    add_all(&mut terms, shares)?;
    Ok(terms)
}

// Adds each of the shares, in their order, to no terms.
fn add_all(terms: &mut Terms, shares: &[Share]) -> Result<(), Memory>
    requires terms { AreTerms terms.old }
    requires none { terms.old.terms ≡ [] }
    requires shares { All (IsShare terms.old.columns) shares.now }
    requires within { SharesFit terms.old.columns shares.now }
    ensures ok { OnOk result (AddUpTo terms.old.columns shares.now terms.new) }
    ensures terms { OnOk result (AreTerms terms.new) }
{
    for share in shares {
        terms.add_units(share.den, share.units(), share.weight, share.cols)?;
    }
    Ok(())
}
