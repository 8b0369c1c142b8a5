//! Linear pooling of distributions.
ghost use Rattle.std.specs.Prelude.{◌≡◌, ◌≢◌, ◌+◌, ◌≤◌, ◌↔◌, [], All, IfOk, IfSome, IsSomeAnd, map, slice_get};
ghost use Rattle.std.specs.List.{range_with_len};
ghost use Rattle.cube_model.specs.Limits.{MAX_COLS};
ghost use Rattle.exact_fraction.specs.Moderate.{IsModerate};
ghost use Rattle.exact_fraction.specs.Ratio.{ratio_of};
ghost use Rattle.fact_records.specs.Shape.{width_of};
ghost use Rattle.group_sum.specs.Terms.{AreTerms};
ghost use Rattle.linear_pool.specs.Pool.{AddUpToOne, AreOfOneTotal, HasScaleTo, TellsOutcomes, pool_of, scale_of};
ghost use Rattle.linear_pool.specs.declared.pooling.PoolFault.TheVariants as pool_fault;

use cube_base::{Memory, PlainList};
use cube_model::MAX_SCALE;
use exact_fraction::{Quotient, Terms, ratio};
use fact_records::{Kind, Shape};
use std::alloc::Global;

/// One quotient for each outcome of a measure, in the order of its columns.
pub type Pooled = PlainList<Quotient>;

/// Why nothing is pooled.
#[derive(Clone, Copy, Debug, PartialEq, Eq)]
pub enum PoolFault {
    /// There is no term, so no count to divide by.
    Undefined,
    /// Out of memory.
    Memory,
}

impl From<Memory> for PoolFault {
    ghost from_gives = { λ _ fault. fault ≡ pool_fault.Memory };

    fn from(_: Memory) -> Self {
        PoolFault::Memory
    }
}

/// Pools the distributions of a parts measure: for each outcome, in the order of their columns, the sum of its column
/// divided by the count and the scale of the measure, as [`ratio`] tells it. Where a term's outcomes add up to the scale
/// times its count, this is the linear pool: the distributions of the facts weighed by their shares of the count, which
/// add up to 1 (Genest and Zidek, "Combining Probability Distributions", Statistical Science 1986; for imprecise facts
/// Burdick and others, "OLAP Over Uncertain and Imprecise Data", VLDB 2005). So fractions of all outcomes add up to 1.
///
/// The measure is the place of a parts measure of the shape, of a scale from 1 to [`MAX_SCALE`], whose columns are below
/// the number of columns of the terms. The terms are moderate as for [`exact_fraction::one`]. `Undefined` is answered where
/// there is no term, and nowhere else.
pub fn pool(alloc: Global, t: &Terms, shape: &Shape, measure: u32) -> Result<Pooled, PoolFault>
    requires measure { IsSomeAnd (slice_get shape.now.measures measure) (λ m. HasScaleTo MAX_SCALE m.kind) }
    requires columns { IfSome (slice_get shape.now.measures measure) (λ m. m.first_col + width_of m.kind ≤ t.now.columns) }
    requires moderate { IsModerate t.now.terms }
    ensures undefined { (result ≡ Err PoolFault.Undefined) ↔ (t.now.terms ≡ []) }
    ensures pooled { IfOk result (λ pooled. pooled ≡ pool_of (slice_get shape.now.measures measure) t.now.terms) }
    ensures tells { IfOk result (TellsOutcomes (slice_get shape.now.measures measure) t.now.terms) }
    ensures some { IfOk result (All (λ q. q ≢ Quotient.Undefined)) }
    ensures one { IfOk result (λ pooled. AreOfOneTotal (slice_get shape.now.measures measure) t.now.terms → AddUpToOne pooled) }
{
    if t.len() == 0 {
        return Err(PoolFault::Undefined);
    }
    let measure = shape.measure(measure);
    let (outcomes, scale) = parts(&measure.kind);
    Ok(divide(alloc, t, measure.first_col, outcomes, scale)?)
}

// The number of a measure's columns, and its scale.
fn parts(kind: &Kind) -> (u32, u32)
    requires { width_of kind.now ≤ MAX_COLS }
    ensures columns { result.0 ≡ width_of kind.now }
    ensures scale { result.1 ≡ scale_of kind.now }
{
    match kind {
        Kind::Number => (1, 1),
        Kind::Parts { scale, outcomes } => (outcomes.as_slice().len() as u32, *scale),
    }
}

// The quotients of so many columns by the count and a scale, from the first column on.
fn divide(alloc: Global, t: &Terms, first: u32, columns: u32, scale: u32) -> Result<Pooled, Memory>
    requires columns { first + columns ≤ t.now.columns }
    requires terms { AreTerms t.now }
    requires moderate { IsModerate t.now.terms }
    requires scale { (1 ≤ scale) × (scale ≤ MAX_SCALE) }
    ensures { IfOk result (λ pooled. pooled ≡ map (λ column. ratio_of column scale t.now.terms) (range_with_len first columns)) }
{
    let mut pooled = Pooled::new(alloc);
    for k in 0..columns {
        pooled.push(ratio(t, first + k, scale))?;
    }
    Ok(pooled)
}
