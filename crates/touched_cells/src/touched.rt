//! The cells that an edit touches, with their statistics before and after it.
ghost use Rattle.std.specs.Prelude.{◌≡◌, ◌++◌, ◌≤◌, ◌<◌, ℕ, All, IfSome, None, length, map, nat_abs, pos, slice_index_or};
ghost use Rattle.std.specs.Option.{option_map, option_map_or, option_to_list};
ghost use Rattle.cube_model.specs.Limits.{MAX_VALUE};
ghost use Rattle.cell_weight.specs.Stats.{IsStat, stat_at};
ghost use Rattle.fact_groups.specs.Changes.{cells_in_order};
ghost use Rattle.fact_records.specs.Accepted.{cols_refusal};
ghost use Rattle.fact_records.specs.Shape.{IsShape, adds_of};
ghost use Rattle.fact_records.specs.Valid.{IsFactOf};
ghost use Rattle.touched_cells.specs.Touched.{added_at, change_at, changes_of, lying_of, number_at, reweighing};

use crate::Few;
use cell_weight::{CellStat, StatIndex, WeightPolicy};
use cube_base::Cols;
use cube_model::Fact;
use fact_records::Shape;
use region_algebra::Space;

/// A cell, with its statistics before and after an edit.
pub type Change = (u64, CellStat, CellStat);

/// What a fact of these values adds to the sum of its cell: the value of the measure by whose sum cells weigh, which is not
/// below 0, or 0 where there is no such measure.
fn adds_of(shape: &Shape, cols: Cols) -> u64
    requires shape { IsShape shape.now }
    requires values { cols_refusal shape.now cols ≡ None }
    ensures adds { result ≡ adds_of shape.now cols }
    ensures most { result ≤ MAX_VALUE }
{
    match shape.weight_measure() {
        Some(measure) => {
            let column = shape.measure(measure).first_col;
            distance_at(cols, column - 1)
        }
        None => 0,
    }
}

/// How far the value at a place is from 0.
fn distance_at(cols: Cols, i: u32) -> u64
    requires { i < length cols }
    ensures { result ≡ nat_abs (slice_index_or cols i (pos 0)) }
{
    cols.get(i).unsigned_abs()
}

/// The cell of a fact whose region is one cell, if there is one, with what it adds there.
pub fn cell_of_fact(space: &Space, shape: &Shape, fact: Option<Fact>) -> Option<(u64, u64)>
    requires shape { IsShape shape.now }
    requires fact { IfSome fact (IsFactOf shape.now space.now) }
    ensures lying { result ≡ lying_of space.now (adds_of shape.now) fact }
    ensures most { IfSome result (λ lying. lying.1 ≤ MAX_VALUE) }
{
    match fact {
        Some(fact) => match space.cell_code(fact.region) {
            Some(cell) => Some((cell, adds_of(shape, fact.cols))),
            None => None,
        },
        None => None,
    }
}

/// How many facts that brings to a cell, and how much.
fn part_at_cell(lying: Option<(u64, u64)>, cell: u64) -> (u64, u64)
    ensures number { result.0 ≡ number_at lying cell }
    ensures added { result.1 ≡ added_at lying cell }
    ensures one { result.0 ≤ 1 }
{
    match lying {
        Some((at, added)) if at == cell => (1, added),
        _ => (0, 0),
    }
}

/// The change of a cell.
fn change_at(
    stats: &StatIndex,
    taken: Option<(u64, u64)>,
    given: Option<(u64, u64)>,
    cell: u64,
) -> Change
    requires number { number_at taken cell ≤ (stat_at stats.now cell).count }
    requires added { added_at taken cell ≤ (stat_at stats.now cell).sum }
    requires light { added_at given cell ≤ MAX_VALUE }
    ensures { result ≡ change_at (stat_at stats.now) taken given cell }
{
    let stat = stats.stat(cell);
    let (fewer, less) = part_at_cell(taken, cell);
    let (more, added) = part_at_cell(given, cell);
    let after = CellStat {
        count: stat.count + more - fewer,
        sum: stat.sum + added - less,
    };
    (cell, stat, after)
}

/// The cells that there are, the smaller first, one that is there twice once.
fn cells_in_order(a: Option<u64>, b: Option<u64>) -> (Option<u64>, Option<u64>)
    ensures { option_to_list result.0 ++ option_to_list result.1 ≡ cells_in_order a b }
{
    match (a, b) {
        (Some(a), Some(b)) if a != b => (Some(a.min(b)), Some(a.max(b))),
        (None, _) => (b, None),
        _ => (a, None),
    }
}

/// The changes of the cells of both facts, ascending.
pub fn changes(
    stats: &StatIndex,
    taken: Option<(u64, u64)>,
    given: Option<(u64, u64)>,
) -> Few<Change>
    requires number { (cell : ℕ) → number_at taken cell ≤ (stat_at stats.now cell).count }
    requires added { (cell : ℕ) → added_at taken cell ≤ (stat_at stats.now cell).sum }
    requires light { (cell : ℕ) → added_at given cell ≤ MAX_VALUE }
    ensures { result ≡ changes_of (stat_at stats.now) taken given }
{
    let (first, second) = cells_in_order(cell_of(taken), cell_of(given));
    let mut changes = Few::new();
    push_change(&mut changes, stats, taken, given, first);
    push_change(&mut changes, stats, taken, given, second);
    changes
}

/// The cell of a fact that lies on one.
fn cell_of(lying: Option<(u64, u64)>) -> Option<u64>
    ensures { result ≡ option_map (λ l. l.0) lying }
{
    match lying {
        Some((cell, _)) => Some(cell),
        None => None,
    }
}

/// Adds the change of a cell, if there is one, to one other at most.
fn push_change(
    changes: &mut Few<Change>,
    stats: &StatIndex,
    taken: Option<(u64, u64)>,
    given: Option<(u64, u64)>,
    cell: Option<u64>,
)
    requires few { length changes.old < 2 }
    requires number { (cell : ℕ) → number_at taken cell ≤ (stat_at stats.now cell).count }
    requires added { (cell : ℕ) → added_at taken cell ≤ (stat_at stats.now cell).sum }
    requires light { (cell : ℕ) → added_at given cell ≤ MAX_VALUE }
    ensures { changes.new ≡ changes.old ++ map (change_at (stat_at stats.now) taken given) (option_to_list cell) }
{
    if let Some(cell) = cell {
        changes.push(change_at(stats, taken, given, cell));
    }
}

/// Those of the changes that make a cell weigh otherwise.
pub fn reweighing_changes<P: WeightPolicy>(policy: &P, changes: &Few<Change>) -> Few<Change>
    requires before { All (λ change. IsStat change.1) changes.now }
    requires after { All (λ change. IsStat change.2) changes.now }
    ensures { result ≡ reweighing (P.weigh policy.now) changes.now }
{
    let mut some = Few::new();
    for change in changes.as_slice() {
        if policy.weight(change.1) != policy.weight(change.2) {
            some.push(*change);
        }
    }
    some
}
