//! What a region's sum may be at least and at most.
ghost use Rattle.std.specs.Prelude.{◌≡◌, ◌≤◌, ◌+ℤ◌, ◌∷◌, ◌^◌, Some, All, IfOk, length, pos, slice_index_or};
ghost use Rattle.std.specs.Map.{keys_of};
ghost use Rattle.cube_model.specs.Answer.{total_by};
ghost use Rattle.cube_model.specs.Cells.{cells_of};
ghost use Rattle.fact_groups.specs.Groups.{group_at};
ghost use Rattle.fact_records.specs.Shape.{width_of_all};
ghost use Rattle.region_algebra.specs.Inside.{cells_inside};
ghost use Rattle.region_algebra.specs.Space.{IsRegion};
ghost use Rattle.region_index.specs.Touching.{codes_touching};
ghost use Rattle.staged_map.specs.Staged.{held};
ghost use Rattle.world_range.specs.Picks.{end_of};
ghost use Rattle.world_range.specs.declared.extreme.Extreme.TheVariants.{Greatest, Least};
ghost use Rattle.cube_state.specs.Ranging.{AreEndsAt, AreIdsOfSome, LieWithin, column_in, either_part, end_over, id_part, is_next};
ghost use Rattle.cube_state.specs.State.{policy_in, rows_in};

use crate::{Group, State};
use cell_weight::WeightPolicy;
use cube_base::Memory;
use cube_model::{Fact, Region};
use fact_records::FactList;
use region_algebra::Inside;
use region_index::codes_touching;
use world_range::sides_of;

/// The least and the greatest that a region's sum of a column may be over all possible worlds.
#[derive(Clone, Copy, Debug, PartialEq, Eq)]
pub struct Ends {
    /// The least.
    pub least: i128,
    /// The greatest.
    pub greatest: i128,
}

impl<P: WeightPolicy + Drop> State<P> {
    /// The least and the greatest that the sum of a column in `r` may be over all possible worlds. In each world every fact stands in
    /// one cell of its rows. `r` must be a region of the space. Column 0 is the count, and those of the values follow. The only error is
    /// running out of memory.
    ///
    /// It looks at the groups of the regions that have a cell in common with `r` where these are few beside all groups, and else at all.
    /// Of a group with cells on both sides it looks at the value of each fact, unless facts are counted.
    pub fn ends(&self, r: Region, column: u32) -> Result<Ends, Memory>
        requires region { IsRegion self.now.dims r }
        requires column { column ≤ width_of_all self.now.shape.measures }
        ensures least { IfOk result (λ ends. ends.least ≡ end_of Least (cells_of self.now.dims r) column (rows_in P.weigh self.now)) }
        ensures greatest { IfOk result (λ ends. ends.greatest ≡ end_of Greatest (cells_of self.now.dims r) column (rows_in P.weigh self.now)) }
    {
        let few = self.groups.count() as u64 / 4;
        match codes_touching(self.alloc, &self.space, r, few)? {
            Some(codes) => Ok(self.ends_at(codes.as_slice(), &self.space.inside(r), column)),
            None => Ok(self.ends_of_all(&self.space.inside(r), column)),
        }
    }

    /// The ends of the facts whose regions have these codes.
    fn ends_at(&self, codes: &[u64], region: &Inside<'_>, column: u32) -> Ends
        requires { column ≤ width_of_all self.now.shape.measures }
        ensures least { result.least ≡ end_over P.weigh Least (cells_inside region.now) column self.now codes.now }
        ensures greatest { result.greatest ≡ end_over P.weigh Greatest (cells_inside region.now) column self.now codes.now }
    {
        let mut ends = Ends {
            least: 0,
            greatest: 0,
        };
        for code in codes {
            if let Some(group) = self.groups.get(*code) {
                ends = both_of(ends, self.group_ends(*code, group, region, column));
            }
        }
        ends
    }

    /// The ends of all facts, group by group.
    fn ends_of_all(&self, region: &Inside<'_>, column: u32) -> Ends
        requires { column ≤ width_of_all self.now.shape.measures }
        ensures least { result.least ≡ end_over P.weigh Least (cells_inside region.now) column self.now (keys_of (held self.now.kept.groups)) }
        ensures greatest { result.greatest ≡ end_over P.weigh Greatest (cells_inside region.now) column self.now (keys_of (held self.now.kept.groups)) }
    {
        let mut ends = Ends {
            least: 0,
            greatest: 0,
        };
        for i in 0..self.groups.count() {
            if let Some((code, group)) = self.groups.at(i) {
                ends = both_of(ends, self.group_ends(code, group, region, column));
            }
        }
        ends
    }

    /// The ends of the facts of a group, which is that of a code.
    fn group_ends(&self, code: u64, group: &Group, region: &Inside<'_>, column: u32) -> Ends
        requires column { column ≤ width_of_all self.now.shape.measures }
        requires group { group_at (policy_in P.weigh self.now) (width_of_all self.now.shape.measures) self.now.dims self.now.facts code ≡ Some group.now }
        ensures { AreEndsAt P.weigh (cells_inside region.now) column self.now code result }
    {
        // What a state says of its facts, and a shape of its measures.
        let facts = self.facts();
        let _ = self.shape().columns();
        let sides = sides_of(group.spread.rows(), region);
        if !sides.inside {
            return Ends {
                least: 0,
                greatest: 0,
            };
        }
        if !sides.outside {
            let sum = sum_of(group, column);
            return Ends {
                least: sum,
                greatest: sum,
            };
        }
        if column == 0 {
            return Ends {
                least: 0,
                greatest: i128::from(group.members),
            };
        }
        either_ends(facts, self.ids_at(code), column)
    }
}

/// The ends of the facts of these ids, where each may stand inside and outside. The ids are those of some of the facts, in order.
fn either_ends(facts: &FactList, ids: &[u64], column: u32) -> Ends
    requires wide { All (λ f. column ≤ length f.cols) facts.now.facts }
    requires ids { AreIdsOfSome facts.now.facts ids.now }
    ensures least { result.least ≡ total_by (id_part Least column facts.now.facts) ids.now }
    ensures greatest { result.greatest ≡ total_by (id_part Greatest column facts.now.facts) ids.now }
{
    // To look up one fact takes as long as to walk past some of them.
    if ids.len() as u64 > facts.len() / 16 {
        walked_ends(facts, ids, column)
    } else {
        found_ends(facts, ids, column)
    }
}

/// The same, for which all facts are walked through beside the ids.
fn walked_ends(facts: &FactList, ids: &[u64], column: u32) -> Ends
    requires wide { All (λ f. column ≤ length f.cols) facts.now.facts }
    requires ids { AreIdsOfSome facts.now.facts ids.now }
    ensures least { result.least ≡ total_by (id_part Least column facts.now.facts) ids.now }
    ensures greatest { result.greatest ≡ total_by (id_part Greatest column facts.now.facts) ids.now }
{
    let _ = facts.len();
    let mut ends = Ends {
        least: 0,
        greatest: 0,
    };
    let mut place = 0;
    for fact in facts.iter() {
        if is_next(ids, place, fact.id) {
            ends = with_either(ends, column_of(&fact, column));
            place += 1;
        }
    }
    ends
}

/// Whether an id is the one at a place of these.
fn is_next(ids: &[u64], place: usize, id: u64) -> bool
    ensures { result ≡ is_next ids.now place id }
{
    place < ids.len() && ids[place] == id
}

/// The same, for which each id is looked up. An id without a fact adds nothing.
fn found_ends(facts: &FactList, ids: &[u64], column: u32) -> Ends
    requires { All (λ f. column ≤ length f.cols) facts.now.facts }
    ensures least { result.least ≡ total_by (id_part Least column facts.now.facts) ids.now }
    ensures greatest { result.greatest ≡ total_by (id_part Greatest column facts.now.facts) ids.now }
{
    let mut ends = Ends {
        least: 0,
        greatest: 0,
    };
    for id in ids {
        if let Some(fact) = facts.get(*id) {
            ends = with_either(ends, column_of(&fact, column));
        }
    }
    ends
}

/// The ends of two sums together.
fn both_of(ends: Ends, more: Ends) -> Ends
    requires ends { LieWithin (2 ^ 125) ends }
    requires more { LieWithin (2 ^ 125) more }
    ensures least { result.least ≡ ends.least +ℤ more.least }
    ensures greatest { result.greatest ≡ ends.greatest +ℤ more.greatest }
{
    Ends {
        least: ends.least + more.least,
        greatest: ends.greatest + more.greatest,
    }
}

/// The ends with a value more, which may stand inside and outside: at either end it is inside if it is wanted there.
fn with_either(ends: Ends, value: i64) -> Ends
    requires { LieWithin (2 ^ 125) ends }
    ensures least { result.least ≡ ends.least +ℤ either_part Least value }
    ensures greatest { result.greatest ≡ ends.greatest +ℤ either_part Greatest value }
{
    if value < 0 {
        Ends {
            least: ends.least + i128::from(value),
            greatest: ends.greatest,
        }
    } else {
        Ends {
            least: ends.least,
            greatest: ends.greatest + i128::from(value),
        }
    }
}

/// A column of a fact, the count being column 0. It takes no memory.
pub fn column_of(fact: &Fact, column: u32) -> i64
    requires { column ≤ length fact.now.cols }
    ensures { result ≡ column_in column fact.now }
{
    if column == 0 {
        1
    } else {
        fact.cols.get(column - 1)
    }
}

/// The sum of a column over the facts of a group, the count being column 0.
fn sum_of(group: &Group, column: u32) -> i128
    requires { column ≤ length group.now.sums }
    ensures { result ≡ slice_index_or (pos group.now.count ∷ group.now.sums) column (pos 0) }
{
    if column == 0 {
        i128::from(group.members)
    } else {
        i128::from(group.sums.get(column - 1))
    }
}
