//! The group of a code after an edit.
ghost use Rattle.std.specs.Prelude.{slice_get, ◌≡◌, ◌==◌, false, ◌*◌, ◌<◌, ◌≤◌, ◌+ℤ◌, ◌-ℤ◌, IfOk, IfSome, length, nat_abs};
ghost use Rattle.std.specs.Option.{option_copied, option_map_or};
ghost use Rattle.cube_model.specs.Facts.{after, withdraw};
ghost use Rattle.cube_model.specs.Limits.{MAX_COLS, MAX_FACTS, MAX_VALUE};
ghost use Rattle.fact_groups.specs.Edits.{edited_id};
ghost use Rattle.fact_groups.specs.Groups.{facts_with, group_at};
ghost use Rattle.region_algebra.specs.Space.{all_regions};
ghost use Rattle.staged_map.specs.Staged.{value_at};
ghost use Rattle.fact_records.specs.Shape.{width_of_all};
ghost use Rattle.cube_state.specs.GroupAfter.{AreValuesWithin, fact_value, fact_with_code, group_total, members_of, number_of, sums_after};
ghost use Rattle.cube_state.specs.Moves.{AreMoves, region_code};
ghost use Rattle.cube_state.specs.Regrouped.{is_edited_at};
ghost use Rattle.cube_state.specs.State.{policy_in};

use crate::edit_moves::Moves;
use crate::{Group, State};
use cell_weight::WeightPolicy;
use cube_base::{Cols, MAX_COLS, Memory};
use cube_model::{Fact, Region};

impl<P: WeightPolicy + Drop> State<P> {
    /// The group of a code, which is that of the region, after an edit, by the one before: None where no fact has a region of the code. Where neither the old fact nor
    /// the new fact is of the code, it need not be asked whether a cell weighs otherwise.
    pub(crate) fn group_after(
        &self,
        moves: &Moves,
        code: u64,
        region: Option<&Region>,
        before: Option<&Group>,
        edited: bool,
    ) -> Result<Option<Group>, Memory>
        requires region { option_copied region ≡ slice_get (all_regions self.now.dims) code }
        requires moves { AreMoves (policy_in P.weigh self.now) self.now.shape self.now.dims self.now.facts moves.now }
        requires before { option_copied before ≡ value_at self.now.kept.groups code }
        ensures { IfOk result (λ group. group ≡ group_at (policy_in P.weigh self.now) (width_of_all self.now.shape.measures) self.now.dims (after moves.now.edit self.now.facts) code) }
    {
        let columns = self.shape.columns() - 1;
        let taken = self.fact_at(moves.taken.as_ref(), moves.taken_code, code);
        let given = self.fact_at(moves.given.as_ref(), moves.given_code, code);
        let members = members_of(before) + number_of(given) - number_of(taken);
        if members == 0 {
            return Ok(None);
        }
        let Some(region) = region else { unreachable!() };
        let spread = self.spread_after(moves, code, *region, before, edited)?;
        let sums = sums_after(columns, before, taken, given);
        Ok(Some(Group {
            spread,
            members,
            sums,
        }))
    }

    /// The region of a code, if it is that of one: it need not be taken apart where one of the facts has it.
    pub(crate) fn region_of(&self, moves: &Moves, code: u64) -> Option<Region>
        requires { AreMoves (policy_in P.weigh self.now) self.now.shape self.now.dims self.now.facts moves.now }
        ensures { result ≡ slice_get (all_regions self.now.dims) code }
    {
        let _ = self.shape.columns();
        if let Some(given) = self.fact_at(moves.given.as_ref(), moves.given_code, code) {
            return Some(given.region);
        }
        if let Some(taken) = self.fact_at(moves.taken.as_ref(), moves.taken_code, code) {
            return Some(taken.region);
        }
        self.space.uncode(code)
    }

    /// How many facts have the code, which has this group, but for the one of an edit's id.
    pub(crate) fn count_others(&self, moves: &Moves, code: u64, before: Option<&Group>) -> u64
        requires moves { AreMoves (policy_in P.weigh self.now) self.now.shape self.now.dims self.now.facts moves.now }
        requires before { option_copied before ≡ value_at self.now.kept.groups code }
        ensures count { result ≡ length (facts_with self.now.dims code (withdraw (edited_id moves.now.edit) self.now.facts)) }
        ensures few { result ≤ MAX_FACTS }
    {
        let _ = self.shape.columns();
        let taken = self.fact_at(moves.taken.as_ref(), moves.taken_code, code);
        members_of(before) - number_of(taken)
    }

    /// Whether the old fact or the new fact of an edit is of the code.
    pub(crate) fn is_edited_at(&self, moves: &Moves, code: u64) -> bool
        requires { AreMoves (policy_in P.weigh self.now) self.now.shape self.now.dims self.now.facts moves.now }
        ensures { result ≡ is_edited_at self.now.dims moves.now.edit self.now.facts code }
    {
        is_at(moves.taken_code, code) || is_at(moves.given_code, code)
    }

    /// The fact, if it is there and its region, which is at `at`, has the code.
    fn fact_at<'a>(&self, fact: Option<&'a Fact>, at: Option<u64>, code: u64) -> Option<&'a Fact>
        requires { at ≡ region_code self.now.dims (option_copied fact) }
        ensures { option_copied result ≡ fact_with_code self.now.dims code (option_copied fact.entry) }
    {
        if is_at(at, code) { fact } else { None }
    }
}

/// Whether there is a code, and it is this one.
pub(crate) fn is_at(at: Option<u64>, code: u64) -> bool
    ensures { result ≡ option_map_or (λ k. k == code) at false }
{
    match at {
        Some(at) => at == code,
        None => false,
    }
}

/// How many facts a group has.
fn members_of(group: Option<&Group>) -> u64
    ensures { result ≡ members_of (option_copied group.entry) }
{
    match group {
        Some(group) => group.members,
        None => 0,
    }
}

/// How many facts that is.
fn number_of(fact: Option<&Fact>) -> u64
    ensures number { result ≡ number_of (option_copied fact.entry) }
    ensures one { result ≤ 1 }
{
    match fact {
        Some(_) => 1,
        None => 0,
    }
}

/// The sums of so many columns of a group, with the values of one fact more and of one less.
fn sums_after(
    columns: u32,
    group: Option<&Group>,
    taken: Option<&Fact>,
    given: Option<&Fact>,
) -> Cols
    requires few { columns ≤ MAX_COLS }
    requires group { IfSome (option_copied group) (λ g. AreValuesWithin columns (MAX_FACTS * MAX_VALUE) g.sums) }
    requires taken { IfSome (option_copied taken) (λ f. AreValuesWithin columns MAX_VALUE f.cols) }
    requires given { IfSome (option_copied given) (λ f. AreValuesWithin columns MAX_VALUE f.cols) }
    ensures { result ≡ sums_after columns (option_copied group.entry) (option_copied taken.entry) (option_copied given.entry) }
{
    let mut sums = [0; MAX_COLS];
    for column in 0..columns {
        sums[column as usize] = move_sum(
            sum_of(group, column),
            value_of(taken, column),
            value_of(given, column),
        );
    }
    let Some(sums) = Cols::new(&sums[..columns as usize]) else {
        unreachable!()
    };
    sums
}

/// A sum with one value less and one more.
fn move_sum(sum: i64, taken: i64, given: i64) -> i64
    requires sum { nat_abs sum ≤ MAX_FACTS * MAX_VALUE }
    requires taken { nat_abs taken ≤ MAX_VALUE }
    requires given { nat_abs given ≤ MAX_VALUE }
    ensures { result ≡ (sum +ℤ given) -ℤ taken }
{
    sum + given - taken
}

/// The sum of a column of a group, 0 where there is no group.
fn sum_of(group: Option<&Group>, column: u32) -> i64
    requires { IfSome (option_copied group) (λ g. column < length g.sums) }
    ensures { result ≡ group_total (option_copied group.entry) column }
{
    match group {
        Some(group) => group.sums.get(column),
        None => 0,
    }
}

/// The value of a column of a fact, 0 where there is no fact.
fn value_of(fact: Option<&Fact>, column: u32) -> i64
    requires { IfSome (option_copied fact) (λ f. column < length f.cols) }
    ensures { result ≡ fact_value (option_copied fact.entry) column }
{
    match fact {
        Some(fact) => fact.cols.get(column),
        None => 0,
    }
}
