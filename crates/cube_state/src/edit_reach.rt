//! What an edit moves: the cells that it touches, and the regions whose groups may differ after it.
ghost use Rattle.std.specs.Prelude.{◌≡◌, ◌==◌, ◌+◌, ◌<◌, ◌≤◌, ◌||◌, ℕ, All, IfOk, IfSome, None, false, length};
ghost use Rattle.std.specs.Option.{option_copied, option_map, option_map_or};
ghost use Rattle.cube_model.specs.Cells.{all_cells, is_among};
ghost use Rattle.fact_groups.specs.Changes.{cell_of};
ghost use Rattle.fact_groups.specs.Edits.{given, taken};
ghost use Rattle.fact_groups.specs.Groups.{has_code};
ghost use Rattle.fact_records.specs.Judge.{fact_refusal};
ghost use Rattle.fact_records.specs.Shape.{width_of_all};
ghost use Rattle.fact_records.specs.Valid.{IsEditOver};
ghost use Rattle.region_algebra.specs.Space.{IsRegion};
ghost use Rattle.region_index.specs.Content.{AreAscending};
ghost use Rattle.cube_state.specs.Covering.{is_over_one, probes_over};
ghost use Rattle.cube_state.specs.Moves.{AreMoves, region_code};
ghost use Rattle.cube_state.specs.Regrouped.{HoldChanged};
ghost use Rattle.cube_state.specs.State.{policy_in};
ghost use Rattle.touched_cells.specs.Touched.{touched};

use crate::State;
use crate::edit_moves::Moves;
use crate::edited::{given_fact, taken_fact};
use cell_weight::WeightPolicy;
use cube_base::{Ids, Memory};
use cube_model::{Edit, Fact};
use region_index::{Steps, sort_distinct};
use std::sync::ledger::Ledger;
use touched_cells::{Change, Few, cell_of_fact, changes, reweighing_changes};

/// As many codes have most edits at most: so many fit without another list.
const MOST_CODES: usize = 16;

/// The cells of an edit's old fact and of its new fact, where their regions are one, and the changes of both.
#[derive(Drop)]
struct CellChanges {
    taken_cell: Option<u64>,
    given_cell: Option<u64>,
    touched: Few<Change>,
}

impl<P: WeightPolicy + Drop> State<P> {
    /// What an edit moves, which no code refuses that is judged before the rows. It takes no memory.
    pub fn moves(&self, edit: &Edit) -> Moves
        requires over { IsEditOver self.now.dims edit.now }
        requires accepted { fact_refusal self.now.shape self.now.dims edit.now self.now.facts ≡ None }
        ensures moves { AreMoves (policy_in P.weigh self.now) self.now.shape self.now.dims self.now.facts result }
        ensures edit { result.edit ≡ edit.now }
    {
        let _ = self.facts();
        let _ = self.shape().columns();
        let taken = taken_fact(edit, &self.facts);
        let given = given_fact(edit);
        let CellChanges {
            taken_cell,
            given_cell,
            touched,
        } = self.cell_changes(edit, taken, given);
        let reweighing = reweighing_changes(&self.policy, &touched);
        let taken_code = self.region_code(taken.as_ref());
        let given_code = self.region_code(given.as_ref());
        Moves {
            edit: *edit,
            taken,
            given,
            taken_code,
            given_code,
            taken_cell,
            given_cell,
            touched,
            reweighing,
        }
    }

    /// The code of a fact's region, if there is a fact.
    fn region_code(&self, fact: Option<&Fact>) -> Option<u64>
        requires { IfSome (option_copied fact) (λ f. IsRegion self.now.dims f.region) }
        ensures { result ≡ region_code self.now.dims (option_copied fact.entry) }
    {
        match fact {
            Some(fact) => Some(self.space.code(fact.region)),
            None => None,
        }
    }

    /// The codes of the regions whose groups an edit may change, ascending. They are those of its old fact and its new
    /// fact, and of the imprecise facts that cover a cell which weighs otherwise after it. A step is a probe of a region
    /// over such a cell. The only error is running out of memory.
    pub fn codes<L: Ledger>(&self, moves: &Moves, steps: &mut Steps<L>) -> Result<Ids, Memory>
        requires { AreMoves (policy_in P.weigh self.now) self.now.shape self.now.dims self.now.facts moves.now }
        ensures codes { IfOk result (HoldChanged (policy_in P.weigh self.now) (width_of_all self.now.shape.measures) self.now.dims moves.now.edit self.now.facts) }
        ensures steps { steps.new ≤ steps.old + probes_over self.now.dims moves.now.reweighing }
    {
        let _ = self.facts();
        let over = self.codes_over(moves.reweighing.as_slice(), steps)?;
        let taken = with_code(over, moves.taken_code)?;
        let all = with_code(taken, moves.given_code)?;
        Ok(Ids::from(sort_distinct(all)))
    }

    /// The codes of the regions whose imprecise facts cover one of the changed cells, in any order. A step is a probe of a region
    /// over such a cell, of which those are left out that have no pattern of an imprecise fact.
    fn codes_over<L: Ledger>(
        &self,
        changes: &[Change],
        steps: &mut Steps<L>,
    ) -> Result<Vec<u64>, Memory>
        requires { All (λ change. change.0 < length (all_cells self.now.dims)) changes.now }
        ensures codes { IfOk result (λ codes. (code : ℕ) → is_among codes.items code ≡ is_over_one self.now.dims changes.now self.now.facts code) }
        ensures steps { steps.new ≤ steps.old + probes_over self.now.dims changes.now }
    {
        let mut codes = Vec::with_capacity(self.alloc, MOST_CODES)?;
        if self.index.is_empty() {
            return Ok(codes);
        }
        for (cell, _, _) in changes {
            self.index
                .held_codes_by_pattern(&self.space, &self.patterns, *cell, &mut codes, steps)?;
        }
        Ok(codes)
    }

    /// The cells that an edit touches, ascending, each with its statistics before and after it, and the cells of its old fact and of
    /// its new fact. These are given, and no code that is judged before the rows refuses the edit.
    fn cell_changes(&self, edit: &Edit, before: Option<Fact>, after: Option<Fact>) -> CellChanges
        requires over { IsEditOver self.now.dims edit.now }
        requires accepted { fact_refusal self.now.shape self.now.dims edit.now self.now.facts ≡ None }
        requires before { before ≡ taken edit.now self.now.facts }
        requires after { after ≡ given edit.now }
        ensures taken_cell { result.taken_cell ≡ cell_of self.now.dims before }
        ensures given_cell { result.given_cell ≡ cell_of self.now.dims after }
        ensures touched { result.touched ≡ touched (policy_in P.weigh self.now) self.now.dims edit.now self.now.facts }
    {
        let _ = self.shape.columns();
        let lost = cell_of_fact(&self.space, &self.shape, before);
        let won = cell_of_fact(&self.space, &self.shape, after);
        CellChanges {
            taken_cell: cell_of(lost),
            given_cell: cell_of(won),
            touched: changes(&self.stats, lost, won),
        }
    }
}

/// The cell, without what a fact adds there.
fn cell_of(lying: Option<(u64, u64)>) -> Option<u64>
    ensures { result ≡ option_map (λ l. l.0) lying }
{
    match lying {
        Some((cell, _)) => Some(cell),
        None => None,
    }
}

/// The codes, with one more after them, if there is one.
fn with_code(mut codes: Vec<u64>, code: Option<u64>) -> Result<Vec<u64>, Memory>
    ensures { IfOk result (λ more. (c : ℕ) → is_among more.items c ≡ (is_among codes.items c || option_map_or (λ k. k == c) code false)) }
{
    if let Some(code) = code {
        codes.push(code)?;
    }
    Ok(codes)
}
