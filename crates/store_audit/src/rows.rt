//! The rows of a stored content, compared with those that its facts make.
ghost use Rattle.std.specs.Prelude.{◌≡◌, ◌≢◌, ◌<◌, ◌↔◌, ◌==◌, ◌&&◌, IfErr, IfOk, IsTrue, None, OnOk, Some, map, slice_get};
ghost use Rattle.std.specs.Option.{option_copied};
ghost use Rattle.cube_model.specs.Difference.{is_same};
ghost use Rattle.edit_plan.specs.Plan.{kept_rows};
ghost use Rattle.cube_state.specs.State.{rows_in};
ghost use Rattle.store_audit.specs.Loading.{DiffersAt, IsRowsFault, rows_told, spread_told};

use crate::{Finding, LoadFault};
use alloc_rows::Alloc;
use cell_weight::WeightPolicy;
use cube_base::Memory;
use cube_model::Fact;
use cube_state::{State, look_up};
use fact_keeper::KeptRows;
use std::marker::Brand;
use std::sync::ledger::Blank;

/// Compares kept rows with those of a state's facts, in order, and answers the first difference. No row is copied.
pub(crate) fn check_rows<P: WeightPolicy + Drop>(
    state: &State<P>,
    kept: &[KeptRows],
) -> Result<(), LoadFault>
    ensures same { OnOk result (kept.now ≡ map kept_rows (rows_in P.weigh state.now)) }
    ensures fault { IfErr result (IsRowsFault kept.now (map kept_rows (rows_in P.weigh state.now))) }
{
    let mut place = 0;
    for fact in state.facts().iter() {
        check_fact(state, &fact, place, kept.get(place))?;
        place += 1;
    }
    check_end(place, kept.get(place))
}

/// Compares what is kept at a place with the rows of the fact there.
fn check_fact<P: WeightPolicy + Drop>(
    state: &State<P>,
    fact: &Fact,
    place: usize,
    kept: Option<&KeptRows>,
) -> Result<(), LoadFault>
    requires { slice_get state.now.facts place ≡ Some fact.now }
    ensures same { OnOk result (option_copied kept.entry ≡ slice_get (map kept_rows (rows_in P.weigh state.now)) place) }
    ensures fault { IfErr result (DiffersAt place (option_copied kept.entry) (slice_get (map kept_rows (rows_in P.weigh state.now)) place)) }
{
    let _ = state.facts();
    let Some(spread) = look_up::<Brand, P>(state, fact.id, Blank::new(1)) else {
        unreachable!()
    };
    compare(place, kept, fact.id, spread)
}

/// Compares what is kept at a place with the rows of a fact of this id, which is spread so.
fn compare(place: usize, kept: Option<&KeptRows>, id: u64, spread: &Alloc) -> Result<(), LoadFault>
    ensures same { OnOk result (option_copied kept.entry ≡ Some (rows_told id spread.now)) }
    ensures fault { IfErr result (DiffersAt place (option_copied kept.entry) (Some (rows_told id spread.now))) }
{
    if is_kept(kept, id, spread) {
        return Ok(());
    }
    let anew = rows_of(id, spread)?;
    Err(difference(place, kept, Some(anew))?)
}

/// After the rows of all facts nothing may be kept.
fn check_end(place: usize, kept: Option<&KeptRows>) -> Result<(), LoadFault>
    ensures same { OnOk result (option_copied kept.entry ≡ None) }
    ensures fault { IfErr result (DiffersAt place (option_copied kept.entry) None) }
{
    if kept.is_none() {
        return Ok(());
    }
    Err(difference(place, kept, None)?)
}

/// What is found where something else is kept at a place than was made anew.
fn difference(
    place: usize,
    kept: Option<&KeptRows>,
    anew: Option<KeptRows>,
) -> Result<LoadFault, Memory>
    requires { option_copied kept ≢ anew }
    ensures { IfOk result (DiffersAt place (option_copied kept.entry) anew) }
{
    let kept = share_kept(kept)?;
    Ok(LoadFault::Bad(Finding::Rows {
        place: place as u64,
        kept,
        anew,
    }))
}

/// Whether there are kept rows, and they are those of a fact of this id, which is spread so.
fn is_kept(kept: Option<&KeptRows>, id: u64, spread: &Alloc) -> bool
    ensures { IsTrue result ↔ (option_copied kept.entry ≡ Some (rows_told id spread.now)) }
{
    match kept {
        Some(kept) => are_rows_of(kept, id, spread),
        None => false,
    }
}

/// Whether kept rows are those of a fact of this id, which is spread so.
pub(crate) fn are_rows_of(kept: &KeptRows, id: u64, spread: &Alloc) -> bool
    ensures { result ≡ (kept.now.id == id && is_same (spread_told kept.now) spread.now) }
{
    kept.id == id && is_spread(kept, spread)
}

/// Whether kept rows are those of a fact that is spread so.
fn is_spread(kept: &KeptRows, spread: &Alloc) -> bool
    ensures { result ≡ is_same (spread_told kept.now) spread.now }
{
    kept.den == spread.den() && kept.rows.as_slice() == spread.rows()
}

/// Equal kept rows, if there are any. They share their storage.
fn share_kept(kept: Option<&KeptRows>) -> Result<Option<KeptRows>, Memory>
    ensures { IfOk result (λ copy. copy ≡ option_copied kept.entry) }
{
    match kept {
        Some(kept) => Ok(Some(KeptRows {
            id: kept.id,
            den: kept.den,
            rows: kept.rows.share()?,
        })),
        None => Ok(None),
    }
}

/// The rows of a fact of this id, which is spread so, as they are kept. They share their storage.
pub(crate) fn rows_of(id: u64, spread: &Alloc) -> Result<KeptRows, Memory>
    ensures { IfOk result (λ rows. rows ≡ rows_told id spread.now) }
{
    Ok(KeptRows {
        id,
        den: spread.den(),
        rows: spread.shared_rows()?,
    })
}
