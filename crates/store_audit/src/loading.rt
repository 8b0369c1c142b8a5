//! Loading a stored content.
ghost use Rattle.std.specs.Prelude.{◌≡◌, All, IfErr, IfOk, OnOk, length, map};
ghost use Rattle.fact_records.specs.Shape.{policy_over};
ghost use Rattle.store_audit.specs.Sound.{IsLoadFault, IsSound, facts_told};

use crate::LoadFault;
use crate::facts::read_facts;
use crate::rows::check_rows;
use cell_weight::WeightPolicy;
use cube_state::State;
use fact_keeper::Stored;
use fact_records::Shape;
use region_algebra::{Space, ViewDef};
use std::alloc::Global;

/// The state of the facts of a content over a space and measures, with these views, each of which has a depth for each
/// dimension. What is not sound in the facts and rows is answered by what is found first; the text of the schema is not looked at. Each
/// region that facts have is spread once.
pub fn load_state<P: WeightPolicy + Drop>(
    alloc: Global,
    space: Space,
    shape: Shape,
    policy: P,
    defs: &[ViewDef],
    stored: &Stored,
) -> Result<State<P>, LoadFault>
    requires { All (λ def. length def.depths ≡ length space) defs.now }
    ensures policy { IfOk result (λ state. state.policy ≡ policy) }
    ensures dims { IfOk result (λ state. state.dims ≡ space) }
    ensures shape { IfOk result (λ state. state.shape ≡ shape) }
    ensures cuts { IfOk result (λ state. state.cuts ≡ map (λ def. def.depths) defs.now) }
    ensures facts { IfOk result (λ state. state.facts ≡ facts_told stored.now) }
    ensures sound { OnOk result (IsSound (policy_over (P.weigh policy) shape) shape space stored.now) }
    ensures fault { IfErr result (IsLoadFault (policy_over (P.weigh policy) shape) shape space stored.now) }
{
    let facts = read_facts(alloc, &space, &shape, stored.facts.as_slice())?;
    let state = State::of_facts(alloc, space, shape, policy, defs, facts)?;
    check_rows(&state, stored.rows.as_slice())?;
    Ok(state)
}
