//! How many facts an edit refreshes.
ghost use Rattle.std.specs.Prelude.{◌≡◌, length};
ghost use Rattle.cube_model.specs.Difference.{refreshed};
ghost use Rattle.cube_model.specs.Facts.{after};
ghost use Rattle.fact_records.specs.Shape.{width_of_all};
ghost use Rattle.cube_state.specs.Moves.{AreMoves};
ghost use Rattle.cube_state.specs.Regrouped.{IsRegrouped};
ghost use Rattle.cube_state.specs.State.{policy_in};

use crate::refreshing::own_pair;
use cell_weight::WeightPolicy;
use cube_state::{Moves, Regrouped, State};

/// How many facts an edit refreshes. It takes no memory, and no step, since the groups that are spread anew tell how many facts they have.
pub fn count_refreshed<P: WeightPolicy + Drop>(
    state: &State<P>,
    moves: &Moves,
    regrouped: &Regrouped,
) -> u64
    requires moves { AreMoves (policy_in P.weigh state.now) state.now.shape state.now.dims state.now.facts moves.now }
    requires regrouped { IsRegrouped (policy_in P.weigh state.now) (width_of_all state.now.shape.measures) state.now.dims moves.now.edit state.now.facts regrouped.now }
    ensures { result ≡ length (refreshed (policy_in P.weigh state.now) state.now.dims state.now.facts (after moves.now.edit state.now.facts)) }
{
    let _ = state.facts();
    match own_pair(state, moves, regrouped) {
        Some(_) => regrouped.others + 1,
        None => regrouped.others,
    }
}
