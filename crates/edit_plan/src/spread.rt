//! How facts are spread before an edit and after it.
ghost use Rattle.std.specs.Prelude.{◌≡◌};
ghost use Rattle.std.specs.Option.{option_copied, option_map};
ghost use Rattle.fact_groups.specs.Groups.{group_at};
ghost use Rattle.fact_records.specs.Shape.{width_of_all};
ghost use Rattle.staged_map.specs.Staged.{staged_entry};
ghost use Rattle.cube_state.specs.State.{policy_in};
ghost use Rattle.edit_plan.specs.Refreshing.{AscendByCode, group_now, is_same_spread};

use alloc_rows::Alloc;
use cell_weight::WeightPolicy;
use cube_state::{Group, Regrouped, State};

/// How the facts of a code are spread after the edit that regroups them so, None where there are none.
pub fn spread_now<'a, P: WeightPolicy + Drop>(
    state: &'a State<P>,
    regrouped: &'a Regrouped,
    code: u64,
) -> Option<&'a Alloc>
    requires { AscendByCode regrouped.now.groups }
    ensures { option_copied result ≡ option_map (λ g. g.spread) (group_now regrouped.now.groups (group_at (policy_in P.weigh state.now) (width_of_all state.now.shape.measures) state.now.dims state.now.facts) code) }
{
    match entry(regrouped, code) {
        Some(group) => spread_of(group),
        None => state.spread_at(code),
    }
}

/// The group of a code after the edit, if it may be another one than before: None in it where no fact is left.
fn entry(regrouped: &Regrouped, code: u64) -> Option<&Option<Group>>
    requires { AscendByCode regrouped.now.groups }
    ensures { option_copied result ≡ staged_entry regrouped.now.groups code }
{
    let groups = regrouped.groups.as_slice();
    match groups.binary_search_by_key(&code, |entry| entry.0) {
        Ok(at) => Some(&groups[at].1),
        Err(_) => None,
    }
}

/// How a group is spread, if there is one.
fn spread_of(group: &Option<Group>) -> Option<&Alloc>
    ensures { option_copied result ≡ option_map (λ g. g.spread) group.now }
{
    match group {
        Some(group) => Some(&group.spread),
        None => None,
    }
}

/// Whether both are there and the same.
pub fn is_same_spread(before: Option<&Alloc>, now: Option<&Alloc>) -> bool
    ensures { result ≡ is_same_spread (option_copied before.entry) (option_copied now.entry) }
{
    match (before, now) {
        (Some(a), Some(b)) => a.den() == b.den() && a.rows() == b.rows(),
        _ => false,
    }
}
