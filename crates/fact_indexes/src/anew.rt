//! What is kept of facts, made anew from all of them.
ghost use Rattle.std.specs.Prelude.{◌≡◌, IfErr, IfOk};
ghost use Rattle.fact_records.specs.Shape.{policy_over};
ghost use Rattle.fact_records.specs.Valid.{AreValid};
ghost use Rattle.fact_indexes.specs.Anew.{AreEmpty, IsTooMany, cuts_of, kept_of, kept_with};
ghost use Rattle.fact_indexes.specs.Kept.{IsState};

use crate::tally::{Tally, count_all};
use crate::viewing::views_of;
use crate::{FactsKept, TooMany};
use cell_weight::WeightPolicy;
use fact_records::{FactList, Shape};
use region_algebra::Space;
use std::alloc::Global;
use view_store::Views;

/// The facts with all that is kept of them, made in one go: each region that facts have is spread once. The views are without
/// entries, over the columns of the measures. `Rows` is answered exactly where the facts have more than 2^21 rows, with their number,
/// unless it runs out of memory.
pub fn keep_all<P: WeightPolicy>(
    alloc: Global,
    space: &Space,
    shape: &Shape,
    policy: &P,
    views: Views,
    facts: FactList,
) -> Result<FactsKept, TooMany>
    requires valid { AreValid shape.now space.now facts.facts }
    requires views { AreEmpty shape.now space.now views }
    ensures facts { IfOk result (λ all. all.facts.facts ≡ facts.facts) }
    ensures kept { IfOk result (λ all. IsState (policy_over (P.weigh policy.now) shape.now) shape.now space.now (cuts_of views) facts.facts (kept_of all)) }
    ensures fault { IfErr result (IsTooMany (policy_over (P.weigh policy.now) shape.now) space.now facts.facts) }
{
    let (tally, views) = keep_beside(alloc, space, shape, policy, views, &facts)?;
    Ok(all_of(facts, tally, views))
}

/// What is kept of facts beside them.
fn keep_beside<P: WeightPolicy>(
    alloc: Global,
    space: &Space,
    shape: &Shape,
    policy: &P,
    views: Views,
    facts: &FactList,
) -> Result<(Tally, Views), TooMany>
    requires valid { AreValid shape.now space.now facts.now.facts }
    requires views { AreEmpty shape.now space.now views }
    ensures kept { IfOk result (λ kept. IsState (policy_over (P.weigh policy.now) shape.now) shape.now space.now (cuts_of views) facts.now.facts (kept_with facts.now.spare kept.0 kept.1)) }
    ensures fault { IfErr result (IsTooMany (policy_over (P.weigh policy.now) shape.now) space.now facts.now.facts) }
{
    let _ = space.dims();
    let tally = count_all(alloc, space, shape, policy, facts)?;
    let views = views_of(alloc, space, shape, policy, facts, &tally.groups, views)?;
    Ok((tally, views))
}

/// The facts, with what is kept of them beside.
fn all_of(facts: FactList, tally: Tally, views: Views) -> FactsKept
    ensures facts { result.facts ≡ facts }
    ensures kept { kept_of result ≡ kept_with facts.spare tally views }
{
    let Tally {
        stats,
        index,
        groups,
        rows,
    } = tally;
    FactsKept {
        facts,
        stats,
        index,
        groups,
        views,
        rows,
    }
}
