//! New facts beside those of a state, kept all at once.
ghost use Rattle.std.specs.Prelude.{◌≡◌, ◌≤◌, IfErr, IfOk, length};
ghost use Rattle.fact_records.specs.New.{AreNew, put_all};
ghost use Rattle.fact_indexes.specs.Anew.{IsTooMany};
ghost use Rattle.cube_state.specs.Sets.{AreAllFor};
ghost use Rattle.cube_state.specs.State.{policy_in};

use crate::State;
use cell_weight::WeightPolicy;
use cube_base::Memory;
use cube_model::Fact;
use fact_indexes::{FactsKept, TooMany, keep_all};
use fact_records::{FactList, copy_with_room};
use std::alloc::Global;

impl<P: WeightPolicy + Drop> State<P> {
    /// The facts with new ones, and all that is kept of them, for this state: each region that facts have is spread once. In their
    /// order, each new fact must be one that a put accepts over the state's facts and those before it, the number of rows aside.
    /// `Rows` is answered exactly where they would have more than 2^21 rows, with their number, unless it runs out of memory.
    pub fn kept_with(&self, new: &[Fact]) -> Result<FactsKept, TooMany>
        requires { AreNew self.now.shape self.now.dims self.now.facts new.now }
        ensures facts { IfOk result (λ all. all.facts.facts ≡ put_all new.now self.now.facts) }
        ensures kept { IfOk result (AreAllFor P.weigh self.now) }
        ensures fault { IfErr result (IsTooMany (policy_in P.weigh self.now) self.now.dims (put_all new.now self.now.facts)) }
    {
        let _ = self.shape.columns();
        let _ = self.views.columns();
        let facts = with_new(self.alloc, &self.facts, new)?;
        let views = self.views.without_entries()?;
        keep_all(
            self.alloc,
            &self.space,
            &self.shape,
            &self.policy,
            views,
            facts,
        )
    }
}

/// The facts with new ones put, in order.
fn with_new(alloc: Global, facts: &FactList, new: &[Fact]) -> Result<FactList, Memory>
    ensures { IfOk result (λ all. all.facts ≡ put_all new.now facts.now.facts) }
{
    let mut all = copy_with_room(alloc, facts, new.len() as u64)?;
    put_new(&mut all, new);
    Ok(all)
}

/// Puts facts in the order in which they were given.
fn put_new(all: &mut FactList, new: &[Fact])
    requires { length new.now ≤ all.old.spare }
    ensures { all.new.facts ≡ put_all new.now all.old.facts }
{
    for fact in new {
        let _ = all.put(*fact);
    }
}
