//! The patterns of depths at which the regions of imprecise facts lie.
ghost use Rattle.std.specs.Prelude.{◌≡◌, All, IfSome};
ghost use Rattle.fact_groups.specs.Edits.{given};
ghost use Rattle.region_algebra.specs.Space.{IsRegion};
ghost use Rattle.region_index.specs.Patterns.{KnowsPatterns};
ghost use Rattle.cube_state.specs.Knowing.{noted_fact, noted_given};

use crate::edited::given_fact;
use cube_model::{Edit, Fact};
use fact_records::FactList;
use region_algebra::Space;
use region_index::DepthPatterns;

/// The patterns of the imprecise facts' regions. It takes no memory.
pub fn patterns_of(space: &Space, facts: &FactList) -> DepthPatterns
    requires { All (λ f. IsRegion space.now f.region) facts.now.facts }
    ensures { KnowsPatterns space.now facts.now.facts result }
{
    let mut patterns = DepthPatterns::new();
    for fact in facts.iter() {
        note_fact(&mut patterns, space, &fact);
    }
    patterns
}

/// Makes the pattern of an edit's new fact known, where that is imprecise. It takes no memory.
pub fn note_given(patterns: &mut DepthPatterns, space: &Space, edit: &Edit)
    requires { IfSome (given edit.now) (λ f. IsRegion space.now f.region) }
    ensures { patterns.new ≡ noted_given space.now patterns.old edit.now }
{
    if let Some(fact) = given_fact(edit) {
        note_fact(patterns, space, &fact);
    }
}

/// Makes the pattern of a fact's region known, where it is imprecise.
fn note_fact(patterns: &mut DepthPatterns, space: &Space, fact: &Fact)
    requires { IsRegion space.now fact.now.region }
    ensures { patterns.new ≡ noted_fact space.now patterns.old fact.now }
{
    if space.cell_count(fact.region) > 1 {
        patterns.note(space, fact.region);
    }
}
