//! Laws of terms merged, and examples that are computed from the definitions. The functions do nothing: the laws are
//! their contracts.
ghost use Rattle.std.specs.Prelude.{◌≡◌, [], ◌∷◌};
ghost use Rattle.cube_model.specs.Answer.{merge, merge_all};
ghost use Rattle.group_sum.specs.Examples.{first_facts, second_facts, third_facts, three_merged, two_merged};
ghost use Rattle.group_sum.specs.Merge.{IsDifference};
ghost use Rattle.group_sum.specs.MergeLaws.{MergeAssociates, MergeCancels, MergeCommutes, MergesNothing};

/// The order and the grouping in which terms are merged do not matter, nothing merged changes nothing, and what was
/// merged can be taken back.
pub fn merge_laws()
    ensures order { MergeCommutes }
    ensures grouping { MergeAssociates }
    ensures nothing { MergesNothing }
    ensures back { MergeCancels }
{}

/// Terms that were merged by hand: a denominator in both and one in each, three lists, and the first taken back.
pub fn worked_merges()
    ensures two { merge 1 first_facts second_facts ≡ two_merged }
    ensures three { merge_all 1 (first_facts ∷ second_facts ∷ third_facts ∷ []) ≡ three_merged }
    ensures back { IsDifference (record { columns = 2; terms = two_merged }) (record { columns = 2; terms = second_facts })
        (record { columns = 2; terms = first_facts }) }
{}
