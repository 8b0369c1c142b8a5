//! Examples that are computed from the definitions. The function does nothing: each law is the contract.
ghost use Rattle.std.specs.Prelude.{◌≡◌, [], ◌∷◌, None, Some};
ghost use Rattle.cube_base.specs.declared.code.Code.TheVariants as code;
ghost use Rattle.fact_records.specs.Examples.{fact_at};
ghost use Rattle.fact_records.specs.declared.fact_seq.BadRecord.{BadRecord};
ghost use Rattle.fact_records.specs.SequenceExamples.{new_facts, refused_over_four, repeated_facts, unreadable};

/// Files over four facts of ids 1 to 4. Facts may come in any order. The first that is refused is reported by its
/// place, of which the header has 0. It comes before the record that could not be read.
pub fn worked_sequences()
    ensures none { refused_over_four [] None ≡ None }
    ensures new { refused_over_four new_facts None ≡ None }
    ensures repeated { refused_over_four repeated_facts None ≡ Some (record { index = 4; code = code.Exists }) }
    ensures kept { refused_over_four (fact_at 4 (0 ∷ 0 ∷ []) 7 ∷ repeated_facts) None ≡ Some (record { index = 1; code = code.Exists }) }
    ensures large { refused_over_four (fact_at 6 (0 ∷ 0 ∷ []) 1000000000001 ∷ repeated_facts) None ≡ Some (record { index = 1; code = code.Value }) }
    ensures fact_first { refused_over_four repeated_facts (Some unreadable) ≡ Some (record { index = 4; code = code.Exists }) }
    ensures unreadable_last { refused_over_four new_facts (Some unreadable) ≡ Some unreadable }
{}
