//! Laws of findings and of mending, and examples that are computed from the definitions. The functions do nothing: each law is the contract.
ghost use Rattle.std.specs.Prelude.{◌≡◌, [], ◌∷◌, List, None, Some, map};
ghost use Rattle.cube_base.specs.declared.code.Code.TheVariants as code;
ghost use Rattle.cube_model.specs.Allocation.{Policy, by_count};
ghost use Rattle.cube_model.specs.Tree.{Dimension};
ghost use Rattle.fact_keeper.specs.Batch.{apply_batch};
ghost use Rattle.fact_keeper.specs.declared.content.Stored.{Stored};
ghost use Rattle.fact_records.specs.Examples.{one_number};
ghost use Rattle.fact_records.specs.Shape.{ShapeValue};
ghost use Rattle.region_algebra.specs.Examples.{small_space};
ghost use Rattle.store_audit.specs.Examples.{batch_of, content_of, facts_of_ids, kept_at, over_two, two_facts, whole_at};
ghost use Rattle.store_audit.specs.Mending.{IsMendable, changed_by, mended, mended_batch};
ghost use Rattle.store_audit.specs.Sound.{IsFinding, IsSound, fact_fault, fault_at};
ghost use Rattle.store_audit.specs.declared.finding.Finding.{Finding};
ghost use Rattle.store_audit.specs.declared.finding.Finding.TheVariants as finding;

/// Two findings of one content are the same, and a sound content has none.
pub fn one_finding()
    ensures same { (policy : Policy) (shape : ShapeValue) (dims : List Dimension) (content : Stored) (a b : Finding)
        → IsFinding policy shape dims content a → IsFinding policy shape dims content b → a ≡ b }
    ensures none { (policy : Policy) (shape : ShapeValue) (dims : List Dimension) (content : Stored) (found : Finding)
        → IsSound policy shape dims content → IsFinding policy shape dims content found → ⊥ }
{}

/// Kept facts that were judged by hand. An id of 0, and one that is not above the one before, is refused at its place, also where a
/// later one is refused too. The first of several reasons is reported.
pub fn worked_facts()
    ensures ascending { map (fault_at one_number small_space (facts_of_ids (1 ∷ 2 ∷ 5 ∷ []))) (0 ∷ 1 ∷ 2 ∷ 3 ∷ []) ≡ None ∷ None ∷ None ∷ None ∷ [] }
    ensures zero { IsFinding by_count one_number small_space (content_of (facts_of_ids (0 ∷ 2 ∷ [])) []) (finding.Fact 0 0 code.Id) }
    ensures repeated { IsFinding by_count one_number small_space (content_of (facts_of_ids (1 ∷ 2 ∷ 2 ∷ [])) []) (finding.Fact 2 2 code.Id) }
    ensures reasons { map (fact_fault one_number small_space 1048576 3) (kept_at 3 (2 ∷ 7 ∷ []) 1000000000001 ∷ kept_at 4 (2 ∷ 7 ∷ []) 1000000000001 ∷ kept_at 4 (2 ∷ 1 ∷ []) 1000000000001 ∷ kept_at 4 (2 ∷ 1 ∷ []) 5 ∷ [])
        ≡ Some code.Id ∷ Some code.Node ∷ Some code.Value ∷ Some code.Facts ∷ [] }
{}

/// Kept rows that were compared by hand with those of two facts on the first cell. They are as they must be, or differ where a
/// cell or a denominator is another, where the last rows are missing, and where there are more.
pub fn worked_rows()
    ensures sound { IsSound by_count one_number small_space (content_of two_facts (whole_at 1 0 ∷ whole_at 2 0 ∷ [])) }
    ensures cell { IsFinding by_count one_number small_space (content_of two_facts (whole_at 1 0 ∷ whole_at 2 1 ∷ [])) (finding.Rows 1 (Some (whole_at 2 1)) (Some (whole_at 2 0))) }
    ensures den { IsFinding by_count one_number small_space (content_of two_facts (over_two 1 0 ∷ whole_at 2 0 ∷ [])) (finding.Rows 0 (Some (over_two 1 0)) (Some (whole_at 1 0))) }
    ensures missing { IsFinding by_count one_number small_space (content_of two_facts (whole_at 1 0 ∷ [])) (finding.Rows 1 None (Some (whole_at 2 0))) }
    ensures more { IsFinding by_count one_number small_space (content_of two_facts (whole_at 1 0 ∷ whole_at 2 0 ∷ whole_at 3 0 ∷ [])) (finding.Rows 2 (Some (whole_at 3 0)) None) }
{}

/// Where a content's facts are sound, the batch of mending leaves the content with the rows that they make, which is sound. It changes
/// nothing exactly where the content was sound.
pub fn mending_makes_sound()
    ensures applied { (policy : Policy) (shape : ShapeValue) (dims : List Dimension) (content : Stored)
        → IsMendable policy shape dims content → apply_batch (mended_batch policy dims content) content ≡ mended policy dims content }
    ensures sound { (policy : Policy) (shape : ShapeValue) (dims : List Dimension) (content : Stored)
        → IsMendable policy shape dims content → IsSound policy shape dims (mended policy dims content) }
    ensures needless { (policy : Policy) (shape : ShapeValue) (dims : List Dimension) (content : Stored)
        → IsSound policy shape dims content → changed_by (mended_batch policy dims content) ≡ 0 }
    ensures was_sound { (policy : Policy) (shape : ShapeValue) (dims : List Dimension) (content : Stored)
        → IsMendable policy shape dims content → changed_by (mended_batch policy dims content) ≡ 0 → IsSound policy shape dims content }
{}

/// Batches of mending that were worked out by hand, of two facts on the first cell. Rows that are kept as they must be
/// are left. Others are put, and so are missing ones. Rows of no fact are deleted, each entry with its id. Where the
/// entries do not ascend, or an id stands twice, the rows of all facts are put.
pub fn worked_mending()
    ensures sound { mended_batch by_count small_space (content_of two_facts (whole_at 1 0 ∷ whole_at 2 0 ∷ [])) ≡ batch_of [] [] }
    ensures cell { mended_batch by_count small_space (content_of two_facts (whole_at 1 0 ∷ whole_at 2 1 ∷ [])) ≡ batch_of [] (whole_at 2 0 ∷ []) }
    ensures den { mended_batch by_count small_space (content_of two_facts (over_two 1 0 ∷ whole_at 2 0 ∷ [])) ≡ batch_of [] (whole_at 1 0 ∷ []) }
    ensures missing { mended_batch by_count small_space (content_of two_facts (whole_at 2 0 ∷ [])) ≡ batch_of [] (whole_at 1 0 ∷ []) }
    ensures stray { mended_batch by_count small_space (content_of two_facts (whole_at 1 0 ∷ whole_at 2 0 ∷ whole_at 3 0 ∷ [])) ≡ batch_of (3 ∷ []) [] }
    ensures order { mended_batch by_count small_space (content_of two_facts (whole_at 2 0 ∷ whole_at 1 0 ∷ [])) ≡ batch_of [] (whole_at 1 0 ∷ whole_at 2 0 ∷ []) }
    ensures twice { mended_batch by_count small_space (content_of two_facts (whole_at 1 0 ∷ whole_at 1 1 ∷ whole_at 2 0 ∷ [])) ≡ batch_of [] (whole_at 1 0 ∷ whole_at 2 0 ∷ []) }
    ensures strays { mended_batch by_count small_space (content_of two_facts (whole_at 9 0 ∷ whole_at 0 0 ∷ whole_at 9 1 ∷ whole_at 2 0 ∷ [])) ≡ batch_of (9 ∷ 0 ∷ 9 ∷ []) (whole_at 1 0 ∷ whole_at 2 0 ∷ []) }
{}
