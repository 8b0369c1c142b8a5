//! Laws of a follower of a leader's feed. The functions do nothing: each law is the contract.
ghost use Rattle.std.specs.Prelude.{◌≡◌, ◌≢◌, ◌∷◌, ◌++◌, ◌^◌, ◌<◌, ℕ, [], IsOkAnd, List, None, Some, length, take};
ghost use Rattle.cube_cli.specs.Doing.{base_in, feed_lines};
ghost use Rattle.cube_cli.specs.End.{SaysOf};
ghost use Rattle.cube_cli.specs.SchemaAlone.{schema_alone};
ghost use Rattle.cube_cli.specs.Store.{IsSoundContent, batches_over};
ghost use Rattle.cube_cli.specs.declared.end.End.TheVariants as ends;
ghost use Rattle.cube_cli.specs.declared.end.End.{End};
ghost use Rattle.fact_keeper.specs.Batch.{empty_content};
ghost use Rattle.fact_keeper.specs.declared.content.Stored.{Stored};
ghost use Rattle.feed_law.specs.Commands.{FOLLOWS, HasFollowed, HasLed, LEADS};
ghost use Rattle.feed_law.specs.Feeds.{FollowsAll, Tells, canonical, feed_of};
ghost use Rattle.feed_run.specs.Following.{base_batch, followed};
ghost use Rattle.schema_text.specs.Schema.{SchemaValue};
ghost use Rattle.schema_text.specs.SchemaText.{schema_text};
ghost use Rattle.script_run.specs.Kept.{apply_all};
ghost use Rattle.script_run.specs.Seen.{SeenAll};
ghost use Rattle.store_law.specs.Holds.{content_after};
ghost use Rattle.store_audit.specs.Sound.{facts_told};
ghost use Rattle.text_lines.specs.Text.{lines_of};

/// A feed makes its leader's store. A leader does lines over a sound store, and a follower takes the feed of the first so many of them over
/// an empty one. That feed ends with the base, or with a batch. The follower refuses nothing. It commits the base, and then the batches that
/// the leader committed. Its store is sound then, and what the leader's is, with the one text of the schema. A leader's store that begins
/// with that text always has it.
pub fn a_feed_makes_its_leaders_store()
    ensures follows { (schema : SchemaValue) (content : Stored) (lines : List (List ℕ)) (n : ℕ) → Tells schema content → n < 2 ^ 64
        → FollowsAll None (feed_lines (feed_of schema content lines n)) (base_batch schema (facts_told content) ∷ batches_over content (take n lines)) (length (batches_over content (take n lines))) }
    ensures makes { (schema : SchemaValue) (content : Stored) (lines : List (List ℕ)) (n : ℕ) → Tells schema content → n < 2 ^ 64
        → apply_all (followed None (feed_lines (feed_of schema content lines n))).batches empty_content ≡ canonical (content_after content (take n lines)) }
    ensures sound { (schema : SchemaValue) (content : Stored) (lines : List (List ℕ)) (n : ℕ) → Tells schema content → n < 2 ^ 64
        → IsSoundContent (apply_all (followed None (feed_lines (feed_of schema content lines n))).batches empty_content) }
    ensures same { (schema : SchemaValue) (content : Stored) (lines : List (List ℕ)) → Tells schema content → content.schema ≡ schema_text schema
        → canonical (content_after content lines) ≡ content_after content lines }
{}

/// A feed goes on over its base. So it is over a sound store of the schema and the facts that the leader's store begins with: a follower
/// refuses nothing, and commits the batches that the leader committed. Its store tells then what the leader's tells.
pub fn a_feed_goes_on_over_its_base()
    ensures follows { (schema : SchemaValue) (content there : Stored) (lines : List (List ℕ)) (n : ℕ) → Tells schema content → Tells schema there → facts_told there ≡ facts_told content → n < 2 ^ 64
        → FollowsAll (base_in there) (feed_lines (feed_of schema content lines n)) (batches_over content (take n lines)) (length (batches_over content (take n lines))) }
    ensures makes { (schema : SchemaValue) (content there : Stored) (lines : List (List ℕ)) (n : ℕ) → Tells schema content → Tells schema there → facts_told there ≡ facts_told content → n < 2 ^ 64
        → apply_all (followed (base_in there) (feed_lines (feed_of schema content lines n))).batches there ≡ content_after there (take n lines) }
    ensures same { (schema : SchemaValue) (content there : Stored) (lines : List (List ℕ)) → Tells schema content → Tells schema there → facts_told there ≡ facts_told content
        → canonical (content_after there lines) ≡ canonical (content_after content lines) }
{}

/// And so it is with the program. What `lead` writes of a sound store, once it is finished, is the feed of all its lines. Where `follow`
/// reads the lines of it, or those of the feed of the first lines alone, it refuses none. The LF of the last may be missing. If no fault
/// comes and the input is not too long, it is finished or runs out of memory. Once it is finished, an empty store holds what the leader's
/// does, with the one text of the schema. A store that tells what the leader's told at the start has the leader's batches.
pub fn what_is_led_is_followed()
    ensures leads { (seen : SeenAll) (refused : ℕ) (content : Stored) (input : List ℕ) → SaysOf (Some LEADS) seen (ends.Finished refused)
        → seen.keeper.told.content ≡ Some content → seen.source.left ≡ Some input → IsOkAnd (schema_alone content.schema) (λ schema. HasLed schema content (lines_of input) seen) }
    ensures begins { (schema : SchemaValue) (content : Stored) (lines : List (List ℕ)) (n : ℕ) (text : List ℕ) (seen : SeenAll) (end : End) → Tells schema content → n < 2 ^ 64
        → lines_of text ≡ lines_of (feed_of schema content lines n)
        → seen.keeper.told.content ≡ Some empty_content → seen.source.left ≡ Some text → SaysOf (Some FOLLOWS) seen end
        → HasFollowed (canonical (content_after content (take n lines))) seen end }
    ensures goes_on { (schema : SchemaValue) (content there : Stored) (lines : List (List ℕ)) (n : ℕ) (text : List ℕ) (seen : SeenAll) (end : End) → Tells schema content → Tells schema there
        → facts_told there ≡ facts_told content → n < 2 ^ 64 → lines_of text ≡ lines_of (feed_of schema content lines n)
        → seen.keeper.told.content ≡ Some there → seen.source.left ≡ Some text → SaysOf (Some FOLLOWS) seen end
        → HasFollowed (content_after there (take n lines)) seen end }
    ensures unended { (text : List ℕ) (byte : ℕ) → byte ≢ 10 → lines_of (text ++ byte ∷ []) ≡ lines_of (text ++ byte ∷ 10 ∷ []) }
{}
