//! Laws of what a leader tells. The functions do nothing: each law is the contract.
ghost use Rattle.std.specs.Prelude.{◌≡◌, List, ℕ, [], ◌∷◌, codes, map};
ghost use Rattle.text_lines.specs.Pieces.{front};
ghost use Rattle.schema_text.specs.Schema.{weigh_of};
ghost use Rattle.row_feed.specs.Examples.{repair, repairs, tabbed};
ghost use Rattle.row_feed.specs.FeedText.{base_lines, feed_bytes};
ghost use Rattle.feed_run.specs.Leading.{Leader, leading_texts, texts_of};

/// Lines are told as their first 4,097 bytes are.
pub fn lines_are_told_as_their_fronts_are()
    ensures { (leader : Leader) (lines : List (List ℕ)) → texts_of leader (map front lines) ≡ texts_of leader lines }
{}

/// The texts of a leader over three repairs, worked out by hand. The repair that is somewhere in Texas is spread over the two cities; it
/// is refused where it is inserted again. A comment and a question have no text either, and the withdrawal is written
/// as the second batch.
pub fn worked_texts()
    ensures { leading_texts (weigh_of repairs.policy) repairs (record { dims = repairs.dims; facts = repair 1 2 100 ∷ repair 2 2 300 ∷ repair 3 3 50 ∷ [] })
        (map tabbed (codes "insert|4|TX|Camry|600" ∷ codes "# once more" ∷ codes "insert|4|TX|Camry|600" ∷ codes "count|TX|All" ∷ codes "withdraw|4" ∷ []))
        ≡ feed_bytes (base_lines repairs (repair 1 2 100 ∷ repair 2 2 300 ∷ repair 3 3 50 ∷ []))
        ∷ feed_bytes (map tabbed (codes "batch|1|insert|4|TX|Camry|600" ∷ codes "rows|4|3|2" ∷ codes "row|Austin|Camry|2" ∷ codes "row|Dallas|Camry|1" ∷ codes "done" ∷ []))
        ∷ [] ∷ [] ∷ [] ∷ feed_bytes (map tabbed (codes "batch|2|withdraw|4" ∷ codes "done" ∷ [])) ∷ [] }
{}
