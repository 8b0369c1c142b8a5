//! Feeds whose ends were worked out by hand. The functions do nothing: each law is the contract.
ghost use Rattle.std.specs.Prelude.{◌≡◌, ◌∷◌, ◌++◌, [], None, Some, codes, length, map, take};
ghost use Rattle.cube_base.specs.declared.code.Code.TheVariants as code;
ghost use Rattle.feed_run.specs.declared.feed_stop.FeedStop.TheVariants as feed_stop;
ghost use Rattle.feed_run.specs.FollowExamples.{batch, batch_with, fact, head, line, other_store, put_anywhere, refused_behind, row_of_b, rows_of_2, small_base_lines, small_feed, store_with};
ghost use Rattle.feed_run.specs.Following.{applied_at, followed, refusal_of};

/// A feed of a base with one fact and of one batch, over a store with nothing in it, and over one that holds the base. It ends otherwise
/// where the batch has another number, where the weight is another one, where its last line is missing, and over other stores.
pub fn worked_feed()
    ensures taken { refusal_of None (small_feed (codes "1") (codes "1")) ≡ None }
    ensures commits { length (followed None (small_feed (codes "1") (codes "1"))).batches ≡ 2 }
    ensures applied { applied_at (followed None (small_feed (codes "1") (codes "1"))).place ≡ 1 }
    ensures over_the_base { refusal_of (store_with 1) (small_feed (codes "1") (codes "1")) ≡ None }
    ensures commits_one { length (followed (store_with 1) (small_feed (codes "1") (codes "1"))).batches ≡ 1 }
    ensures order { refusal_of None (small_feed (codes "2") (codes "1")) ≡ Some (feed_stop.Order 1 2) }
    ensures weight { refusal_of None (small_feed (codes "1") (codes "2")) ≡ Some (feed_stop.Differs 1 13) }
    ensures cut { refusal_of None (take 13 (small_feed (codes "1") (codes "1"))) ≡ Some (feed_stop.Bad 14 code.Cut) }
    ensures base_alone { length (followed None (take 13 (small_feed (codes "1") (codes "1")))).batches ≡ 1 }
    ensures other_fact { refusal_of (store_with 2) (small_feed (codes "1") (codes "1")) ≡ Some (feed_stop.Base (Some 0)) }
    ensures nothing_stored { (followed (store_with 2) (small_feed (codes "1") (codes "1"))).batches ≡ [] }
    ensures other_schema { refusal_of other_store small_base_lines ≡ Some (feed_stop.Base None) }
{}

/// What is refused of a base: its order, its facts, and where it ends.
pub fn refused_bases()
    ensures no_input { refusal_of None [] ≡ Some (feed_stop.Bad 1 code.Cut) }
    ensures version { refusal_of None (line (codes "feed" ∷ codes "2" ∷ []) ∷ []) ≡ Some (feed_stop.Bad 1 code.Number) }
    ensures carriage_return { refusal_of None ((line (codes "feed" ∷ codes "1" ∷ []) ++ 13 ∷ []) ∷ []) ≡ Some (feed_stop.Bad 1 code.Text) }
    ensures no_feed { refusal_of None (line (codes "cube" ∷ codes "1" ∷ []) ∷ []) ≡ Some (feed_stop.Bad 1 code.Order) }
    ensures no_end { refusal_of None (take 7 head) ≡ Some (feed_stop.Bad 8 code.Cut) }
    ensures schema { refusal_of None (take 2 head ++ codes "junk" ∷ codes "end" ∷ []) ≡ Some (feed_stop.Bad 3 code.Order) }
    ensures empty_line { refusal_of None (head ++ [] ∷ []) ≡ Some (feed_stop.Bad 9 code.Order) }
    ensures twice { refusal_of None (head ++ fact (codes "2") (codes "b") ∷ fact (codes "2") (codes "b") ∷ []) ≡ Some (feed_stop.Bad 10 code.Exists) }
    ensures below { refusal_of None (head ++ fact (codes "2") (codes "b") ∷ fact (codes "1") (codes "b") ∷ []) ≡ Some (feed_stop.Bad 10 code.Exists) }
    ensures batch_first { refusal_of None (head ++ batch (codes "1") [] ∷ []) ≡ Some (feed_stop.Bad 9 code.Order) }
    ensures node { refusal_of None (head ++ fact (codes "1") (codes "x") ∷ []) ≡ Some (feed_stop.Bad 9 code.Node) }
{}

/// What is refused after a base: batches that tell nothing that can be done, and lines that are not those of a batch.
pub fn refused_batches()
    ensures none { refused_behind [] ≡ None }
    ensures skipped { refused_behind (batch (codes "1") (codes "#x" ∷ []) ∷ []) ≡ Some (feed_stop.Bad 11 code.Command) }
    ensures asks { refused_behind (batch (codes "1") (codes "count" ∷ codes "a" ∷ []) ∷ []) ≡ Some (feed_stop.Bad 11 code.Command) }
    ensures fields { refused_behind (batch (codes "1") [] ∷ []) ≡ Some (feed_stop.Bad 11 code.Fields) }
    ensures order_first { refused_behind (batch (codes "0") (codes "insert" ∷ []) ∷ []) ≡ Some (feed_stop.Order 1 0) }
    ensures number { refused_behind (batch (codes "01") (codes "insert" ∷ []) ∷ []) ≡ Some (feed_stop.Bad 11 code.Number) }
    ensures exists { refused_behind (batch (codes "1") (codes "insert" ∷ codes "1" ∷ codes "b" ∷ []) ∷ []) ≡ Some (feed_stop.Bad 11 code.Exists) }
    ensures a_row_more { refused_behind (batch (codes "1") put_anywhere ∷ rows_of_2 ∷ row_of_b (codes "1") ∷ row_of_b (codes "1") ∷ codes "done" ∷ []) ≡ Some (feed_stop.Differs 1 14) }
    ensures a_comment { refused_behind (batch (codes "1") put_anywhere ∷ codes "#" ∷ []) ≡ Some (feed_stop.Differs 1 12) }
    ensures again { refused_behind (batch_with (codes "1") (codes "1") ++ batch_with (codes "1") (codes "1")) ≡ Some (feed_stop.Order 2 1) }
{}
