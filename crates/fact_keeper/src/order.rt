//! Entries in the order of their ids: whether they are, and where an entry stands among them.
ghost use Rattle.std.specs.Prelude.{◌≡◌, IfErr, IfOk, IsTrue, nat_lt};
ghost use Rattle.cube_base.specs.Search.{IsKeyAt, IsKeyGap};
ghost use Rattle.fact_keeper.specs.Order.{AscendsBy, IsInOrder};

use crate::Stored;
use crate::entry::Entry;

/// Whether the facts of a content ascend by their ids, and its rows too. A no costs time alone.
pub(crate) fn is_in_order(content: &Stored) -> bool
    ensures { IsTrue result → IsInOrder content.now }
{
    ascend(content.facts.as_slice()) && ascend(content.rows.as_slice())
}

/// Whether each entry has a smaller id than the next.
fn ascend<T: Entry>(entries: &[T]) -> bool
    ensures { IsTrue result → AscendsBy T.id_of entries.now }
{
    entries.is_sorted_by(|a, b| stands_before(a, b))
}

/// Whether an entry has a smaller id than another.
fn stands_before<T: Entry>(a: &T, b: &T) -> bool
    ensures { result ≡ nat_lt (T.id_of a.now) (T.id_of b.now) }
{
    a.id() < b.id()
}

/// Where the id of an entry stands among entries that ascend, or where it would.
pub(crate) fn search<T: Entry>(entries: &[T], entry: &T) -> Result<usize, usize>
    requires { AscendsBy T.id_of entries.now }
    ensures found { IfOk result (IsKeyAt T.id_of entry.now entries.now (T.id_of entry.now)) }
    ensures absent { IfErr result (IsKeyGap T.id_of entry.now entries.now (T.id_of entry.now)) }
{
    let id = entry.id();
    entries.binary_search_by_key(&id, |e| e.id())
}
