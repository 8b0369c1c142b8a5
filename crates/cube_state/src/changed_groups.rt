//! The groups after an edit.

use crate::Group;
use cube_base::{Ids, PlainList};

/// The groups that an edit changes or may change, each by its code, with None where no fact is left; the codes of the regions that
/// have facts before and after it and are spread otherwise; how many facts have these regions, but for the one of the edit's id; and
/// the number of rows after it.
#[derive(Drop)]
pub struct Regrouped {
    pub groups: PlainList<(u64, Option<Group>)>,
    pub spread_anew: Ids,
    pub others: u64,
    pub rows: u64,
}
