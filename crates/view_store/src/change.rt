//! Changes of facts' shares, and the entries that they will set.
ghost use Rattle.std.specs.Prelude.{◌≡◌, ◌*◌};
ghost use Rattle.view_store.specs.Drafts.{share_of};

use cube_base::{Cols, PlainList, SharedPairs};
use cube_model::Region;
use group_sum::Terms;
use std::marker::Model;

/// What facts that have their rows between them bring for each unit of a row's weight.
#[derive(Clone, Copy, Debug)]
pub struct Share {
    /// How many facts they are: at least 1.
    pub facts: u64,
    /// The denominator of the weights.
    pub den: u64,
    /// The values of all these facts added up, one for each column but the count.
    pub cols: Cols,
}

impl Share {
    /// What a row adds to the count: its weight, once for each of the facts.
    pub(crate) fn units(&self, weight: u64) -> u128
        ensures { result ≡ weight * self.now.facts }
    {
        u128::from(weight) * u128::from(self.facts)
    }
}

/// Rows that are put or taken away for one fact, or at once for several that all have these rows: each a cell of a region and its
/// weight, over a denominator, to which the weights add up, with what the values of the facts add up to.
#[derive(Debug, Drop)]
pub struct ViewChange {
    /// Whether the rows are put; else they are taken away.
    pub put: bool,
    /// How many facts have the rows: at least 1.
    pub facts: u64,
    /// The denominator of the weights.
    pub den: u64,
    /// The region of the facts, in which all cells of the rows lie.
    pub region: Region,
    /// The cells with their weights.
    pub rows: SharedPairs,
    /// The values of all these facts added up, one for each column but the count.
    pub cols: Cols,
}

impl ViewChange {
    /// What its facts bring for each unit of weight.
    pub(crate) fn share(&self) -> Share
        ensures { result ≡ share_of self.now }
    {
        Share {
            facts: self.facts,
            den: self.den,
            cols: self.cols,
        }
    }
}

/// The codes of regions, each with the terms that it shall have, or None where it shall have no entry.
pub(crate) type Entries = PlainList<(u64, Option<Terms>)>;

/// The entries that changes make, for each view, ready to be set without memory. Contracts see them as a list for each view.
#[derive(Drop)]
pub struct ViewStage {
    views: PlainList<Entries>,
}

impl Model for ViewStage {
    ghost use Rattle.std.specs.Prelude.{List};
    ghost use Rattle.group_sum.specs.Terms.{TermList};
    ghost use Rattle.staged_map.specs.Staged.{Entries};

    ghost Value = { List (Entries TermList) };

    ghost view = { λ s. s.views };
}

impl ViewStage {
    /// What is staged for the views, in their order.
    pub(crate) fn of_views(views: PlainList<Entries>) -> Self
        ensures { result ≡ views }
    {
        ViewStage { views }
    }

    /// What is staged, view by view.
    pub(crate) fn into_views(self) -> Vec<Entries>
        ensures { result.items ≡ self }
    {
        let ViewStage { views } = self;
        views.into_vec()
    }
}
