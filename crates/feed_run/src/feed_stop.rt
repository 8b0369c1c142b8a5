//! Why a feed is not followed further.
use cube_base::Code;

/// Why a feed is not followed further, by the first of its lines at which it is not what it must be.
#[derive(Clone, Copy, Debug, PartialEq, Eq)]
pub enum FeedStop {
    /// A line breaks the form of a feed, or what it says is refused: which, counted from 1, and why.
    Bad { line: u64, code: Code },
    /// The number of a batch is not the next one.
    Order { want: u64, got: u64 },
    /// The base is not what the store holds: its schema, or its facts from this place on, counted from 0.
    Base { place: Option<u64> },
    /// The lines after a batch line are not those of the follower's own batch: its number, and the first line that is
    /// not.
    Differs { number: u64, line: u64 },
}
