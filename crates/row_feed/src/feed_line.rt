//! What a line of a feed says.
use cube_base::Code;
use cube_model::Fact;
use script_text::Line;

/// What a line of a feed says, where it stands neither in the schema nor after the line of a batch.
#[derive(Debug, Drop)]
pub enum FeedLine {
    /// A fact of the base.
    Fact(Fact),
    /// That these are all facts of the base.
    Based,
    /// A batch: its number, and the edit or the growth that it tells, or why it tells none.
    Batch {
        number: u64,
        line: Result<Line, Code>,
    },
    /// Something else: the first field is none of `fact`, `based` and `batch`.
    Other,
}
