//! The texts of a feed: the base, a batch for each edit or growth, and what a line says.
#![tactic(auto)]

mod base;
mod batch;
mod batch_lines;
mod changes;
mod feed_line;
mod laws;
mod reader;

pub use base::write_base;
pub use batch::write_batch;
pub use batch_lines::BatchLines;
pub use feed_line::FeedLine;
pub use laws::{lines_are_cut_again, lines_are_read_again, worked_feed, worked_lines};
pub use reader::read_feed_line;
