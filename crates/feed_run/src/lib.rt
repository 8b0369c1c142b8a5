//! A feed at work: the texts that a leader writes of a store's edits, and a follower that takes them over.
#![tactic(auto)]

mod base;
mod begin;
mod catcher;
mod copies;
mod feed_lines;
mod feed_stop;
mod follow;
mod follow_base;
mod follow_batches;
mod follow_head;
mod follow_laws;
mod keeping;
mod lead;
mod lead_laws;
mod line_pull;
mod part_stop;
mod same_base;

pub use base::Base;
pub use catcher::{BatchCatcher, LineDone, do_caught};
pub use feed_stop::FeedStop;
pub use follow::{FollowStop, follow_stream};
pub use follow_laws::{refused_bases, refused_batches, worked_feed};
pub use lead::lead_stream;
pub use lead_laws::{lines_are_told_as_their_fronts_are, worked_texts};
pub use line_pull::LinePull;
