//! A script at work on a cube: each line read, done and answered, its batches committed and its replies gathered and written.
#![tactic(auto)]

mod break_off;
mod laws;
mod one_line;
mod outbox;
mod script;
mod script_run;
mod streaming;

pub use break_off::BreakOff;
pub use laws::{lines_do_what_their_fronts_do, run_in_two_parts};
pub use one_line::run_line;
pub use script::{LineStop, do_read, is_edit, is_refusal, read};
pub use streaming::{StreamStop, run_stream};
