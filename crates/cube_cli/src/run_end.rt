//! The end of the program by that of its script, by whether a text was written, or by why an input or its head is not taken, a store not
//! opened or a file not imported.
ghost use Rattle.std.specs.Prelude.{◌≡◌};
ghost use Rattle.cube_cli.specs.RunEnd.{end_of_break_off, end_of_feed, end_of_follow, end_of_head, end_of_import, end_of_keep, end_of_load, end_of_open, end_of_run, end_of_schema, end_of_stop, end_of_write};

use crate::End;
use crate::schema_lines::HeadStop;
use crate::store::OpenStop;
use cube_base::SinkError;
use cube_core::{ImportFault, LoadFault};
use fact_keeper::KeepError;
use feed_run::{FeedStop, FollowStop};
use schema_text::SchemaFault;
use script_run::{BreakOff, StreamStop};
use text_lines::InputStop;

/// The end of the program whose script refused so many lines or stopped.
pub fn end_of_run(run: Result<u64, StreamStop>) -> End
    ensures { result ≡ end_of_run run }
{
    match run {
        Ok(refused) => End::Finished { refused },
        Err(StreamStop::Broke(off)) => end_of_break_off(off),
        Err(StreamStop::Read { done }) => End::ReadFault { done },
        Err(StreamStop::TooLong { done }) => End::TooLong { done },
    }
}

/// The end of the program whose script broke off.
pub fn end_of_break_off(off: BreakOff) -> End
    ensures { result ≡ end_of_break_off off }
{
    match off {
        BreakOff::Write { line } => End::WriteFault { done: line },
        BreakOff::SinkMemory { line } => End::Memory { done: line },
        BreakOff::Memory { done } => End::Memory { done },
        BreakOff::Keep { done } => End::KeepFault { done },
    }
}

// The end of the program where a feed is not followed further.
fn end_of_feed(stop: FeedStop) -> End
    ensures { result ≡ end_of_feed stop }
{
    match stop {
        FeedStop::Bad { line, code } => End::BadFeed { line, code },
        FeedStop::Order { want, got } => End::Order { want, got },
        FeedStop::Base { place } => End::Base { place },
        FeedStop::Differs { number, line } => End::Differs { number, line },
    }
}

/// The end of the program whose feed was followed or not.
pub fn end_of_follow(run: Result<(), FollowStop>) -> End
    ensures { result ≡ end_of_follow run }
{
    match run {
        Ok(()) => End::Finished { refused: 0 },
        Err(FollowStop::Feed(stop)) => end_of_feed(stop),
        Err(FollowStop::Stream(stop)) => end_of_run(Err(stop)),
    }
}

/// The end where an input is not taken, before anything is done.
pub fn end_of_stop(stop: InputStop) -> End
    ensures { result ≡ end_of_stop stop }
{
    match stop {
        InputStop::Fault => End::ReadFault { done: 0 },
        InputStop::TooLong => End::TooLong { done: 0 },
        InputStop::Memory => End::Memory { done: 0 },
    }
}

/// The end where an input is not a schema alone.
pub fn end_of_schema(fault: SchemaFault) -> End
    ensures { result ≡ end_of_schema fault }
{
    match fault {
        SchemaFault::Bad { line, code } => End::Schema { line, code },
        SchemaFault::Memory => End::Memory { done: 0 },
    }
}

/// The end where the head of an input is not taken.
pub fn end_of_head(stop: HeadStop) -> End
    ensures { result ≡ end_of_head stop }
{
    match stop {
        HeadStop::Input(stop) => end_of_stop(stop),
        HeadStop::Bad { line, code } => End::Schema { line, code },
    }
}

/// The end where a text was written or not, of a command that refused so many lines and committed so many batches.
pub fn end_of_write(written: Result<(), SinkError>, refused: u64, commits: u64) -> End
    ensures { result ≡ end_of_write written refused commits }
{
    match written {
        Ok(()) => End::Finished { refused },
        Err(SinkError::Failed) => End::WriteFault { done: commits },
        Err(SinkError::Memory) => End::Memory { done: commits },
    }
}

/// The end where a keeper gave or kept nothing.
pub fn end_of_keep(error: KeepError) -> End
    ensures { result ≡ end_of_keep error }
{
    match error {
        KeepError::Failed => End::KeepFault { done: 0 },
        KeepError::Memory => End::Memory { done: 0 },
    }
}

/// The end where a store is not opened.
pub fn end_of_open(stop: OpenStop) -> End
    ensures { result ≡ end_of_open stop }
{
    match stop {
        OpenStop::NoCube => End::NoCube,
        OpenStop::Fault => End::KeepFault { done: 0 },
        OpenStop::Load(fault) => end_of_load(fault),
    }
}

/// The end where a content is not loaded.
pub fn end_of_load(fault: LoadFault) -> End
    ensures { result ≡ end_of_load fault }
{
    match fault {
        LoadFault::Bad(finding) => End::BadStore(finding),
        LoadFault::Memory => End::Memory { done: 0 },
    }
}

/// The end where a file is not imported.
pub fn end_of_import(fault: ImportFault) -> End
    ensures { result ≡ end_of_import fault }
{
    match fault {
        ImportFault::BadRecord(bad) => End::BadRecord(bad),
        ImportFault::Rows { would } => End::ImportRows { would },
        ImportFault::KeepFault => End::KeepFault { done: 0 },
        ImportFault::Memory => End::Memory { done: 0 },
    }
}
