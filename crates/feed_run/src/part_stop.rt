//! Why the lines of a feed are followed no further, whatever is applied of them.
ghost use Rattle.std.specs.Prelude.{◌≡◌};
ghost use Rattle.feed_run.specs.declared.part_stop.PartStop.TheVariants as part_stop;
ghost use Rattle.feed_run.specs.PartEnds.{at_part};
ghost use Rattle.text_lines.specs.declared.input.InputStop.TheVariants as input_stop;

use crate::{FeedStop, FollowStop};
use cube_base::Memory;
use script_run::StreamStop;
use std::alloc::AllocError;
use text_lines::InputStop;

/// Why a part of a feed is not followed. Nothing of it is written or committed.
#[derive(Clone, Copy, Debug, PartialEq, Eq)]
pub(crate) enum PartStop {
    /// The feed is not what it must be.
    Feed(FeedStop),
    /// The input is not taken, or it ran out of memory.
    Input(InputStop),
}

impl From<FeedStop> for PartStop {
    ghost from_gives = { λ stop e. e ≡ part_stop.Feed stop };

    fn from(stop: FeedStop) -> Self {
        PartStop::Feed(stop)
    }
}

impl From<InputStop> for PartStop {
    ghost from_gives = { λ stop e. e ≡ part_stop.Input stop };

    fn from(stop: InputStop) -> Self {
        PartStop::Input(stop)
    }
}

impl From<Memory> for PartStop {
    ghost from_gives = { λ _ e. e ≡ part_stop.Input input_stop.Memory };

    fn from(_: Memory) -> Self {
        PartStop::Input(InputStop::Memory)
    }
}

impl From<AllocError> for PartStop {
    ghost from_gives = { λ _ e. e ≡ part_stop.Input input_stop.Memory };

    fn from(_: AllocError) -> Self {
        PartStop::Input(InputStop::Memory)
    }
}

impl PartStop {
    /// How the run of a follower ends that stops so once so many batches are applied.
    pub(crate) fn at(self, applied: u64) -> FollowStop
        ensures { result ≡ at_part applied self }
    {
        match self {
            PartStop::Feed(stop) => FollowStop::Feed(stop),
            PartStop::Input(stop) => FollowStop::Stream(StreamStop::at(stop, applied)),
        }
    }
}
