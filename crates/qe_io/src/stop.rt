ghost use Rattle.std.specs.Prelude.{◌≡◌};
ghost use Rattle.qe_io.specs.declared.stop.AnswerStop.TheVariants.{Memory, Write};
ghost use Rattle.qe_io.specs.declared.stop.StreamStop.TheVariants.{Answer, Read};

use program_meaning::{ReadFailed, WriteFailed};
use std::alloc::AllocError;
use thiserror::Error;

/// Why answers stop: a write failed, or memory ran out.
#[derive(Clone, Copy, Debug, PartialEq, Eq, Error)]
pub enum AnswerStop {
    #[error("a write failed")]
    Write,
    #[error("out of memory")]
    Memory,
}

impl From<AllocError> for AnswerStop {
    ghost from_gives = { λ _ e. e ≡ Memory };

    fn from(_error: AllocError) -> AnswerStop {
        AnswerStop::Memory
    }
}

impl From<WriteFailed> for AnswerStop {
    ghost from_gives = { λ _ e. e ≡ Write };

    fn from(_error: WriteFailed) -> AnswerStop {
        AnswerStop::Write
    }
}

/// Why a script of the source is not answered: a read failed, it is too long, or its answers stop.
#[derive(Clone, Copy, Debug, PartialEq, Eq, Error)]
pub enum StreamStop {
    #[error("a read failed")]
    Read,
    #[error("the script is too long")]
    Long,
    #[error("the answers stop")]
    Answer(AnswerStop),
}

impl From<ReadFailed> for StreamStop {
    ghost from_gives = { λ _ e. e ≡ Read };

    fn from(_error: ReadFailed) -> StreamStop {
        StreamStop::Read
    }
}

impl From<AnswerStop> for StreamStop {
    ghost from_gives = { λ stop e. e ≡ Answer stop };

    fn from(stop: AnswerStop) -> StreamStop {
        StreamStop::Answer(stop)
    }
}

impl From<AllocError> for StreamStop {
    ghost from_gives = { λ _ e. e ≡ Answer Memory };

    fn from(_error: AllocError) -> StreamStop {
        StreamStop::Answer(AnswerStop::Memory)
    }
}
