//! What the program promises: the answer to each command and each script, the causes of refusals, and the claim.
#![tactic(auto)]

mod axis;
mod count;
mod ends;
mod limit;
mod line;
mod options;
mod scale;
mod smt_error;
mod smt_reply;
mod status;

pub use axis::Axis;
pub use count::LineKind;
pub use ends::{ReadFailed, Sink, Source, WriteFailed};
pub use limit::MOST_SUBFORMULAS;
pub use line::{Line, StatementError};
pub use options::{Choice, Language, Options};
pub use scale::Scale;
pub use smt_error::SmtError;
pub use smt_reply::SmtReply;
pub use status::Status;
