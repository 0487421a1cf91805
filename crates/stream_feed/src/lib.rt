//! The feed of one antenna's stream: each byte string gets its verdict, all are counted, and each
//! column of cells is given once it is closed.
#![tactic(auto)]

mod counts;
mod feed;
mod judging;
mod open_columns;
mod report;
mod stream;

pub use corr_model::{DropCause, Ending, Refusal, Verdict};
pub use feed::Feed;
pub use report::StreamReport;
