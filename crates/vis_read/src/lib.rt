//! The output stream, read back.
#![tactic(auto)]

mod adding;
mod cause;
mod described;
mod facts;
mod judging;
mod laws;
mod reader;
mod seen;
mod step;
mod turn;
mod view;

pub use cause::ReadCause;
pub use corr_model::{DescRefusal, DropCause, Refusal};
pub use facts::{
    each_cause, first_cause_first, in_pieces_of_64_bytes, one_heap_lost_read_back, three_baselines,
    without_the_last_datagram,
};
pub use laws::{end_is_seen, output_is_read_back, refused_for_good};
pub use reader::Reader;
pub use seen::Seen;
pub use turn::{Sizes, Turn};
pub use view::VisView;

#[cfg(test)]
mod tests;
