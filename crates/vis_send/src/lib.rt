//! The output: the descriptor heap, a visibility heap for each accumulation, and the stop heap.
#![tactic(auto)]

mod draft;
mod emit;
mod heap_sender;
mod laws;
mod output_items;
mod payload;
mod sender;
mod sending;
mod tally;
mod visibilities;

pub use emit::Emit;
pub use laws::{a_sender_sends_the_output, all_strings_are_counted, counts_go_on};
pub use sender::Sender;
pub use sending::SinkFault;
pub use tally::Sent;

#[cfg(test)]
mod tests;
