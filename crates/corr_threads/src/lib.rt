//! The actors of a run in threads: receivers, workers and the sender, with a turn each.
#![tactic(auto)]

mod dispatch;
mod receiver;
mod seat;
mod turn;
mod worker;

pub use dispatch::Dispatch;
pub use receiver::Receiver;
pub use seat::Seat;
pub use turn::Turn;
pub use worker::Worker;

#[cfg(test)]
mod tests;
