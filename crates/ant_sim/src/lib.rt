//! What an antenna sends, from a seed: a source for whoever has no telescope.
#![tactic(auto)]

mod blocks;
mod cursor;
mod described;
pub mod examples;
mod fates;
mod laws;
mod noise;
mod order;
mod packets;
mod source;

pub use laws::a_list_can_be_counted;
pub use source::SimSource;

#[cfg(test)]
mod tests;
