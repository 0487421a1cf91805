//! Back ends: what makes a value of the closed columns of all antennas, a range of timestamps at a
//! time, and the law that such ranges may be added up in any order.
#![tactic(auto)]

mod backend;
mod parts;

pub use backend::Backend;
pub use parts::parts_make_the_whole;
