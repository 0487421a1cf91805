//! The visibilities of one accumulation, and what every value is that is made of parts: a plan, sums
//! that are added place by place, and the number of timestamps that were added.
#![tactic(auto)]

mod adding;
mod made;
mod visibility;

pub use made::Made;
pub use visibility::{Visibility, baselines};

#[cfg(test)]
mod tests;
