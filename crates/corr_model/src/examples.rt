//! Worked examples: the `ensures` of each function is a fact that the definitions compute to.

pub mod assembly;
pub mod correlation;
pub mod descriptors;
pub mod endings;
pub mod items;
pub mod live_heaps;
pub mod output;
pub mod packet_verdicts;
pub mod packets;
pub mod steps;
pub mod tables;
pub mod verdicts;
pub mod windows;
