//! The program: its words, its settings, and one run over any sources and sinks.
#![tactic(auto)]

mod answer;
mod begin;
mod in_threads;
mod outcome;
mod printing;
mod report;
mod returning;
mod said;
mod simulated;
mod threaded;
mod tools;
mod trial;

pub use answer::Status;
pub use report::no_memory;
pub use returning::run_returning;
pub use threaded::run;
