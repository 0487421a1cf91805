//! The real outside of a run: capture files and UDP as sources and sinks of byte strings, a file as
//! a source of text, and standard output.
#![tactic(auto)]

mod held;
mod hint;
mod label;
mod limits;
mod print;
mod progress;
mod raw;
mod sink;
mod source;
mod text;

pub use held::{Held, HeldFiles};
pub use hint::say_usage;
pub use print::{PrintFault, StdPrint};
pub use progress::Progress;
pub use sink::ProgramSink;
pub use source::ProgramSource;
pub use text::FileText;

#[cfg(test)]
mod tests;
