//! The lines that the program prints, each put at the front of a buffer.
#![tactic(auto)]

mod command_lines;
mod decode;
mod draft;
mod inspect;
mod refused;
mod status;
mod summary;

pub use command_lines::usage;
pub use decode::{baseline_line, cause_name, channel_line, heap_line, stop_line};
pub use inspect::{datagrams_line, inspect_refused, packet_line, pointer_line, refusal_name};
pub use refused::{refused_line, settings_line};
pub use status::{StatusLine, status_line};
pub use summary::{stream_line, summary_line};

#[cfg(test)]
mod decode_tests;
#[cfg(test)]
mod tests;
