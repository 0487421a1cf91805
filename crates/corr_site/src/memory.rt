//! Objects in memory that stand for the outside, for tests.

mod fault_plan;
mod list_print;
mod list_sink;
mod list_source;
mod list_text;
mod spot;

pub use list_print::ListPrint;
pub use list_sink::ListSink;
pub use list_source::ListSource;
pub use list_text::ListText;
