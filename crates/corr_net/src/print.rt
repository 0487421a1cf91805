//! Standard output as a sink of text.

ghost use Rattle.std.specs.Prelude.{None};

use crate::raw::one_more;
use corr_site::{Failed, TextSink};
use std::sync::atomic::{AtomicBool, Ordering};

/// Whether standard output has failed. Sources look at it: where nobody reads what is printed, an
/// input without an end of its own ends.
#[derive(Drop)]
pub struct PrintFault {
    has_come: AtomicBool,
}

impl PrintFault {
    /// None has come.
    pub fn new() -> PrintFault {
        PrintFault {
            has_come: AtomicBool::new(false),
        }
    }

    // Whether one has come.
    pub(crate) fn has_come(&self) -> bool {
        self.has_come.load(Ordering::SeqCst)
    }

    // Says that one has come.
    fn set(&self) {
        self.has_come.store(true, Ordering::SeqCst);
    }
}

/// Standard output. It tells nothing of what was written.
#[derive(Drop)]
pub struct StdPrint<'a, R> {
    output: &'a R,
    fault: &'a PrintFault,
    faults: u64,
}

impl<'a, R: Print + Eprint> StdPrint<'a, R> {
    /// Standard output with no fault yet. Its first one is noted in `fault`.
    pub fn new(output: &'a R, fault: &'a PrintFault) -> Self {
        StdPrint {
            output,
            fault,
            faults: 0,
        }
    }
}

impl<R: Print + Eprint> TextSink for StdPrint<'_, R> {
    ghost written = { λ _. None };

    ghost faults = { λ s. s.faults };

    fn write(&mut self, bytes: &[u8]) -> Result<(), Failed> {
        match self.output.write_all(bytes) {
            Ok(()) => Ok(()),
            Err(error) => {
                let _ = eprintln!(self.output; "spead_corr: standard output: {error}");
                self.fault.set();
                self.faults = one_more(self.faults);
                Err(Failed)
            }
        }
    }
}
