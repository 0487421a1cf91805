//! How far a run has come, said to a person who watches it. No status rests on it.

use std::io::IsTerminal;
use std::time::{Clock, Duration, Instant};

/// How many seconds a run is silent at first, so that a short one says nothing.
const SILENCE: u64 = 2;

/// The seconds from one line to the next, at least.
const PAUSE: u64 = 1;

/// How many datagrams a sink sent, and how long it has been begun: said at most once a second, and
/// where nobody watches not at all.
#[derive(Drop)]
pub struct Progress {
    is_watched: bool,
    begun: Option<Instant>,
    next: Duration,
    sent: u64,
}

impl Progress {
    /// Of a run whose standard error is this: it is watched where that is a terminal.
    pub fn on<T: IsTerminal>(error: &T) -> Progress {
        Progress {
            is_watched: error.is_terminal(),
            begun: None,
            next: Duration::from_secs(SILENCE),
            sent: 0,
        }
    }

    // The sink was begun, and has sent nothing. The clock is asked only where the run is watched.
    pub(crate) fn begin<R: Clock>(&mut self, system: &R) {
        self.begun = None;
        self.next = Duration::from_secs(SILENCE);
        self.sent = 0;
        if self.is_watched {
            self.begun = Instant::now(system).ok();
        }
    }

    // One more datagram was sent. Writes a line to standard error, if it is time for one.
    pub(crate) fn sent_one<R: Clock + Eprint>(&mut self, system: &R) {
        let Some(begun) = self.begun else {
            return;
        };
        self.sent = self.sent.saturating_add(1);
        let Ok(runs) = begun.elapsed(system) else {
            return;
        };
        if runs >= self.next {
            let (sent, seconds) = (self.sent, runs.as_secs());
            let _ = eprintln!(system; "spead_corr: {sent} datagrams sent in {seconds} s");
            self.next = runs.saturating_add(Duration::from_secs(PAUSE));
        }
    }
}
