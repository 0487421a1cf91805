//! What a run comes to.

ghost use Rattle.std.specs.Prelude.{◌≡◌, ℕ, List, length};

use std::marker::Model;
use stream_feed::StreamReport;
use vis_send::Sent;

/// How a run ended.
#[derive(Clone, Copy, Debug, PartialEq, Eq)]
pub enum Ran {
    /// All was sent, and nothing failed.
    Done,
    /// The sink failed.
    SinkFault,
    /// All was sent, and this antenna is the least whose source failed.
    SourceFault(u32),
}

/// The reports on the streams, in order of antenna.
#[derive(Drop)]
pub struct Reports {
    list: Vec<StreamReport>,
}

impl Model for Reports {
    ghost use Rattle.std.specs.Prelude.{List};
    ghost use Rattle.stream_feed.specs.declared.report.StreamReport.{StreamReport};

    ghost Value = { List StreamReport };

    ghost view = { λ s. s.list.items };
}

impl Reports {
    /// Those of a list.
    pub fn of(list: Vec<StreamReport>) -> Reports
        ensures { result ≡ list.items }
    {
        Reports { list }
    }

    /// All of them.
    pub fn as_slice(&self) -> &[StreamReport]
        ensures { result.now ≡ self.now }
    {
        self.list.as_slice()
    }
}

/// How a run ended, what was sent, and the report on each stream.
#[derive(Drop)]
pub struct Outcome {
    /// How it ended.
    pub ran: Ran,
    /// The number, the bytes and the mark of what was sent.
    pub sent: Sent,
    /// The reports.
    pub reports: Reports,
}
