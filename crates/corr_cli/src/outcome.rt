//! The answer of a run, by how it ended.

ghost use Rattle.std.specs.Prelude.{◌≡◌};
ghost use Rattle.corr_cli.specs.Runs.{answer_of, sent_answer};

use crate::answer::Answer;
use crate::said::Telling;
use corr_serial::{Outcome, Ran, Reports};
use vis_send::Sent;

/// The answer of a run that ended so.
pub(crate) fn answer_of(telling: Telling, outcome: Outcome) -> Answer
    ensures { result ≡ answer_of telling outcome.ran outcome.sent outcome.reports }
{
    match outcome.ran {
        Ran::Done => sent_answer(telling, outcome.sent, outcome.reports, None),
        Ran::SourceFault(antenna) => {
            sent_answer(telling, outcome.sent, outcome.reports, Some(antenna))
        }
        Ran::SinkFault => Answer::SinkFault,
    }
}

// The answer of a run that sent all.
fn sent_answer(telling: Telling, sent: Sent, reports: Reports, fault: Option<u32>) -> Answer
    ensures { result ≡ sent_answer telling sent reports fault }
{
    match telling {
        Telling::Packets => Answer::Sent(sent.packets, fault),
        Telling::Summary => Answer::Summed(sent, reports, fault),
    }
}
