//! The serial run over sources and a sink.

ghost use Rattle.std.specs.Prelude.{◌≡◌, ◌≤◌, ◌<◌, ℕ, List, Some, None, true, length};
ghost use Rattle.corr_model.specs.Outputs.{output};
ghost use Rattle.corr_model.specs.Visibilities.{Lists};
ghost use Rattle.corr_site.specs.Outside.{Rose};
ghost use Rattle.corr_serial.specs.Sources.{AreBegun, AreSameFrom, KeepsEach, KeepsBelonging, KeepsSources};
ghost use Rattle.corr_serial.specs.Hearing.{is_fault};
ghost use Rattle.corr_serial.specs.Outputs.{output_by};
ghost use Rattle.corr_serial.specs.Preparing.{IsPrepared};
ghost use Rattle.corr_serial.specs.Runs.{AreGiven, GaveTaken, NoneRose, IsWhole, SendsBy, SendsSome, SendsOutput, Concludes, GoOnFrom, RanHasCause, AreReports, AreWholeReports, AreReportsOf, IsFirstFault, ran_as, list_of};

use crate::outcome::{Outcome, Ran, Reports};
use crate::prepared::Prepared;
use crate::running::run;
use corr_core::CoreOf;
use corr_model::{Observation, Unheard};
use corr_site::{PacketSink, PacketSource};
use stream_feed::{Ending, StreamReport};
use vis_accum::Cross;
use vis_back::Backend;
use vis_send::{Emit, Sender};

// Takes the report on each stream.
fn take_reports<B: Backend, E: Emit<Out = B::Out>>(
    core: &CoreOf<Unheard, B, E>,
    reports: &mut [StreamReport],
)
    requires reports { length reports.old ≡ core.now.parts.plan.antennas }
    requires feeds { length core.now.parts.feeds ≡ core.now.parts.plan.antennas }
    ensures { AreReportsOf core.now.parts.feeds reports.new }
{
    for antenna in 0..core.plan().antennas {
        reports[antenna as usize] = core.report(antenna);
    }
}

// Whether a stream ended by a fault of its source.
fn is_fault(ended: Option<Ending>) -> bool
    ensures { result ≡ is_fault ended }
{
    matches!(ended, Some(Ending::Fault))
}

/// The first report of a stream that ended by a fault.
pub fn first_fault(reports: &[StreamReport]) -> Option<u32>
    requires { length reports.now ≤ 64 }
    ensures { IsFirstFault reports.now result }
{
    for antenna in 0..reports.len() {
        if is_fault(reports[antenna].ended) {
            return Some(antenna as u32);
        }
    }
    None
}

/// How a run ended: whether the sink failed, and the least source that did.
pub fn ran_as(is_whole: bool, fault: Option<u32>) -> Ran
    ensures { result ≡ ran_as is_whole fault }
{
    match fault {
        _ if !is_whole => Ran::SinkFault,
        Some(antenna) => Ran::SourceFault(antenna),
        None => Ran::Done,
    }
}

// The run over a core: how it ended. The reports are taken.
fn run_reported<
    O: Observation,
    B: Backend,
    E: Emit<Out = B::Out>,
    S: PacketSource<O>,
    K: PacketSink,
>(
    core: &mut CoreOf<Unheard, B, E>,
    reports: &mut [StreamReport],
    sources: &mut [S],
    sink: &mut K,
) -> Ran
    requires prepared { IsPrepared B.value core.old (E.tally core.old.emit) (length reports.old) }
    requires enough { core.old.parts.plan.antennas ≤ length sources.old }
    requires begun { AreBegun S.begun core.old.parts.plan.antennas sources.old }
    requires sink { K.begun sink.old ≡ true }
    ensures sources { KeepsSources S.begun S.at S.gives S.belongs core.old.parts.plan.antennas
        sources.old sources.new }
    ensures begun { K.begun sink.new ≡ true }
    ensures at { K.at sink.new ≡ K.at sink.old }
    ensures concludes { Concludes
        (record { strings = E.strings core.old.parts.plan; value = B.value core.old.backend core.old.parts.plan })
        core.old.parts.plan S.gives S.given S.faults sources.old sources.new reports.new
        (K.sent sink.old) (K.sent sink.new) (E.tally core.new.emit)
        (K.faults sink.old) (K.faults sink.new) result }
{
    let answer = run::<O, B, E, S, K>(core, sources, sink);
    take_reports(core, reports);
    ran_as(answer.is_ok(), first_fault(reports))
}

/// The serial run: for each accumulation in order and each antenna in order, byte strings of its
/// source are taken until its column is in the ring; the value of the columns of all antennas is
/// sent; and when all were sent, each stream that has not ended is taken to its end. It takes no
/// memory.
///
/// A source that fails ends its own stream alone. `SinkFault` comes at once, and a front of the
/// output was sent.
pub fn serial_with<
    O: Observation,
    B: Backend,
    E: Emit<Out = B::Out>,
    S: PacketSource<O>,
    K: PacketSink,
>(prepared: Prepared<B, E>, sources: &mut [S], sink: &mut K) -> Outcome
    requires enough { prepared.plan.antennas ≤ length sources.old }
    requires begun { AreBegun S.begun prepared.plan.antennas sources.old }
    requires sink { K.begun sink.old ≡ true }

    // What stays.
    ensures length { length sources.new ≡ length sources.old }
    ensures later { AreSameFrom prepared.plan.antennas sources.old sources.new }
    ensures begun { AreBegun S.begun prepared.plan.antennas sources.new }
    ensures at { KeepsEach S.at sources.old sources.new }
    ensures gives { KeepsEach S.gives sources.old sources.new }
    ensures belongs { KeepsBelonging S.belongs sources.old sources.new }
    ensures sink_begun { K.begun sink.new ≡ true }
    ensures sink_at { K.at sink.new ≡ K.at sink.old }

    // What is sent, what is taken, and what is reported.
    ensures sends { (lists : List (List (List ℕ)))
        → AreGiven prepared.plan S.gives S.given sources.old lists
        → SendsBy result.ran (K.sent sink.old) (K.sent sink.new) result.sent
        (output_by
        (record { strings = E.strings prepared.plan; value = B.value prepared.backend prepared.plan })
        prepared.plan (list_of lists)) }
    ensures front { (told : List (List (List ℕ))) (lists : Lists)
        → AreGiven prepared.plan S.gives S.given sources.old told
        → GoOnFrom prepared.plan S.given sources.new result.reports told lists
        → SendsBy result.ran (K.sent sink.old) (K.sent sink.new) result.sent
        (output_by
        (record { strings = E.strings prepared.plan; value = B.value prepared.backend prepared.plan })
        prepared.plan lists) }
    ensures counted { IsWhole result.ran → SendsSome
        (record { strings = E.strings prepared.plan; value = B.value prepared.backend prepared.plan })
        prepared.plan (K.sent sink.old) (K.sent sink.new) result.sent }
    ensures taken { IsWhole result.ran
        → GaveTaken prepared.plan S.gives S.given sources.old sources.new }
    ensures reports { AreReports prepared.plan S.gives S.given S.faults
        sources.old sources.new result.reports }
    ensures whole_reports { IsWhole result.ran
        → AreWholeReports prepared.plan S.gives S.given sources.old result.reports }

    // The causes.
    ensures cause { RanHasCause S.faults prepared.plan.antennas sources.old sources.new
        (K.faults sink.old) (K.faults sink.new) result.ran }
    ensures done { NoneRose prepared.plan S.faults sources.old sources.new
        → (Rose (K.faults sink.old) (K.faults sink.new) → ⊥) → result.ran ≡ Ran.Done }
{
    let Prepared {
        mut core,
        mut reports,
    } = prepared;
    let ran = run_reported::<O, B, E, S, K>(&mut core, &mut reports, sources, sink);
    Outcome {
        ran,
        sent: core.sent(),
        reports: Reports::of(reports),
    }
}

/// The serial run with the plain back end and the sender of the output. It takes no memory.
///
/// A source that fails ends its own stream alone. `SinkFault` comes at once, and a front of the
/// output was sent.
pub fn correlate_serial<O: Observation, S: PacketSource<O>, K: PacketSink>(
    prepared: Prepared<Cross, Sender>,
    sources: &mut [S],
    sink: &mut K,
) -> Outcome
    requires enough { prepared.plan.antennas ≤ length sources.old }
    requires begun { AreBegun S.begun prepared.plan.antennas sources.old }
    requires sink { K.begun sink.old ≡ true }

    // What stays.
    ensures length { length sources.new ≡ length sources.old }
    ensures later { AreSameFrom prepared.plan.antennas sources.old sources.new }
    ensures begun { AreBegun S.begun prepared.plan.antennas sources.new }
    ensures at { KeepsEach S.at sources.old sources.new }
    ensures gives { KeepsEach S.gives sources.old sources.new }
    ensures belongs { KeepsBelonging S.belongs sources.old sources.new }
    ensures sink_begun { K.begun sink.new ≡ true }
    ensures sink_at { K.at sink.new ≡ K.at sink.old }

    // What is sent, what is taken, and what is reported.
    ensures sends { (lists : List (List (List ℕ)))
        → AreGiven prepared.plan S.gives S.given sources.old lists
        → SendsBy result.ran (K.sent sink.old) (K.sent sink.new) result.sent
        (output prepared.plan (list_of lists)) }
    ensures front { (told : List (List (List ℕ))) (lists : Lists)
        → AreGiven prepared.plan S.gives S.given sources.old told
        → GoOnFrom prepared.plan S.given sources.new result.reports told lists
        → SendsBy result.ran (K.sent sink.old) (K.sent sink.new) result.sent
        (output prepared.plan lists) }
    ensures counted { IsWhole result.ran
        → SendsOutput prepared.plan (K.sent sink.old) (K.sent sink.new) result.sent }
    ensures taken { IsWhole result.ran
        → GaveTaken prepared.plan S.gives S.given sources.old sources.new }
    ensures reports { AreReports prepared.plan S.gives S.given S.faults
        sources.old sources.new result.reports }
    ensures whole_reports { IsWhole result.ran
        → AreWholeReports prepared.plan S.gives S.given sources.old result.reports }

    // The causes.
    ensures cause { RanHasCause S.faults prepared.plan.antennas sources.old sources.new
        (K.faults sink.old) (K.faults sink.new) result.ran }
    ensures done { NoneRose prepared.plan S.faults sources.old sources.new
        → (Rose (K.faults sink.old) (K.faults sink.new) → ⊥) → result.ran ≡ Ran.Done }
{
    serial_with::<O, Cross, Sender, S, K>(prepared, sources, sink)
}
