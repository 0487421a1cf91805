//! A run in threads: one for each stream and each worker, beside the calling one, which sends.

ghost use Rattle.std.specs.Prelude.{◌≡◌, ◌≤◌, ℕ, Bool, true, false, List, Some, Ok, IfOk, All, length, map, string_bytes};
ghost use Rattle.corr_model.specs.Plans.{Fits};
ghost use Rattle.corr_words.specs.declared.command.Command.TheVariants.{Correlate};
ghost use Rattle.corr_settings.specs.declared.settings.Settings.{Settings};
ghost use Rattle.corr_serial.specs.Sources.{AreBegun, AreSameFrom, KeepsEach};
ghost use Rattle.corr_cli.specs.Said.{HasRun, form_of, needs_text};
ghost use Rattle.corr_cli.specs.Says.{HasSaid};
ghost use Rattle.corr_cli.specs.Placing.{IsAtOwn, AreAtOwn};
ghost use Rattle.corr_cli.specs.Texts.{IsPrintable, code_of};
ghost use Rattle.corr_cli.specs.Observed.{IsObserved};
ghost use Rattle.corr_cli.specs.Runs.{Comes, IsOverBegun, RunsPlan};
ghost use Rattle.corr_cli.specs.Seeing.{run_seen, sink_seen, sources_seen, text_seen};

use crate::answer::Answer;
use crate::begin::begin_all;
use crate::outcome::answer_of;
use crate::said::{Asked, Telling, said};
use corr_core::prepare;
use corr_model::{Observation, Plan};
use corr_parallel::{Shared, correlate_threads, share};
use corr_site::{Gate, NoMemory, PacketSink, PacketSource, Place, TextSource};
use corr_threads::Seat;
use std::alloc::Global;
use std::sync::Wait;
use std::thread::Threads;

/// All memory of a run in threads.
pub(crate) fn shared<O: Observation>(alloc: Global, plan: &Plan) -> Result<Shared<O>, NoMemory>
    requires fits { Fits plan.now }
    requires named { O.names ≡ true → plan.now ≡ O.plan }
    ensures { IfOk result (λ s. s.plan ≡ plan.now) }
{
    let prepared = prepare::<O>(alloc, plan)?;
    share(alloc, prepared)
}

/// What the run of the words comes to, gone through in threads.
pub(crate) fn answer_in_threads<
    O: Observation + Send + Sync,
    S: PacketSource<O> + Send,
    K: PacketSink,
    D: TextSource,
    G: Gate + Sync,
    R: Threads + Wait + Sync,
>(
    rt: &R,
    gate: &G,
    alloc: Global,
    words: &[String],
    settings: &mut D,
    sources: &mut [Seat<O, S>],
    sink: &mut K,
) -> Answer
    requires sources { length sources.old ≡ 64 }
    requires none_begun { All (λ s. S.begun s.source ≡ false) sources.old }
    requires sink { K.begun sink.old ≡ false }
    requires settings { D.begun settings.old ≡ false }
    requires observed { O.names ≡ true → (run : Settings)
        → HasSaid (map string_bytes words.now) (D.left settings.old) (Ok run)
        → IsObserved O.plan (λ s. S.belongs s.source) (λ s. S.given s.source) run.plan sources.old }
    ensures length { length sources.new ≡ length sources.old }
    ensures settings_source { needs_text (map string_bytes words.now) ≡ false → settings.new ≡ settings.old }
    ensures unused { (run : Settings) → HasRun (map string_bytes words.now) (D.left settings.old) run
        → AreSameFrom run.plan.antennas sources.old sources.new }
    ensures at_sources { (run : Settings) → HasRun (map string_bytes words.now) (D.left settings.old) run
        → AreAtOwn (λ s. S.begun s.source) (λ s. S.at s.source) run.inputs sources.new }
    ensures at_sink { (run : Settings) → HasRun (map string_bytes words.now) (D.left settings.old) run
        → IsAtOwn (K.begun sink.new) (K.at sink.new) run.output }
    ensures at_settings { (config : List ℕ) (serial : Bool)
        → form_of (map string_bytes words.now) ≡ Some (Correlate config serial)
        → IsAtOwn (D.begun settings.new) (D.at settings.new) config }
    ensures begun_settings { code_of result ≡ 0 → needs_text (map string_bytes words.now) ≡ true
        → D.begun settings.new ≡ true }
    ensures printable { IsPrintable result }
    ensures comes { Comes (map string_bytes words.now)
        (run_seen (sources_seen O.names (λ s. S.gives s.source) (λ s. S.given s.source)
        (λ s. S.begun s.source) (λ s. S.faults s.source) sources.old sources.new)
        (sink_seen K.sent K.begun K.at K.faults sink.old sink.new))
        (text_seen D.left D.faults settings.old settings.new) result }
{
    match said(alloc, words, settings) {
        Ok(asked) => run_asked::<O, S, K, G, R>(rt, gate, alloc, asked, sources, sink),
        Err(answer) => answer,
    }
}

// Runs what was asked for. All memory is taken before anything is begun.
fn run_asked<
    O: Observation + Send + Sync,
    S: PacketSource<O> + Send,
    K: PacketSink,
    G: Gate + Sync,
    R: Threads + Wait + Sync,
>(rt: &R, gate: &G, alloc: Global, asked: Asked, sources: &mut [Seat<O, S>], sink: &mut K) -> Answer
    requires fits { Fits asked.settings.plan }
    requires inputs { length asked.settings.inputs ≡ asked.settings.plan.antennas }
    requires sources { length sources.old ≡ 64 }
    requires none_begun { All (λ s. S.begun s.source ≡ false) sources.old }
    requires sink { K.begun sink.old ≡ false }
    requires observed { O.names ≡ true
        → IsObserved O.plan (λ s. S.belongs s.source) (λ s. S.given s.source) asked.settings.plan sources.old }
    ensures length { length sources.new ≡ length sources.old }
    ensures unused { AreSameFrom asked.settings.plan.antennas sources.old sources.new }
    ensures at_sources { AreAtOwn (λ s. S.begun s.source) (λ s. S.at s.source) asked.settings.inputs sources.new }
    ensures at_sink { IsAtOwn (K.begun sink.new) (K.at sink.new) asked.settings.output }
    ensures printable { IsPrintable result }
    ensures runs { RunsPlan asked.telling asked.settings.plan
        (run_seen (sources_seen O.names (λ s. S.gives s.source) (λ s. S.given s.source)
        (λ s. S.begun s.source) (λ s. S.faults s.source) sources.old sources.new)
        (sink_seen K.sent K.begun K.at K.faults sink.old sink.new)) result }
{
    match shared(alloc, &asked.settings.plan) {
        Ok(ready) => run_prepared::<O, S, K, G, R>(rt, gate, ready, &asked, sources, sink),
        Err(_) => Answer::NoMemory,
    }
}

// Begins the sources at their places, correlates and sends.
fn run_prepared<
    O: Observation + Send + Sync,
    S: PacketSource<O> + Send,
    K: PacketSink,
    G: Gate + Sync,
    R: Threads + Wait + Sync,
>(
    rt: &R,
    gate: &G,
    ready: Shared<O>,
    asked: &Asked,
    sources: &mut [Seat<O, S>],
    sink: &mut K,
) -> Answer
    requires plan { ready.plan ≡ asked.now.settings.plan }
    requires fits { Fits ready.plan }
    requires inputs { length asked.now.settings.inputs ≡ ready.plan.antennas }
    requires sources { length sources.old ≡ 64 }
    requires none_begun { All (λ s. S.begun s.source ≡ false) sources.old }
    requires sink { K.begun sink.old ≡ false }
    requires observed { O.names ≡ true
        → IsObserved O.plan (λ s. S.belongs s.source) (λ s. S.given s.source) ready.plan sources.old }
    ensures length { length sources.new ≡ length sources.old }
    ensures unused { AreSameFrom ready.plan.antennas sources.old sources.new }
    ensures at_sources { AreAtOwn (λ s. S.begun s.source) (λ s. S.at s.source) asked.now.settings.inputs sources.new }
    ensures at_sink { IsAtOwn (K.begun sink.new) (K.at sink.new) asked.now.settings.output }
    ensures printable { IsPrintable result }
    ensures runs { RunsPlan asked.now.telling ready.plan
        (run_seen (sources_seen O.names (λ s. S.gives s.source) (λ s. S.given s.source)
        (λ s. S.begun s.source) (λ s. S.faults s.source) sources.old sources.new)
        (sink_seen K.sent K.begun K.at K.faults sink.old sink.new)) result }
{
    let settings = &asked.settings;
    if let Err(antenna) = begin_all::<O, Seat<O, S>>(sources, settings.inputs.as_slice()) {
        return Answer::NotBegun(antenna);
    }
    run_begun::<O, S, K, G, R>(
        rt,
        gate,
        ready,
        &settings.output,
        asked.telling,
        sources,
        sink,
    )
}

/// Begins the sink at the place, correlates and sends.
pub(crate) fn run_begun<
    O: Observation + Send + Sync,
    S: PacketSource<O> + Send,
    K: PacketSink,
    G: Gate + Sync,
    R: Threads + Wait + Sync,
>(
    rt: &R,
    gate: &G,
    ready: Shared<O>,
    place: &Place,
    telling: Telling,
    sources: &mut [Seat<O, S>],
    sink: &mut K,
) -> Answer
    requires fits { Fits ready.plan }
    requires enough { ready.plan.antennas ≤ length sources.old }
    requires begun { AreBegun (λ s. S.begun s.source) ready.plan.antennas sources.old }
    requires observed { O.names ≡ true
        → IsObserved O.plan (λ s. S.belongs s.source) (λ s. S.given s.source) ready.plan sources.old }
    ensures length { length sources.new ≡ length sources.old }
    ensures later { AreSameFrom ready.plan.antennas sources.old sources.new }
    ensures at { KeepsEach (λ s. S.at s.source) sources.old sources.new }
    ensures at_sink { IsAtOwn (K.begun sink.new) (K.at sink.new) place.now }
    ensures printable { IsPrintable result }
    ensures over { IsOverBegun result }
    ensures runs { RunsPlan telling ready.plan
        (run_seen (sources_seen O.names (λ s. S.gives s.source) (λ s. S.given s.source)
        (λ s. S.begun s.source) (λ s. S.faults s.source) sources.old sources.new)
        (sink_seen K.sent K.begun K.at K.faults sink.old sink.new)) result }
{
    match sink.begin(place) {
        Ok(()) => correlate::<O, S, K, G, R>(rt, gate, ready, telling, sources, sink),
        Err(_) => Answer::SinkFault,
    }
}

// Correlates what the sources give, and sends the output.
fn correlate<
    O: Observation + Send + Sync,
    S: PacketSource<O> + Send,
    K: PacketSink,
    G: Gate + Sync,
    R: Threads + Wait + Sync,
>(
    rt: &R,
    gate: &G,
    ready: Shared<O>,
    telling: Telling,
    sources: &mut [Seat<O, S>],
    sink: &mut K,
) -> Answer
    requires fits { Fits ready.plan }
    requires enough { ready.plan.antennas ≤ length sources.old }
    requires begun { AreBegun (λ s. S.begun s.source) ready.plan.antennas sources.old }
    requires sink { K.begun sink.old ≡ true }
    requires observed { O.names ≡ true
        → IsObserved O.plan (λ s. S.belongs s.source) (λ s. S.given s.source) ready.plan sources.old }
    ensures length { length sources.new ≡ length sources.old }
    ensures later { AreSameFrom ready.plan.antennas sources.old sources.new }
    ensures at { KeepsEach (λ s. S.at s.source) sources.old sources.new }
    ensures at_sink { K.at sink.new ≡ K.at sink.old }
    ensures printable { IsPrintable result }
    ensures over { IsOverBegun result }
    ensures runs { RunsPlan telling ready.plan
        (run_seen (sources_seen O.names (λ s. S.gives s.source) (λ s. S.given s.source)
        (λ s. S.begun s.source) (λ s. S.faults s.source) sources.old sources.new)
        (sink_seen K.sent K.begun K.at K.faults sink.old sink.new)) result }
{
    let outcome = correlate_threads(rt, ready, sources, sink, gate);
    answer_of(telling, outcome)
}
