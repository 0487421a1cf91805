//! One run of the program, over any sources and any sink.

ghost use Rattle.std.specs.Prelude.{◌≡◌, ◌↔◌, ◌⊎◌, ℕ, ◌<◌, ◌≤◌, Bool, true, false, List, Option, Some, IsNone, All, length, map, slice_index_or, string_bytes};
ghost use Rattle.corr_model.specs.Plans.{Fits};
ghost use Rattle.corr_model.specs.Outputs.{output};
ghost use Rattle.corr_site.specs.Outside.{Appended, Rises, Rose};
ghost use Rattle.corr_words.specs.declared.command.Command.{Command};
ghost use Rattle.corr_words.specs.declared.command.Command.TheVariants.{Correlate};
ghost use Rattle.corr_settings.specs.declared.settings.Settings.{Settings};
ghost use Rattle.corr_serial.specs.Sources.{AreBegun, AreSameFrom, KeepsEach};
ghost use Rattle.corr_serial.specs.Runs.{AreGiven, GaveTaken, NoneRose, list_of};
ghost use Rattle.corr_cli.specs.Said.{AreRefused, HasRun, form_of, needs_text};
ghost use Rattle.corr_cli.specs.Placing.{IsAtOwn, AreAtOwn};
ghost use Rattle.corr_cli.specs.Texts.{IsPrintable, code_of};
ghost use Rattle.corr_words.specs.Forms.{form};
ghost use Rattle.corr_cli.specs.Tools.{ToolRan, names_tool};
ghost use Rattle.corr_cli.specs.Runs.{AppendsPackets, Comes, FaultOfSource, IsOverBegun, IsRefusedAs, IsUntouched, IsWhole, RanAs, RefusedCode, RunsPlan};
ghost use Rattle.corr_cli.specs.Simulating.{AreRefusedFor, IsRefusedFor, SimulatedRan, Simulates, names_simulated, reads_settings, strings_of};
ghost use Rattle.corr_cli.specs.Seeing.{config_seen, print_seen, run_seen, sink_seen, source_seen, sources_seen, text_seen};

use crate::answer::{Answer, Status};
use crate::begin::begin_all;
use crate::outcome::answer_of;
use crate::report::tell;
use crate::said::{Asked, Telling, said};
use crate::simulated::{names_simulated, run_simulated};
use crate::tools::{names_tool, run_tool};
use corr_model::Observation;
use corr_serial::{Prepared, correlate_serial, prepare};
use corr_site::{PacketSink, PacketSource, Place, TextSink, TextSource};
use std::alloc::Global;
use vis_accum::Cross;
use vis_send::Sender;

/// Runs the command of the words over the first of the sources and the sink, and prints its text.
/// The settings source gives the text of the settings, where the command names one.
///
/// `output` is the correlation theorem: where the status is 0 or 6, or 3 with all of the plan's
/// sources begun, exactly the output that the definitions give for the plan of the run and for
/// the byte strings that these sources give was appended to what the sink got.
pub fn run_returning<O: Observation, S: PacketSource<O>, K: PacketSink, P: TextSink, D: TextSource>(
    alloc: Global,
    words: &[String],
    settings: &mut D,
    sources: &mut [S],
    sink: &mut K,
    print: &mut P,
) -> Status
    requires sources { length sources.old ≡ 64 }
    requires none_begun { All (λ s. S.begun s ≡ false) sources.old }
    requires sink { K.begun sink.old ≡ false }
    requires settings { D.begun settings.old ≡ false }

    // What stays.
    ensures length { length sources.new ≡ length sources.old }
    ensures settings_source { reads_settings (map string_bytes words.now) ≡ false
        → settings.new ≡ settings.old }
    ensures unused { (run : Settings) → HasRun (map string_bytes words.now) (D.left settings.old) run
        → AreSameFrom run.plan.antennas sources.old sources.new }
    ensures no_memory { result.code ≡ 5
        → IsUntouched sources.old sources.new (K.begun sink.new) (K.sent sink.old) (K.sent sink.new) }

    // The correlation theorem: what is sent, what is taken, and what is begun.
    ensures output { (run : Settings) (lists : List (List (List ℕ)))
        → HasRun (map string_bytes words.now) (D.left settings.old) run
        → AreGiven run.plan S.gives S.given sources.old lists → IsWhole result.code S.begun run.plan sources.new
        → Appended (K.sent sink.old) (output run.plan (list_of lists)) (K.sent sink.new) }
    ensures taken { (run : Settings) → HasRun (map string_bytes words.now) (D.left settings.old) run
        → IsWhole result.code S.begun run.plan sources.new
        → GaveTaken run.plan S.gives S.given sources.old sources.new }
    ensures front { (run : Settings) (lists : List (List (List ℕ)))
        → HasRun (map string_bytes words.now) (D.left settings.old) run
        → AreGiven run.plan S.gives S.given sources.old lists → result.code ≡ 4
        → AppendsPackets (K.sent sink.old) (K.sent sink.new) (output run.plan (list_of lists)) }
    ensures begun { (run : Settings) → HasRun (map string_bytes words.now) (D.left settings.old) run
        → (result.code ≡ 0) ⊎ (result.code ≡ 6)
        → AreBegun S.begun run.plan.antennas sources.new × (K.begun sink.new ≡ true) }
    ensures at_sources { (run : Settings) → HasRun (map string_bytes words.now) (D.left settings.old) run
        → AreAtOwn S.begun S.at run.inputs sources.new }
    ensures at_sink { (run : Settings) → HasRun (map string_bytes words.now) (D.left settings.old) run
        → IsAtOwn (K.begun sink.new) (K.at sink.new) run.output }
    ensures at_settings { (config : List ℕ) (serial : Bool)
        → form_of (map string_bytes words.now) ≡ Some (Correlate config serial)
        → IsAtOwn (D.begun settings.new) (D.at settings.new) config }
    ensures begun_settings { (result.code ≡ 0) ⊎ (result.code ≡ 6)
        → needs_text (map string_bytes words.now) ≡ true
        → D.begun settings.new ≡ true }

    // The same of `trial` and `simulate`, over simulated inputs; no source is used.
    ensures simulated_output { (command : Command) (run : Settings)
        → Simulates (map string_bytes words.now) (D.left settings.old) command run
        → (result.code ≡ 0) ⊎ (result.code ≡ 6)
        → Appended (K.sent sink.old) (strings_of command run) (K.sent sink.new) }
    ensures simulated_front { (command : Command) (run : Settings)
        → Simulates (map string_bytes words.now) (D.left settings.old) command run
        → result.code ≡ 4 → AppendsPackets (K.sent sink.old) (K.sent sink.new) (strings_of command run) }
    ensures simulated_sources { names_simulated (map string_bytes words.now) ≡ true
        → sources.new ≡ sources.old }

    // The causes of the statuses.
    ensures usage { (result.code ≡ 1) ↔ IsNone (form (map string_bytes words.now)) }
    ensures settings { result.code ≡ 2 → IsRefusedAs (map string_bytes words.now) (D.left settings.old)
        ⊎ IsRefusedFor (map string_bytes words.now) (D.left settings.old) }
    ensures refused { AreRefused (map string_bytes words.now) (D.left settings.old)
        → RefusedCode (map string_bytes words.now) result.code }
    ensures simulated_refused { AreRefusedFor (map string_bytes words.now) (D.left settings.old)
        → (result.code ≡ 2) ⊎ ((result.code ≡ 5) ⊎ (result.code ≡ 8)) }
    ensures settings_fault { result.code ≡ 8 → Rises (D.faults settings.old) (D.faults settings.new) }
    ensures source_fault { (run : Settings) → HasRun (map string_bytes words.now) (D.left settings.old) run
        → result.code ≡ 3
        → FaultOfSource run.plan S.begun S.faults sources.old sources.new (K.sent sink.old) (K.sent sink.new) }
    ensures sink_fault { result.code ≡ 4 → Rises (K.faults sink.old) (K.faults sink.new) }
    ensures print_fault { result.code ≡ 6 → Rises (P.faults print.old) (P.faults print.new) }
    ensures done { result.code ≡ 0
        → KeepsEach S.faults sources.old sources.new × (K.faults sink.new ≡ K.faults sink.old)
        × (P.faults print.new ≡ P.faults print.old) × (D.faults settings.new ≡ D.faults settings.old) }
    ensures whole { (run : Settings) → HasRun (map string_bytes words.now) (D.left settings.old) run
        → NoneRose run.plan S.faults sources.old sources.new
        → (Rose (K.faults sink.old) (K.faults sink.new) → ⊥)
        → (Rose (P.faults print.old) (P.faults print.new) → ⊥)
        → (Rose (D.faults settings.old) (D.faults settings.new) → ⊥)
        → (result.code ≡ 0) ⊎ (result.code ≡ 5) }
    ensures simulated_whole { (command : Command) (run : Settings)
        → Simulates (map string_bytes words.now) (D.left settings.old) command run
        → (Rose (K.faults sink.old) (K.faults sink.new) → ⊥)
        → (Rose (P.faults print.old) (P.faults print.new) → ⊥)
        → (Rose (D.faults settings.old) (D.faults settings.new) → ⊥)
        → (result.code ≡ 0) ⊎ (result.code ≡ 5) }

    // The answer that the run came to, with all that is known of it, and its text.
    ensures ran { names_tool (map string_bytes words.now) ≡ false
        → names_simulated (map string_bytes words.now) ≡ false
        → RanAs (map string_bytes words.now)
        (run_seen (sources_seen true S.gives S.given S.begun S.faults sources.old sources.new)
        (sink_seen K.sent K.begun K.at K.faults sink.old sink.new))
        (text_seen D.left D.faults settings.old settings.new)
        (P.written print.old) (P.written print.new) (P.faults print.old) (P.faults print.new) result.code }

    // The tools: what `relay`, `inspect` and `decode` come to over the first source, with their text.
    ensures tool { names_tool (map string_bytes words.now) ≡ true
        → (first : S) → first ≡ slice_index_or sources.old 0 first
        → (now : S) → now ≡ slice_index_or sources.new 0 now
        → ToolRan (form (map string_bytes words.now)) first now
        (source_seen S.gives S.given S.begun S.at S.faults first now)
        (sink_seen K.sent K.begun K.at K.faults sink.old sink.new)
        (print_seen P.written P.faults print.old print.new) result.code }
    ensures tool_sources { names_tool (map string_bytes words.now) ≡ true
        → AreSameFrom 1 sources.old sources.new }

    // Simulated inputs: what `trial` and `simulate` come to, with their text.
    ensures simulated { names_simulated (map string_bytes words.now) ≡ true
        → SimulatedRan true (form (map string_bytes words.now))
        (config_seen D.left D.begun D.at D.faults settings.old settings.new)
        (sink_seen K.sent K.begun K.at K.faults sink.old sink.new)
        (print_seen P.written P.faults print.old print.new) result.code }
{
    if names_tool(words) {
        return run_tool::<O, S, K, P>(alloc, words, &mut sources[0], sink, print);
    }
    if names_simulated(words) {
        return run_simulated::<O, K, P, D>(alloc, words, settings, sink, print);
    }
    tell(
        &answer::<O, S, K, D>(alloc, words, settings, sources, sink),
        print,
    )
}

// What the run of the words comes to.
fn answer<O: Observation, S: PacketSource<O>, K: PacketSink, D: TextSource>(
    alloc: Global,
    words: &[String],
    settings: &mut D,
    sources: &mut [S],
    sink: &mut K,
) -> Answer
    requires sources { length sources.old ≡ 64 }
    requires none_begun { All (λ s. S.begun s ≡ false) sources.old }
    requires sink { K.begun sink.old ≡ false }
    requires settings { D.begun settings.old ≡ false }
    ensures length { length sources.new ≡ length sources.old }
    ensures settings_source { needs_text (map string_bytes words.now) ≡ false → settings.new ≡ settings.old }
    ensures unused { (run : Settings) → HasRun (map string_bytes words.now) (D.left settings.old) run
        → AreSameFrom run.plan.antennas sources.old sources.new }
    ensures at_sources { (run : Settings) → HasRun (map string_bytes words.now) (D.left settings.old) run
        → AreAtOwn S.begun S.at run.inputs sources.new }
    ensures at_sink { (run : Settings) → HasRun (map string_bytes words.now) (D.left settings.old) run
        → IsAtOwn (K.begun sink.new) (K.at sink.new) run.output }
    ensures at_settings { (config : List ℕ) (serial : Bool)
        → form_of (map string_bytes words.now) ≡ Some (Correlate config serial)
        → IsAtOwn (D.begun settings.new) (D.at settings.new) config }
    ensures begun_settings { code_of result ≡ 0 → needs_text (map string_bytes words.now) ≡ true
        → D.begun settings.new ≡ true }
    ensures printable { IsPrintable result }
    ensures comes { Comes (map string_bytes words.now)
        (run_seen (sources_seen true S.gives S.given S.begun S.faults sources.old sources.new)
        (sink_seen K.sent K.begun K.at K.faults sink.old sink.new))
        (text_seen D.left D.faults settings.old settings.new) result }
{
    match said(alloc, words, settings) {
        Ok(asked) => run_asked::<O, S, K>(alloc, asked, sources, sink),
        Err(answer) => answer,
    }
}

// Runs what was asked for. All memory is taken before anything is begun.
fn run_asked<O: Observation, S: PacketSource<O>, K: PacketSink>(
    alloc: Global,
    asked: Asked,
    sources: &mut [S],
    sink: &mut K,
) -> Answer
    requires fits { Fits asked.settings.plan }
    requires inputs { length asked.settings.inputs ≡ asked.settings.plan.antennas }
    requires sources { length sources.old ≡ 64 }
    requires none_begun { All (λ s. S.begun s ≡ false) sources.old }
    requires sink { K.begun sink.old ≡ false }
    ensures length { length sources.new ≡ length sources.old }
    ensures unused { AreSameFrom asked.settings.plan.antennas sources.old sources.new }
    ensures at_sources { AreAtOwn S.begun S.at asked.settings.inputs sources.new }
    ensures at_sink { IsAtOwn (K.begun sink.new) (K.at sink.new) asked.settings.output }
    ensures printable { IsPrintable result }
    ensures runs { RunsPlan asked.telling asked.settings.plan
        (run_seen (sources_seen true S.gives S.given S.begun S.faults sources.old sources.new)
        (sink_seen K.sent K.begun K.at K.faults sink.old sink.new)) result }
{
    match prepare(alloc, &asked.settings.plan) {
        Ok(prepared) => run_prepared::<O, S, K>(prepared, &asked, sources, sink),
        Err(_) => Answer::NoMemory,
    }
}

// Begins the sources at their places, correlates and sends.
fn run_prepared<O: Observation, S: PacketSource<O>, K: PacketSink>(
    prepared: Prepared<Cross, Sender>,
    asked: &Asked,
    sources: &mut [S],
    sink: &mut K,
) -> Answer
    requires plan { prepared.plan ≡ asked.now.settings.plan }
    requires fits { Fits prepared.plan }
    requires inputs { length asked.now.settings.inputs ≡ prepared.plan.antennas }
    requires sources { length sources.old ≡ 64 }
    requires none_begun { All (λ s. S.begun s ≡ false) sources.old }
    requires sink { K.begun sink.old ≡ false }
    ensures length { length sources.new ≡ length sources.old }
    ensures unused { AreSameFrom prepared.plan.antennas sources.old sources.new }
    ensures at_sources { AreAtOwn S.begun S.at asked.now.settings.inputs sources.new }
    ensures at_sink { IsAtOwn (K.begun sink.new) (K.at sink.new) asked.now.settings.output }
    ensures printable { IsPrintable result }
    ensures runs { RunsPlan asked.now.telling prepared.plan
        (run_seen (sources_seen true S.gives S.given S.begun S.faults sources.old sources.new)
        (sink_seen K.sent K.begun K.at K.faults sink.old sink.new)) result }
{
    let settings = &asked.settings;
    if let Err(antenna) = begin_all::<O, S>(sources, settings.inputs.as_slice()) {
        return Answer::NotBegun(antenna);
    }
    run_begun::<O, S, K>(prepared, &settings.output, asked.telling, sources, sink)
}

// Begins the sink at the place, correlates and sends.
pub(crate) fn run_begun<O: Observation, S: PacketSource<O>, K: PacketSink>(
    prepared: Prepared<Cross, Sender>,
    place: &Place,
    telling: Telling,
    sources: &mut [S],
    sink: &mut K,
) -> Answer
    requires fits { Fits prepared.plan }
    requires enough { prepared.plan.antennas ≤ length sources.old }
    requires begun { AreBegun S.begun prepared.plan.antennas sources.old }
    ensures length { length sources.new ≡ length sources.old }
    ensures later { AreSameFrom prepared.plan.antennas sources.old sources.new }
    ensures at { KeepsEach S.at sources.old sources.new }
    ensures at_sink { IsAtOwn (K.begun sink.new) (K.at sink.new) place.now }
    ensures printable { IsPrintable result }
    ensures over { IsOverBegun result }
    ensures runs { RunsPlan telling prepared.plan
        (run_seen (sources_seen true S.gives S.given S.begun S.faults sources.old sources.new)
        (sink_seen K.sent K.begun K.at K.faults sink.old sink.new)) result }
{
    match sink.begin(place) {
        Ok(()) => correlate::<O, S, K>(prepared, telling, sources, sink),
        Err(_) => Answer::SinkFault,
    }
}

// Correlates what the sources give, and sends the output.
fn correlate<O: Observation, S: PacketSource<O>, K: PacketSink>(
    prepared: Prepared<Cross, Sender>,
    telling: Telling,
    sources: &mut [S],
    sink: &mut K,
) -> Answer
    requires fits { Fits prepared.plan }
    requires enough { prepared.plan.antennas ≤ length sources.old }
    requires begun { AreBegun S.begun prepared.plan.antennas sources.old }
    requires sink { K.begun sink.old ≡ true }
    ensures length { length sources.new ≡ length sources.old }
    ensures later { AreSameFrom prepared.plan.antennas sources.old sources.new }
    ensures at { KeepsEach S.at sources.old sources.new }
    ensures at_sink { K.at sink.new ≡ K.at sink.old }
    ensures printable { IsPrintable result }
    ensures over { IsOverBegun result }
    ensures runs { RunsPlan telling prepared.plan
        (run_seen (sources_seen true S.gives S.given S.begun S.faults sources.old sources.new)
        (sink_seen K.sent K.begun K.at K.faults sink.old sink.new)) result }
{
    let outcome = correlate_serial::<O, S, K>(prepared, sources, sink);
    answer_of(telling, outcome)
}
