//! One run of the program, in threads where the words ask for them.

ghost use Rattle.std.specs.Prelude.{◌≡◌, ◌↔◌, ◌⊎◌, ℕ, ◌<◌, Bool, true, false, List, Some, IsNone, All, is_some, length, map, slice_index_or, string_bytes};
ghost use Rattle.corr_model.specs.Outputs.{output};
ghost use Rattle.corr_site.specs.Outside.{Appended, Rises, Rose};
ghost use Rattle.corr_words.specs.declared.command.Command.{Command};
ghost use Rattle.corr_words.specs.declared.command.Command.TheVariants.{Correlate};
ghost use Rattle.corr_words.specs.Forms.{form};
ghost use Rattle.corr_settings.specs.declared.settings.Settings.{Settings};
ghost use Rattle.corr_serial.specs.Sources.{AreBegun, AreSameFrom, KeepsEach};
ghost use Rattle.corr_serial.specs.Runs.{AreGiven, GaveTaken, NoneRose, list_of};
ghost use Rattle.corr_cli.specs.Said.{AreRefused, HasRun, form_of, needs_text};
ghost use Rattle.corr_cli.specs.Placing.{IsAtOwn, AreAtOwn};
ghost use Rattle.corr_cli.specs.Tools.{ToolRan, names_tool};
ghost use Rattle.corr_cli.specs.Simulating.{AreRefusedFor, IsRefusedFor, SimulatedRan, Simulates, names_simulated, reads_settings, strings_of};
ghost use Rattle.corr_cli.specs.Observed.{Observes, ObservesTrial, asks_threads, asks_trial, is_known};
ghost use Rattle.corr_cli.specs.Runs.{AppendsPackets, FaultOfSource, IsRefusedAs, IsUntouched, IsWhole, RanAs, RefusedCode};
ghost use Rattle.corr_cli.specs.Seeing.{config_seen, print_seen, run_seen, sink_seen, source_seen, sources_seen, text_seen};

use crate::answer::Status;
use crate::in_threads::answer_in_threads;
use crate::report::tell;
use crate::returning::run_returning;
use crate::simulated::names_simulated;
use crate::trial::trial_in_threads;
use corr_model::Observation;
use corr_site::{Gate, PacketSink, PacketSource, TextSink, TextSource};
use corr_threads::Seat;
use corr_words::needs_threads;
use std::alloc::Global;
use std::sync::Wait;
use std::thread::Threads;

/// Runs the command of the words as `run_returning` does, but for words that ask for threads, which
/// are those of `correlate` and `trial` without the flag: a thread receives each stream, as many
/// workers as the plan has multiply, and the calling thread sends; without workers it multiplies too.
///
/// `theorem` is the correlation theorem for any schedule: where the observation names its lists,
/// and the status is 0 or 6, or 3 with all of the plan's sources begun, exactly the output that the
/// definitions give for the observation's plan and lists was appended to what the sink got,
/// whatever order the threads take their steps in. `trial_theorem` says the same of `trial`, where
/// the observation's lists are the simulated inputs; with status 4 a front of that output was
/// appended (`theorem_front`, `trial_front`). An observation has no value when the program runs, so
/// the same code runs for every one.
///
/// Where words ask for threads it is not promised that the call returns.
pub fn run<
    O: Observation + Send + Sync,
    S: PacketSource<O> + Send,
    K: PacketSink,
    P: TextSink,
    D: TextSource,
    G: Gate + Sync,
    R: Threads + Wait + Sync,
>(
    rt: &R,
    alloc: Global,
    words: &[String],
    settings: &mut D,
    sources: &mut [Seat<O, S>],
    sink: &mut K,
    print: &mut P,
    gate: &G,
) -> Status
    requires sources { length sources.old ≡ 64 }
    requires none_begun { All (λ s. S.begun s.source ≡ false) sources.old }
    requires sink { K.begun sink.old ≡ false }
    requires settings { D.begun settings.old ≡ false }
    requires observed { O.names ≡ true → asks_threads (map string_bytes words.now) ≡ true
        → is_some (form_of (map string_bytes words.now)) ≡ true
        → Observes O.plan (λ s. S.belongs s.source) (λ s. S.given s.source)
        (map string_bytes words.now) (D.left settings.old) sources.old }
    requires simulated { O.names ≡ true → asks_trial (map string_bytes words.now) ≡ true
        → is_some (form (map string_bytes words.now)) ≡ true
        → ObservesTrial O.plan O.list (map string_bytes words.now) (D.left settings.old) }

    // What stays.
    ensures length { length sources.new ≡ length sources.old }
    ensures settings_source { reads_settings (map string_bytes words.now) ≡ false
        → settings.new ≡ settings.old }
    ensures unused { (run : Settings)
        → HasRun (map string_bytes words.now) (D.left settings.old) run
        → AreSameFrom run.plan.antennas sources.old sources.new }
    ensures no_memory { result.code ≡ 5 → IsUntouched sources.old sources.new
        (K.begun sink.new) (K.sent sink.old) (K.sent sink.new) }

    // The correlation theorem, of an observation's own lists, and of those that the sources tell.
    ensures theorem { O.names ≡ true → asks_threads (map string_bytes words.now) ≡ true
        → is_some (form_of (map string_bytes words.now)) ≡ true
        → IsWhole result.code (λ s. S.begun s.source) O.plan sources.new
        → Appended (K.sent sink.old) (output O.plan O.list) (K.sent sink.new) }
    ensures theorem_front { O.names ≡ true → asks_threads (map string_bytes words.now) ≡ true
        → is_some (form_of (map string_bytes words.now)) ≡ true
        → result.code ≡ 4
        → AppendsPackets (K.sent sink.old) (K.sent sink.new) (output O.plan O.list) }
    ensures trial_theorem { O.names ≡ true → asks_trial (map string_bytes words.now) ≡ true
        → is_some (form (map string_bytes words.now)) ≡ true
        → (result.code ≡ 0) ⊎ (result.code ≡ 6)
        → Appended (K.sent sink.old) (output O.plan O.list) (K.sent sink.new) }
    ensures trial_front { O.names ≡ true → asks_trial (map string_bytes words.now) ≡ true
        → is_some (form (map string_bytes words.now)) ≡ true
        → result.code ≡ 4
        → AppendsPackets (K.sent sink.old) (K.sent sink.new) (output O.plan O.list) }
    ensures output { is_known O.names (map string_bytes words.now) ≡ true
        → (run : Settings) (lists : List (List (List ℕ)))
        → HasRun (map string_bytes words.now) (D.left settings.old) run
        → AreGiven run.plan (λ s. S.gives s.source) (λ s. S.given s.source) sources.old lists
        → IsWhole result.code (λ s. S.begun s.source) run.plan sources.new
        → Appended (K.sent sink.old) (output run.plan (list_of lists)) (K.sent sink.new) }
    ensures taken { is_known O.names (map string_bytes words.now) ≡ true → (run : Settings)
        → HasRun (map string_bytes words.now) (D.left settings.old) run
        → IsWhole result.code (λ s. S.begun s.source) run.plan sources.new
        → GaveTaken run.plan (λ s. S.gives s.source) (λ s. S.given s.source)
        sources.old sources.new }
    ensures front { is_known O.names (map string_bytes words.now) ≡ true
        → (run : Settings) (lists : List (List (List ℕ)))
        → HasRun (map string_bytes words.now) (D.left settings.old) run
        → AreGiven run.plan (λ s. S.gives s.source) (λ s. S.given s.source) sources.old lists
        → result.code ≡ 4
        → AppendsPackets (K.sent sink.old) (K.sent sink.new) (output run.plan (list_of lists)) }

    // What is begun, and where.
    ensures begun { (run : Settings)
        → HasRun (map string_bytes words.now) (D.left settings.old) run
        → (result.code ≡ 0) ⊎ (result.code ≡ 6)
        → AreBegun (λ s. S.begun s.source) run.plan.antennas sources.new
        × (K.begun sink.new ≡ true) }
    ensures at_sources { (run : Settings)
        → HasRun (map string_bytes words.now) (D.left settings.old) run
        → AreAtOwn (λ s. S.begun s.source) (λ s. S.at s.source) run.inputs sources.new }
    ensures at_sink { (run : Settings)
        → HasRun (map string_bytes words.now) (D.left settings.old) run
        → IsAtOwn (K.begun sink.new) (K.at sink.new) run.output }
    ensures at_settings { (config : List ℕ) (serial : Bool)
        → form_of (map string_bytes words.now) ≡ Some (Correlate config serial)
        → IsAtOwn (D.begun settings.new) (D.at settings.new) config }
    ensures begun_settings { (result.code ≡ 0) ⊎ (result.code ≡ 6)
        → needs_text (map string_bytes words.now) ≡ true → D.begun settings.new ≡ true }

    // The same of `trial` and `simulate`, over simulated inputs; no source is used.
    ensures simulated_output { is_known O.names (map string_bytes words.now) ≡ true
        → (command : Command) (run : Settings)
        → Simulates (map string_bytes words.now) (D.left settings.old) command run
        → (result.code ≡ 0) ⊎ (result.code ≡ 6)
        → Appended (K.sent sink.old) (strings_of command run) (K.sent sink.new) }
    ensures simulated_front { is_known O.names (map string_bytes words.now) ≡ true
        → (command : Command) (run : Settings)
        → Simulates (map string_bytes words.now) (D.left settings.old) command run
        → result.code ≡ 4
        → AppendsPackets (K.sent sink.old) (K.sent sink.new) (strings_of command run) }
    ensures simulated_sources { names_simulated (map string_bytes words.now) ≡ true
        → sources.new ≡ sources.old }

    // The causes of the statuses.
    ensures usage { (result.code ≡ 1) ↔ IsNone (form (map string_bytes words.now)) }
    ensures settings { result.code ≡ 2
        → IsRefusedAs (map string_bytes words.now) (D.left settings.old)
        ⊎ IsRefusedFor (map string_bytes words.now) (D.left settings.old) }
    ensures refused { AreRefused (map string_bytes words.now) (D.left settings.old)
        → RefusedCode (map string_bytes words.now) result.code }
    ensures simulated_refused { AreRefusedFor (map string_bytes words.now) (D.left settings.old)
        → (result.code ≡ 2) ⊎ ((result.code ≡ 5) ⊎ (result.code ≡ 8)) }
    ensures settings_fault { result.code ≡ 8
        → Rises (D.faults settings.old) (D.faults settings.new) }
    ensures source_fault { (run : Settings)
        → HasRun (map string_bytes words.now) (D.left settings.old) run → result.code ≡ 3
        → FaultOfSource run.plan (λ s. S.begun s.source) (λ s. S.faults s.source)
        sources.old sources.new (K.sent sink.old) (K.sent sink.new) }
    ensures sink_fault { result.code ≡ 4 → Rises (K.faults sink.old) (K.faults sink.new) }
    ensures print_fault { result.code ≡ 6 → Rises (P.faults print.old) (P.faults print.new) }
    ensures done { result.code ≡ 0
        → KeepsEach (λ s. S.faults s.source) sources.old sources.new
        × (K.faults sink.new ≡ K.faults sink.old)
        × (P.faults print.new ≡ P.faults print.old)
        × (D.faults settings.new ≡ D.faults settings.old) }
    ensures whole { (run : Settings)
        → HasRun (map string_bytes words.now) (D.left settings.old) run
        → NoneRose run.plan (λ s. S.faults s.source) sources.old sources.new
        → (Rose (K.faults sink.old) (K.faults sink.new) → ⊥)
        → (Rose (P.faults print.old) (P.faults print.new) → ⊥)
        → (Rose (D.faults settings.old) (D.faults settings.new) → ⊥)
        → (result.code ≡ 0) ⊎ (result.code ≡ 5) }

    ensures simulated_whole { (command : Command) (run : Settings)
        → Simulates (map string_bytes words.now) (D.left settings.old) command run
        → (Rose (K.faults sink.old) (K.faults sink.new) → ⊥)
        → (Rose (P.faults print.old) (P.faults print.new) → ⊥)
        → (Rose (D.faults settings.old) (D.faults settings.new) → ⊥)
        → (result.code ≡ 0) ⊎ (result.code ≡ 5) }

    // The answer that the run came to, with all that is known of it, and its text.
    ensures ran { names_tool (map string_bytes words.now) ≡ false
        → names_simulated (map string_bytes words.now) ≡ false → RanAs (map string_bytes words.now)
        (run_seen (sources_seen (is_known O.names (map string_bytes words.now))
        (λ s. S.gives s.source) (λ s. S.given s.source)
        (λ s. S.begun s.source) (λ s. S.faults s.source) sources.old sources.new)
        (sink_seen K.sent K.begun K.at K.faults sink.old sink.new))
        (text_seen D.left D.faults settings.old settings.new)
        (P.written print.old) (P.written print.new) (P.faults print.old) (P.faults print.new)
        result.code }

    // The tools: what `relay`, `inspect` and `decode` come to over the first source.
    ensures tool { names_tool (map string_bytes words.now) ≡ true
        → (first : _) → first ≡ slice_index_or sources.old 0 first
        → (now : _) → now ≡ slice_index_or sources.new 0 now
        → ToolRan (form (map string_bytes words.now)) first now
        (source_seen S.gives S.given S.begun S.at S.faults first.source now.source)
        (sink_seen K.sent K.begun K.at K.faults sink.old sink.new)
        (print_seen P.written P.faults print.old print.new) result.code }
    ensures tool_sources { names_tool (map string_bytes words.now) ≡ true
        → AreSameFrom 1 sources.old sources.new }

    // Simulated inputs: what `trial` and `simulate` come to, with their text.
    ensures simulated { names_simulated (map string_bytes words.now) ≡ true
        → SimulatedRan (is_known O.names (map string_bytes words.now))
        (form (map string_bytes words.now))
        (config_seen D.left D.begun D.at D.faults settings.old settings.new)
        (sink_seen K.sent K.begun K.at K.faults sink.old sink.new)
        (print_seen P.written P.faults print.old print.new) result.code }
{
    if asks_threads(words) {
        return tell(
            &answer_in_threads(rt, gate, alloc, words, settings, sources, sink),
            print,
        );
    }
    if needs_threads(words) {
        return trial_in_threads::<O, K, P, D, G, R>(rt, gate, alloc, words, settings, sink, print);
    }
    run_returning::<O, Seat<O, S>, K, P, D>(alloc, words, settings, sources, sink, print)
}

// Whether the words ask for a run over the sources in threads.
fn asks_threads(words: &[String]) -> bool
    ensures { result ≡ asks_threads (map string_bytes words.now) }
{
    needs_threads(words) && !names_simulated(words)
}
