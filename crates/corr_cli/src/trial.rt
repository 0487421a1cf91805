//! A trial in threads: the simulated input of each antenna is received by a thread of its own.

ghost use Rattle.std.specs.Prelude.{◌≡◌, ℕ, Bool, List, None, false, true, is_some, map, string_bytes};
ghost use Rattle.corr_model.specs.Plans.{Fits};
ghost use Rattle.corr_words.specs.declared.command.Command.TheVariants.{Trial};
ghost use Rattle.corr_words.specs.Forms.{form};
ghost use Rattle.corr_settings.specs.declared.settings.Settings.{Settings};
ghost use Rattle.corr_cli.specs.Placing.{IsAtOwn};
ghost use Rattle.corr_cli.specs.Texts.{IsPrintable};
ghost use Rattle.corr_cli.specs.Observed.{IsTrialOf, ObservesTrial, TextSays, asks_trial};
ghost use Rattle.corr_cli.specs.Simulating.{ComesTo, IsTrial, RunsFor, SimulatedRan, WordsCome, config_of};
ghost use Rattle.corr_cli.specs.Seeing.{config_seen, print_seen, sink_seen};

use crate::answer::{Answer, Status};
use crate::in_threads::{run_begun, shared};
use crate::report::tell;
use crate::said::{Telling, said_text};
use crate::simulated::simulated_seats;
use ant_sim::SimSource;
use corr_model::Observation;
use corr_settings::Settings;
use corr_site::{Gate, PacketSink, Text, TextSink, TextSource};
use corr_words::{Command, WordRefusal, read as read_words};
use std::alloc::Global;
use std::sync::Wait;
use std::thread::Threads;

/// Runs the trial of the words in threads, and prints its text. No source is used.
pub(crate) fn trial_in_threads<
    O: Observation + Send + Sync,
    K: PacketSink,
    P: TextSink,
    D: TextSource,
    G: Gate + Sync,
    R: Threads + Wait + Sync,
>(
    rt: &R,
    gate: &G,
    alloc: Global,
    words: &[String],
    settings: &mut D,
    sink: &mut K,
    print: &mut P,
) -> Status
    requires trial { asks_trial (map string_bytes words.now) ≡ true }
    requires settings { D.begun settings.old ≡ false }
    requires sink { K.begun sink.old ≡ false }
    requires observed { O.names ≡ true → is_some (form (map string_bytes words.now)) ≡ true
        → ObservesTrial O.plan O.list (map string_bytes words.now) (D.left settings.old) }
    ensures unread { form (map string_bytes words.now) ≡ None → settings.new ≡ settings.old }
    ensures ran { SimulatedRan O.names (form (map string_bytes words.now))
        (config_seen D.left D.begun D.at D.faults settings.old settings.new)
        (sink_seen K.sent K.begun K.at K.faults sink.old sink.new)
        (print_seen P.written P.faults print.old print.new) result.code }
{
    tell(
        &words_answer::<O, K, D, G, R>(rt, gate, alloc, words, settings, sink),
        print,
    )
}

// What the words come to.
fn words_answer<
    O: Observation + Send + Sync,
    K: PacketSink,
    D: TextSource,
    G: Gate + Sync,
    R: Threads + Wait + Sync,
>(rt: &R, gate: &G, alloc: Global, words: &[String], settings: &mut D, sink: &mut K) -> Answer
    requires trial { asks_trial (map string_bytes words.now) ≡ true }
    requires settings { D.begun settings.old ≡ false }
    requires sink { K.begun sink.old ≡ false }
    requires observed { O.names ≡ true → is_some (form (map string_bytes words.now)) ≡ true
        → ObservesTrial O.plan O.list (map string_bytes words.now) (D.left settings.old) }
    ensures printable { IsPrintable result }
    ensures unread { form (map string_bytes words.now) ≡ None → settings.new ≡ settings.old }
    ensures comes { WordsCome O.names (form (map string_bytes words.now))
        (config_seen D.left D.begun D.at D.faults settings.old settings.new)
        (sink_seen K.sent K.begun K.at K.faults sink.old sink.new) result }
{
    match read_words(alloc, words) {
        Ok(command) => run_trial::<O, K, D, G, R>(rt, gate, alloc, &command, settings, sink),
        Err(WordRefusal::Usage) => Answer::Usage,
        Err(WordRefusal::NoMemory) => Answer::NoMemory,
    }
}

// What the trial comes to.
fn run_trial<
    O: Observation + Send + Sync,
    K: PacketSink,
    D: TextSource,
    G: Gate + Sync,
    R: Threads + Wait + Sync,
>(rt: &R, gate: &G, alloc: Global, command: &Command, settings: &mut D, sink: &mut K) -> Answer
    requires trial { IsTrial command.now }
    requires settings { D.begun settings.old ≡ false }
    requires sink { K.begun sink.old ≡ false }
    requires observed { O.names ≡ true
        → (config : List ℕ) (seed : ℕ) (serial : Bool) (run : Settings)
        → command.now ≡ Trial config seed serial
        → TextSays (D.left settings.old) run → IsTrialOf O.plan O.list run.plan seed }
    ensures printable { IsPrintable result }
    ensures at { IsAtOwn (D.begun settings.new) (D.at settings.new) (config_of command.now) }
    ensures comes { ComesTo O.names command.now
        (config_seen D.left D.begun D.at D.faults settings.old settings.new)
        (sink_seen K.sent K.begun K.at K.faults sink.old sink.new) result }
{
    match command {
        Command::Trial(config, seed, _) => {
            trial::<O, K, D, G, R>(rt, gate, alloc, config, *seed, settings, sink)
        }
        Command::Simulate(..) => unreachable!(),
        Command::Plain(_) => unreachable!(),
        Command::Correlate(..) => unreachable!(),
        Command::Relay(..) => unreachable!(),
        Command::Inspect(_) => unreachable!(),
        Command::Decode(..) => unreachable!(),
    }
}

// Reads the settings, and correlates the simulated inputs of all antennas.
fn trial<
    O: Observation + Send + Sync,
    K: PacketSink,
    D: TextSource,
    G: Gate + Sync,
    R: Threads + Wait + Sync,
>(
    rt: &R,
    gate: &G,
    alloc: Global,
    config: &Text,
    seed: u64,
    settings: &mut D,
    sink: &mut K,
) -> Answer
    requires settings { D.begun settings.old ≡ false }
    requires sink { K.begun sink.old ≡ false }
    requires observed { O.names ≡ true → (run : Settings) → TextSays (D.left settings.old) run
        → IsTrialOf O.plan O.list run.plan seed }
    ensures printable { IsPrintable result }
    ensures at { IsAtOwn (D.begun settings.new) (D.at settings.new) config.now }
    ensures comes { (serial : Bool) → ComesTo O.names (Trial config.now seed serial)
        (config_seen D.left D.begun D.at D.faults settings.old settings.new)
        (sink_seen K.sent K.begun K.at K.faults sink.old sink.new) result }
{
    match said_text(alloc, config, settings) {
        Ok(asked) => correlate::<O, K, G, R>(rt, gate, alloc, &asked.settings, seed, sink),
        Err(answer) => answer,
    }
}

// Correlates the simulated inputs of all antennas, and sends the output to its place.
fn correlate<O: Observation + Send + Sync, K: PacketSink, G: Gate + Sync, R: Threads + Wait + Sync>(
    rt: &R,
    gate: &G,
    alloc: Global,
    settings: &Settings,
    seed: u64,
    sink: &mut K,
) -> Answer
    requires fits { Fits settings.now.plan }
    requires sink { K.begun sink.old ≡ false }
    requires observed { O.names ≡ true → IsTrialOf O.plan O.list settings.now.plan seed }
    ensures printable { IsPrintable result }
    ensures runs { (config : List ℕ) (serial : Bool) → RunsFor O.names (Trial config seed serial) settings.now
        (sink_seen K.sent K.begun K.at K.faults sink.old sink.new) result }
{
    let Ok(ready) = shared::<O>(alloc, &settings.plan) else {
        return Answer::NoMemory;
    };
    match simulated_seats::<O>(alloc, &settings.plan, seed) {
        Ok(mut seats) => run_begun::<O, SimSource<O>, K, G, R>(
            rt,
            gate,
            ready,
            &settings.output,
            Telling::Summary,
            &mut seats,
            sink,
        ),
        Err(_) => Answer::NoMemory,
    }
}
