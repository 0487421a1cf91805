//! Runs over simulated inputs: `trial` correlates those of all antennas, `simulate` sends that of one.

ghost use Rattle.std.specs.Prelude.{◌≡◌, ◌<◌, ◌^◌, ℕ, Bool, List, None, true, false, IfOk, length, map, string_bytes};
ghost use Rattle.corr_model.specs.Plans.{Fits};
ghost use Rattle.corr_words.specs.declared.command.Command.TheVariants.{Trial, Simulate};
ghost use Rattle.corr_words.specs.Forms.{form};
ghost use Rattle.corr_settings.specs.declared.settings.Settings.{Settings};
ghost use Rattle.ant_sim.specs.Simulated.{simulated};
ghost use Rattle.ant_sim.specs.Blocks.{rest_of};
ghost use Rattle.corr_cli.specs.Placing.{IsAtOwn};
ghost use Rattle.corr_cli.specs.Texts.{IsPrintable};
ghost use Rattle.corr_cli.specs.Simulating.{AreSimulated, ComesTo, IsOfSimulated, NeverFails, RunsFor, SendsList, SimulatedRan, WordsCome, answer_to, config_of, names_simulated};
ghost use Rattle.corr_cli.specs.Seeing.{config_seen, print_seen, sink_seen};

use crate::answer::{Answer, Status};
use crate::report::tell;
use crate::returning::run_begun;
use crate::said::{Telling, said_text};
use ant_sim::SimSource;
use corr_model::{Observation, Plan};
use corr_serial::prepare;
use corr_settings::{Settings, antenna_refusal};
use corr_site::{NoMemory, PacketSink, Place, Text, TextSink, TextSource};
use corr_threads::Seat;
use corr_tools::{Relayed, relay};
use corr_words::{Command, WordRefusal, read as read_words};
use std::alloc::Global;

// Whether the second word is the name of a command over simulated inputs.
pub(crate) fn names_simulated(words: &[String]) -> bool
    ensures { result ≡ names_simulated (map string_bytes words.now) }
{
    if words.len() < 2 {
        return false;
    }
    words[1].as_str() == "trial" || words[1].as_str() == "simulate"
}

/// Runs the command of the words over simulated inputs, and prints its text. No source is used.
pub(crate) fn run_simulated<O: Observation, K: PacketSink, P: TextSink, D: TextSource>(
    alloc: Global,
    words: &[String],
    settings: &mut D,
    sink: &mut K,
    print: &mut P,
) -> Status
    requires simulated { names_simulated (map string_bytes words.now) ≡ true }
    requires settings { D.begun settings.old ≡ false }
    requires sink { K.begun sink.old ≡ false }
    ensures unread { form (map string_bytes words.now) ≡ None → settings.new ≡ settings.old }
    ensures ran { SimulatedRan true (form (map string_bytes words.now))
        (config_seen D.left D.begun D.at D.faults settings.old settings.new)
        (sink_seen K.sent K.begun K.at K.faults sink.old sink.new)
        (print_seen P.written P.faults print.old print.new) result.code }
{
    tell(
        &words_answer::<O, K, D>(alloc, words, settings, sink),
        print,
    )
}

// What the words come to.
fn words_answer<O: Observation, K: PacketSink, D: TextSource>(
    alloc: Global,
    words: &[String],
    settings: &mut D,
    sink: &mut K,
) -> Answer
    requires simulated { names_simulated (map string_bytes words.now) ≡ true }
    requires settings { D.begun settings.old ≡ false }
    requires sink { K.begun sink.old ≡ false }
    ensures printable { IsPrintable result }
    ensures unread { form (map string_bytes words.now) ≡ None → settings.new ≡ settings.old }
    ensures comes { WordsCome true (form (map string_bytes words.now))
        (config_seen D.left D.begun D.at D.faults settings.old settings.new)
        (sink_seen K.sent K.begun K.at K.faults sink.old sink.new) result }
{
    match read_words(alloc, words) {
        Ok(command) => command_answer::<O, K, D>(alloc, &command, settings, sink),
        Err(WordRefusal::Usage) => Answer::Usage,
        Err(WordRefusal::NoMemory) => Answer::NoMemory,
    }
}

// What the command comes to.
fn command_answer<O: Observation, K: PacketSink, D: TextSource>(
    alloc: Global,
    command: &Command,
    settings: &mut D,
    sink: &mut K,
) -> Answer
    requires simulated { IsOfSimulated command.now }
    requires settings { D.begun settings.old ≡ false }
    requires sink { K.begun sink.old ≡ false }
    ensures printable { IsPrintable result }
    ensures at { IsAtOwn (D.begun settings.new) (D.at settings.new) (config_of command.now) }
    ensures comes { ComesTo true command.now
        (config_seen D.left D.begun D.at D.faults settings.old settings.new)
        (sink_seen K.sent K.begun K.at K.faults sink.old sink.new) result }
{
    match command {
        Command::Trial(config, seed, _) => {
            trial::<O, K, D>(alloc, config, *seed, settings, sink)
        }
        Command::Simulate(config, seed, antenna, out) => {
            simulate::<O, K, D>(alloc, config, *seed, *antenna, out, settings, sink)
        }
        Command::Plain(_) => unreachable!(),
        Command::Correlate(..) => unreachable!(),
        Command::Relay(..) => unreachable!(),
        Command::Inspect(_) => unreachable!(),
        Command::Decode(..) => unreachable!(),
    }
}

// Reads the settings, and correlates the simulated inputs of all antennas.
fn trial<O: Observation, K: PacketSink, D: TextSource>(
    alloc: Global,
    config: &Text,
    seed: u64,
    settings: &mut D,
    sink: &mut K,
) -> Answer
    requires settings { D.begun settings.old ≡ false }
    requires sink { K.begun sink.old ≡ false }
    ensures printable { IsPrintable result }
    ensures at { IsAtOwn (D.begun settings.new) (D.at settings.new) config.now }
    ensures comes { (serial : Bool) → ComesTo true (Trial config.now seed serial)
        (config_seen D.left D.begun D.at D.faults settings.old settings.new)
        (sink_seen K.sent K.begun K.at K.faults sink.old sink.new) result }
{
    match said_text(alloc, config, settings) {
        Ok(asked) => correlate_simulated::<O, K>(alloc, &asked.settings, seed, sink),
        Err(answer) => answer,
    }
}

// Correlates the simulated inputs of all antennas, and sends the output to its place.
fn correlate_simulated<O: Observation, K: PacketSink>(
    alloc: Global,
    settings: &Settings,
    seed: u64,
    sink: &mut K,
) -> Answer
    requires fits { Fits settings.now.plan }
    requires sink { K.begun sink.old ≡ false }
    ensures printable { IsPrintable result }
    ensures runs { (config : List ℕ) (serial : Bool) → RunsFor true (Trial config seed serial) settings.now
        (sink_seen K.sent K.begun K.at K.faults sink.old sink.new) result }
{
    let Ok(prepared) = prepare(alloc, &settings.plan) else {
        return Answer::NoMemory;
    };
    match simulated_seats::<O>(alloc, &settings.plan, seed) {
        Ok(mut seats) => run_begun::<O, Seat<O, SimSource<O>>, K>(
            prepared,
            &settings.output,
            Telling::Summary,
            &mut seats,
            sink,
        ),
        Err(_) => Answer::NoMemory,
    }
}

/// A seat for each antenna, with its simulated input as the source.
pub(crate) fn simulated_seats<O: Observation>(
    alloc: Global,
    plan: &Plan,
    seed: u64,
) -> Result<Vec<Seat<O, SimSource<O>>>, NoMemory>
    requires { Fits plan.now }
    ensures { IfOk result (λ seats. AreSimulated plan.now seed (λ s. s.source) seats.items) }
{
    let mut seats = Vec::with_capacity(alloc, plan.antennas as usize)?;
    for antenna in 0..plan.antennas {
        let source = SimSource::new(alloc, plan, seed, antenna)?;
        let seat = Seat::new(source);
        seats.push_reserved(seat);
    }
    Ok(seats)
}

// Reads the settings, and sends the simulated input of an antenna.
fn simulate<O: Observation, K: PacketSink, D: TextSource>(
    alloc: Global,
    config: &Text,
    seed: u64,
    antenna: u64,
    out: &Place,
    settings: &mut D,
    sink: &mut K,
) -> Answer
    requires settings { D.begun settings.old ≡ false }
    requires sink { K.begun sink.old ≡ false }
    ensures printable { IsPrintable result }
    ensures at { IsAtOwn (D.begun settings.new) (D.at settings.new) config.now }
    ensures comes { ComesTo true (Simulate config.now seed antenna out.now)
        (config_seen D.left D.begun D.at D.faults settings.old settings.new)
        (sink_seen K.sent K.begun K.at K.faults sink.old sink.new) result }
{
    match said_text(alloc, config, settings) {
        Ok(asked) => send_antenna::<O, K>(alloc, &asked.settings.plan, seed, antenna, out, sink),
        Err(answer) => answer,
    }
}

// Sends the simulated input of an antenna, where the plan has it.
fn send_antenna<O: Observation, K: PacketSink>(
    alloc: Global,
    plan: &Plan,
    seed: u64,
    antenna: u64,
    out: &Place,
    sink: &mut K,
) -> Answer
    requires fits { Fits plan.now }
    requires sink { K.begun sink.old ≡ false }
    ensures printable { IsPrintable result }
    ensures runs { (config : List ℕ) (run : Settings) → run.plan ≡ plan.now
        → RunsFor true (Simulate config seed antenna out.now) run
        (sink_seen K.sent K.begun K.at K.faults sink.old sink.new) result }
{
    match antenna_refusal(plan, antenna) {
        Some(refusal) => Answer::Settings(refusal),
        None => send_input::<O, K>(alloc, plan, seed, antenna as u32, out, sink),
    }
}

// Sends the simulated input of an antenna of the plan to its place.
fn send_input<O: Observation, K: PacketSink>(
    alloc: Global,
    plan: &Plan,
    seed: u64,
    antenna: u32,
    out: &Place,
    sink: &mut K,
) -> Answer
    requires fits { Fits plan.now }
    requires antenna { antenna < plan.now.antennas }
    requires sink { K.begun sink.old ≡ false }
    ensures at { IsAtOwn (K.begun sink.new) (K.at sink.new) out.now }
    ensures sends { SendsList (simulated plan.now seed antenna)
        (sink_seen K.sent K.begun K.at K.faults sink.old sink.new) result }
{
    match SimSource::<O>::new(alloc, plan, seed, antenna) {
        Ok(mut source) => send_all::<O, K>(&mut source, out, sink),
        Err(_) => Answer::NoMemory,
    }
}

// Sends all that a source gives that has given nothing yet.
fn send_all<O: Observation, K: PacketSink>(
    source: &mut SimSource<O>,
    out: &Place,
    sink: &mut K,
) -> Answer
    requires whole { rest_of source.old ≡ simulated source.old.plan source.old.seed source.old.antenna }
    requires few { length (simulated source.old.plan source.old.seed source.old.antenna) < 2 ^ 64 }
    requires sink { K.begun sink.old ≡ false }
    ensures at { IsAtOwn (K.begun sink.new) (K.at sink.new) out.now }
    ensures sends { SendsList (simulated source.old.plan source.old.seed source.old.antenna)
        (sink_seen K.sent K.begun K.at K.faults sink.old sink.new) result }
{
    match sink.begin(out) {
        Ok(()) => answer_to(relay::<O, SimSource<O>, K>(source, sink, u64::MAX)),
        Err(_) => Answer::SinkFault,
    }
}

// The answer to a relay whose source never fails.
fn answer_to(relayed: Relayed) -> Answer
    requires { NeverFails relayed }
    ensures { result ≡ answer_to relayed }
{
    match relayed {
        Relayed::Done(packets) => Answer::Simulated(packets),
        Relayed::SinkFault => Answer::SinkFault,
        Relayed::SourceFault(_) => unreachable!(),
    }
}
