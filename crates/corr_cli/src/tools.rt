//! Runs of the tools: byte strings sent on, printed as packets, and read as visibilities.

ghost use Rattle.std.specs.Prelude.{◌≡◌, ◌==◌, true, false, map, string_bytes, if◌then◌else◌};
ghost use Rattle.corr_site.specs.Outside.{HasCause, Writes};
ghost use Rattle.corr_words.specs.Forms.{form};
ghost use Rattle.corr_cli.specs.Tools.{CommandRan, IsOfTool, RelayComes, RelayRan, TellsText, ToolRan, names_tool, read_code, relay_code, relay_text};
ghost use Rattle.corr_cli.specs.Placing.{IsAtOwn};
ghost use Rattle.corr_cli.specs.Texts.{unprinted};
ghost use Rattle.corr_cli.specs.Seeing.{print_seen, sink_seen, source_seen};

use crate::answer::{Answer, Status};
use crate::printing::{run_decode, run_inspect};
use crate::report::{print_status, tell};
use corr_model::Observation;
use corr_report::StatusLine;
use corr_site::{Failed, PacketSink, PacketSource, Place, TextSink};
use corr_tools::{Relayed, relay};
use corr_words::{Command, WordRefusal, read as read_words};
use std::alloc::Global;

/// How a relay of the program ended.
#[derive(Clone, Copy, Debug, PartialEq, Eq)]
pub enum RelayEnd {
    /// The source could not be begun.
    SourceUnbegun,
    /// The sink could not be begun.
    SinkUnbegun,
    /// Both were begun, and the relay ended so.
    Over(Relayed),
}

// Whether the second word is the name of a tool.
pub(crate) fn names_tool(words: &[String]) -> bool
    ensures { result ≡ names_tool (map string_bytes words.now) }
{
    if words.len() < 2 {
        return false;
    }
    let name = words[1].as_str();
    name == "relay" || name == "inspect" || name == "decode"
}

// The code, where the text that has it was written, and 6 in place of 0 where it was not.
pub(crate) fn read_code(own: u8, printed: Result<(), Failed>) -> u8
    ensures { result ≡ read_code own printed }
{
    match printed {
        Ok(()) => own,
        Err(_) => unprinted(own),
    }
}

// The code after the text was not written whole.
fn unprinted(own: u8) -> u8
    ensures { result ≡ unprinted own }
{
    if own == 0 { 6 } else { own }
}

/// Runs the tool of the words over the source and the sink, and prints its text.
pub(crate) fn run_tool<O: Observation, S: PacketSource<O>, K: PacketSink, P: TextSink>(
    alloc: Global,
    words: &[String],
    source: &mut S,
    sink: &mut K,
    print: &mut P,
) -> Status
    requires tool { names_tool (map string_bytes words.now) ≡ true }
    requires source { S.begun source.old ≡ false }
    requires sink { K.begun sink.old ≡ false }
    ensures tool { ToolRan (form (map string_bytes words.now)) source.old source.new
        (source_seen S.gives S.given S.begun S.at S.faults source.old source.new)
        (sink_seen K.sent K.begun K.at K.faults sink.old sink.new)
        (print_seen P.written P.faults print.old print.new) result.code }
{
    match read_words(alloc, words) {
        Ok(command) => run_command::<O, S, K, P>(alloc, &command, source, sink, print),
        Err(WordRefusal::Usage) => tell(&Answer::Usage, print),
        Err(WordRefusal::NoMemory) => tell(&Answer::NoMemory, print),
    }
}

// Runs the command of a tool.
fn run_command<O: Observation, S: PacketSource<O>, K: PacketSink, P: TextSink>(
    alloc: Global,
    command: &Command,
    source: &mut S,
    sink: &mut K,
    print: &mut P,
) -> Status
    requires tool { IsOfTool command.now }
    requires source { S.begun source.old ≡ false }
    requires sink { K.begun sink.old ≡ false }
    ensures ran { CommandRan command.now source.old source.new
        (source_seen S.gives S.given S.begun S.at S.faults source.old source.new)
        (sink_seen K.sent K.begun K.at K.faults sink.old sink.new)
        (print_seen P.written P.faults print.old print.new) result.code }
{
    match command {
        Command::Relay(from, to, limit) => {
            run_relay::<O, S, K, P>(from, to, *limit, source, sink, print)
        }
        Command::Inspect(from) => run_inspect::<O, S, P>(from, source, print),
        Command::Decode(from, limit) => {
            run_decode::<O, S, P>(alloc, from, *limit, source, print)
        }
        Command::Plain(_) => unreachable!(),
        Command::Correlate(..) => unreachable!(),
        Command::Trial(..) => unreachable!(),
        Command::Simulate(..) => unreachable!(),
    }
}

// Runs a relay from one place to another, and prints how it ended.
fn run_relay<O: Observation, S: PacketSource<O>, K: PacketSink, P: TextSink>(
    from: &Place,
    to: &Place,
    limit: u64,
    source: &mut S,
    sink: &mut K,
    print: &mut P,
) -> Status
    requires source { S.begun source.old ≡ false }
    requires sink { K.begun sink.old ≡ false }
    ensures ran { RelayRan from.now to.now limit
        (source_seen S.gives S.given S.begun S.at S.faults source.old source.new)
        (sink_seen K.sent K.begun K.at K.faults sink.old sink.new)
        (print_seen P.written P.faults print.old print.new) result.code }
{
    let end = relay_from::<O, S, K>(from, to, limit, source, sink);
    tell_relay(end, print)
}

// Begins the source, then the sink, and relays.
fn relay_from<O: Observation, S: PacketSource<O>, K: PacketSink>(
    from: &Place,
    to: &Place,
    limit: u64,
    source: &mut S,
    sink: &mut K,
) -> RelayEnd
    requires source { S.begun source.old ≡ false }
    requires sink { K.begun sink.old ≡ false }
    ensures comes { RelayComes limit
        (source_seen S.gives S.given S.begun S.at S.faults source.old source.new)
        (sink_seen K.sent K.begun K.at K.faults sink.old sink.new) result }
    ensures source_at { IsAtOwn (S.begun source.new) (S.at source.new) (0, from.now) }
    ensures sink_at { IsAtOwn (K.begun sink.new) (K.at sink.new) to.now }
{
    match source.begin(0, from) {
        Ok(()) => relay_to::<O, S, K>(to, limit, source, sink),
        Err(_) => RelayEnd::SourceUnbegun,
    }
}

// Begins the sink, and relays what the source gives.
fn relay_to<O: Observation, S: PacketSource<O>, K: PacketSink>(
    to: &Place,
    limit: u64,
    source: &mut S,
    sink: &mut K,
) -> RelayEnd
    requires source { S.begun source.old ≡ true }
    requires sink { K.begun sink.old ≡ false }
    ensures comes { RelayComes limit
        (source_seen S.gives S.given S.begun S.at S.faults source.old source.new)
        (sink_seen K.sent K.begun K.at K.faults sink.old sink.new) result }
    ensures source_at { S.at source.new ≡ S.at source.old }
    ensures sink_at { IsAtOwn (K.begun sink.new) (K.at sink.new) to.now }
{
    match sink.begin(to) {
        Ok(()) => RelayEnd::Over(relay::<O, S, K>(source, sink, limit)),
        Err(_) => RelayEnd::SinkUnbegun,
    }
}

// Prints how a relay ended, and gives the status.
pub(crate) fn tell_relay<P: TextSink>(end: RelayEnd, print: &mut P) -> Status
    ensures told { TellsText (P.written print.old) (P.written print.new)
        (P.faults print.old) (P.faults print.new) (relay_text end) (relay_code end) result.code }
{
    let printed = print_relay(end, print);
    Status {
        code: read_code(relay_code(end), printed),
    }
}

// The code of a relay that ended so, where its text is written.
fn relay_code(end: RelayEnd) -> u8
    ensures { result ≡ relay_code end }
{
    match end {
        RelayEnd::Over(Relayed::Done(_)) => 0,
        RelayEnd::SourceUnbegun | RelayEnd::Over(Relayed::SourceFault(_)) => 3,
        RelayEnd::SinkUnbegun | RelayEnd::Over(Relayed::SinkFault) => 4,
    }
}

// Prints the text of a relay that ended so.
fn print_relay<P: TextSink>(end: RelayEnd, print: &mut P) -> Result<(), Failed>
    ensures written { Writes (P.written print.old) (P.written print.new) result (relay_text end) }
    ensures cause { HasCause (P.faults print.old) (P.faults print.new) result }
{
    match end {
        RelayEnd::SourceUnbegun => print_status(&StatusLine::SourceFault(0), print),
        RelayEnd::Over(Relayed::Done(packets)) => {
            print_status(&StatusLine::Relayed(packets), print)
        }
        RelayEnd::Over(Relayed::SourceFault(packets)) => print_cut(packets, print),
        RelayEnd::SinkUnbegun | RelayEnd::Over(Relayed::SinkFault) => {
            print_status(&StatusLine::SinkFault, print)
        }
    }
}

// Prints how many packets were relayed before the source failed.
fn print_cut<P: TextSink>(packets: u64, print: &mut P) -> Result<(), Failed>
    ensures written { Writes (P.written print.old) (P.written print.new) result
        (relay_text (RelayEnd.Over (Relayed.SourceFault packets))) }
    ensures cause { HasCause (P.faults print.old) (P.faults print.new) result }
{
    if let Err(failed) = print_status(&StatusLine::Relayed(packets), print) {
        return Err(failed);
    }
    print_status(&StatusLine::SourceFault(0), print)
}
