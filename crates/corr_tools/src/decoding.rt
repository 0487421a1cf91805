//! An output that is read back and printed.

ghost use Rattle.std.specs.Prelude.{◌≡◌, ℕ, [], true};
ghost use Rattle.corr_site.specs.Outside.{HasCause, Writes};
ghost use Rattle.vis_read.specs.Readings.{Answer};
ghost use Rattle.vis_read.specs.Standing.{StandsFor};
ghost use Rattle.vis_read.specs.Endings.{cause_in};
ghost use Rattle.vis_read.specs.Views.{answer_of};
ghost use Rattle.corr_tools.specs.Decoding.{DecodeCause, Decodes, EndsSo, IsOfEnd, Shows, answer_text, ended_text};
ghost use Rattle.corr_tools.specs.Printing.{GoesOn, GoesOnCause};

use crate::inspecting::STRING_LIMIT;
use crate::lines::{print_refused, print_source_fault};
use crate::views::print_answer;
use corr_model::Observation;
use corr_report::cause_name;
use corr_site::{Failed, Next, PacketSource, TextSink};
use vis_read::{ReadCause, Reader, Seen};

/// How the reading of an output ended.
#[derive(Clone, Copy, Debug, PartialEq, Eq)]
pub enum Ended {
    /// The input ended, and its datagrams were a whole output.
    Whole,
    /// The input ended after so many datagrams, and the stop heap was not whole by them.
    NoStop(u64),
    /// The datagram of this number, from 0, is refused for this cause. None was taken after it.
    Refused(u64, ReadCause),
    /// The source failed.
    SourceFault,
}

/// How the reading of an output ended, and what became of the text that was printed of it.
#[derive(Clone, Copy, Debug, PartialEq, Eq)]
pub struct Decoded {
    /// How it ended.
    pub ended: Ended,
    /// Whether a write failed. After it nothing is printed, and the input is still read.
    pub print: Result<(), Failed>,
}

/// Prints the visibilities of the output that the source gives: for each visibility heap its line,
/// and for each baseline, in order, its line and one for each channel; a line for the stop heap; and
/// then a line on the first datagram that is refused, or on the source, where it failed, or on the
/// end, where no stop heap was whole. Nothing is taken after a datagram that is refused.
pub fn decode<O: Observation, S: PacketSource<O>, P: TextSink>(
    reader: &mut Reader,
    source: &mut S,
    print: &mut P,
) -> Decoded
    requires new { StandsFor reader.old [] }
    requires begun { S.begun source.old ≡ true }
    ensures prints { Decodes reader.old.live.limit
        (S.gives source.old) (S.given source.old) (S.given source.new)
        (P.written print.old) (P.written print.new) result }
    ensures source_cause { DecodeCause (S.faults source.old) (S.faults source.new) result.ended }
    ensures print_cause { HasCause (P.faults print.old) (P.faults print.new) result.print }

    // What stays.
    ensures gives { S.gives source.new ≡ S.gives source.old }
    ensures belongs { (a : ℕ) → S.belongs source.old a → S.belongs source.new a }
    ensures source_begun { S.begun source.new ≡ true }
    ensures at { S.at source.new ≡ S.at source.old }
{
    let mut buf = [0; 65536];
    let mut printed = Ok(());
    for count in 0..STRING_LIMIT {
        match source.next(&mut buf) {
            Next::Packet(len) => {
                let shown = show(reader, printed, &buf[..len], print);
                printed = shown.print;
                match shown.cause {
                    Some(cause) => return end(printed, Ended::Refused(count, cause), print),
                    None => {}
                }
            }
            Next::End => return end(printed, end_of(reader, count), print),
            Next::Failed => return end(printed, Ended::SourceFault, print),
        }
    }
    end(printed, end_of(reader, STRING_LIMIT), print)
}

// What became of one datagram.
#[derive(Clone, Copy)]
struct Shown {
    print: Result<(), Failed>,
    cause: Option<ReadCause>,
}

// The reader takes a datagram, and the lines on its answer are printed, where no write failed before.
fn show<P: TextSink>(
    reader: &mut Reader,
    printed: Result<(), Failed>,
    bytes: &[u8],
    print: &mut P,
) -> Shown
    ensures shows { Shows reader.old bytes.now reader.new printed
        (P.written print.old) (P.written print.new) result }
    ensures cause { GoesOnCause printed (P.faults print.old) (P.faults print.new) result.print }
{
    let seen = reader.feed(bytes);
    Shown {
        print: print_next(printed, &seen, print),
        cause: cause_of(&seen),
    }
}

// Prints the lines on an answer, where no write failed before.
fn print_next<P: TextSink>(
    printed: Result<(), Failed>,
    seen: &Seen<'_>,
    print: &mut P,
) -> Result<(), Failed>
    ensures written { GoesOn printed (P.written print.old) (P.written print.new) result
        (answer_text (answer_of seen.now)) }
    ensures cause { GoesOnCause printed (P.faults print.old) (P.faults print.new) result }
{
    match printed {
        Ok(()) => print_answer(seen, print),
        Err(failed) => Err(failed),
    }
}

// Why a datagram is refused, if it is.
fn cause_of(seen: &Seen<'_>) -> Option<ReadCause>
    ensures { result ≡ cause_in (answer_of seen.now) }
{
    match seen {
        Seen::Refused(cause) => Some(*cause),
        Seen::Nothing | Seen::Head(..) | Seen::Heap(_) | Seen::Stop => None,
    }
}

// How the reading of so many datagrams ends, of which none was refused.
fn end_of(reader: &Reader, count: u64) -> Ended
    ensures ends { EndsSo reader.now count result }
    ensures own { IsOfEnd result }
{
    match reader.finish() {
        Ok(()) => Ended::Whole,
        Err(_) => Ended::NoStop(count),
    }
}

// Prints how the reading ended, where no write failed before.
fn end<P: TextSink>(printed: Result<(), Failed>, ended: Ended, print: &mut P) -> Decoded
    ensures ended { result.ended ≡ ended }
    ensures written { GoesOn printed (P.written print.old) (P.written print.new) result.print (ended_text ended) }
    ensures cause { GoesOnCause printed (P.faults print.old) (P.faults print.new) result.print }
{
    let print = match printed {
        Ok(()) => print_ended(ended, print),
        Err(failed) => Err(failed),
    };
    Decoded { ended, print }
}

// Prints how the reading ended.
fn print_ended<P: TextSink>(ended: Ended, print: &mut P) -> Result<(), Failed>
    ensures written { Writes (P.written print.old) (P.written print.new) result (ended_text ended) }
    ensures cause { HasCause (P.faults print.old) (P.faults print.new) result }
{
    match ended {
        Ended::Whole => Ok(()),
        Ended::NoStop(count) => print_refused(count, cause_name(&ReadCause::NoStop), print),
        Ended::Refused(place, cause) => print_refused(place, cause_name(&cause), print),
        Ended::SourceFault => print_source_fault(print),
    }
}
