//! Datagrams that are printed as packets.

ghost use Rattle.std.specs.Prelude.{◌≡◌, ◌++◌, ℕ, true};
ghost use Rattle.corr_site.specs.Outside.{HasCause, Writes};
ghost use Rattle.corr_report.specs.Inspected.{datagrams_text};
ghost use Rattle.corr_tools.specs.Inspecting.{Inspects, datagram_text, fault_text};
ghost use Rattle.corr_tools.specs.Printing.{GoesOn, GoesOnCause};

use crate::lines::{print_datagram, print_datagrams, print_fault};
use corr_model::Observation;
use corr_site::{Failed, Next, PacketSource, TextSink};

/// How many byte strings are taken at most: a longer input counts as its first so many.
pub(crate) const STRING_LIMIT: u64 = 1 << 40;

/// What became of an input that was read, and of the text that was printed of it.
#[derive(Clone, Copy, Debug, PartialEq, Eq)]
pub struct Inspected {
    /// Whether the source failed.
    pub source: Result<(), Failed>,
    /// Whether a write failed. After it nothing is printed, and the input is still read to its end.
    pub print: Result<(), Failed>,
}

/// Prints each datagram that the source gives, in order: the packet that it is with its pointers, or
/// its refusal; then how many there were; and a line on the source, where it failed.
pub fn inspect<O: Observation, S: PacketSource<O>, P: TextSink>(
    source: &mut S,
    print: &mut P,
) -> Inspected
    requires { S.begun source.old ≡ true }
    ensures prints { Inspects (S.gives source.old) (S.given source.old) (S.given source.new)
        (P.written print.old) (P.written print.new) result }
    ensures source_cause { HasCause (S.faults source.old) (S.faults source.new) result.source }
    ensures print_cause { HasCause (P.faults print.old) (P.faults print.new) result.print }

    // What stays.
    ensures gives { S.gives source.new ≡ S.gives source.old }
    ensures belongs { (a : ℕ) → S.belongs source.old a → S.belongs source.new a }
    ensures begun { S.begun source.new ≡ true }
    ensures at { S.at source.new ≡ S.at source.old }
{
    let mut buf = [0; 65536];
    let mut printed = Ok(());
    for count in 0..STRING_LIMIT {
        match source.next(&mut buf) {
            Next::Packet(len) => printed = print_next(printed, count, &buf[..len], print),
            Next::End => return end(printed, count, Ok(()), print),
            Next::Failed => return end(printed, count, Err(Failed), print),
        }
    }
    end(printed, STRING_LIMIT, Ok(()), print)
}

// Prints the lines on the next datagram, where no write failed before.
fn print_next<P: TextSink>(
    printed: Result<(), Failed>,
    place: u64,
    bytes: &[u8],
    print: &mut P,
) -> Result<(), Failed>
    ensures written { GoesOn printed (P.written print.old) (P.written print.new) result
        (datagram_text place bytes.now) }
    ensures cause { GoesOnCause printed (P.faults print.old) (P.faults print.new) result }
{
    match printed {
        Ok(()) => print_datagram(place, bytes, print),
        Err(failed) => Err(failed),
    }
}

// Prints the last lines, where no write failed before.
fn end<P: TextSink>(
    printed: Result<(), Failed>,
    count: u64,
    source: Result<(), Failed>,
    print: &mut P,
) -> Inspected
    ensures source { result.source ≡ source }
    ensures written { GoesOn printed (P.written print.old) (P.written print.new) result.print
        (datagrams_text count ++ fault_text source) }
    ensures cause { GoesOnCause printed (P.faults print.old) (P.faults print.new) result.print }
{
    let print = match printed {
        Ok(()) => print_end(count, source, print),
        Err(failed) => Err(failed),
    };
    Inspected { source, print }
}

// Prints how many datagrams there were, and whether their source failed.
fn print_end<P: TextSink>(
    count: u64,
    source: Result<(), Failed>,
    print: &mut P,
) -> Result<(), Failed>
    ensures written { Writes (P.written print.old) (P.written print.new) result
        (datagrams_text count ++ fault_text source) }
    ensures cause { HasCause (P.faults print.old) (P.faults print.new) result }
{
    if let Err(failed) = print_datagrams(count, print) {
        return Err(failed);
    }
    print_fault(source, print)
}
