//! Runs of `inspect` and `decode`: what comes from a place, printed as packets or as visibilities.

ghost use Rattle.std.specs.Prelude.{◌≡◌, ℕ, true, false, []};
ghost use Rattle.vis_read.specs.Standing.{StandsFor};
ghost use Rattle.corr_cli.specs.Tools.{DecodeComes, DecodeWent, InspectComes, InspectWent, decode_code, inspect_code};
ghost use Rattle.corr_cli.specs.Placing.{IsAtOwn};
ghost use Rattle.corr_cli.specs.Seeing.{print_seen, source_seen};

use crate::answer::{Answer, Status};
use crate::report::tell;
use crate::tools::{RelayEnd, read_code, tell_relay};
use corr_model::Observation;
use corr_site::{Failed, PacketSource, Place, TextSink};
use corr_tools::{Ended, decode, inspect};
use std::alloc::Global;
use vis_read::Reader;

// Prints the packets that come from a place.
pub(crate) fn run_inspect<O: Observation, S: PacketSource<O>, P: TextSink>(
    from: &Place,
    source: &mut S,
    print: &mut P,
) -> Status
    requires { S.begun source.old ≡ false }
    ensures comes { InspectComes
        (source_seen S.gives S.given S.begun S.at S.faults source.old source.new)
        (print_seen P.written P.faults print.old print.new) result.code }
    ensures at { IsAtOwn (S.begun source.new) (S.at source.new) (0, from.now) }
{
    match source.begin(0, from) {
        Ok(()) => inspect_begun::<O, S, P>(source, print),
        Err(_) => tell_relay(RelayEnd::SourceUnbegun, print),
    }
}

// Prints the packets that a source gives.
fn inspect_begun<O: Observation, S: PacketSource<O>, P: TextSink>(
    source: &mut S,
    print: &mut P,
) -> Status
    requires { S.begun source.old ≡ true }
    ensures went { InspectWent
        (source_seen S.gives S.given S.begun S.at S.faults source.old source.new)
        (print_seen P.written P.faults print.old print.new) result.code }
    ensures at { S.at source.new ≡ S.at source.old }
{
    let how = inspect::<O, S, P>(source, print);
    Status {
        code: read_code(inspect_code(how.source), how.print),
    }
}

// The code of an inspection, by whether its source failed.
fn inspect_code(source: Result<(), Failed>) -> u8
    ensures { result ≡ inspect_code source }
{
    match source {
        Ok(()) => 0,
        Err(_) => 3,
    }
}

// Prints the visibilities that come from a place.
pub(crate) fn run_decode<O: Observation, S: PacketSource<O>, P: TextSink>(
    alloc: Global,
    from: &Place,
    limit: u32,
    source: &mut S,
    print: &mut P,
) -> Status
    requires { S.begun source.old ≡ false }
    ensures comes { DecodeComes limit source.old source.new
        (source_seen S.gives S.given S.begun S.at S.faults source.old source.new)
        (print_seen P.written P.faults print.old print.new) result.code }
    ensures at { IsAtOwn (S.begun source.new) (S.at source.new) (0, from.now) }
{
    let Ok(mut reader) = Reader::new(alloc, limit) else {
        return tell(&Answer::NoMemory, print);
    };
    match source.begin(0, from) {
        Ok(()) => decode_begun::<O, S, P>(&mut reader, source, print),
        Err(_) => tell_relay(RelayEnd::SourceUnbegun, print),
    }
}

// Prints the visibilities that a source gives.
fn decode_begun<O: Observation, S: PacketSource<O>, P: TextSink>(
    reader: &mut Reader,
    source: &mut S,
    print: &mut P,
) -> Status
    requires new { StandsFor reader.old [] }
    requires source { S.begun source.old ≡ true }
    ensures went { DecodeWent reader.old.live.limit
        (source_seen S.gives S.given S.begun S.at S.faults source.old source.new)
        (print_seen P.written P.faults print.old print.new) result.code }
    ensures at { S.at source.new ≡ S.at source.old }
{
    let how = decode::<O, S, P>(reader, source, print);
    Status {
        code: read_code(decode_code(how.ended), how.print),
    }
}

// The code of a decoding that ended so.
fn decode_code(ended: Ended) -> u8
    ensures { result ≡ decode_code ended }
{
    match ended {
        Ended::Whole => 0,
        Ended::NoStop(_) | Ended::Refused(_, _) => 9,
        Ended::SourceFault => 3,
    }
}
