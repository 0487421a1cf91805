//! Lines that are printed one after another, until a write fails.

ghost use Rattle.std.specs.Prelude.{◌≡◌, ◌<◌, ◌≤◌, ◌^◌, take, length};
ghost use Rattle.std.specs.List.{flat_map};
ghost use Rattle.corr_site.specs.Outside.{HasCause, Writes};
ghost use Rattle.corr_model.specs.Packets.{Parts};
ghost use Rattle.corr_report.specs.Inspected.{datagrams_text, packet_text, pointer_text, refusal_text};
ghost use Rattle.corr_report.specs.Texts.{refused_text, status_text};
ghost use Rattle.corr_report.specs.declared.status.StatusLine.TheVariants as status;
ghost use Rattle.corr_tools.specs.Inspecting.{datagram_text, fault_text, parts_text};

use corr_model::{Pointer, Refusal};
use corr_report::{
    StatusLine, datagrams_line, inspect_refused, packet_line, pointer_line, refused_line,
    status_line,
};
use corr_site::{Failed, TextSink};
use spead_wire::{Packet, decode};

// The bytes at the front of a line's buffer.
pub(crate) fn front(line: &[u8; 1024], len: usize) -> &[u8]
    requires { len ≤ 1024 }
    ensures { result.now ≡ take len line.now }
{
    &line[..len]
}

// Prints the lines on a datagram, with its number.
pub(crate) fn print_datagram<P: TextSink>(
    place: u64,
    bytes: &[u8],
    print: &mut P,
) -> Result<(), Failed>
    ensures written { Writes (P.written print.old) (P.written print.new) result (datagram_text place bytes.now) }
    ensures cause { HasCause (P.faults print.old) (P.faults print.new) result }
{
    match decode(bytes) {
        Ok(packet) => print_packet(place, &packet, print),
        Err(refusal) => print_refusal(place, &refusal, print),
    }
}

// Prints the lines on a packet, with its number: its own, and one for each pointer of the heap.
fn print_packet<P: TextSink>(place: u64, packet: &Packet<'_>, print: &mut P) -> Result<(), Failed>
    ensures written { Writes (P.written print.old) (P.written print.new) result (parts_text place packet.now) }
    ensures cause { HasCause (P.faults print.old) (P.faults print.new) result }
{
    if let Err(failed) = print_parts(place, packet, print) {
        return Err(failed);
    }
    print_pointers(packet, print)
}

// Prints a line for each pointer of the packet's heap.
fn print_pointers<P: TextSink>(packet: &Packet<'_>, print: &mut P) -> Result<(), Failed>
    ensures written { Writes (P.written print.old) (P.written print.new) result
        (flat_map pointer_text packet.now.pointers) }
    ensures cause { HasCause (P.faults print.old) (P.faults print.new) result }
{
    for pointer in packet.pointers() {
        if let Err(failed) = print_pointer(&pointer, print) {
            return Err(failed);
        }
    }
    Ok(())
}

// Prints a packet's own line.
fn print_parts<P: TextSink>(place: u64, packet: &Packet<'_>, print: &mut P) -> Result<(), Failed>
    ensures written { Writes (P.written print.old) (P.written print.new) result (packet_text place packet.now) }
    ensures cause { HasCause (P.faults print.old) (P.faults print.new) result }
{
    let mut line = [0; 1024];
    let len = packet_line(place, packet, &mut line);
    print.write(front(&line, len))
}

// Prints the line on a pointer.
fn print_pointer<P: TextSink>(pointer: &Pointer, print: &mut P) -> Result<(), Failed>
    requires id { pointer.now.id < 2 ^ 15 }
    requires value { pointer.now.value < 2 ^ 48 }
    ensures written { Writes (P.written print.old) (P.written print.new) result (pointer_text pointer.now) }
    ensures cause { HasCause (P.faults print.old) (P.faults print.new) result }
{
    let mut line = [0; 1024];
    let len = pointer_line(pointer, &mut line);
    print.write(front(&line, len))
}

// Prints the line on a datagram that is no packet.
fn print_refusal<P: TextSink>(place: u64, refusal: &Refusal, print: &mut P) -> Result<(), Failed>
    ensures written { Writes (P.written print.old) (P.written print.new) result (refusal_text place refusal.now) }
    ensures cause { HasCause (P.faults print.old) (P.faults print.new) result }
{
    let mut line = [0; 1024];
    let len = inspect_refused(place, refusal, &mut line);
    print.write(front(&line, len))
}

// Prints the line on how many datagrams there were.
pub(crate) fn print_datagrams<P: TextSink>(count: u64, print: &mut P) -> Result<(), Failed>
    ensures written { Writes (P.written print.old) (P.written print.new) result (datagrams_text count) }
    ensures cause { HasCause (P.faults print.old) (P.faults print.new) result }
{
    let mut line = [0; 1024];
    let len = datagrams_line(count, &mut line);
    print.write(front(&line, len))
}

// Prints the line on a source that failed, if it did.
pub(crate) fn print_fault<P: TextSink>(
    source: Result<(), Failed>,
    print: &mut P,
) -> Result<(), Failed>
    ensures written { Writes (P.written print.old) (P.written print.new) result (fault_text source) }
    ensures cause { HasCause (P.faults print.old) (P.faults print.new) result }
{
    match source {
        Ok(()) => Ok(()),
        Err(_) => print_source_fault(print),
    }
}

// Prints the line on the first source, which failed.
pub(crate) fn print_source_fault<P: TextSink>(print: &mut P) -> Result<(), Failed>
    ensures written { Writes (P.written print.old) (P.written print.new) result (status_text (status.SourceFault 0)) }
    ensures cause { HasCause (P.faults print.old) (P.faults print.new) result }
{
    let mut line = [0; 1024];
    let len = status_line(&StatusLine::SourceFault(0), &mut line);
    print.write(front(&line, len))
}

// Prints the line on a datagram that is refused, with its number and the name of the cause.
pub(crate) fn print_refused<P: TextSink>(
    place: u64,
    name: &str,
    print: &mut P,
) -> Result<(), Failed>
    requires short { length name.now ≤ 64 }
    ensures written { Writes (P.written print.old) (P.written print.new) result (refused_text place name.now) }
    ensures cause { HasCause (P.faults print.old) (P.faults print.new) result }
{
    let mut line = [0; 1024];
    let len = refused_line(place, name, &mut line);
    print.write(front(&line, len))
}
