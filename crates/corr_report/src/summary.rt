//! The summary of a run: what was sent, and a line for each stream.

ghost use Rattle.std.specs.Prelude.{◌≡◌, ◌+◌, ◌≤◌, ◌++◌, [], true, is_some, length, Some};
ghost use Rattle.corr_report.specs.Lines.{IsLine};
ghost use Rattle.corr_report.specs.Summaries.{ending_text, heap_counts, mark_text, packet_counts, stream_text, summary_text, taken_text};

use crate::draft::Draft;
use corr_model::Ending;
use stream_feed::StreamReport;
use vis_send::Sent;

/// Writes the line on what was sent at the front of the buffer, and answers its length.
pub fn summary_line(sent: &Sent, out: &mut [u8; 1024]) -> usize
    ensures line { IsLine out.old out.new result (summary_text sent.now) }
    ensures fits { result ≤ 1024 }
{
    let mut draft = Draft::new();
    draft.put_number(b"sent ", sent.packets);
    draft.put_number(b" packets ", sent.bytes);
    draft.put(b" bytes mark ");
    draft.put(&digits_of(sent.mark));
    draft.put(b"\n");
    draft.write_to(out)
}

/// Writes the line on the stream of an antenna, which has ended, at the front of the buffer, and
/// answers its length.
pub fn stream_line(antenna: u32, report: &StreamReport, out: &mut [u8; 1024]) -> usize
    requires ended { is_some report.now.ended ≡ true }
    ensures line { IsLine out.old out.new result (stream_text antenna report.now) }
    ensures fits { result ≤ 1024 }
{
    let mut draft = Draft::new();
    put_stream(&mut draft, antenna, report);
    put_packet_counts(&mut draft, report);
    put_heap_counts(&mut draft, report);
    draft.put(b"\n");
    draft.write_to(out)
}

// The 16 lower-case hexadecimal digits of a mark.
fn digits_of(mark: u64) -> [u8; 16]
    ensures { result ≡ mark_text mark }
{
    let mut digits = [0; 16];
    let _ = hex::encode_to_slice(mark.to_be_bytes(), &mut digits);
    digits
}

// How a stream ended, as it is printed.
fn name_of(ending: Ending) -> &'static [u8]
    ensures value { result.now ≡ ending_text (Some ending) }
    ensures short { length result.now ≤ 5 }
{
    match ending {
        Ending::End => b"end",
        Ending::Stop => b"stop",
        Ending::Limit => b"limit",
        Ending::Fault => b"fault",
    }
}

// Puts the antenna, what was taken, and how the stream ended.
fn put_stream(draft: &mut Draft, antenna: u32, report: &StreamReport)
    requires { draft.old ≡ [] }
    ensures value { draft.new ≡ taken_text antenna report.now }
    ensures short { length draft.new ≤ 150 }
{
    draft.put_number(b"stream ", antenna);
    draft.put_number(b" taken ", report.taken);
    draft.put(b" ended ");
    if let Some(ending) = report.ended {
        draft.put(name_of(ending));
    }
}

// Puts the counts of strings that gave no whole heap to be placed.
fn put_packet_counts(draft: &mut Draft, report: &StreamReport)
    requires { length draft.old ≤ 150 }
    ensures value { draft.new ≡ draft.old ++ packet_counts report.now }
    ensures short { length draft.new ≤ 460 }
{
    draft.put_number(b" refused ", report.refused);
    draft.put_number(b" dropped ", report.dropped);
    draft.put_number(b" stale ", report.stale);
    draft.put_number(b" evicted ", report.evicted);
    draft.put_number(b" baddesc ", report.baddesc);
    draft.put_number(b" undescribed ", report.undescribed);
}

// Puts the counts of whole heaps by their place.
fn put_heap_counts(draft: &mut Draft, report: &StreamReport)
    requires { length draft.old ≤ 460 }
    ensures value { draft.new ≡ draft.old ++ heap_counts report.now }
    ensures short { length draft.new ≤ 1000 }
{
    draft.put_number(b" foreign ", report.foreign);
    draft.put_number(b" before ", report.before);
    draft.put_number(b" offgrid ", report.offgrid);
    draft.put_number(b" wild ", report.wild);
    draft.put_number(b" beyond ", report.beyond);
    draft.put_number(b" late ", report.late);
    draft.put_number(b" twice ", report.twice);
    draft.put_number(b" used ", report.used);
}
