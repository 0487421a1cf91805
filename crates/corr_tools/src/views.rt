//! Visibility heaps that are printed.

ghost use Rattle.std.specs.Prelude.{◌≡◌, ◌<◌};
ghost use Rattle.corr_site.specs.Outside.{HasCause, Writes};
ghost use Rattle.corr_report.specs.Decoded.{baseline_text, channel_text, heap_text, stop_text};
ghost use Rattle.vis_read.specs.Views.{answer_of, view_of};
ghost use Rattle.corr_tools.specs.Decoding.{answer_text, baselines_text, channels_text, values_text, view_text};

use crate::lines::front;
use corr_report::{baseline_line, channel_line, heap_line, stop_line};
use corr_site::{Failed, TextSink};
use vis_read::{Seen, VisView};

// Prints the lines on the answer to a datagram. A refusal has none.
pub(crate) fn print_answer<P: TextSink>(seen: &Seen<'_>, print: &mut P) -> Result<(), Failed>
    ensures written { Writes (P.written print.old) (P.written print.new) result (answer_text (answer_of seen.now)) }
    ensures cause { HasCause (P.faults print.old) (P.faults print.new) result }
{
    match seen {
        Seen::Heap(view) => print_view(view, print),
        Seen::Stop => print_stop(print),
        Seen::Nothing | Seen::Head(..) | Seen::Refused(_) => Ok(()),
    }
}

// Prints the line on the stop heap.
fn print_stop<P: TextSink>(print: &mut P) -> Result<(), Failed>
    ensures written { Writes (P.written print.old) (P.written print.new) result stop_text }
    ensures cause { HasCause (P.faults print.old) (P.faults print.new) result }
{
    let mut line = [0; 1024];
    let len = stop_line(&mut line);
    print.write(front(&line, len))
}

// Prints the lines on a visibility heap: its own, and those on each baseline.
fn print_view<P: TextSink>(view: &VisView<'_>, print: &mut P) -> Result<(), Failed>
    ensures written { Writes (P.written print.old) (P.written print.new) result (view_text (view_of view.now)) }
    ensures cause { HasCause (P.faults print.old) (P.faults print.new) result }
{
    if let Err(failed) = print_heap(view, print) {
        return Err(failed);
    }
    print_baselines(view, print)
}

// Prints the lines on each baseline, in order.
fn print_baselines<P: TextSink>(view: &VisView<'_>, print: &mut P) -> Result<(), Failed>
    ensures written { Writes (P.written print.old) (P.written print.new) result (baselines_text (view_of view.now)) }
    ensures cause { HasCause (P.faults print.old) (P.faults print.new) result }
{
    let count = view.baselines();
    for baseline in 0..count {
        if let Err(failed) = print_channels(view, baseline, print) {
            return Err(failed);
        }
    }
    Ok(())
}

// Prints a visibility heap's own line.
fn print_heap<P: TextSink>(view: &VisView<'_>, print: &mut P) -> Result<(), Failed>
    ensures written { Writes (P.written print.old) (P.written print.new) result (heap_text (view_of view.now)) }
    ensures cause { HasCause (P.faults print.old) (P.faults print.new) result }
{
    let mut line = [0; 1024];
    let len = heap_line(view, &mut line);
    print.write(front(&line, len))
}

// Prints the lines on a baseline: its own, and one for each channel.
fn print_channels<P: TextSink>(
    view: &VisView<'_>,
    baseline: u32,
    print: &mut P,
) -> Result<(), Failed>
    requires { baseline < (view_of view.now).sizes.baselines }
    ensures written { Writes (P.written print.old) (P.written print.new) result
        (channels_text (view_of view.now) baseline) }
    ensures cause { HasCause (P.faults print.old) (P.faults print.new) result }
{
    if let Err(failed) = print_baseline(view, baseline, print) {
        return Err(failed);
    }
    print_values(view, baseline, print)
}

// Prints a line for each channel of a baseline, in order.
fn print_values<P: TextSink>(view: &VisView<'_>, baseline: u32, print: &mut P) -> Result<(), Failed>
    requires { baseline < (view_of view.now).sizes.baselines }
    ensures written { Writes (P.written print.old) (P.written print.new) result
        (values_text (view_of view.now) baseline) }
    ensures cause { HasCause (P.faults print.old) (P.faults print.new) result }
{
    let count = view.channels();
    for channel in 0..count {
        if let Err(failed) = print_channel(view, channel, baseline, print) {
            return Err(failed);
        }
    }
    Ok(())
}

// Prints a baseline's own line.
fn print_baseline<P: TextSink>(
    view: &VisView<'_>,
    baseline: u32,
    print: &mut P,
) -> Result<(), Failed>
    requires { baseline < (view_of view.now).sizes.baselines }
    ensures written { Writes (P.written print.old) (P.written print.new) result
        (baseline_text (view_of view.now) baseline) }
    ensures cause { HasCause (P.faults print.old) (P.faults print.new) result }
{
    let mut line = [0; 1024];
    let len = baseline_line(view, baseline, &mut line);
    print.write(front(&line, len))
}

// Prints the line on a channel of a baseline.
fn print_channel<P: TextSink>(
    view: &VisView<'_>,
    channel: u32,
    baseline: u32,
    print: &mut P,
) -> Result<(), Failed>
    requires channel { channel < (view_of view.now).sizes.channels }
    requires baseline { baseline < (view_of view.now).sizes.baselines }
    ensures written { Writes (P.written print.old) (P.written print.new) result
        (channel_text (view_of view.now) channel baseline) }
    ensures cause { HasCause (P.faults print.old) (P.faults print.new) result }
{
    let mut line = [0; 1024];
    let len = channel_line(view, channel, baseline, &mut line);
    print.write(front(&line, len))
}
