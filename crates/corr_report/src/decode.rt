//! The lines of `decode`: each visibility heap with its baselines and values, and the stop heap.

ghost use Rattle.std.specs.Prelude.{◌≡◌, ◌<◌, ◌≤◌, ◌+◌, ◌*◌, ◌++◌, [], length};
ghost use Rattle.vis_read.specs.Views.{view_of};
ghost use Rattle.corr_report.specs.Lines.{IsLine};
ghost use Rattle.corr_report.specs.Decoded.{antennas_text, baseline_text, cause_name, channel_text, heap_text, pair_of, products_text, stop_text, value_text};

use crate::draft::Draft;
use corr_model::pair;
use vis_read::{ReadCause, VisView};

/// Writes the line on a visibility heap at the front of the buffer, and answers its length.
pub fn heap_line(view: &VisView<'_>, out: &mut [u8; 1024]) -> usize
    ensures line { IsLine out.old out.new result (heap_text (view_of view.now)) }
    ensures fits { result ≤ 1024 }
{
    let mut draft = Draft::new();
    draft.put_number(b"heap ", view.number());
    draft.put_number(b" timestamp ", view.timestamp());
    draft.put(b"\n");
    draft.write_to(out)
}

/// Writes the line on a baseline, with its antennas and its missing count, at the front of the
/// buffer, and answers its length.
pub fn baseline_line(view: &VisView<'_>, baseline: u32, out: &mut [u8; 1024]) -> usize
    requires baseline { baseline < (view_of view.now).sizes.baselines }
    ensures line { IsLine out.old out.new result (baseline_text (view_of view.now) baseline) }
    ensures fits { result ≤ 1024 }
{
    let mut draft = Draft::new();
    let few = view.baselines();
    put_antennas(
        &mut draft,
        antennas_of(baseline, few),
        view.missing(baseline),
    );
    draft.write_to(out)
}

/// Writes the line on a channel of a baseline, with the values of the four products, at the front
/// of the buffer, and answers its length.
pub fn channel_line(view: &VisView<'_>, channel: u32, baseline: u32, out: &mut [u8; 1024]) -> usize
    requires channel { channel < (view_of view.now).sizes.channels }
    requires baseline { baseline < (view_of view.now).sizes.baselines }
    ensures line { IsLine out.old out.new result (channel_text (view_of view.now) channel baseline) }
    ensures fits { result ≤ 1024 }
{
    let mut draft = Draft::new();
    draft.put_number(b"", channel);
    put_products(&mut draft, view, channel, baseline);
    draft.put(b"\n");
    draft.write_to(out)
}

/// Writes the line on the stop heap at the front of the buffer, and answers its length.
pub fn stop_line(out: &mut [u8; 1024]) -> usize
    ensures line { IsLine out.old out.new result stop_text }
    ensures fits { result ≤ 1024 }
{
    let mut draft = Draft::new();
    draft.put(b"stop\n");
    draft.write_to(out)
}

/// The name of a cause for which a reader of the output refuses, without what it carries.
pub fn cause_name(cause: &ReadCause) -> &'static str
    ensures value { result.now ≡ cause_name cause.now }
    ensures short { length result.now ≤ 64 }
{
    match cause {
        ReadCause::Packet(_) => "Packet",
        ReadCause::AfterStop => "AfterStop",
        ReadCause::Unfinished(_) => "Unfinished",
        ReadCause::Dropped(_) => "Dropped",
        ReadCause::Descriptor(_) => "Descriptor",
        ReadCause::Form(_) => "Form",
        ReadCause::NoStop => "NoStop",
    }
}

// The antennas of a baseline, of which there are so many.
fn antennas_of(baseline: u32, count: u32) -> (u32, u32)
    requires within { baseline < count }
    requires few { count ≤ 2080 }
    ensures { result ≡ pair_of baseline }
{
    pair(baseline)
}

// Puts the antennas of a baseline and its missing count.
fn put_antennas(draft: &mut Draft, antennas: (u32, u32), missing: u32)
    requires { draft.old ≡ [] }
    ensures { draft.new ≡ antennas_text antennas missing }
{
    draft.put_number(b"baseline ", antennas.0);
    draft.put_number(b" ", antennas.1);
    draft.put_number(b" missing ", missing);
    draft.put(b"\n");
}

// Puts the values of the four products.
fn put_products(draft: &mut Draft, view: &VisView<'_>, channel: u32, baseline: u32)
    requires room { length draft.old ≤ 200 }
    requires channel { channel < (view_of view.now).sizes.channels }
    requires baseline { baseline < (view_of view.now).sizes.baselines }
    ensures value { draft.new ≡ draft.old ++ products_text (view_of view.now) channel baseline }
    ensures short { length draft.new ≤ length draft.old + 4 * 82 }
{
    put_value(draft, view.at(channel, baseline, 0));
    put_value(draft, view.at(channel, baseline, 1));
    put_value(draft, view.at(channel, baseline, 2));
    put_value(draft, view.at(channel, baseline, 3));
}

// Puts a value: its real and its imaginary part.
fn put_value(draft: &mut Draft, value: (i64, i64))
    requires { length draft.old ≤ 500 }
    ensures value { draft.new ≡ draft.old ++ value_text (record { real = value.0; imaginary = value.1 }) }
    ensures short { length draft.new ≤ length draft.old + 82 }
{
    draft.put_number(b" ", value.0);
    draft.put_number(b" ", value.1);
}
