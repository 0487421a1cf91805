//! What a whole heap is in its turn.

ghost use Rattle.std.specs.Prelude.{◌≡◌, ◌<◌, ◌^◌};
ghost use Rattle.heap_assembly.specs.Heaps.{whole_of};
ghost use Rattle.corr_model.specs.Assembly.{WholeHeap};
ghost use Rattle.corr_model.specs.Streams.{stops};
ghost use Rattle.vis_read.specs.Standing.{AreFew, HasFew};
ghost use Rattle.vis_read.specs.Readings.{later_read, whole_read, first_read, are_long, broken};
ghost use Rattle.vis_read.specs.Steps.{Judges, ShowsFew, bytes_at};

use crate::cause::ReadCause;
use crate::described::read_all;
use crate::step::{Judged, Shown, Step};
use crate::turn::{Sizes, Turn};
use heap_assembly::Heap;

// Refused for good.
pub(crate) fn refused(cause: ReadCause) -> Judged
    ensures turn { HasFew result.turn }
    ensures step { ShowsFew result.step }
    ensures judges { (h : WholeHeap) → Judges (broken cause) h result }
{
    Judged {
        turn: Turn::Broken(cause),
        step: Step::Refused(cause),
    }
}

// A later heap: the stop heap, or a visibility heap.
pub(crate) fn later(sizes: Sizes, counter: u64, heap: &Heap<'_>) -> Judged
    requires few { AreFew sizes }
    requires small { (whole_of heap.now).counter < 2 ^ 48 }
    ensures turn { HasFew result.turn }
    ensures step { ShowsFew result.step }
    ensures judges { Judges (later_read sizes counter (whole_of heap.now))
        (whole_of heap.now) result }
{
    let form = refused(ReadCause::Form(heap.counter()));
    if heap.counter() != counter {
        return form;
    }
    if is_stop(heap) {
        return Judged {
            turn: Turn::Over,
            step: Step::Stop,
        };
    }
    let (Some(timestamp), Some(values), Some(missing)) = (
        heap.number(0x1600),
        heap.addressed(0x1800),
        heap.addressed(0x1801),
    ) else {
        return form;
    };
    if !are_long(sizes, values, missing) {
        return form;
    }
    Judged {
        turn: Turn::Later(sizes, counter + 1),
        step: Step::Heap(Shown {
            number: counter.saturating_sub(2),
            timestamp,
            sizes,
        }),
    }
}

// Whether the heap ends its stream.
fn is_stop(heap: &Heap<'_>) -> bool
    ensures { result ≡ stops (whole_of heap.now) }
{
    heap.number(6).is_some_and(|control| control == 2)
}

// Whether values and missing counts have just the bytes that the sizes ask.
fn are_long(sizes: Sizes, values: &[u8], missing: &[u8]) -> bool
    ensures { result ≡ are_long sizes values.now missing.now }
{
    let channels = u128::from(sizes.channels);
    let baselines = u128::from(sizes.baselines);
    values.len() as u128 == 64 * channels * baselines && missing.len() as u128 == 4 * baselines
}

// The first heap: the descriptor heap.
fn first(heap: &Heap<'_>) -> Judged
    ensures turn { HasFew result.turn }
    ensures step { ShowsFew result.step }
    ensures judges { Judges (first_read (whole_of heap.now)) (whole_of heap.now) result }
{
    let form = refused(ReadCause::Form(heap.counter()));
    match read_all(heap) {
        Err(refusal) => refused(ReadCause::Descriptor(refusal)),
        Ok(all) => match all.sizes() {
            None => form,
            Some(sizes) => {
                if heap.counter() != 1 {
                    return form;
                }
                Judged {
                    turn: Turn::Later(sizes, 2),
                    step: Step::Head(sizes),
                }
            }
        },
    }
}

// What a whole heap is in this turn.
pub(crate) fn judge(turn: Turn, heap: &Heap<'_>) -> Judged
    requires few { HasFew turn }
    requires small { (whole_of heap.now).counter < 2 ^ 48 }
    ensures turn { HasFew result.turn }
    ensures step { ShowsFew result.step }
    ensures judges { Judges (whole_read turn (whole_of heap.now)) (whole_of heap.now) result }
{
    match turn {
        Turn::First => first(heap),
        Turn::Later(sizes, counter) => later(sizes, counter, heap),
        Turn::Over => refused(ReadCause::AfterStop),
        Turn::Broken(cause) => refused(cause),
    }
}
