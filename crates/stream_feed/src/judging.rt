//! What a whole heap does to the marks and the open columns.

ghost use Rattle.std.specs.Prelude.{◌≡◌, ◌≤◌, ◌<◌, ◌+◌, List, IfSome, option_map, length, ℕ, None, true};
ghost use Rattle.corr_model.specs.PacketVerdicts.{is_of_heap};
ghost use Rattle.corr_model.specs.Plans.{sample_bytes};
ghost use Rattle.corr_model.specs.Assembly.{WholeHeap};
ghost use Rattle.corr_model.specs.Streams.{JudgedHeap, above_top, cell_in, judged_as, stops};
ghost use Rattle.item_group.specs.Looking.{said};
ghost use Rattle.stream_rules.specs.Judging.{told};
ghost use Rattle.stream_rules.specs.Marking.{open_floor};
ghost use Rattle.stream_feed.specs.Judging.{Agrees, Judges, KeepsBy, PlacesHeap};

use crate::open_columns::OpenColumns;
use corr_model::Verdict;
use item_group::Sight;
use slot_column::Placed;
use stream_rules::{Judged, Marks, judge};

/// Judges a whole heap by the marks that the earlier ones left, and puts its samples into the
/// column of its accumulation where it is used. The marks rise for a heap that is past the last
/// accumulation, used, or second at its place; a late one is below them.
pub(crate) fn judge_heap(
    marks: &mut Marks,
    columns: &mut OpenColumns,
    stop: bool,
    sight: Option<Sight<'_>>,
) -> Verdict
    requires width { IfSome sight (λ s. length s.samples.now ≡ sample_bytes columns.old.plan) }
    ensures judges { (js : List JudgedHeap) (heap : WholeHeap) → stop ≡ stops heap
        → open_floor columns.old.plan marks.old.above ≡ columns.old.given
        → ((m u : ℕ) → above_top columns.old.plan js ≤ m → cell_in js m u ≡ None)
        → Agrees marks.old columns.old js
        → Judges marks.new columns.new js (judged_as columns.old.plan columns.old.antenna
        js heap (option_map said sight.entry)) result }
    ensures of_heap { is_of_heap result ≡ true }
    ensures keeps { KeepsBy result marks.old columns.old marks.new columns.new }
{
    let judged = judge(
        marks,
        stop,
        place_of(sight),
        columns.plan(),
        columns.antenna(),
    );
    match judged {
        Judged::Stop => Verdict::Stop,
        Judged::Undescribed => Verdict::Undescribed,
        Judged::Foreign(antenna) => Verdict::Foreign(antenna),
        Judged::BeforeStart => Verdict::BeforeStart,
        Judged::OffGrid => Verdict::OffGrid,
        Judged::Wild => Verdict::Wild,
        Judged::Beyond(n) => {
            marks.raise(n);
            Verdict::Beyond
        }
        Judged::Late => Verdict::Late,
        Judged::At(n, t) => match sight {
            Some(sight) => place_heap(marks, columns, n, t, sight.samples),
            // Only a readable heap has a place.
            None => Verdict::Undescribed,
        },
    }
}

// What is said of timestamp and antenna.
fn place_of(sight: Option<Sight<'_>>) -> Option<(u64, u64)>
    ensures { result ≡ option_map told (option_map said sight.entry) }
{
    match sight {
        Some(sight) => Some((sight.timestamp, sight.antenna)),
        None => None,
    }
}

// Puts the samples of a heap into the column of their accumulation.
fn place_heap(
    marks: &mut Marks,
    columns: &mut OpenColumns,
    n: u64,
    t: u32,
    samples: &[u8],
) -> Verdict
    requires in_range { t < columns.old.plan.heaps }
    requires whole { length samples.now ≡ sample_bytes columns.old.plan }
    ensures places { PlacesHeap marks.old columns.old n t samples.now marks.new columns.new result }
    ensures of_heap { is_of_heap result ≡ true }
{
    let placed = columns.place(n, t, samples);
    marks.raise(n);
    match placed {
        Placed::New => Verdict::Used(n, t),
        Placed::Twice => Verdict::Twice,
    }
}
