//! One antenna's stream: its window, its table of descriptors, its marks, its open columns and its
//! report.

ghost use Rattle.std.specs.Prelude.{◌≡◌, ◌⊎◌, ◌≤◌, ◌<◌, ◌+◌, ◌++◌, ◌∷◌, [], ℕ, List, None, Some, false, true, is_some, IfOk, length};
ghost use Rattle.corr_model.specs.Plans.{Fits};
ghost use Rattle.corr_model.specs.PacketVerdicts.{packet_verdict};
ghost use Rattle.slot_column.specs.Columns.{Cells, IsColumnOf};
ghost use Rattle.stream_feed.specs.Opening.{after_given};
ghost use Rattle.corr_model.specs.Tables.{TableStandsFor};
ghost use Rattle.corr_model.specs.Streams.{ended_by, ending};
ghost use Rattle.stream_rules.specs.Marking.{open_floor};
ghost use Rattle.stream_feed.specs.Judging.{KeepsFrame};
ghost use Rattle.corr_model.specs.Windows.{heard};
ghost use Rattle.stream_feed.specs.Feeding.{IsWindowOf, Holds, Hears, KeepsHeard, StandsFor, IsSameStream, due_of, is_said, next_given, column_of, going_on};
ghost use Rattle.stream_feed.specs.Keeping.{KeepsWindow, opens_after};

use crate::judging::judge_heap;
use crate::open_columns::OpenColumns;
use crate::report::StreamReport;
use corr_model::{Ending, Observation, Plan, Verdict};
use heap_window::{Taken, Window};
use item_group::Table;
use slot_column::Closed;
use spead_wire::decode;
use std::alloc::{AllocError, Global};
use std::marker::Model;
use stream_rules::Marks;

/// The stream of one antenna.
#[derive(Drop)]
pub(crate) struct Stream {
    window: Window,
    table: Table,
    marks: Marks,
    columns: OpenColumns,
    report: StreamReport,
}

impl Model for Stream {
    ghost use Rattle.stream_feed.specs.Feeding.{FeedState, IsSoundFeed};

    ghost Value = { FeedState };

    ghost view = { λ s. record {
      window = s.window;
      table = s.table;
      marks = s.marks;
      columns = s.columns;
      report = s.report;
    } };

    ghost invariant = { λ s.
        IsSoundFeed (record {
          window = s.window;
          table = s.table;
          marks = s.marks;
          columns = s.columns;
          report = s.report;
        }) };
}

// What becomes of one byte string.
#[derive(Clone, Copy)]
pub(crate) struct Heard {
    pub(crate) verdict: Verdict,
    pub(crate) stop: bool,
    pub(crate) evicts: bool,
    pub(crate) bad: u32,
}

// A byte string that makes no heap whole.
fn part(verdict: Verdict, evicts: bool) -> Heard
    ensures { result ≡ record { verdict = verdict; stop = false; evicts = evicts; bad = 0 } }
{
    Heard {
        verdict,
        stop: false,
        evicts,
        bad: 0,
    }
}

// The table of the plan before any descriptor.
fn table_of(plan: &Plan) -> Table
    ensures { TableStandsFor plan.now result [] }
{
    if plan.preset {
        Table::preset(plan)
    } else {
        Table::empty()
    }
}

// How a stream ends by itself: by a stop heap, else by as many strings as the limit.
fn ending_after(is_stop: bool, is_full: bool) -> Option<Ending>
    ensures value { result ≡ ended_by is_stop is_full }
    ensures own { is_said result ≡ false }
{
    if is_stop {
        Some(Ending::Stop)
    } else if is_full {
        Some(Ending::Limit)
    } else {
        None
    }
}

// Takes a byte string to its heap, and judges the heap that is whole at it, if one is.
fn hear(
    window: &mut Window,
    table: &mut Table,
    marks: &mut Marks,
    columns: &mut OpenColumns,
    bytes: &[u8],
) -> Heard
    ensures hears { (l : List (List ℕ)) → ending columns.old.plan l ≡ None
        → open_floor columns.old.plan marks.old.above ≡ columns.old.given
        → Holds window.old table.old marks.old columns.old l
        → Hears columns.old.plan columns.old.antenna
        window.new table.new marks.new columns.new l bytes.now result }
    ensures few { result.bad ≤ 64 }
    ensures keeps { KeepsHeard result.verdict table.old marks.old columns.old
        table.new marks.new columns.new }
    ensures frame { KeepsFrame marks.old columns.old marks.new columns.new }
    ensures window { (l : List (List ℕ)) → Fits columns.old.plan
        → IsWindowOf columns.old.plan window.old (heard columns.old.plan l)
        → KeepsWindow result.verdict (opens_after columns.old.plan l bytes.now)
        window.old window.new }
{
    let packet = match decode(bytes) {
        Ok(packet) => packet,
        Err(refusal) => return part(Verdict::Refused(refusal), false),
    };
    let take = window.take(&packet);
    let evicts = take.evicted.is_some();
    match take.what {
        Taken::Part => part(Verdict::Part, evicts),
        Taken::Stale => part(Verdict::Stale, evicts),
        Taken::Dropped(cause) => part(Verdict::Dropped(cause), evicts),
        Taken::Whole(heap) => {
            let applied = table.apply(&heap);
            let look = table.look(&heap, columns.plan());
            Heard {
                verdict: judge_heap(marks, columns, look.stop, look.sight),
                stop: look.stop,
                evicts,
                bad: applied.refused + applied.full,
            }
        }
    }
}

// Makes the marks those of a stream that has ended, where it has.
fn mark_end(marks: &mut Marks, has_ended: bool)
    requires { marks.old.finished ≡ false }
    ensures { marks.new ≡ record marks.old { finished = has_ended } }
{
    if has_ended {
        marks.finish();
    }
}

impl Stream {
    /// A stream that took nothing yet.
    pub(crate) fn new(alloc: Global, plan: &Plan, antenna: u32) -> Result<Stream, AllocError>
        requires fits { Fits plan.now }
        requires in_range { antenna < plan.now.antennas }
        ensures stands { IfOk result (λ s. StandsFor s []) }
        ensures plan { IfOk result (λ s. s.columns.plan ≡ plan.now) }
        ensures antenna { IfOk result (λ s. s.columns.antenna ≡ antenna) }
        ensures given { IfOk result (λ s. s.columns.given ≡ 0) }
        ensures taken { IfOk result (λ s. s.report.taken ≡ 0) }
        ensures ended { IfOk result (λ s. s.report.ended ≡ None) }
    {
        Ok(Stream {
            window: Window::new(alloc, plan.window, plan.heap_limit)?,
            table: table_of(plan),
            marks: Marks::new(),
            columns: OpenColumns::new(alloc, plan, antenna)?,
            report: StreamReport::new(),
        })
    }

    /// Takes the next byte string.
    pub(crate) fn packet(&mut self, bytes: &[u8]) -> Verdict
        requires goes_on { self.old.report.ended ≡ None }
        requires given { due_of self.old ≡ None }
        ensures verdict { (l : List (List ℕ)) → StandsFor self.old l
            → result
            ≡ packet_verdict self.old.columns.plan self.old.columns.antenna (l ++ bytes.now ∷ []) }
        ensures stands { (l : List (List ℕ)) → StandsFor self.old l
            → StandsFor self.new (l ++ bytes.now ∷ []) }
        ensures same { IsSameStream self.old self.new }
        ensures taken { self.new.report.taken ≡ self.old.report.taken + 1 }
        ensures own { is_said self.new.report.ended ≡ false }
        ensures keeps { KeepsHeard result self.old.table self.old.marks self.old.columns
            self.new.table (going_on self.new.marks) self.new.columns }
        ensures window { (l : List (List ℕ)) → StandsFor self.old l
            → KeepsWindow result (opens_after self.old.columns.plan l bytes.now)
            self.old.window self.new.window }
        ensures limit { self.old.columns.plan.packet_limit ≤ self.new.report.taken
            → is_some self.new.report.ended ≡ true }
    {
        let limit = self.columns.plan().packet_limit;
        let heard = hear(
            &mut self.window,
            &mut self.table,
            &mut self.marks,
            &mut self.columns,
            bytes,
        );
        let report = self.report.with(heard.verdict, heard.evicts, heard.bad);
        let ended = ending_after(heard.stop, limit <= report.taken);
        mark_end(&mut self.marks, ended.is_some());
        self.report = StreamReport { ended, ..report };
        heard.verdict
    }

    /// Ends the stream where its source has no more, or failed.
    pub(crate) fn end(&mut self, how: Ending)
        requires goes_on { self.old.report.ended ≡ None }
        requires how { (how ≡ Ending.End) ⊎ (how ≡ Ending.Fault) }
        ensures stands { (l : List (List ℕ)) → StandsFor self.old l → StandsFor self.new l }
        ensures ended { self.new.report ≡ record self.old.report { ended = Some how } }
        ensures same { IsSameStream self.old self.new }
    {
        self.marks.finish();
        self.report.ended = Some(how);
    }

    /// The number of the column that is due.
    pub(crate) fn due(&self) -> Option<u64>
        ensures { result ≡ due_of self.now }
    {
        let given = self.columns.given();
        if given < self.marks.floor(self.columns.plan()) {
            Some(given)
        } else {
            None
        }
    }

    /// Gives the column that is due.
    pub(crate) fn give<O: Observation>(&mut self, hand: &mut Closed<O>)
        requires due { is_some (due_of self.old) ≡ true }
        requires spare { hand.old.is_closed ≡ false }
        requires plan { hand.old.column.plan ≡ self.old.columns.plan }
        requires told { O.names ≡ true → (d : Cells)
            → IsColumnOf O.plan O.list (next_given self.old.columns d) }
        ensures hand { (d : Cells) → hand.new
            ≡ record { column = next_given self.old.columns d; is_closed = true } }
        ensures columns { self.new ≡ record self.old { columns = after_given self.old.columns } }
        ensures column { (l : List (List ℕ)) (d : Cells) → StandsFor self.old l
            → next_given self.old.columns d
            ≡ column_of self.old.columns.plan self.old.columns.antenna l self.old.columns.given }
        ensures hand_plan { hand.new.column.plan ≡ self.old.columns.plan }
        ensures stands { (l : List (List ℕ)) → StandsFor self.old l → StandsFor self.new l }
        ensures given { self.new.columns.given ≡ self.old.columns.given + 1 }
        ensures same_plan { self.new.columns.plan ≡ self.old.columns.plan }
        ensures same_antenna { self.new.columns.antenna ≡ self.old.columns.antenna }
    {
        let _floor = self.marks.floor(self.columns.plan());
        self.columns.give(hand);
    }

    /// The plan.
    pub(crate) fn plan(&self) -> &Plan
        ensures value { result.now ≡ self.now.columns.plan }
        ensures as_many { length self.now.columns.columns ≡ self.now.columns.plan.lag }
        ensures some { 1 ≤ self.now.columns.plan.lag }
    {
        self.columns.plan()
    }

    /// What is reported of the stream.
    pub(crate) fn report(&self) -> &StreamReport
        ensures { result.now ≡ self.now.report }
    {
        &self.report
    }
}
