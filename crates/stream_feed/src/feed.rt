//! The feed of one antenna's stream: byte strings in, verdicts, a report and closed columns out.

ghost use Rattle.std.specs.Prelude.{◌≡◌, ◌⊎◌, ◌≤◌, ◌<◌, ◌+◌, ◌++◌, ◌∷◌, [], ℕ, List, None, Some, false, true, is_some, IfOk, length};
ghost use Rattle.corr_model.specs.Plans.{Fits};
ghost use Rattle.corr_model.specs.PacketVerdicts.{packet_verdict, report};
ghost use Rattle.corr_model.specs.Streams.{ending, floor};
ghost use Rattle.stream_feed.specs.Counting.{counts_of};
ghost use Rattle.slot_column.specs.Columns.{Cells, IsColumnOf};
ghost use Rattle.stream_feed.specs.Feeding.{StandsFor, IsSameStream, IsNext, KeepsHeard, EndsAs, due_of, due_by, is_said, column_of, going_on};
ghost use Rattle.stream_feed.specs.Keeping.{KeepsWindow, opens_after};

use crate::report::StreamReport;
use crate::stream::Stream;
use corr_model::{Ending, Observation, Plan, Verdict};
use slot_column::Closed;
use std::alloc::{AllocError, Global};
use std::marker::{Model, PhantomData};

/// The feed of one antenna's stream. It takes the stream's byte strings one by one, says what
/// becomes of each, counts them, and gives each column of cells, accumulation by accumulation, once
/// it is closed.
///
/// All memory is taken when it is made: a window of heaps, a table of descriptors, the marks of how
/// far the stream came, and `lag + 1` columns. A column that is given is exchanged for a spare one,
/// and none is copied.
///
/// Where the observation names its lists, the strings taken are the first of the antenna's list,
/// and a column that is given is known to be that of the whole list.
#[derive(Drop)]
pub struct Feed<O: Observation> {
    stream: Stream,
    of: PhantomData<O>,
}

impl<O: Observation> Model for Feed<O> {
    ghost use Rattle.std.specs.Prelude.{◌≡◌, true};
    ghost use Rattle.stream_feed.specs.Feeding.{FeedState, IsOfList};

    ghost Value = { FeedState };

    ghost view = { λ s. s.stream };

    ghost invariant = { λ s. O.names ≡ true → IsOfList O.list s.stream };
}

impl<O: Observation> Feed<O> {
    /// A feed of the stream of antenna `antenna`, counted from 0, that took nothing yet.
    /// `AllocError` where there is no memory for its window and its columns.
    pub fn new(alloc: Global, plan: &Plan, antenna: u32) -> Result<Feed<O>, AllocError>
        requires fits { Fits plan.now }
        requires in_range { antenna < plan.now.antennas }
        ensures stands { IfOk result (λ f. StandsFor f []) }
        ensures plan { IfOk result (λ f. f.columns.plan ≡ plan.now) }
        ensures antenna { IfOk result (λ f. f.columns.antenna ≡ antenna) }
        ensures given { IfOk result (λ f. f.columns.given ≡ 0) }
        ensures ended { IfOk result (λ f. f.report.ended ≡ None) }
    {
        let stream = Stream::new(alloc, plan, antenna)?;
        Ok(Feed {
            stream,
            of: PhantomData,
        })
    }

    /// Takes the next byte string of the stream, and answers what becomes of it. The stream goes
    /// on, and no column is due.
    ///
    /// A string that is refused, stale, or dropped and opens no heap changes the report alone; one
    /// that opens a heap and is dropped, which is for too many pointers, changes the window and the
    /// report. Of the verdicts on a whole heap only Beyond, Late, Twice and Used say how far the
    /// stream came, and only Used puts samples into a column. The stream ends at a stop heap, and
    /// at the string with which `packet_limit` are taken, whatever its verdict.
    pub fn packet(&mut self, bytes: &[u8]) -> Verdict
        requires goes_on { self.old.report.ended ≡ None }
        requires given { due_of self.old ≡ None }
        requires next { O.names ≡ true
            → IsNext (O.list self.old.columns.antenna) self.old.report.taken bytes.now }
        ensures verdict { (l : List (List ℕ)) → StandsFor self.old l → result
            ≡ packet_verdict self.old.columns.plan self.old.columns.antenna (l ++ bytes.now ∷ []) }
        ensures stands { (l : List (List ℕ)) → StandsFor self.old l
            → StandsFor self.new (l ++ bytes.now ∷ []) }
        ensures same { IsSameStream self.old self.new }
        ensures taken { self.new.report.taken ≡ self.old.report.taken + 1 }
        ensures own { is_said self.new.report.ended ≡ false }
        ensures keeps { KeepsHeard result self.old.table self.old.marks self.old.columns
            self.new.table (going_on self.new.marks) self.new.columns }
        ensures window { (l : List (List ℕ)) → StandsFor self.old l
            → KeepsWindow result (opens_after self.old.columns.plan l bytes.now)
            self.old.window self.new.window }
        ensures limit { self.old.columns.plan.packet_limit ≤ self.new.report.taken
            → is_some self.new.report.ended ≡ true }
    {
        self.stream.packet(bytes)
    }

    /// Ends the stream: its source has no more (`Ending::End`), or failed (`Ending::Fault`). All
    /// columns that were not given are due then.
    pub fn end(&mut self, how: Ending)
        requires goes_on { self.old.report.ended ≡ None }
        requires how { (how ≡ Ending.End) ⊎ (how ≡ Ending.Fault) }
        requires last { O.names ≡ true
            → length (O.list self.old.columns.antenna) ≤ self.old.report.taken }
        ensures stands { (l : List (List ℕ)) → StandsFor self.old l → StandsFor self.new l }
        ensures ended { self.new.report ≡ record self.old.report { ended = Some how } }
        ensures same { IsSameStream self.old self.new }
    {
        self.stream.end(how);
    }

    /// How the stream ended, if it has: by a stop heap, by the limit, or as was said to `end`.
    pub fn ended(&self) -> Option<Ending>
        ensures value { result ≡ self.now.report.ended }
        ensures ends { (l : List (List ℕ)) → StandsFor self.now l
            → EndsAs result (ending self.now.columns.plan l) }
    {
        self.stream.report().ended
    }

    /// The number of the column that is due, if one is: the first that was not given, where it is
    /// below the stream's floor.
    pub fn due(&self) -> Option<u64>
        ensures value { result ≡ due_of self.now }
        ensures floor { (l : List (List ℕ)) → StandsFor self.now l
            → result ≡ due_by self.now.columns.given (floor self.now.columns.plan
            self.now.columns.antenna l (is_some self.now.report.ended)) }
    {
        self.stream.due()
    }

    /// Gives the column that is due: the hand, which is spare, has it and is closed from then on.
    /// Each column is given once, in order, also those in which no heap was used.
    pub fn give(&mut self, hand: &mut Closed<O>)
        requires due { is_some (due_of self.old) ≡ true }
        requires spare { hand.old.is_closed ≡ false }
        requires plan { hand.old.column.plan ≡ self.old.columns.plan }
        requires same_plan { O.names ≡ true → self.old.columns.plan ≡ O.plan }
        ensures closed { hand.new.is_closed ≡ true }
        ensures column { (l : List (List ℕ)) → StandsFor self.old l → hand.new.column
            ≡ column_of self.old.columns.plan self.old.columns.antenna l self.old.columns.given }
        ensures hand_plan { hand.new.column.plan ≡ self.old.columns.plan }
        ensures stands { (l : List (List ℕ)) → StandsFor self.old l → StandsFor self.new l }
        ensures given { self.new.columns.given ≡ self.old.columns.given + 1 }
        ensures same_plan { self.new.columns.plan ≡ self.old.columns.plan }
        ensures same_antenna { self.new.columns.antenna ≡ self.old.columns.antenna }
        ensures report { self.new.report ≡ self.old.report }
    {
        let _plan = self.stream.plan();
        self.stream.give(hand);
    }

    /// The report on the stream so far.
    pub fn report(&self) -> StreamReport
        ensures value { result ≡ self.now.report }
        ensures counts { (l : List (List ℕ)) → StandsFor self.now l
            → counts_of result ≡ report self.now.columns.plan self.now.columns.antenna l }
    {
        *self.stream.report()
    }
}
