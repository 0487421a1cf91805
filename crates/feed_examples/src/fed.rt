//! A feed of antenna 0, and the hand that takes its columns.

ghost use Rattle.std.specs.Prelude.{◌≡◌};

use corr_model::{Plan, Unheard};
use slot_column::{Closed, Column};
use std::alloc::Global;
use std::process::Abort;
use std::test::*;
use stream_feed::{Ending, Feed, StreamReport, Verdict};

/// A plan of two antennas, one channel, one spectrum and two heaps an accumulation.
pub const PLAN: Plan = Plan {
    antennas: 2,
    channels: 1,
    spectra: 1,
    heaps: 2,
    accumulations: 1,
    lag: 1,
    window: 8,
    slots: 1,
    workers: 0,
    packet: 1024,
    heap_limit: 4100,
    beams: 0,
    step: 1,
    start: 0,
    leap: 0,
    packet_limit: 1 << 40,
    preset: true,
};

/// A report in which nothing is counted.
pub const NOTHING: StreamReport = StreamReport {
    taken: 0,
    refused: 0,
    dropped: 0,
    stale: 0,
    evicted: 0,
    baddesc: 0,
    undescribed: 0,
    foreign: 0,
    before: 0,
    offgrid: 0,
    wild: 0,
    beyond: 0,
    late: 0,
    twice: 0,
    used: 0,
    ended: None,
};

/// The samples of the two timestamps of a column, where they are there.
pub type Pair = [Option<&'static [u8]>; 2];

/// A feed with the hand that takes its columns.
#[derive(Drop)]
pub struct Fed {
    feed: Feed<Unheard>,
    hand: Closed<Unheard>,
    ghost same_plan: { hand.column.plan ≡ feed.columns.plan },
}

impl Fed {
    /// A feed of antenna 0.
    pub fn new(rt: &impl Abort, alloc: Global, plan: &Plan) -> Result<Fed, Fail> {
        assert!(rt; plan.fits());
        assert!(rt; 0 < plan.antennas);
        let feed = Feed::new(alloc, plan, 0)?;
        let hand = Closed::spare(Column::new(alloc, plan)?);
        Ok(Fed { feed, hand })
    }

    /// Takes these strings, each with its verdict.
    pub fn take_all(&mut self, rt: &impl Abort, strings: &[Vec<u8>], verdicts: &[Verdict]) {
        assert_eq!(rt; strings.len(), verdicts.len());
        for number in 0..strings.len() {
            let verdict = self.take(rt, &strings[number]);
            assert_eq!(rt; verdict, verdicts[number], "string {number}");
        }
    }

    // The verdict on the next string.
    fn take(&mut self, rt: &impl Abort, bytes: &[u8]) -> Verdict {
        assert!(rt; self.feed.ended().is_none());
        assert!(rt; self.feed.due().is_none());
        self.feed.packet(bytes)
    }

    /// Ends the stream, as its source does.
    pub fn end(&mut self, rt: &impl Abort) {
        assert!(rt; self.feed.ended().is_none());
        self.feed.end(Ending::End);
    }

    /// Gives the column that is due: it is that of this number, with these samples.
    pub fn give(&mut self, rt: &impl Abort, number: u64, wanted: Pair) {
        assert_eq!(rt; self.feed.due(), Some(number));
        self.hand.free();
        self.feed.give(&mut self.hand);
        let column = self.hand.column();
        assert_eq!(rt; column.antenna(), 0);
        assert_eq!(rt; column.number(), number);
        for t in 0..2 {
            assert!(rt; t < column.plan().heaps);
            assert_eq!(rt; column.heap(t), wanted[t as usize], "timestamp {t}");
        }
    }

    /// Takes away what is due.
    pub fn give_all(&mut self) {
        for _ in 0..2 {
            if self.feed.due().is_some() {
                self.hand.free();
                self.feed.give(&mut self.hand);
            }
        }
    }

    /// Nothing is due.
    pub fn gives_nothing(&self, rt: &impl Abort) {
        assert_eq!(rt; self.feed.due(), None);
    }

    /// The report, and that it says how the stream ended.
    pub fn report(&self, rt: &impl Abort) -> StreamReport {
        let report = self.feed.report();
        assert_eq!(rt; report.ended, self.feed.ended());
        report
    }
}

/// What is reported of antenna 0 under a plan with one accumulation, where these strings have these
/// verdicts.
pub fn reported(
    rt: &impl Abort,
    alloc: Global,
    plan: &Plan,
    strings: &[Vec<u8>],
    verdicts: &[Verdict],
) -> Result<StreamReport, Fail> {
    let mut fed = Fed::new(rt, alloc, plan)?;
    fed.take_all(rt, strings, verdicts);
    Ok(fed.report(rt))
}
