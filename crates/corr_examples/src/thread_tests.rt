//! Runs in threads, by the call that the program makes.

ghost use Rattle.std.specs.Prelude.{◌≡◌, false, is_some, All};
ghost use Rattle.corr_examples.specs.Fresh.{IsFresh};

use crate::correlate_tests::{SETTINGS, SUMMARY, text_of};
use crate::output::{ONE_HEAP_LOST, one_accumulation};
use crate::outside::words_of;
use crate::packets::{Strings, one_heap, two_heaps};
use corr_cli::run;
use corr_model::Unheard;
use corr_site::{Actor, ActorKind, Gate, ListPrint, ListSink, ListSource, NoGate};
use corr_threads::Seat;
use std::alloc::Global;
use std::sync::Wait;
use std::sync::atomic::{AtomicBool, Ordering};
use std::test::Fail;
use std::thread::{Threads, yield_now};

/// Seats whose sources are not begun.
#[derive(Drop)]
pub struct Seats {
    pub list: Vec<Seat<Unheard, ListSource<Unheard>>>,
    ghost fresh: { All (λ s. IsFresh s.source) list.items },
}

impl Seats {
    fn add(&mut self, source: ListSource<Unheard>) -> Result<(), Fail>
        requires { IsFresh source }
    {
        if self.list.push(Seat::new(source)).is_err() {
            return Err(Fail::from("no memory"));
        }
        Ok(())
    }
}

/// The seats of two antennas, of which the second loses a heap, and 62 more.
pub fn all_seats(alloc: Global) -> Result<Seats, Fail> {
    let mut seats = Seats {
        list: Vec::new(alloc),
    };
    seats.add(two_heaps(alloc)?.into_source(Vec::new(alloc), false))?;
    seats.add(one_heap(alloc)?.into_source(Vec::new(alloc), false))?;
    for _ in 2..64 {
        seats.add(Strings::new(alloc).into_source(Vec::new(alloc), false))?;
    }
    Ok(seats)
}

// Whether `correlate` with so many workers ends well: with the example's datagrams and summary.
fn is_right<G: Gate + Sync, R: Threads + Wait + Sync>(
    rt: &R,
    alloc: Global,
    workers: &str,
    gate: &G,
) -> Result<bool, Fail> {
    let words = words_of(alloc, "spead_corr correlate run.toml")?;
    let text = SETTINGS.replace(alloc, "workers = 0", workers)?;
    let mut settings = text_of(alloc, text.as_bytes(), false)?;
    let mut seats = all_seats(alloc)?.list;
    if seats.len() != 64 {
        return Err(Fail::from("not 64 seats"));
    }
    let mut sink = ListSink::new(alloc, 8, 4096, Vec::new(alloc), false)?;
    let mut print = ListPrint::new(alloc, 1024, Vec::new(alloc))?;
    let status = run::<Unheard, _, _, _, _, _, _>(
        rt,
        alloc,
        &words,
        &mut settings,
        seats.as_mut_slice(),
        &mut sink,
        &mut print,
        gate,
    );
    let wanted = one_accumulation(alloc, &ONE_HEAP_LOST, [0, 1, 1])?;
    for number in 0..wanted.len() {
        if sink.string(number) != Some(wanted[number].as_slice()) {
            return Ok(false);
        }
    }
    Ok(status.code == 0 && sink.len() == wanted.len() && print.text() == SUMMARY)
}

#[test]
fn any_number_of_workers_sends_the_same(rt: HostRuntime) -> Result<(), Fail> {
    assert!(rt; is_right(&rt, rt.alloc(), "workers = 0", &NoGate)?);
    assert!(rt; is_right(&rt, rt.alloc(), "workers = 1", &NoGate)?);
    assert!(rt; is_right(&rt, rt.alloc(), "workers = 4", &NoGate)?);
    Ok(())
}

/// A gate at which the receiver of antenna 0 and another wait for one another, and the first worker
/// and another as well.
#[derive(Drop)]
pub struct Meeting {
    receivers: [AtomicBool; 2],
    workers: [AtomicBool; 2],
    sender: AtomicBool,
    alone: AtomicBool,
}

impl Meeting {
    /// One at which nobody came.
    pub fn new() -> Meeting {
        Meeting {
            receivers: [AtomicBool::new(false), AtomicBool::new(false)],
            workers: [AtomicBool::new(false), AtomicBool::new(false)],
            sender: AtomicBool::new(false),
            alone: AtomicBool::new(false),
        }
    }

    // Says that one of two came, and waits for the other, for at most a million turns that each
    // yield the processor.
    fn meet(&self, both: &[AtomicBool; 2], number: usize) {
        let (own, other) = if number == 0 {
            (&both[0], &both[1])
        } else {
            (&both[1], &both[0])
        };
        own.store(true, Ordering::SeqCst);
        for _ in 0..1_000_000 {
            if other.load(Ordering::SeqCst) {
                return;
            }
            yield_now();
        }
        self.alone.store(true, Ordering::SeqCst);
    }

    /// Whether each met the other, and the sender came.
    pub fn is_met(&self) -> bool {
        self.receivers[0].load(Ordering::SeqCst)
            && self.workers[0].load(Ordering::SeqCst)
            && self.sender.load(Ordering::SeqCst)
            && !self.alone.load(Ordering::SeqCst)
    }
}

impl Gate for Meeting {
    fn pass(&self, actor: Actor) {
        match actor.kind {
            ActorKind::Receive => self.meet(&self.receivers, actor.number as usize),
            ActorKind::Work => self.meet(&self.workers, actor.number as usize),
            ActorKind::Send => self.sender.store(true, Ordering::SeqCst),
        }
    }
}

#[test]
fn receivers_and_workers_must_see_each_other(rt: HostRuntime) -> Result<(), Fail> {
    let meeting = Meeting::new();
    assert!(rt; is_right(&rt, rt.alloc(), "workers = 2", &meeting)?);
    assert!(rt; meeting.is_met());
    Ok(())
}
