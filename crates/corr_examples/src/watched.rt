//! What is seen of a run, and a gate that holds one actor until something was seen.

ghost use Rattle.std.specs.Prelude.{◌≡◌, ◌<◌};

use corr_model::Observation;
use corr_site::{Actor, ActorKind, Failed, Gate, Next, PacketSource, Place};
use std::sync::atomic::{AtomicBool, Ordering};
use std::thread::yield_now;

// The actors of a run with two antennas and at most two workers.
const ACTORS: usize = 5;

// The place of an actor among these: two receivers, two workers, the sender.
fn place_of(actor: Actor) -> usize
    ensures { result < 5 }
{
    match (actor.kind, actor.number) {
        (ActorKind::Receive, 0) => 0,
        (ActorKind::Receive, _) => 1,
        (ActorKind::Work, 0) => 2,
        (ActorKind::Work, _) => 3,
        (ActorKind::Send, _) => 4,
    }
}

/// A flag that is not set.
pub fn unset() -> AtomicBool {
    AtomicBool::new(false)
}

// Whether the flag is set.
fn is_set(flag: &AtomicBool) -> bool {
    flag.load(Ordering::SeqCst)
}

// Whether the flag is set within a million turns that each yield the processor.
fn is_seen(flag: &AtomicBool) -> bool {
    for _ in 0..1_000_000 {
        if is_set(flag) {
            return true;
        }
        yield_now();
    }
    false
}

/// What was seen of a source.
#[derive(Drop)]
pub struct Seen {
    /// It was asked for a packet.
    pub asked: AtomicBool,
    /// It answered End.
    pub ended: AtomicBool,
}

impl Seen {
    fn new() -> Seen {
        Seen {
            asked: unset(),
            ended: unset(),
        }
    }
}

/// What was seen of a run with two antennas and at most two workers.
#[derive(Drop)]
pub struct Marks {
    /// Which actors passed the gate: two receivers, two workers, the sender.
    pub passed: [AtomicBool; ACTORS],
    /// The sources of the two antennas, and those that no antenna has.
    pub sources: [Seen; 3],
}

impl Marks {
    /// Nothing was seen yet.
    pub fn new() -> Marks {
        Marks {
            passed: [unset(), unset(), unset(), unset(), unset()],
            sources: [Seen::new(), Seen::new(), Seen::new()],
        }
    }

    /// Whether receivers, sender and so many workers passed the gate, and no other.
    pub fn are_passed(&self, workers: usize) -> bool {
        let [first, other, worker, second, sender] = &self.passed;
        is_set(first)
            && is_set(other)
            && is_set(worker) == (0 < workers)
            && is_set(second) == (1 < workers)
            && is_set(sender)
    }
}

/// A source of which it is seen that it is asked, and that it has ended.
#[derive(Drop)]
pub struct Watched<'a, S: Drop> {
    /// The source.
    pub source: S,
    /// What is seen of it.
    pub seen: &'a Seen,
}

impl<'a, S: Drop> Watched<'a, S> {
    /// A source that is watched from now on.
    pub fn new(source: S, seen: &'a Seen) -> Watched<'a, S>
        ensures { result.source ≡ source }
    {
        Watched { source, seen }
    }
}

impl<'a, O: Observation, S: PacketSource<O>> PacketSource<O> for Watched<'a, S> {
    ghost gives = { λ s. S.gives s.source };

    ghost given = { λ s. S.given s.source };

    ghost begun = { λ s. S.begun s.source };

    ghost at = { λ s. S.at s.source };

    ghost belongs = { λ s a. S.belongs s.source a };

    ghost faults = { λ s. S.faults s.source };

    fn begin(&mut self, antenna: u32, place: &Place) -> Result<(), Failed> {
        self.source.begin(antenna, place)
    }

    fn next(&mut self, buf: &mut [u8; 65536]) -> Next {
        self.seen.asked.store(true, Ordering::SeqCst);
        let next = self.source.next(buf);
        if next == Next::End {
            self.seen.ended.store(true, Ordering::SeqCst);
        }
        next
    }

    ghost belongs_tells = { λ s a b. S.belongs_tells s.source a b };
}

/// A gate that holds an actor at its first pass until a flag is set.
#[derive(Drop)]
pub struct Hold<'a> {
    marks: &'a Marks,
    held: Actor,
    until: &'a AtomicBool,
    not_before: &'a AtomicBool,
    came: AtomicBool,
    failed: AtomicBool,
}

impl<'a> Hold<'a> {
    /// One that has held no one yet, and notes in `marks` who passes. `not_before` must not be set
    /// while the actor is held.
    pub fn new(
        marks: &'a Marks,
        held: Actor,
        until: &'a AtomicBool,
        not_before: &'a AtomicBool,
    ) -> Hold<'a> {
        Hold {
            marks,
            held,
            until,
            not_before,
            came: unset(),
            failed: unset(),
        }
    }

    /// Whether the actor came, and the flag was set in time and before what must come later.
    pub fn is_kept(&self) -> bool {
        is_set(&self.came) && !is_set(&self.failed)
    }
}

impl<'a> Gate for Hold<'a> {
    fn pass(&self, actor: Actor) {
        let passed = &self.marks.passed[..];
        passed[place_of(actor)].store(true, Ordering::SeqCst);
        if actor == self.held && !self.came.swap(true, Ordering::SeqCst) {
            let is_kept = is_seen(self.until) && !is_set(self.not_before);
            self.failed.store(!is_kept, Ordering::SeqCst);
        }
    }
}
