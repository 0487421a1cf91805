//! The ring of a run, shared between threads.

ghost use Rattle.std.specs.Prelude.{◌≡◌, ◌≢◌, ◌<◌, ◌^◌, true};
ghost use Rattle.slot_share.specs.Shares.{SharePuts, ShareTakes, ShareStores, ShareSends};

use crate::bell::Bell;
use corr_model::{Observation, Plan};
use corr_site::ActorKind;
use slot_column::Closed;
use slot_ring::{Gave, Outgoing, Put, Ring, Stage, Stored, Took, Work};
use std::sync::{Mutex, Wait};
use vis_back::Backend;

/// The ring of a plan, shared between threads. Each of its four changes is one call of `Ring`, in
/// one hold of the ring's lock, and is told to whoever waits for one of its kind. No call takes
/// memory, and none holds two locks at once.
#[derive(Drop)]
pub struct Share<O: Observation, B: Backend> {
    ring: Mutex<Ring<O, B>>,
    // Each change.
    changes: Bell,
    // A slot takes columns of its next number.
    rooms: Bell,
    // A slot has a column more, or its next number, which may be past the last.
    columns: Bell,
    // A slot has its value.
    values: Bell,
}

impl<O: Observation, B: Backend> Share<O, B> {
    /// Shares a ring. No change is counted yet.
    pub fn new(ring: Ring<O, B>) -> Share<O, B> {
        Share {
            ring: Mutex::new(ring),
            changes: Bell::new(),
            rooms: Bell::new(),
            columns: Bell::new(),
            values: Bell::new(),
        }
    }

    /// Puts the hand's column into the slot of its number. Once it is placed the hand is spare.
    pub fn put<R: Wait>(&self, rt: &R, hand: &mut Closed<O>) -> Put
        requires { hand.old.is_closed ≡ true }
        ensures { SharePuts hand.old result hand.new }
    {
        let put = self.ring.lock(rt).put(hand);
        if matches!(put, Put::Placed) {
            self.columns.ring(rt);
            self.changes.ring(rt);
        }
        put
    }

    /// Moves the columns of a full slot to a work, which is then taken and not computed.
    pub fn take<R: Wait>(&self, rt: &R, slot: u32, work: &mut Work<O, B>) -> Took
        requires free { work.old.stage ≡ Stage.Free }
        requires in_range { slot < work.old.plan.slots }
        ensures { ShareTakes work.old result work.new }
    {
        let took = self.ring.lock(rt).take(slot, work);
        if matches!(took, Took::Taken) {
            self.changes.ring(rt);
        }
        took
    }

    /// Moves the value of a computed work into its slot. The work is free after either answer.
    pub fn store<R: Wait>(&self, rt: &R, work: &mut Work<O, B>) -> Stored
        requires { work.old.stage ≡ Stage.Computed }
        ensures { ShareStores work.old result work.new }
    {
        let stored = self.ring.lock(rt).store(work);
        if matches!(stored, Stored::Stored) {
            self.values.ring(rt);
            self.changes.ring(rt);
        }
        stored
    }

    /// Gives the value of this accumulation.
    pub fn send<R: Wait>(&self, rt: &R, number: u64, outgoing: &mut Outgoing<O, B>) -> Gave
        requires { number < 2 ^ 32 }
        ensures { ShareSends number outgoing.old result outgoing.new }
    {
        let gave = self.ring.lock(rt).send(number, outgoing);
        if matches!(gave, Gave::Given) {
            self.rooms.ring(rt);
            self.columns.ring(rt);
            self.changes.ring(rt);
        }
        gave
    }

    /// Waits until the count of changes, which wraps at 2^64, is not `seen`, and answers the count.
    ///
    /// `seen` is what the last `pause` answered, or 0 before any, and is known before the call that
    /// was then refused: a count that was read after it could hide the change that it waits for.
    pub fn pause<R: Wait>(&self, rt: &R, seen: u64) -> u64
        ensures changed { result ≢ seen }
    {
        self.changes.wait(rt, seen)
    }

    /// Waits as `pause` does, on the count of the changes that can end the wait of an actor of this
    /// kind: a receiver waits for room, so for a value that is given; a worker for columns, or for
    /// a number past the last; the sender for a value that is stored. `seen` is what the last call
    /// for this kind answered, or 0 before any.
    pub fn pause_for<R: Wait>(&self, rt: &R, kind: ActorKind, seen: u64) -> u64
        ensures changed { result ≢ seen }
    {
        match kind {
            ActorKind::Receive => self.rooms.wait(rt, seen),
            ActorKind::Work => self.columns.wait(rt, seen),
            ActorKind::Send => self.values.wait(rt, seen),
        }
    }
}
