//! The events of a stream: a byte string, its end, and a closed column that goes into the ring.

ghost use Rattle.std.specs.Prelude.{◌≡◌, ◌⊎◌, ◌<◌, ◌≤◌, None, true, false, not, ◌&&◌, is_some, length};
ghost use Rattle.stream_feed.specs.Feeding.{IsNext, due_of};
ghost use Rattle.corr_core.specs.Changes.{PutsHand};

use crate::parts::Parts;
use corr_model::{Ending, Observation};
use slot_column::Closed;
use slot_ring::{Put, Ring};
use stream_feed::StreamReport;
use vis_back::Backend;

// Whether a hand has a closed column.
fn is_closed<O: Observation>(hand: &Closed<O>) -> bool
    ensures { result ≡ hand.now.is_closed }
{
    !hand.is_spare()
}

// Puts a closed column into the ring.
fn put_hand<O: Observation, B: Backend>(ring: &mut Ring<O, B>, hand: &mut Closed<O>) -> bool
    requires closed { hand.old.is_closed ≡ true }
    ensures { PutsHand ring.old hand.old ring.new hand.new result }
{
    match ring.put(hand) {
        Put::Placed => true,
        Put::Waits(_) => false,
    }
}

impl<O: Observation, B: Backend> Parts<O, B> {
    ghost use Rattle.corr_machine.specs.Machines.{State};
    ghost use Rattle.corr_machine.specs.Machines as events;
    ghost use Rattle.corr_core.specs.Parts.{feed_in, hand_in, takes_strings};
    ghost use Rattle.corr_core.specs.Standing.{Value, StandFor, Happens};
    ghost use Rattle.corr_core.specs.Cores.{KeepsEnds, EndsByString, EndsAsSaid, end_of};
    ghost use Rattle.corr_core.specs.Changes.{TookString, TookEnd, FeedChanged, HandGot, HandFilled, HandPut};

    // Whether a stream takes strings: its hand is spare, it has not ended, and no column is due.
    fn takes_strings(&self, antenna: usize) -> bool
        requires in_range { antenna < self.now.plan.antennas }
        ensures { result ≡ takes_strings self.now antenna }
    {
        let feed = &self.feeds[antenna];
        !is_closed(&self.hands[antenna]) && feed.ended().is_none() && feed.due().is_none()
    }

    // One byte string more of a stream.
    fn take_string(&mut self, antenna: usize, bytes: &[u8])
        requires in_range { antenna < self.old.plan.antennas }
        requires takes { takes_strings self.old antenna ≡ true }
        requires next { O.names ≡ true → IsNext (O.list (feed_in self.old antenna).columns.antenna)
            (feed_in self.old antenna).report.taken bytes.now }
        ensures { FeedChanged self.old self.new antenna (λ f g. TookString f g bytes.now) }
    {
        self.feeds[antenna].packet(bytes);
    }

    /// A byte string of a stream.
    pub(crate) fn packet(&mut self, antenna: u32, bytes: &[u8]) -> bool
        requires in_range { antenna < self.old.plan.antennas }
        requires next { O.names ≡ true → takes_strings self.old antenna ≡ true
            → IsNext (O.list (feed_in self.old antenna).columns.antenna)
            (feed_in self.old antenna).report.taken bytes.now }
        ensures happens { (value : Value) (state : State) → StandFor value self.old state
            → Happens value self.old.plan self.new state (events.Packet antenna bytes.now) result }
        ensures ends { EndsByString self.old self.new antenna result }
        ensures plan { self.new.plan ≡ self.old.plan }
    {
        if !self.takes_strings(antenna as usize) {
            return false;
        }
        self.take_string(antenna as usize, bytes);
        true
    }

    // The end of a stream.
    fn take_end(&mut self, antenna: usize, how: Ending)
        requires in_range { antenna < self.old.plan.antennas }
        requires takes { takes_strings self.old antenna ≡ true }
        requires how { (how ≡ Ending.End) ⊎ (how ≡ Ending.Fault) }
        requires last { O.names ≡ true → length (O.list (feed_in self.old antenna).columns.antenna)
            ≤ (feed_in self.old antenna).report.taken }
        ensures { FeedChanged self.old self.new antenna (λ f g. TookEnd f g how) }
    {
        self.feeds[antenna].end(how);
    }

    /// The end of a stream.
    pub(crate) fn end(&mut self, antenna: u32, how: Ending) -> bool
        requires in_range { antenna < self.old.plan.antennas }
        requires how { (how ≡ Ending.End) ⊎ (how ≡ Ending.Fault) }
        requires last { O.names ≡ true → takes_strings self.old antenna ≡ true
            → length (O.list (feed_in self.old antenna).columns.antenna)
            ≤ (feed_in self.old antenna).report.taken }
        ensures happens { (value : Value) (state : State) → StandFor value self.old state
            → Happens value self.old.plan self.new state (events.End antenna) result }
        ensures ends { EndsAsSaid self.old self.new antenna how result }
        ensures plan { self.new.plan ≡ self.old.plan }
    {
        if !self.takes_strings(antenna as usize) {
            return false;
        }
        self.take_end(antenna as usize, how);
        true
    }

    // Whether a column is due in a stream whose hand is spare.
    fn can_give(&self, antenna: usize) -> bool
        requires in_range { antenna < self.now.plan.antennas }
        ensures { result
            ≡ (not (hand_in self.now antenna).is_closed
            && is_some (due_of (feed_in self.now antenna))) }
    {
        !is_closed(&self.hands[antenna]) && self.feeds[antenna].due().is_some()
    }

    // Gives the column that is due in a stream to its hand.
    fn give(&mut self, antenna: usize)
        requires in_range { antenna < self.old.plan.antennas }
        requires spare { (hand_in self.old antenna).is_closed ≡ false }
        requires due { is_some (due_of (feed_in self.old antenna)) ≡ true }
        ensures { HandGot self.old self.new antenna }
    {
        self.feeds[antenna].give(&mut self.hands[antenna]);
    }

    // A column that is due goes into the stream's hand, if that is spare.
    fn fill_hand(&mut self, antenna: usize)
        requires in_range { antenna < self.old.plan.antennas }
        ensures fills { (value : Value) (state : State) → StandFor value self.old state
            → HandFilled value self.old self.new antenna state }
        ensures ends { KeepsEnds self.old self.new }
        ensures plan { self.new.plan ≡ self.old.plan }
    {
        if self.can_give(antenna) {
            self.give(antenna);
        }
    }

    // Whether a stream's hand has a closed column.
    fn has_column(&self, antenna: usize) -> bool
        requires in_range { antenna < self.now.plan.antennas }
        ensures { result ≡ (hand_in self.now antenna).is_closed }
    {
        is_closed(&self.hands[antenna])
    }

    // The closed column of a stream's hand goes into the ring.
    fn place(&mut self, antenna: usize) -> bool
        requires in_range { antenna < self.old.plan.antennas }
        requires closed { (hand_in self.old antenna).is_closed ≡ true }
        ensures { HandPut self.old self.new antenna result }
    {
        put_hand(&mut self.ring, &mut self.hands[antenna])
    }

    /// The next closed column of a stream goes into the ring.
    pub(crate) fn put(&mut self, antenna: u32) -> bool
        requires in_range { antenna < self.old.plan.antennas }
        ensures happens { (value : Value) (state : State) → StandFor value self.old state
            → Happens value self.old.plan self.new state (events.Put antenna) result }
        ensures ends { KeepsEnds self.old self.new }
        ensures plan { self.new.plan ≡ self.old.plan }
    {
        self.fill_hand(antenna as usize);
        if !self.has_column(antenna as usize) {
            return false;
        }
        self.place(antenna as usize)
    }

    /// The report on a stream.
    pub(crate) fn report(&self, antenna: u32) -> StreamReport
        requires { antenna < self.now.plan.antennas }
        ensures { result ≡ (feed_in self.now antenna).report }
    {
        self.feeds[antenna as usize].report()
    }

    /// How a stream ended, where it has.
    pub(crate) fn ended(&self, antenna: u32) -> Option<Ending>
        requires { antenna < self.now.plan.antennas }
        ensures { result ≡ end_of self.now antenna }
    {
        self.feeds[antenna as usize].ended()
    }
}
