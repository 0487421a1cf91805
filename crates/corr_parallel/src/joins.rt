//! Jobs in threads of their own, beside what the calling thread does.

ghost use Rattle.std.specs.Prelude.{◌≡◌, ◌<◌, ℕ, true, length, All, slice_index_or};

use corr_site::PacketSink;
use std::sync::Wait;
use std::thread::{self, Threads, join_mut};

/// What one thread does with what all of them share.
pub trait Job<C> {
    /// It can begin.
    ghost ready: { C → Self → Type 0 };
    /// What it is like afterwards.
    ghost done: { C → Self → Self → Type 0 };

    /// Does it to the end.
    fn run<R: Wait>(&mut self, rt: &R, shared: &C)
        requires { ready shared.now self.old }
        ensures { done shared.now self.old self.new };
}

/// What the calling thread does.
pub trait Sending<C> {
    ghost use Rattle.std.specs.Prelude.{ℕ, List, Option};
    ghost use Rattle.corr_site.specs.declared.place.Place.{Place};
    ghost use Rattle.corr_parallel.specs.Senders.{SinkView};

    /// It can begin.
    ghost can_send: { C → Self → Type 0 };
    /// What was sent between two states, by what is seen of the sink before and after.
    ghost sent: { C → Self → Self → SinkView → SinkView → Type 0 };

    /// Sends to the end.
    fn send_all<K: PacketSink, R: Wait>(&mut self, rt: &R, shared: &C, sink: &mut K)
        requires begun { K.begun sink.old ≡ true }
        requires can { can_send shared.now self.old }
        ensures begun { K.begun sink.new ≡ true }
        ensures at { K.at sink.new ≡ K.at sink.old }
        ensures sent { sent shared.now self.old self.new
            (record { sent = K.sent sink.old; faults = K.faults sink.old })
            (record { sent = K.sent sink.new; faults = K.faults sink.new }) };
}

// Runs each in a thread of its own.
fn run_each<C: Sync, J: Job<C> + Send, R: Threads + Wait + Sync>(rt: &R, shared: &C, jobs: &mut [J])
    requires some { 0 < length jobs.old }
    requires ready { All (λ j. J.ready shared.now j) jobs.old }
    ensures { (i : ℕ) (d : J) → i < length jobs.old
        → J.done shared.now (slice_index_or jobs.old i d) (slice_index_or jobs.new i d) }
{
    let count = jobs.len();
    thread::for_each_mut(rt, jobs, count, &|_, job| job.run(rt, shared));
}

// Runs two rows of jobs beside each other.
fn run_both<C: Sync, W: Job<C> + Send, Z: Job<C> + Send, R: Threads + Wait + Sync>(
    rt: &R,
    shared: &C,
    workers: &mut [W],
    seats: &mut [Z],
)
    requires some { (0 < length workers.old) × (0 < length seats.old) }
    requires workers { All (λ j. W.ready shared.now j) workers.old }
    requires seats { All (λ j. Z.ready shared.now j) seats.old }
    ensures { (i : ℕ) (d : Z) → i < length seats.old
        → Z.done shared.now (slice_index_or seats.old i d) (slice_index_or seats.new i d) }
{
    join_mut(
        rt,
        &mut ||
            requires { (0 < length workers.now) × All (λ j. W.ready shared.now j) workers.now }
        { run_each(rt, shared, workers) },
        &mut ||
            requires { (0 < length seats.now) × All (λ j. Z.ready shared.now j) seats.now }
        { run_each(rt, shared, seats) },
    );
}

/// Runs the seats, each in a thread of its own, beside the sender, which stays with the calling
/// thread.
pub(crate) fn run_seats<
    C: Sync,
    Z: Job<C> + Send,
    D: Sending<C>,
    K: PacketSink,
    R: Threads + Wait + Sync,
>(rt: &R, shared: &C, seats: &mut [Z], dispatch: &mut D, sink: &mut K)
    requires some { 0 < length seats.old }
    requires seats { All (λ j. Z.ready shared.now j) seats.old }
    requires begun { K.begun sink.old ≡ true }
    requires dispatch { D.can_send shared.now dispatch.old }
    ensures seats { (i : ℕ) (d : Z) → i < length seats.old
        → Z.done shared.now (slice_index_or seats.old i d) (slice_index_or seats.new i d) }
    ensures begun { K.begun sink.new ≡ true }
    ensures at { K.at sink.new ≡ K.at sink.old }
    ensures sent { D.sent shared.now dispatch.old dispatch.new
        (record { sent = K.sent sink.old; faults = K.faults sink.old })
        (record { sent = K.sent sink.new; faults = K.faults sink.new }) }
{
    join_mut(
        rt,
        &mut ||
            requires { (0 < length seats.now) × All (λ j. Z.ready shared.now j) seats.now }
        { run_each(rt, shared, seats) },
        &mut ||
            requires { (K.begun sink.now ≡ true) × D.can_send shared.now dispatch.now }
        { dispatch.send_all(rt, shared, sink) },
    );
}

/// Runs the workers and the seats, each in a thread of its own, beside the sender, which stays with
/// the calling thread.
pub(crate) fn run_beside<
    C: Sync,
    W: Job<C> + Send,
    Z: Job<C> + Send,
    D: Sending<C>,
    K: PacketSink,
    R: Threads + Wait + Sync,
>(rt: &R, shared: &C, workers: &mut [W], seats: &mut [Z], dispatch: &mut D, sink: &mut K)
    requires some { (0 < length workers.old) × (0 < length seats.old) }
    requires workers { All (λ j. W.ready shared.now j) workers.old }
    requires seats { All (λ j. Z.ready shared.now j) seats.old }
    requires begun { K.begun sink.old ≡ true }
    requires dispatch { D.can_send shared.now dispatch.old }
    ensures seats { (i : ℕ) (d : Z) → i < length seats.old
        → Z.done shared.now (slice_index_or seats.old i d) (slice_index_or seats.new i d) }
    ensures begun { K.begun sink.new ≡ true }
    ensures at { K.at sink.new ≡ K.at sink.old }
    ensures sent { D.sent shared.now dispatch.old dispatch.new
        (record { sent = K.sent sink.old; faults = K.faults sink.old })
        (record { sent = K.sent sink.new; faults = K.faults sink.new }) }
{
    join_mut(
        rt,
        &mut ||
            requires { (0 < length workers.now) × (0 < length seats.now)
                × All (λ j. W.ready shared.now j) workers.now
                × All (λ j. Z.ready shared.now j) seats.now }
        { run_both(rt, shared, workers, seats) },
        &mut ||
            requires { (K.begun sink.now ≡ true) × D.can_send shared.now dispatch.now }
        { dispatch.send_all(rt, shared, sink) },
    );
}
