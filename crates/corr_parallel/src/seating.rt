//! Receivers in the seats of their sources, and what they report.

ghost use Rattle.std.specs.Prelude.{◌≡◌, ◌<◌, ℕ, Some, length, slice_index_or};
ghost use Rattle.stream_feed.specs.declared.report.StreamReport.{StreamReport};
ghost use Rattle.corr_threads.specs.Receivers.{ReceiverView};
ghost use Rattle.corr_parallel.specs.Seats.{IsSeatOf};

use corr_model::Observation;
use corr_site::PacketSource;
use corr_threads::{Receiver, Seat};
use stream_feed::StreamReport;

/// Puts a receiver into each seat, in order.
pub(crate) fn take_seats<O: Observation, S: PacketSource<O>>(
    receivers: Vec<Receiver<O>>,
    seats: &mut [Seat<O, S>],
)
    requires { length receivers.items ≡ length seats.old }
    ensures { (a : ℕ) (d : _) (v : ReceiverView) → a < length seats.old
        → IsSeatOf (slice_index_or seats.old a d).source (slice_index_or receivers.items a v)
        (slice_index_or seats.new a d).source (slice_index_or seats.new a d).receiver }
{
    let mut left = receivers.into_iter();
    for antenna in 0..seats.len() {
        seats[antenna].receiver = left.next();
    }
}

// Takes the report of a seat's receiver, if one is there.
fn take_report<O: Observation, S: PacketSource<O>>(seat: &Seat<O, S>, report: &mut StreamReport)
    ensures { (v : ReceiverView) → seat.now.receiver ≡ Some v → report.new ≡ v.feed.report }
{
    if let Some(receiver) = &seat.receiver {
        *report = receiver.report();
    }
}

/// Takes the report of each seat's receiver.
pub(crate) fn take_reports<O: Observation, S: PacketSource<O>>(
    seats: &[Seat<O, S>],
    reports: &mut [StreamReport],
)
    requires { length reports.old ≡ length seats.now }
    ensures { (a : ℕ) (d : _) (v : ReceiverView) (r : StreamReport) → a < length seats.now
        → (slice_index_or seats.now a d).receiver ≡ Some v
        → slice_index_or reports.new a r ≡ v.feed.report }
{
    for antenna in 0..seats.len() {
        take_report(&seats[antenna], &mut reports[antenna]);
    }
}
