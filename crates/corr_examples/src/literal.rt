//! An observation whose plan and lists are written out, and what a run of it is handed.

ghost use Rattle.std.specs.Prelude.{◌≡◌, ◌<◌, ℕ, true, None, All, IfOk, map, slice_index_or, string_bytes};
ghost use Rattle.corr_examples.specs.Literals.{SaysPlan, WillGive, literal_list, literal_plan, literal_words};

use crate::watched::{Marks, Seen, Watched};
use corr_model::{Observation, Plan};
use corr_settings::read;
use corr_site::ListSource;
use corr_threads::Seat;
use std::alloc::Global;
use std::test::Fail;

/// Two antennas of which the second loses a heap, with so many workers.
#[derive(Drop)]
pub struct Literal<const WORKERS: u32>;

impl<const WORKERS: u32> Observation for Literal<WORKERS> {
    ghost use Rattle.std.specs.Prelude.{true};
    ghost use Rattle.corr_examples.specs.Literals.{literal_list, literal_plan};

    ghost names = { true };

    ghost plan = { literal_plan WORKERS };

    ghost list = { literal_list };
}

// Antenna 0 at 0: (1 + 2i, 3).
const FIRST: &[u8] =
    b"\x53\x04\x02\x06\0\0\0\x07\x80\x01\0\0\0\0\0\x01\x80\x02\0\0\0\0\0\x04\x80\x03\0\0\0\0\0\0\
      \x80\x04\0\0\0\0\0\x04\x96\0\0\0\0\0\0\0\xc1\x01\0\0\0\0\0\0\x43\0\0\0\0\0\0\0\x01\x02\x03\0";

// Antenna 0 at 1: (-1, i).
const SECOND: &[u8] =
    b"\x53\x04\x02\x06\0\0\0\x07\x80\x01\0\0\0\0\0\x02\x80\x02\0\0\0\0\0\x04\x80\x03\0\0\0\0\0\0\
      \x80\x04\0\0\0\0\0\x04\x96\0\0\0\0\0\0\x01\xc1\x01\0\0\0\0\0\0\x43\0\0\0\0\0\0\0\xff\0\0\x01";

// Antenna 1 at 0: (i, 2 - i).
const OTHER: &[u8] =
    b"\x53\x04\x02\x06\0\0\0\x07\x80\x01\0\0\0\0\0\x01\x80\x02\0\0\0\0\0\x04\x80\x03\0\0\0\0\0\0\
      \x80\x04\0\0\0\0\0\x04\x96\0\0\0\0\0\0\0\xc1\x01\0\0\0\0\0\x01\x43\0\0\0\0\0\0\0\0\x01\x02\xff";

// The source of antenna 0.
fn first_source<O: Observation>(alloc: Global) -> Result<ListSource<O>, Fail>
    ensures { IfOk result (λ s. WillGive s (literal_list 0)) }
{
    let list = vec![in alloc; FIRST.to_vec(alloc)?, SECOND.to_vec(alloc)?]?;
    Ok(ListSource::new(list, Vec::new(alloc), false))
}

// The source of antenna 1.
fn other_source<O: Observation>(alloc: Global) -> Result<ListSource<O>, Fail>
    ensures { IfOk result (λ s. WillGive s (literal_list 1)) }
{
    let list = vec![in alloc; OTHER.to_vec(alloc)?]?;
    Ok(ListSource::new(list, Vec::new(alloc), false))
}

/// A source in memory that is watched, with room for its receiver.
pub type WatchedSeat<'a, O> = Seat<O, Watched<'a, ListSource<O>>>;

// The seat of a source.
fn seat_of<'a, O: Observation>(source: ListSource<O>, seen: &'a Seen) -> WatchedSeat<'a, O>
    ensures { result.source.source ≡ source }
{
    Seat::new(Watched::new(source, seen))
}

// A seat that no antenna has.
fn spare_seat<'a, O: Observation>(alloc: Global, seen: &'a Seen) -> WatchedSeat<'a, O>
    ensures { result.source.source.at ≡ None }
{
    seat_of(
        ListSource::new(Vec::new(alloc), Vec::new(alloc), false),
        seen,
    )
}

/// The seats of the two antennas, and 62 more. What is seen of their sources is noted in `marks`.
pub fn all_seats<'a, O: Observation>(
    alloc: Global,
    marks: &'a Marks,
) -> Result<Vec<WatchedSeat<'a, O>>, Fail>
    ensures give { IfOk result (λ v. (a : ℕ) (d : _) → a < 2
        → WillGive (slice_index_or v.items a d).source.source (literal_list a)) }
    ensures none_begun { IfOk result (λ v. All (λ s. s.source.source.at ≡ None) v.items) }
{
    let [first, other, spare] = &marks.sources;
    let first = seat_of(first_source(alloc)?, first);
    let other = seat_of(other_source(alloc)?, other);
    let mut seats = vec![in alloc; first, other]?;
    for _ in 2..64 {
        seats.push(spare_seat(alloc, spare))?;
    }
    Ok(seats)
}

/// The words of a run in threads.
pub fn words(alloc: Global) -> Result<Vec<String>, Fail>
    ensures { IfOk result (λ v. map string_bytes v.items ≡ literal_words) }
{
    let name = String::from_str(alloc, "spead_corr")?;
    let command = String::from_str(alloc, "correlate")?;
    let config = String::from_str(alloc, "run.toml")?;
    Ok(vec![in alloc; name, command, config]?)
}

/// The plan with so many workers.
pub fn plan_of(workers: u32) -> Plan
    ensures { result ≡ literal_plan workers }
{
    Plan {
        antennas: 2,
        channels: 1,
        spectra: 1,
        heaps: 2,
        accumulations: 1,
        lag: 1,
        window: 8,
        slots: 1,
        workers,
        packet: 1024,
        heap_limit: 4100,
        beams: 0,
        step: 1,
        start: 0,
        leap: 0,
        packet_limit: 1 << 40,
        preset: true,
    }
}

/// Whether the text says settings of the plan with so many workers.
pub fn says_plan(alloc: Global, text: &[u8], workers: u32) -> Result<bool, Fail>
    ensures { IfOk result (λ is. is ≡ true → SaysPlan text.now (literal_plan workers)) }
{
    match read(alloc, text) {
        Ok(settings) => Ok(settings.plan.is(&plan_of(workers))),
        Err(_) => Err(Fail::from("settings that are refused")),
    }
}
