//! The sources of a run, each with room for the receiver of its stream.

ghost use Rattle.std.specs.Prelude.{◌≡◌, false, IfOk, All, is_some};
ghost use Rattle.std.specs.Vec.{vec_len};

use corr_model::Unheard;
use corr_net::{HeldFiles, PrintFault, ProgramSource};
use corr_site::NoMemory;
use corr_threads::Seat;
use std::alloc::Global;
use std::net::Net;
use std::rt::Files;

/// How many sources a run has room for.
const SEATS: usize = 64;

/// A source of the program with room for its receiver.
pub type ProgramSeat<'a, R> = Seat<Unheard, ProgramSource<'a, R>>;

/// As many seats as a run has room for, none of their sources begun. `NoMemory` comes only for want
/// of memory.
pub fn program_seats<'a, R: Files + Net + Eprint>(
    alloc: Global,
    system: &'a R,
    held: &'a HeldFiles,
    print: &'a PrintFault,
) -> Result<Vec<ProgramSeat<'a, R>>, NoMemory>
    ensures count { IfOk result (λ v. vec_len v ≡ 64) }
    ensures unbegun { IfOk result (λ v. All (λ s. is_some s.source.input ≡ false) v.items) }
{
    // A seat has room for names and for its receiver, so none is moved by a vector that grows.
    let mut seats = Vec::with_capacity(alloc, SEATS)?;
    for number in 0..SEATS {
        let source = ProgramSource::new(alloc, system, held, number, print)?;
        seats.push(Seat::new(source))?;
    }
    Ok(seats)
}
