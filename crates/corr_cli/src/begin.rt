//! Beginning the sources, in order of antenna.

ghost use Rattle.std.specs.Prelude.{◌≡◌, ◌≤◌, length};
ghost use Rattle.corr_serial.specs.Sources.{KeepsEach, KeepsBelonging, AreSameFrom};
ghost use Rattle.corr_cli.specs.Beginning.{BeginsEach, PlacesEach, BeginHasCause, reached};

use corr_model::Observation;
use corr_site::{Failed, PacketSource, Place};

/// Begins each source at its place, in order of antenna. The error is the antenna whose source failed.
pub fn begin_all<O: Observation, S: PacketSource<O>>(
    sources: &mut [S],
    places: &[Place],
) -> Result<(), u32>
    requires few { length sources.old ≤ 64 }
    requires enough { length places.now ≤ length sources.old }
    // What stays.
    ensures length { length sources.new ≡ length sources.old }
    ensures later { AreSameFrom (reached (length places.now) result) sources.old sources.new }
    ensures gives { KeepsEach S.gives sources.old sources.new }
    ensures given { KeepsEach S.given sources.old sources.new }
    ensures belongs { KeepsBelonging S.belongs sources.old sources.new }
    // What is begun, and the first that fails.
    ensures begun { BeginsEach S.begun (length places.now) sources.new result }
    ensures at { PlacesEach S.at places.now sources.old sources.new result }
    ensures cause { BeginHasCause S.faults (length places.now) sources.old sources.new result }
{
    for antenna in 0..places.len() {
        let source = &mut sources[antenna];
        if source.begin(antenna as u32, &places[antenna]).is_err() {
            return Err(antenna as u32);
        }
    }
    Ok(())
}
