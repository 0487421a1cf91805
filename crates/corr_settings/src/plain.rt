//! The settings that the numbers of a command line give, by the same table and rules.

ghost use Rattle.std.specs.Prelude.{◌≡◌, ◌≤◌, ◌<◌, None, IfNone, IfSome, IfOk, IfErr, pos, option_map};
ghost use Rattle.toml.specs.Data.{integer};
ghost use Rattle.corr_model.specs.Plans.{Fits};
ghost use Rattle.corr_settings.specs.Values.{first_of};
ghost use Rattle.corr_settings.specs.Named.{HasShortName};
ghost use Rattle.corr_settings.specs.Plain.{HasNumberRanges, antenna_refusal, number_given, number_refusal, numbers_refusal, plain_plan, plain_settings, printed};

use crate::key::{Key, Row, TABLE};
use crate::plan::{joint_refusal, memory_refusal};
use crate::refusal::SetRefusal;
use crate::rows::number_out_of;
use corr_model::Plan;

/// The settings that a command line gives by numbers.
#[derive(Clone, Copy, Debug, PartialEq, Eq)]
pub struct PlainNumbers {
    /// Antennas.
    pub antennas: u64,
    /// Channels.
    pub channels: u64,
    /// Spectra of a heap.
    pub spectra: u64,
    /// Heaps of an accumulation.
    pub heaps: u64,
    /// Accumulations.
    pub accumulations: u64,
}

/// The plan of the numbers, or the first reason why they have none: a range of the table, a joint
/// rule, or more than 2^30 bytes to reserve. Each antenna is to have an input.
pub fn plain_settings(numbers: &PlainNumbers) -> Result<Plan, SetRefusal>
    ensures settings { result ≡ plain_settings numbers.now }
    ensures fits { IfOk result Fits }
    ensures short { IfErr result HasShortName }
{
    if let Some(refusal) = numbers_refusal(numbers) {
        return Err(refusal);
    }
    let plan = plain_plan(numbers);
    if let Some(refusal) = joint_refusal(&plan, numbers.antennas as usize) {
        return Err(refusal);
    }
    match memory_refusal(&plan) {
        Some(refusal) => Err(refusal),
        None => Ok(plan),
    }
}

/// The refusal of an antenna that the plan does not have, as a command line names it.
pub fn antenna_refusal(plan: &Plan, antenna: u64) -> Option<SetRefusal>
    ensures value { result ≡ antenna_refusal plan.now antenna }
    ensures short { IfSome result HasShortName }
{
    if antenna < plan.antennas.into() {
        None
    } else {
        Some(SetRefusal::Range(Key::Antennas, printed(antenna)))
    }
}

// A number as it is printed: 2^63 - 1 at most.
fn printed(number: u64) -> i64
    ensures { result ≡ pos (printed number) }
{
    number.min((1 << 63) - 1) as i64
}

// The number that is given for a key.
fn number_given(numbers: &PlainNumbers, key: Key) -> Option<i64>
    ensures { option_map (λ z. integer z) result ≡ number_given numbers.now key }
{
    match key {
        Key::Antennas => Some(printed(numbers.antennas)),
        Key::Channels => Some(printed(numbers.channels)),
        Key::Spectra => Some(printed(numbers.spectra)),
        Key::Heaps => Some(printed(numbers.heaps)),
        Key::Accumulations => Some(printed(numbers.accumulations)),
        _ => None,
    }
}

// Why the number that is given for a row is refused.
fn number_refusal(numbers: &PlainNumbers, row: &Row) -> Option<SetRefusal>
    ensures value { result ≡ number_refusal numbers.now row.now }
    ensures short { IfSome result HasShortName }
{
    let number = number_given(numbers, row.0)?;
    Some(SetRefusal::Range(row.0, number_out_of(row.1, number)?))
}

// The first of some rows whose number is refused.
fn first_refusal(numbers: &PlainNumbers, rows: &[Row]) -> Option<SetRefusal>
    ensures value { result ≡ first_of (number_refusal numbers.now) rows.now }
    ensures short { IfSome result HasShortName }
{
    for row in rows {
        if let Some(refusal) = number_refusal(numbers, row) {
            return Some(refusal);
        }
    }
    None
}

// The first number that is refused by itself.
fn numbers_refusal(numbers: &PlainNumbers) -> Option<SetRefusal>
    ensures value { result ≡ numbers_refusal numbers.now }
    ensures within { IfNone result (HasNumberRanges numbers.now) }
    ensures short { IfSome result HasShortName }
{
    first_refusal(numbers, &TABLE)
}

// The plan of these numbers.
fn plain_plan(numbers: &PlainNumbers) -> Plan
    requires { HasNumberRanges numbers.now }
    ensures { result ≡ plain_plan numbers.now }
{
    let channels = numbers.channels as u32;
    let spectra = numbers.spectra as u32;
    Plan {
        antennas: numbers.antennas as u32,
        channels,
        spectra,
        heaps: numbers.heaps as u32,
        step: 1,
        start: 0,
        accumulations: numbers.accumulations as u32,
        lag: 1,
        leap: 0,
        window: 8,
        slots: 1,
        workers: 0,
        packet: 1024,
        heap_limit: 4 * channels * spectra + 4096,
        packet_limit: 1 << 40,
        preset: true,
        beams: 0,
    }
}
