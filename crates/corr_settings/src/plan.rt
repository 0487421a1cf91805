//! The plan of the settings, and the rules on the whole of it.

ghost use Rattle.std.specs.Prelude.{◌≡◌, ◌≤◌, ◌<◌, ◌-◌, ◌^◌, None, IfNone, IfSome};
ghost use Rattle.toml.specs.View.{table_view};
ghost use Rattle.corr_model.specs.Plans.{HasJointRules, HasRanges, HasShapeRanges, reserved};
ghost use Rattle.corr_settings.specs.Named.{HasShortName};
ghost use Rattle.corr_settings.specs.Values.{joint_refusal, memory_refusal, number_at, plan_of};
ghost use Rattle.corr_settings.specs.Within.{AreWithin};

use crate::key::Key;
use crate::reading::{boolean_at, number_at};
use crate::refusal::SetRefusal;
use corr_model::Plan;
use toml::Table;

// The number at a key, or the default, where it is small.
fn small_at(table: &Table, key: Key, default: u32) -> u32
    requires { number_at (table_view table.now) key default ≤ 2 ^ 32 - 1 }
    ensures { result ≡ number_at (table_view table.now) key default }
{
    number_at(table, key, default.into()) as u32
}

/// The plan of the settings.
pub fn plan_of(table: &Table) -> Plan
    requires { AreWithin (table_view table.now) }
    ensures { result ≡ plan_of (table_view table.now) }
{
    let channels = small_at(table, Key::Channels, 0);
    let spectra = small_at(table, Key::Spectra, 0);
    Plan {
        antennas: small_at(table, Key::Antennas, 0),
        channels,
        spectra,
        heaps: small_at(table, Key::Heaps, 0),
        step: number_at(table, Key::Step, 0),
        start: number_at(table, Key::Start, 0),
        accumulations: small_at(table, Key::Accumulations, 0),
        lag: small_at(table, Key::Lag, 2),
        leap: number_at(table, Key::Leap, 0),
        window: small_at(table, Key::Window, 8),
        slots: small_at(table, Key::Slots, 4),
        workers: small_at(table, Key::Workers, 1),
        packet: small_at(table, Key::Packet, 1024),
        heap_limit: small_at(table, Key::HeapLimit, 4 * channels * spectra + 4096),
        packet_limit: number_at(table, Key::PacketLimit, 1 << 40),
        preset: boolean_at(table, Key::Preset),
        beams: 0,
    }
}

/// The first joint rule that the plan and its number of inputs break.
pub fn joint_refusal(plan: &Plan, inputs: usize) -> Option<SetRefusal>
    requires shape { HasShapeRanges plan.now }
    requires few { inputs < 2 ^ 63 }
    ensures value { result ≡ joint_refusal plan.now inputs }
    ensures kept { IfNone result (HasJointRules plan.now) }
    ensures short { IfSome result HasShortName }
{
    let samples = 4 * u64::from(plan.channels) * u64::from(plan.spectra);
    let timestamps = u128::from(plan.accumulations) * u128::from(plan.heaps);
    if samples > 1_048_576 {
        Some(SetRefusal::Range(Key::Spectra, plan.spectra.into()))
    } else if u128::from(plan.start) + timestamps * u128::from(plan.step) > (1 << 48) - 1 {
        Some(SetRefusal::Range(Key::Step, plan.step as i64))
    } else if u64::from(plan.heap_limit) < samples {
        Some(SetRefusal::Range(Key::HeapLimit, plan.heap_limit.into()))
    } else if inputs != plan.antennas as usize {
        Some(SetRefusal::Range(Key::Inputs, inputs as i64))
    } else {
        None
    }
}

/// The refusal of a plan that reserves more than 2^30 bytes.
pub fn memory_refusal(plan: &Plan) -> Option<SetRefusal>
    requires { HasRanges plan.now }
    ensures value { result ≡ memory_refusal plan.now }
    ensures kept { IfNone result (reserved plan.now ≤ 2 ^ 30) }
    ensures short { IfSome result HasShortName }
{
    let bytes = plan.reserved();
    if bytes > 1 << 30 {
        Some(SetRefusal::TooLarge(bytes))
    } else {
        None
    }
}
