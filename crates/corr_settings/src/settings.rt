//! The settings of a run, read from a text.

ghost use Rattle.std.specs.Prelude.{◌≡◌, ◌⊎◌, ◌<◌, ◌≤◌, length, Err, IfOk, IfErr, Some, None, map};
ghost use Rattle.toml.specs.Errors.{IsMemory};
ghost use Rattle.toml.specs.View.{table_view, view};
ghost use Rattle.corr_model.specs.Plans.{Fits};
ghost use Rattle.corr_site.specs.Places.{place_of};
ghost use Rattle.corr_settings.specs.Values.{string_at, values_at};
ghost use Rattle.corr_settings.specs.Named.{HasShortName};
ghost use Rattle.corr_settings.specs.Read.{Answers, document, of_table, settings};

use crate::key::Key;
use crate::places::{place_at, places_at};
use crate::plan::{joint_refusal, memory_refusal, plan_of};
use crate::reading::{value_at, values_in};
use crate::refusal::SetRefusal;
use crate::rows::rows_refusal;
use crate::unknown::{first_unknown, front_64};
use corr_model::Plan;
use corr_site::{NoMemory, Place, Places, Text};
use std::alloc::Global;
use toml::{Table, Value};

/// What a run correlates, from where and to where.
#[derive(Debug, Drop)]
pub struct Settings {
    /// Shapes, grid and limits.
    pub plan: Plan,
    /// The place of each antenna's stream, one for each antenna of the plan, in order.
    pub inputs: Places,
    /// The place of the output.
    pub output: Place,
}

/// The settings that a TOML text says, or the first reason why it says none. The length is tested
/// first, then whether the text is TOML, then that each required key is there, then each value's
/// kind, then each range, then the joint rules, then that each key is a setting, and last the bytes
/// to reserve; among several keys the first of the table. `NoMemory` comes only for want of memory,
/// and only once the length was tested.
pub fn read(alloc: Global, bytes: &[u8]) -> Result<Settings, SetRefusal>
    ensures settings { Answers result (settings bytes.now) }
    ensures fits { IfOk result (λ s. Fits s.plan) }
    ensures inputs { IfOk result (λ s. length s.inputs ≡ s.plan.antennas) }
    ensures short { IfErr result HasShortName }

    // want of memory
    ensures long { 65536 < length bytes.now → result ≡ Err SetRefusal.TooLong }
{
    if bytes.len() > 65_536 {
        return Err(SetRefusal::TooLong);
    }
    let table = parse(alloc, bytes)?;
    of_table(alloc, &table)
}

// The table that the bytes are.
fn parse(alloc: Global, bytes: &[u8]) -> Result<Table, SetRefusal>
    ensures ok { IfOk result (λ t. document bytes.now ≡ Some (table_view t)) }
    ensures err { IfErr result
        (λ e. (e ≡ SetRefusal.NoMemory) ⊎ ((e ≡ SetRefusal.NotToml) × (document bytes.now ≡ None))) }
{
    match toml::table_from_slice(alloc, bytes) {
        Ok(table) => Ok(table),
        Err(error) => Err(refusal_of(&error)),
    }
}

// Why no table was read.
fn refusal_of(error: &toml::de::Error) -> SetRefusal
    ensures { (result ≡ SetRefusal.NoMemory) ⊎ ((result ≡ SetRefusal.NotToml) × ¬ (IsMemory error.now)) }
{
    if error.is_memory() {
        SetRefusal::NoMemory
    } else {
        SetRefusal::NotToml
    }
}

// The settings of a table.
fn of_table(alloc: Global, table: &Table) -> Result<Settings, SetRefusal>
    ensures settings { Answers result (of_table (Some (table_view table.now))) }
    ensures fits { IfOk result (λ s. Fits s.plan) }
    ensures inputs { IfOk result (λ s. length s.inputs ≡ s.plan.antennas) }
    ensures short { IfErr result HasShortName }
{
    if let Some(refusal) = rows_refusal(table) {
        return Err(refusal);
    }
    let plan = plan_of(table);
    let inputs = inputs_at(table);
    if let Some(refusal) = joint_refusal(&plan, inputs.len()) {
        return Err(refusal);
    }
    if let Some(name) = first_unknown(table) {
        return Err(SetRefusal::Unknown(Text::new(alloc, front_64(name))?));
    }
    if let Some(refusal) = memory_refusal(&plan) {
        return Err(refusal);
    }
    Ok(Settings {
        plan,
        inputs: places_at(alloc, inputs)?,
        output: output_at(alloc, table)?,
    })
}

// The values of the inputs.
fn inputs_at(table: &Table) -> &[Value]
    ensures { map view result.now ≡ values_at (table_view table.now) Key.Inputs }
{
    match value_at(table, Key::Inputs) {
        Some(value) => values_in(value),
        None => &[],
    }
}

// The place of the output.
fn output_at(alloc: Global, table: &Table) -> Result<Place, NoMemory>
    requires short { length (string_at (table_view table.now) Key.Output) ≤ 4096 }
    ensures value { IfOk result (λ p. p ≡ place_of (string_at (table_view table.now) Key.Output)) }
{
    match value_at(table, Key::Output) {
        Some(value) => place_at(alloc, value),
        None => Place::read(alloc, ""),
    }
}
