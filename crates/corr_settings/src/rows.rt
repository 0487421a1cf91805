//! The tests that every setting passes by itself: given, of its kind, in its range.

ghost use Rattle.std.specs.Prelude.{◌≡◌, None, map, option_map, IfNone, IfSome};
ghost use Rattle.std.specs.List.{list_all};
ghost use Rattle.toml.specs.Data.{integer};
ghost use Rattle.toml.specs.View.{table_view, view};
ghost use Rattle.corr_settings.specs.Named.{HasShortName};
ghost use Rattle.corr_settings.specs.Within.{AreWithin};
ghost use Rattle.corr_settings.specs.Values.{bad_length, first_of, has_kind, is_string, out_of, out_of_eights, out_of_range, row_refusal, rows_refusal, value_refusal};

use crate::key::{Need, Row, Rule, TABLE};
use crate::reading::{value_at, values_in};
use crate::refusal::SetRefusal;
use toml::{Table, Value};

/// A test of one setting.
#[derive(Clone, Copy, Debug, PartialEq, Eq)]
pub enum Test {
    /// Whether it is given, where it must be.
    IsGiven,
    /// Whether its value is of its kind.
    HasKind,
    /// Whether its value is in its range.
    IsInRange,
}

/// The first refusal of a setting by itself: all must be given, then of their kinds, then in their
/// ranges.
pub fn rows_refusal(table: &Table) -> Option<SetRefusal>
    ensures value { result ≡ rows_refusal (table_view table.now) }
    ensures within { IfNone result (AreWithin (table_view table.now)) }
    ensures short { IfSome result HasShortName }
{
    first_failed(table)
}

// The first refusal of the three tests.
fn first_failed(table: &Table) -> Option<SetRefusal>
    ensures value { result ≡ rows_refusal (table_view table.now) }
    ensures short { IfSome result HasShortName }
{
    if let Some(refusal) = first_refusal(Test::IsGiven, table, &TABLE) {
        return Some(refusal);
    }
    if let Some(refusal) = first_refusal(Test::HasKind, table, &TABLE) {
        return Some(refusal);
    }
    first_refusal(Test::IsInRange, table, &TABLE)
}

// The first of some settings that fails a test.
fn first_refusal(test: Test, table: &Table, rows: &[Row]) -> Option<SetRefusal>
    ensures value { result ≡ first_of (row_refusal test (table_view table.now)) rows.now }
    ensures short { IfSome result HasShortName }
{
    for row in rows {
        if let Some(refusal) = value_refusal(test, row, value_at(table, row.0)) {
            return Some(refusal);
        }
    }
    None
}

// Why a setting with this value, or with none, fails a test.
fn value_refusal(test: Test, row: &Row, value: Option<&Value>) -> Option<SetRefusal>
    ensures value { result ≡ value_refusal test row.now (option_map (λ v. view v.now) value.entry) }
    ensures short { IfSome result HasShortName }
{
    match (test, value) {
        (Test::IsGiven, None) if row.2 == Need::Required => Some(SetRefusal::Missing(row.0)),
        (Test::HasKind, Some(value)) if !has_kind(row.1, value) => Some(SetRefusal::Kind(row.0)),
        (Test::IsInRange, Some(value)) => {
            Some(SetRefusal::Range(row.0, out_of_range(row.1, value)?))
        }
        _ => None,
    }
}

// Whether the value is of the kind that the rule asks.
fn has_kind(rule: Rule, value: &Value) -> bool
    ensures { result ≡ has_kind rule (view value.now) }
{
    match rule {
        Rule::Integer(_, _) | Rule::Eights(_, _) => value.is_integer(),
        Rule::Boolean => value.is_bool(),
        Rule::Strings => value.is_array() && are_strings(values_in(value)),
        Rule::OneString => value.is_str(),
    }
}

// Whether each value is a string.
fn are_strings(values: &[Value]) -> bool
    ensures { result ≡ list_all is_string (map view values.now) }
{
    for value in values {
        if !value.is_str() {
            return false;
        }
    }
    true
}

// The value, or its length, where it is not in the range that the rule allows.
fn out_of_range(rule: Rule, value: &Value) -> Option<i64>
    ensures { result ≡ out_of_range rule (view value.now) }
{
    match rule {
        Rule::Integer(_, _) | Rule::Eights(_, _) => number_out_of(rule, value.as_integer()?),
        Rule::Boolean => None,
        Rule::Strings => first_bad_length(values_in(value)),
        Rule::OneString => bad_length(value),
    }
}

// An integer, where it is not in the range that the rule allows. No other rule is on integers.
pub(crate) fn number_out_of(rule: Rule, number: i64) -> Option<i64>
    ensures { result ≡ out_of_range rule (integer number) }
{
    match rule {
        Rule::Integer(least, most) => out_of(least, most, number),
        Rule::Eights(least, most) => out_of_eights(least, most, number),
        Rule::Boolean | Rule::Strings | Rule::OneString => None,
    }
}

// An integer that is not in the range.
fn out_of(least: u64, most: u64, value: i64) -> Option<i64>
    ensures { result ≡ out_of least most value }
{
    if i128::from(least) <= i128::from(value) && i128::from(value) <= i128::from(most) {
        None
    } else {
        Some(value)
    }
}

// An integer that is not in the range or no multiple of 8.
fn out_of_eights(least: u64, most: u64, value: i64) -> Option<i64>
    ensures { result ≡ out_of_eights least most value }
{
    if value.unsigned_abs() % 8 == 0 {
        out_of(least, most, value)
    } else {
        Some(value)
    }
}

// The length of the first string that has not 1 to 4,096 bytes.
fn first_bad_length(values: &[Value]) -> Option<i64>
    ensures { result ≡ first_of bad_length (map view values.now) }
{
    for value in values {
        let found = bad_length(value);
        if found.is_some() {
            return found;
        }
    }
    None
}

// The length of a string that has not 1 to 4,096 bytes.
fn bad_length(value: &Value) -> Option<i64>
    ensures { result ≡ bad_length (view value.now) }
{
    let len = value.as_str()?.len();
    if 1 <= len && len <= 4096 {
        None
    } else {
        Some(len as i64)
    }
}
