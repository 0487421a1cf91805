//! The operands of each command, and the command that words are.

ghost use Rattle.std.specs.Prelude.{◌≡◌, ◌≤◌, ◌<◌, ◌+◌, ◌^◌, length, map, string_bytes, true, None, IfOk, option_and_then, if◌then◌else◌, take, drop};
ghost use Rattle.std.specs.List.{list_all};
ghost use Rattle.corr_site.specs.Places.{place_of};
ghost use Rattle.corr_words.specs.Words.{is_operand, word_at};
ghost use Rattle.corr_words.specs.Forms.{numbers_of, IsInLimits, Reads, command_form, correlate_form, decode_form, form, inspect_form, numbers_form, plain_form, relay_form, rest_form, simulate_form, sound_form, trial_form};

use crate::command::{Command, PlainWords, WordRefusal};
use crate::flag::flag_in;
use crate::numbers::{number_to, read_number};
use crate::text::Operands;
use corr_site::{NoMemory, Place, Places, Text};
use std::alloc::Global;

// The text at a place.
fn text_at(alloc: Global, operands: &Operands, place: usize) -> Result<Text, NoMemory>
    requires within { place < length operands.now }
    requires sound { list_all is_operand operands.now ≡ true }
    ensures { IfOk result (λ t. t ≡ word_at operands.now place) }
{
    Text::new(alloc, operands.at(place))
}

// The place that the word at a place names.
fn place_at(alloc: Global, operands: &Operands, place: usize) -> Result<Place, NoMemory>
    requires within { place < length operands.now }
    requires sound { list_all is_operand operands.now ≡ true }
    ensures { IfOk result (λ p. p ≡ place_of (word_at operands.now place)) }
{
    Place::read(alloc, operands.at(place))
}

// CONFIG
fn read_correlate(alloc: Global, serial: bool, operands: &Operands) -> Result<Command, WordRefusal>
    requires { list_all is_operand operands.now ≡ true }
    ensures form { Reads (correlate_form serial operands.now) result }
    ensures limits { IfOk result IsInLimits }
{
    if operands.len() != 1 {
        return Err(WordRefusal::Usage);
    }
    Ok(Command::Correlate(text_at(alloc, operands, 0)?, serial))
}

// CONFIG SEED
fn read_trial(alloc: Global, serial: bool, operands: &Operands) -> Result<Command, WordRefusal>
    requires { list_all is_operand operands.now ≡ true }
    ensures form { Reads (trial_form serial operands.now) result }
    ensures limits { IfOk result IsInLimits }
{
    if operands.len() != 2 {
        return Err(WordRefusal::Usage);
    }
    let Some(seed) = read_number(operands.at(1).as_bytes()) else {
        return Err(WordRefusal::Usage);
    };
    Ok(Command::Trial(text_at(alloc, operands, 0)?, seed, serial))
}

// FROM TO LIMIT
fn read_relay(alloc: Global, operands: &Operands) -> Result<Command, WordRefusal>
    requires { list_all is_operand operands.now ≡ true }
    ensures form { Reads (relay_form operands.now) result }
    ensures limits { IfOk result IsInLimits }
{
    if operands.len() != 3 {
        return Err(WordRefusal::Usage);
    }
    let Some(limit) = number_to(1 << 40, operands.at(2)) else {
        return Err(WordRefusal::Usage);
    };
    let from = place_at(alloc, operands, 0)?;
    let to = place_at(alloc, operands, 1)?;
    Ok(Command::Relay(from, to, limit))
}

// CONFIG SEED ANTENNA OUT
fn read_simulate(alloc: Global, operands: &Operands) -> Result<Command, WordRefusal>
    requires { list_all is_operand operands.now ≡ true }
    ensures form { Reads (simulate_form operands.now) result }
    ensures limits { IfOk result IsInLimits }
{
    if operands.len() != 4 {
        return Err(WordRefusal::Usage);
    }
    let Some(seed) = read_number(operands.at(1).as_bytes()) else {
        return Err(WordRefusal::Usage);
    };
    let Some(antenna) = read_number(operands.at(2).as_bytes()) else {
        return Err(WordRefusal::Usage);
    };
    let config = text_at(alloc, operands, 0)?;
    let out = place_at(alloc, operands, 3)?;
    Ok(Command::Simulate(config, seed, antenna, out))
}

// IN
fn read_inspect(alloc: Global, operands: &Operands) -> Result<Command, WordRefusal>
    requires { list_all is_operand operands.now ≡ true }
    ensures form { Reads (inspect_form operands.now) result }
    ensures limits { IfOk result IsInLimits }
{
    if operands.len() != 1 {
        return Err(WordRefusal::Usage);
    }
    Ok(Command::Inspect(place_at(alloc, operands, 0)?))
}

// IN LIMIT
fn read_decode(alloc: Global, operands: &Operands) -> Result<Command, WordRefusal>
    requires { list_all is_operand operands.now ≡ true }
    ensures form { Reads (decode_form operands.now) result }
    ensures limits { IfOk result IsInLimits }
{
    if operands.len() != 2 {
        return Err(WordRefusal::Usage);
    }
    let Some(limit) = number_to(1 << 30, operands.at(1)) else {
        return Err(WordRefusal::Usage);
    };
    Ok(Command::Decode(place_at(alloc, operands, 0)?, limit as u32))
}

// A F S T N, then A inputs, then one output
fn read_plain(alloc: Global, operands: &Operands) -> Result<Command, WordRefusal>
    requires { list_all is_operand operands.now ≡ true }
    ensures form { Reads (plain_form operands.now) result }
    ensures limits { IfOk result IsInLimits }
{
    let Some(numbers) = read_numbers(operands) else {
        return Err(WordRefusal::Usage);
    };
    if operands.len() != u128::from(numbers.antennas) + 6 {
        return Err(WordRefusal::Usage);
    }
    let antennas = numbers.antennas as usize;
    let inputs = places_at(alloc, operands, 5, antennas)?;
    let output = place_at(alloc, operands, antennas + 5)?;
    Ok(Command::Plain(PlainWords {
        antennas: numbers.antennas,
        channels: numbers.channels,
        spectra: numbers.spectra,
        heaps: numbers.heaps,
        accumulations: numbers.accumulations,
        inputs,
        output,
    }))
}

/// The numbers of `plain`.
#[derive(Clone, Copy, Debug, PartialEq, Eq)]
pub struct Numbers {
    /// Antennas.
    pub antennas: u64,
    /// Channels.
    pub channels: u64,
    /// Spectra of a heap.
    pub spectra: u64,
    /// Heaps of an accumulation.
    pub heaps: u64,
    /// Accumulations.
    pub accumulations: u64,
}

// The first five words as numbers.
fn read_numbers(operands: &Operands) -> Option<Numbers>
    ensures { result ≡ numbers_form operands.now }
{
    if operands.len() < 5 {
        return None;
    }
    Some(Numbers {
        antennas: read_number(operands.at(0).as_bytes())?,
        channels: read_number(operands.at(1).as_bytes())?,
        spectra: read_number(operands.at(2).as_bytes())?,
        heaps: read_number(operands.at(3).as_bytes())?,
        accumulations: read_number(operands.at(4).as_bytes())?,
    })
}

// So many places from a place on.
fn places_at(
    alloc: Global,
    operands: &Operands,
    first: usize,
    count: usize,
) -> Result<Places, NoMemory>
    requires within { first + count ≤ length operands.now }
    requires few { first + count < 2 ^ 64 }
    requires sound { list_all is_operand operands.now ≡ true }
    ensures value { IfOk result (λ p. p ≡ map place_of (take count (drop first operands.now))) }
    ensures count { IfOk result (λ p. length p ≡ count) }
{
    let mut places = Vec::new(alloc);
    for k in 0..count {
        places.push(place_at(alloc, operands, first + k)?)?;
    }
    Ok(Places::from_vec(places))
}

// What a command says with these operands, with the flag or without.
fn read_command(
    alloc: Global,
    command: &str,
    serial: bool,
    operands: &Operands,
) -> Result<Command, WordRefusal>
    requires { list_all is_operand operands.now ≡ true }
    ensures form { Reads (command_form command.now serial operands.now) result }
    ensures limits { IfOk result IsInLimits }
{
    if command == "plain" {
        return read_plain(alloc, operands);
    }
    if command == "correlate" {
        return read_correlate(alloc, serial, operands);
    }
    if command == "trial" {
        return read_trial(alloc, serial, operands);
    }
    if command == "simulate" {
        return read_simulate(alloc, operands);
    }
    if command == "relay" {
        return read_relay(alloc, operands);
    }
    if command == "inspect" {
        return read_inspect(alloc, operands);
    }
    if command == "decode" {
        return read_decode(alloc, operands);
    }
    Err(WordRefusal::Usage)
}

// The same, where the words need not be operands.
fn read_sound(
    alloc: Global,
    command: &str,
    serial: bool,
    operands: &Operands,
) -> Result<Command, WordRefusal>
    ensures form { Reads (sound_form command.now serial operands.now) result }
    ensures limits { IfOk result IsInLimits }
{
    if operands.are_sound() {
        read_command(alloc, command, serial, operands)
    } else {
        Err(WordRefusal::Usage)
    }
}

// What the words after a command say.
fn read_rest(alloc: Global, command: &str, rest: &[String]) -> Result<Command, WordRefusal>
    ensures form { Reads (rest_form command.now (map string_bytes rest.now)) result }
    ensures limits { IfOk result IsInLimits }
{
    match flag_in(command, rest) {
        Some(place) => {
            let (front, flagged) = rest.split_at(place);
            let (_, back) = flagged.split_at(1);
            read_sound(alloc, command, true, &Operands::new(front, back))
        }
        None => read_sound(alloc, command, false, &Operands::new(rest, &[])),
    }
}

/// The command that the words of a command line are: the program's name, which counts for nothing,
/// the command, its operands, and perhaps the flag at any place among them. `Usage` comes exactly
/// where they have no form, and `NoMemory` only for want of memory, where they have one.
pub fn read(alloc: Global, words: &[String]) -> Result<Command, WordRefusal>
    ensures form { Reads (form (map string_bytes words.now)) result }
    ensures limits { IfOk result IsInLimits }
{
    if words.len() < 2 {
        return Err(WordRefusal::Usage);
    }
    let (_, rest) = words.split_at(2);
    read_rest(alloc, words[1].as_str(), rest)
}

/// The numbers of the command line, where it is one of `plain`: so they can be judged before any
/// memory is taken.
pub fn plain_numbers(words: &[String]) -> Option<Numbers>
    ensures { result ≡ option_and_then numbers_of (form (map string_bytes words.now)) }
{
    if words.len() < 2 {
        return None;
    }
    let (_, rest) = words.split_at(2);
    numbers_after(words[1].as_str(), rest)
}

// The numbers of the words after a command.
fn numbers_after(command: &str, rest: &[String]) -> Option<Numbers>
    ensures { result ≡ option_and_then numbers_of (rest_form command.now (map string_bytes rest.now)) }
{
    if command == "plain" {
        numbers_in(&Operands::new(rest, &[]))
    } else {
        None
    }
}

// The numbers of the operands of `plain`.
fn numbers_in(operands: &Operands) -> Option<Numbers>
    ensures { result ≡ option_and_then numbers_of
        (if list_all is_operand operands.now then plain_form operands.now else None) }
{
    if !operands.are_sound() {
        return None;
    }
    let numbers = read_numbers(operands)?;
    if operands.len() == u128::from(numbers.antennas) + 6 {
        Some(numbers)
    } else {
        None
    }
}
