//! What is said to a person of words that have no form. No status rests on it.

use std::fmt;

/// How many numbers stand before the places of `plain`.
const NUMBERS: usize = 5;

/// The greatest number of bytes of a word.
const WORD_LIMIT: usize = 4096;

/// The greatest number of digits of a number.
const DIGITS: usize = 20;

/// The names of the commands.
const COMMANDS: [&str; 7] = [
    "plain",
    "correlate",
    "trial",
    "simulate",
    "relay",
    "inspect",
    "decode",
];

/// The flag of `correlate` and `trial`.
const SERIAL: &str = "--serial";

/// What is wrong with words that have no form, as far as it can be said in one line.
#[derive(Drop)]
enum Fault<'a> {
    /// Not even the program's name could be read.
    Unreadable,
    NoCommand,
    NoSuchCommand(&'a str),
    /// The place of an operand, from 1 on.
    EmptyOrTooLong(usize),
    /// The place of an operand, and the word that stands there.
    BeginsWithMinus(usize, &'a str),
    IsNoNumber(usize, &'a str),
    OutOfLimits(usize, &'a str),
    SecondFlag,
    /// How many operands there are, and how many there have to be.
    Count(usize, usize),
}

impl fmt::Display for Fault<'_> {
    fn fmt<W: fmt::Write>(&self, f: &mut fmt::Formatter<W>) -> fmt::Result {
        match *self {
            Fault::Unreadable => write!(f, "a word is not UTF-8"),
            Fault::NoCommand => write!(f, "no command"),
            Fault::NoSuchCommand(name) => write!(f, "{name}: no such command"),
            Fault::EmptyOrTooLong(place) => {
                write!(
                    f,
                    "operand {place}: it has no byte, or more than {WORD_LIMIT}"
                )
            }
            Fault::BeginsWithMinus(place, word) => {
                write!(f, "operand {place}: {word}: begins with a minus")
            }
            Fault::IsNoNumber(place, word) => write!(f, "operand {place}: {word}: no number"),
            Fault::OutOfLimits(place, word) => {
                write!(f, "operand {place}: {word}: no number within its limits")
            }
            Fault::SecondFlag => write!(f, "{SERIAL} stands twice"),
            Fault::Count(count, wanted) => write!(f, "{count} operands, and {wanted} are wanted"),
        }
    }
}

// Whether the word is a number, which has digits alone, and at most twenty of them.
fn is_number(word: &str) -> bool {
    word.len() <= DIGITS
        && word.bytes().all(|byte| byte.is_ascii_digit())
        && word.parse::<u64>().is_ok()
}

// The first operand that the command takes at no place, where it takes the flag or not.
fn bad_word<'a>(operands: &'a [String], takes_flag: bool) -> Option<Fault<'a>> {
    for (at, word) in operands.iter().enumerate() {
        let (place, word) = (at.saturating_add(1), word.as_str());
        if word.is_empty() || word.len() > WORD_LIMIT {
            return Some(Fault::EmptyOrTooLong(place));
        }
        if word.starts_with('-') && !(takes_flag && word == SERIAL) {
            return Some(Fault::BeginsWithMinus(place, word));
        }
    }
    None
}

// The first of the operands from one place up to another that is no number.
fn no_number<'a>(operands: &'a [String], from: usize, to: usize) -> Option<Fault<'a>> {
    for (at, word) in operands.iter().enumerate().take(to) {
        let word = word.as_str();
        if at >= from && !is_number(word) {
            return Some(Fault::IsNoNumber(at.saturating_add(1), word));
        }
    }
    None
}

// What is wrong with the operands of `plain`: a number that is none, or too few or too many places.
fn plain_fault<'a>(operands: &'a [String]) -> Fault<'a> {
    if let Some(fault) = no_number(operands, 0, NUMBERS) {
        return fault;
    }
    let antennas = match operands.first() {
        Some(word) => word.as_str().parse::<usize>().unwrap_or(0),
        None => 0,
    };
    Fault::Count(operands.len(), antennas.saturating_add(NUMBERS + 1))
}

// What is wrong with operands among which the flag may stand once.
fn flagged_fault<'a>(operands: &'a [String], wanted: usize) -> Fault<'a> {
    let words = operands.iter().filter(|word| word.as_str() != SERIAL);
    let count = words.count();
    if count == wanted && operands.len() > wanted.saturating_add(1) {
        return Fault::SecondFlag;
    }
    Fault::Count(count, wanted)
}

// What is wrong with the operands of `trial`: the last, or the last before the flag, is no number;
// or their count.
fn trial_fault<'a>(operands: &'a [String]) -> Fault<'a> {
    let behind = match operands.last() {
        Some(word) if word.as_str() == SERIAL => 2,
        _ => 1,
    };
    let seed = operands.len().saturating_sub(behind);
    match no_number(operands, seed, seed.saturating_add(1)) {
        Some(fault) if seed > 0 => fault,
        _ => flagged_fault(operands, 2),
    }
}

// What is wrong with the operands of `simulate`: a number that is none, or their count.
fn simulate_fault<'a>(operands: &'a [String]) -> Fault<'a> {
    match no_number(operands, 1, 3) {
        Some(fault) => fault,
        None => Fault::Count(operands.len(), 4),
    }
}

// What is wrong with operands of which the last is a limit: their number, or the limit.
fn limit_fault<'a>(operands: &'a [String], wanted: usize) -> Fault<'a> {
    match operands.last() {
        Some(word) if operands.len() == wanted => Fault::OutOfLimits(wanted, word.as_str()),
        _ => Fault::Count(operands.len(), wanted),
    }
}

// What is wrong with words that have no form.
fn fault_of<'a>(words: &'a [String]) -> Fault<'a> {
    if words.is_empty() {
        return Fault::Unreadable;
    }
    let Some(command) = words.get(1) else {
        return Fault::NoCommand;
    };
    if !COMMANDS.iter().any(|name| *name == command.as_str()) {
        return Fault::NoSuchCommand(command.as_str());
    }
    let operands = words.get(2..).unwrap_or(&[]);
    let takes_flag = matches!(command.as_str(), "correlate" | "trial");
    if let Some(fault) = bad_word(operands, takes_flag) {
        return fault;
    }
    match command.as_str() {
        "plain" => plain_fault(operands),
        "correlate" => flagged_fault(operands, 1),
        "trial" => trial_fault(operands),
        "simulate" => simulate_fault(operands),
        "relay" => limit_fault(operands, 3),
        "inspect" => Fault::Count(operands.len(), 1),
        "decode" => limit_fault(operands, 2),
        name => Fault::NoSuchCommand(name),
    }
}

/// Writes one line to standard error on what is wrong with words that have no form.
pub fn say_usage<R: Eprint>(system: &R, words: &[String]) {
    let fault = fault_of(words);
    let _ = eprintln!(system; "spead_corr: {fault}");
}
