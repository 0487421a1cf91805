//! A command line of each command, and some that have no form.

use super::{Command, WordRefusal, needs_threads, plain_numbers, read};
use std::alloc::{AllocError, Global};
use std::test::Fail;

// The words of a line, parted by single blanks.
fn words_of(alloc: Global, line: &str) -> Result<Vec<String>, AllocError> {
    let mut words = Vec::new(alloc);
    for word in line.split(' ') {
        words.push(String::from_str(alloc, word)?)?;
    }
    Ok(words)
}

// What the words of a line are, in a few words.
fn told(alloc: Global, words: &[String]) -> &'static str {
    match read(alloc, words) {
        Ok(Command::Plain(_)) => "plain",
        Ok(Command::Correlate(_, false)) => "correlate",
        Ok(Command::Correlate(_, true)) => "correlate on one thread",
        Ok(Command::Trial(_, _, false)) => "trial",
        Ok(Command::Trial(_, _, true)) => "trial on one thread",
        Ok(Command::Simulate(..)) => "simulate",
        Ok(Command::Relay(..)) => "relay",
        Ok(Command::Inspect(_)) => "inspect",
        Ok(Command::Decode(..)) => "decode",
        Err(WordRefusal::Usage) => "usage",
        Err(WordRefusal::NoMemory) => "no memory",
    }
}

// Lines, what they are, and whether they need threads.
const LINES: [(&str, &str, bool); 16] = [
    ("p plain 1 2 3 4 5 a udp:b:1", "plain", false),
    ("p correlate c", "correlate", true),
    ("p correlate --serial c", "correlate on one thread", false),
    ("p trial c 007", "trial", true),
    ("p trial c 7 --serial", "trial on one thread", false),
    ("p simulate c 7 3 o", "simulate", false),
    ("p relay a b 1099511627776", "relay", false),
    ("p inspect a", "inspect", false),
    ("p decode a 1073741824", "decode", false),
    ("p", "usage", false),
    ("p plain 2 1 1 2 1 a o", "usage", false),
    ("p correlate --fast c", "usage", true),
    ("p trial --serial c 7 --serial", "usage", false),
    ("p inspect --serial a", "usage", false),
    ("p relay a b 0", "usage", false),
    ("p decode a 1073741825", "usage", false),
];

#[test]
fn lines_and_what_they_are(rt: HostRuntime) -> Result<(), Fail> {
    for (line, wanted, threads) in LINES {
        let words = words_of(rt.alloc(), line)?;
        assert_eq!(rt; told(rt.alloc(), &words), wanted, "{line}");
        assert_eq!(rt; needs_threads(&words), threads, "{line}");
    }
    Ok(())
}

#[test]
fn each_operand_has_its_own_place(rt: HostRuntime) -> Result<(), Fail> {
    let words = words_of(rt.alloc(), "p simulate c 007 3 o")?;
    let Ok(Command::Simulate(config, seed, antenna, output)) = read(rt.alloc(), &words) else {
        panic!(rt; "no simulate");
    };
    assert_eq!(rt; config.as_str(), "c");
    assert_eq!(rt; seed, 7);
    assert_eq!(rt; antenna, 3);
    assert_eq!(rt; output.text.as_str(), "o");
    let words = words_of(rt.alloc(), "p relay a udp:b:1 9")?;
    let Ok(Command::Relay(from, to, limit)) = read(rt.alloc(), &words) else {
        panic!(rt; "no relay");
    };
    assert!(rt; !from.udp);
    assert_eq!(rt; from.text.as_str(), "a");
    assert!(rt; to.udp);
    assert_eq!(rt; to.text.as_str(), "b:1");
    assert_eq!(rt; limit, 9);
    Ok(())
}

#[test]
fn the_numbers_of_plain(rt: HostRuntime) -> Result<(), Fail> {
    let words = words_of(rt.alloc(), "p plain 1 2 3 4 5 a o")?;
    let Some(numbers) = plain_numbers(&words) else {
        panic!(rt; "no numbers");
    };
    assert_eq!(rt; numbers.antennas, 1);
    assert_eq!(rt; numbers.channels, 2);
    assert_eq!(rt; numbers.spectra, 3);
    assert_eq!(rt; numbers.heaps, 4);
    assert_eq!(rt; numbers.accumulations, 5);
    Ok(())
}
