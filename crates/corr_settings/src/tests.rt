//! Texts and numbers, and what they say.

use crate::{Key, PlainNumbers, SetRefusal, antenna_refusal, plain_settings, read};
use std::alloc::Global;
use std::test::Fail;

// The settings of four antennas.
const FOUR: &str =
    "antennas = 4\nchannels = 16\nspectra = 256\nheaps = 256\nstep = 8192\naccumulations = 2\nworkers = 4\ninputs = [\"a\", \"b\", \"c\", \"d\"]\noutput = \"o\"\n";

// Settings that reserve more than 2^30 bytes: 4 × 268,435,712 of columns and more.
const LARGE: &str =
    "antennas = 1\nchannels = 1024\nspectra = 256\nheaps = 256\nstep = 1\naccumulations = 1\nlag = 1\nwindow = 1\nslots = 1\nworkers = 1\ninputs = [\"a\"]\noutput = \"o\"\n";

// The words of a refusal.
fn words(alloc: Global, refusal: &SetRefusal) -> Result<String, Fail> {
    Ok(match refusal {
        SetRefusal::NotToml => String::from_str(alloc, "not TOML")?,
        SetRefusal::Missing(key) => format!(in alloc; "missing {}", key.name())?,
        SetRefusal::Kind(key) => format!(in alloc; "kind {}", key.name())?,
        SetRefusal::Range(key, value) => format!(in alloc; "range {} {}", key.name(), value)?,
        SetRefusal::Unknown(name) => format!(in alloc; "unknown {}", name.as_str())?,
        SetRefusal::TooLarge(bytes) => format!(in alloc; "too large {}", bytes)?,
        SetRefusal::TooLong | SetRefusal::NoMemory => String::from_str(alloc, "other")?,
    })
}

// Why a text is refused, in a few words.
fn why(alloc: Global, text: &str) -> Result<String, Fail> {
    match read(alloc, text.as_bytes()) {
        Ok(_settings) => Ok(String::from_str(alloc, "none")?),
        Err(refusal) => words(alloc, &refusal),
    }
}

#[test]
fn the_settings_of_four_antennas_are_read(rt: HostRuntime) -> Result<(), Fail> {
    let Ok(settings) = read(rt.alloc(), FOUR.as_bytes()) else {
        panic!(rt; "refused");
    };
    assert_eq!(rt; settings.plan.reserved(), 202_168_680);
    assert_eq!(rt; settings.inputs.as_slice().len(), 4);
    assert_eq!(rt; settings.output.text.as_str(), "o");
    Ok(())
}

// A text in the settings of four antennas, what stands in its place, and why that is refused.
const REFUSED: [(&str, &str, &str); 13] = [
    ("workers = 4", "slots = 0", "range slots 0"),
    ("workers = 4", "gain = 1", "unknown gain"),
    ("workers = 4", "gain = 1\nalpha = 1", "unknown alpha"),
    ("workers = 4", "slots = 0\ngain = 1", "range slots 0"),
    ("step = 8192", "slots = \"a\"", "missing step"),
    ("step = 8192", "step = 8192.0", "kind step"),
    ("step = 8192", "step = -3", "range step -3"),
    ("\"d\"", "4", "kind inputs"),
    ("\"d\"", "\"\"", "range inputs 0"),
    (", \"d\"", "", "range inputs 3"),
    (
        ", \"d\"]",
        "]\nheap_limit = 16383",
        "range heap_limit 16383",
    ),
    (
        "heaps = 256",
        "heaps = 256\npacket = 100",
        "range packet 100",
    ),
    ("spectra = 256", "spectra = 256\nspectra = 256", "not TOML"),
];

#[test]
fn each_refusal_comes_in_its_order(rt: HostRuntime) -> Result<(), Fail> {
    for (old, new, wanted) in REFUSED {
        let text = FOUR.replace(rt.alloc(), old, new)?;
        assert_eq!(rt; why(rt.alloc(), &text)?.as_str(), wanted);
    }
    assert_eq!(rt; why(rt.alloc(), LARGE)?.as_str(), "too large 1343559436");
    Ok(())
}

#[test]
fn numbers_of_a_command_line(rt: HostRuntime) {
    let numbers = PlainNumbers {
        antennas: 2,
        channels: 1,
        spectra: 1,
        heaps: 2,
        accumulations: 1,
    };
    assert!(rt;
        matches!(plain_settings(&numbers), Ok(plan)
            if plan.lag == 1 && plan.preset && plan.heap_limit == 4100 && antenna_refusal(&plan, 1).is_none())
    );
    let many = PlainNumbers {
        antennas: u64::MAX,
        ..numbers
    };
    assert!(rt;
        matches!(
            &plain_settings(&many),
            Err(SetRefusal::Range(Key::Antennas, i64::MAX))
        )
    );
}
