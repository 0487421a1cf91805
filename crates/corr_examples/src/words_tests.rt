//! Words that begin nothing: usage and refused settings.

use crate::outside::{Ended, Fault, run, run_text, words_of};
use crate::packets::{one_heap, two_heaps};
use std::alloc::Global;
use std::test::Fail;

const USAGE: &[u8] = b"usage:
spead_corr plain A F S T N IN.. OUT
spead_corr correlate [--serial] CONFIG
spead_corr trial [--serial] CONFIG SEED
spead_corr simulate CONFIG SEED ANTENNA OUT
spead_corr relay FROM TO LIMIT
spead_corr inspect IN
spead_corr decode IN LIMIT
";

// Words, the status and the printed text. The settings of the fourth reserve
// 4 * (8 * (20,480 + 2,560) + 3 * 67,112,960) + 2 * (4 * 67,112,960 + 680) + 680 bytes, where a
// column has 4,096 * (4 * 4,096 + 1) = 67,112,960.
const WORDS: [(&str, u8, &[u8]); 4] = [
    ("spead_corr", 1, USAGE),
    ("spead_corr plain 2 1 1 2 1 a o", 1, USAGE),
    ("spead_corr correlate --fast c", 1, USAGE),
    (
        "spead_corr plain 4 1 4096 4096 1 a b c d o",
        2,
        b"settings: too large 1342998520\n",
    ),
];

// Whether nothing was begun and nothing was sent.
fn is_untouched(end: &Ended) -> bool {
    end.begun_sources() == 0 && !end.sink.is_begun() && end.sink.len() == 0
}

#[test]
fn usage_and_settings(rt: HostRuntime) -> Result<(), Fail> {
    let alloc = rt.alloc();
    for (words, code, text) in WORDS {
        let end = run_text(alloc, words, two_heaps(alloc)?, one_heap(alloc)?, Fault::No)?;
        assert_eq!(rt; end.code, code, "{words}");
        assert_eq!(rt; end.print.text(), text, "{words}");
        assert!(rt; is_untouched(&end), "{words}");
    }
    Ok(())
}

// 65 antennas with as many inputs, and an output.
fn sixty_five(alloc: Global) -> Result<Vec<String>, Fail> {
    let mut words = words_of(alloc, "spead_corr plain 65 1 1 2 1 o")?;
    for _ in 0..65 {
        words.push(String::from_str(alloc, "a")?)?;
    }
    Ok(words)
}

#[test]
fn antennas_out_of_range(rt: HostRuntime) -> Result<(), Fail> {
    let alloc = rt.alloc();
    let words = sixty_five(alloc)?;
    let end = run(
        alloc,
        &words,
        two_heaps(alloc)?,
        one_heap(alloc)?,
        Fault::No,
    )?;
    assert_eq!(rt; end.code, 2);
    assert_eq!(rt;
        end.print.text(),
        b"settings: range antennas 65\n".as_slice()
    );
    assert!(rt; is_untouched(&end));
    Ok(())
}
