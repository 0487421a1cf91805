//! Datagrams sent on, printed, and read back as visibilities, by the one call.

use crate::output::{ONE_HEAP_LOST, one_accumulation};
use crate::outside::{Ended, Fault, run_text};
use crate::packets::{Strings, heap, two_heaps};
use std::alloc::Global;
use std::test::Fail;

// Runs the words over the byte strings of the first source; the second has none.
fn run_tool(alloc: Global, words: &str, strings: Strings) -> Result<Ended, Fail> {
    run_text(alloc, words, strings, Strings::new(alloc), Fault::No)
}

#[test]
fn two_of_three_strings_are_relayed(rt: HostRuntime) -> Result<(), Fail> {
    let alloc = rt.alloc();
    let mut strings = two_heaps(alloc)?;
    strings.add(heap(alloc, 3, 2, 0, [0; 4])?)?;
    let end = run_tool(alloc, "spead_corr relay a.cap b.cap 2", strings)?;
    assert_eq!(rt; end.code, 0);
    assert_eq!(rt; end.print.text(), b"relayed 2 packets\n".as_slice());
    let first = heap(alloc, 1, 0, 0, [1, 2, 3, 0])?;
    let second = heap(alloc, 2, 1, 0, [0xff, 0, 0, 1])?;
    assert_eq!(rt; end.sink.len(), 2);
    assert_eq!(rt; end.sink.string(0), Some(first.as_slice()));
    assert_eq!(rt; end.sink.string(1), Some(second.as_slice()));
    assert_eq!(rt; end.begun_sources(), 1);
    Ok(())
}

#[test]
fn packets_are_printed(rt: HostRuntime) -> Result<(), Fail> {
    let alloc = rt.alloc();
    let mut strings = Strings::new(alloc);
    strings.add(heap(alloc, 1, 0, 0, [1, 2, 3, 0])?)?;
    strings.add(vec![in alloc; 0; 3]?)?;
    let end = run_tool(alloc, "spead_corr inspect a.cap", strings)?;
    assert_eq!(rt; end.code, 0);
    assert_eq!(rt;
        end.print.text(),
        b"0 counter 1 offset 0 length 4 size 4 pointers 3
  i 1600 000000000000
  i 4101 000000000000
  a 4300 000000000000
1 refused Short
datagrams 2
"
            .as_slice()
    );
    assert!(rt; !end.sink.is_begun());
    Ok(())
}

// The first datagrams of the output of two antennas of which one loses a heap.
fn output_of(alloc: Global, count: usize) -> Result<Strings, Fail> {
    let mut datagrams = one_accumulation(alloc, &ONE_HEAP_LOST, [0, 1, 1])?;
    datagrams.truncate(count);
    let mut strings = Strings::new(alloc);
    for datagram in datagrams {
        strings.add(datagram)?;
    }
    Ok(strings)
}

#[test]
fn an_output_is_read_back(rt: HostRuntime) -> Result<(), Fail> {
    let strings = output_of(rt.alloc(), 3)?;
    let end = run_tool(rt.alloc(), "spead_corr decode out.cap 1024", strings)?;
    assert_eq!(rt; end.code, 0);
    assert_eq!(rt;
        end.print.text(),
        b"heap 0 timestamp 0
baseline 0 0 missing 0
0 6 0 3 7 3 -7 10 0
baseline 0 1 missing 1
0 2 -1 0 5 0 -3 6 3
baseline 1 1 missing 1
0 1 0 -1 2 -1 -2 5 0
stop
"
            .as_slice()
    );
    Ok(())
}

#[test]
fn an_output_without_its_last_datagram_is_refused(rt: HostRuntime) -> Result<(), Fail> {
    let strings = output_of(rt.alloc(), 2)?;
    let end = run_tool(rt.alloc(), "spead_corr decode out.cap 1024", strings)?;
    assert_eq!(rt; end.code, 9);
    assert!(rt;
        end.print
            .text()
            .ends_with(b"0 1 0 -1 2 -1 -2 5 0\nrefused 2 NoStop\n")
    );
    assert_eq!(rt; end.begun_sources(), 1);
    Ok(())
}
