//! Runs whose settings are read from a text.

ghost use Rattle.std.specs.Prelude.{◌≡◌, false, is_some, IfOk};

use crate::output::{ONE_HEAP_LOST, one_accumulation};
use crate::outside::{Ended, Fault, run_over, words_of};
use crate::packets::{one_heap, two_heaps};
use corr_site::ListText;
use std::alloc::Global;
use std::test::Fail;

// Two antennas, one channel, one spectrum, two heaps, one accumulation, as `plain` has them.
pub const SETTINGS: &str = "antennas = 2
channels = 1
spectra = 1
heaps = 2
step = 1
accumulations = 1
lag = 1
slots = 1
workers = 0
preset = true
inputs = [\"a.cap\", \"b.cap\"]
output = \"out.cap\"
";

pub const SUMMARY: &[u8] = b"sent 3 packets 668 bytes mark 4e4ea93018d6ba56
stream 0 taken 2 ended end refused 0 dropped 0 stale 0 evicted 0 baddesc 0 undescribed 0 foreign 0 before 0 offgrid 0 wild 0 beyond 0 late 0 twice 0 used 2
stream 1 taken 1 ended end refused 0 dropped 0 stale 0 evicted 0 baddesc 0 undescribed 0 foreign 0 before 0 offgrid 0 wild 0 beyond 0 late 0 twice 0 used 1
";

/// A text of these bytes.
pub fn text_of(alloc: Global, bytes: &[u8], begin_fails: bool) -> Result<ListText, Fail>
    ensures { IfOk result (λ t. is_some t.at ≡ false) }
{
    let mut list = Vec::new(alloc);
    for byte in bytes {
        list.push(*byte)?;
    }
    Ok(ListText::new(list, Vec::new(alloc), begin_fails))
}

// `correlate --serial` over these settings.
fn correlate(alloc: Global, bytes: &[u8], begin_fails: bool) -> Result<Ended, Fail> {
    run_line(
        alloc,
        "spead_corr correlate --serial run.toml",
        bytes,
        begin_fails,
    )
}

// The words of a line over these settings.
fn run_line(alloc: Global, line: &str, bytes: &[u8], begin_fails: bool) -> Result<Ended, Fail> {
    let words = words_of(alloc, line)?;
    let settings = text_of(alloc, bytes, begin_fails)?;
    run_over(
        alloc,
        &words,
        settings,
        two_heaps(alloc)?,
        one_heap(alloc)?,
        Fault::No,
    )
}

#[test]
fn two_antennas_one_heap_lost(rt: HostRuntime) -> Result<(), Fail> {
    let end = correlate(rt.alloc(), SETTINGS.as_bytes(), false)?;
    assert_eq!(rt; end.code, 0);
    assert_eq!(rt; end.print.text(), SUMMARY);
    let wanted = one_accumulation(rt.alloc(), &ONE_HEAP_LOST, [0, 1, 1])?;
    assert_eq!(rt; end.first_other(&wanted), None);
    Ok(())
}

#[test]
fn without_the_flag_the_same_is_sent(rt: HostRuntime) -> Result<(), Fail> {
    let end = run_line(
        rt.alloc(),
        "spead_corr correlate run.toml",
        SETTINGS.as_bytes(),
        false,
    )?;
    assert_eq!(rt; end.code, 0);
    assert_eq!(rt; end.print.text(), SUMMARY);
    Ok(())
}

#[test]
fn settings_that_cannot_be_read(rt: HostRuntime) -> Result<(), Fail> {
    let end = correlate(rt.alloc(), SETTINGS.as_bytes(), true)?;
    assert_eq!(rt; end.code, 8);
    assert_eq!(rt; end.print.text(), b"settings source fault\n".as_slice());
    assert_eq!(rt; end.begun_sources(), 0);
    Ok(())
}

#[test]
fn a_setting_that_is_missing(rt: HostRuntime) -> Result<(), Fail> {
    let end = correlate(rt.alloc(), b"antennas = 2\n", false)?;
    assert_eq!(rt; end.code, 2);
    assert_eq!(rt;
        end.print.text(),
        b"settings: missing channels\n".as_slice()
    );
    assert_eq!(rt; end.begun_sources(), 0);
    Ok(())
}

/// The settings of four antennas.
pub const FOUR: &str = "antennas = 4\nchannels = 16\nspectra = 256\nheaps = 256\nstep = 8192\n\
accumulations = 2\nworkers = 4\ninputs = [\"a\", \"b\", \"c\", \"d\"]\noutput = \"o\"\n";

// Settings that reserve more than 2^30 bytes.
const LARGE: &[u8] = b"antennas = 1
channels = 1024
spectra = 256
heaps = 256
step = 1
accumulations = 1
lag = 1
window = 1
slots = 1
workers = 1
inputs = [\"a\"]
output = \"o\"
";

#[test]
fn refused_settings(rt: HostRuntime) -> Result<(), Fail> {
    let slots = FOUR.replace(rt.alloc(), "workers = 4", "slots = 0")?;
    let end = correlate(rt.alloc(), slots.as_bytes(), false)?;
    assert_eq!(rt; end.code, 2);
    assert_eq!(rt; end.print.text(), b"settings: range slots 0\n".as_slice());
    let gain = FOUR.replace(rt.alloc(), "workers = 4", "gain = 1")?;
    let end = correlate(rt.alloc(), gain.as_bytes(), false)?;
    assert_eq!(rt; end.code, 2);
    assert_eq!(rt; end.print.text(), b"settings: unknown gain\n".as_slice());
    let end = correlate(rt.alloc(), LARGE, false)?;
    assert_eq!(rt; end.code, 2);
    assert_eq!(rt;
        end.print.text(),
        b"settings: too large 1343559436\n".as_slice()
    );
    Ok(())
}

#[test]
fn a_text_of_65536_bytes_is_read_and_a_longer_one_is_not(rt: HostRuntime) -> Result<(), Fail> {
    let mut blanks = vec![in rt.alloc(); b' '; 65536]?;
    let end = correlate(rt.alloc(), blanks.as_slice(), false)?;
    assert_eq!(rt; end.code, 2);
    assert_eq!(rt;
        end.print.text(),
        b"settings: missing antennas\n".as_slice()
    );
    blanks.push(b' ')?;
    let end = correlate(rt.alloc(), blanks.as_slice(), false)?;
    assert_eq!(rt; end.code, 2);
    assert_eq!(rt; end.print.text(), b"settings: too long\n".as_slice());
    Ok(())
}
