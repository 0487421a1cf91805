//! Texts in memory, shorter and longer than the buffer, and one that fails.

use super::fill;
use corr_site::{Failed, ListText, Text, TextSource};
use std::test::Fail;

#[test]
fn a_text_is_read_to_its_end_or_to_that_of_the_buffer(rt: HostRuntime) -> Result<(), Fail> {
    let path = Text::new(rt.alloc(), "run.toml")?;
    let bytes = vec![in rt.alloc(); 7, 8, 9]?;
    let mut source = ListText::new(bytes, Vec::new(rt.alloc()), false);
    source.begin(&path)?;
    let mut front = [0u8; 2];
    assert_eq!(rt; fill(&mut source, &mut front), Ok(2));
    assert_eq!(rt; front, [7, 8]);
    let mut rest = [0u8; 2];
    assert_eq!(rt; fill(&mut source, &mut rest), Ok(1));
    assert_eq!(rt; rest[0], 9);
    Ok(())
}

#[test]
fn a_failure_is_handed_on(rt: HostRuntime) -> Result<(), Fail> {
    let path = Text::new(rt.alloc(), "run.toml")?;
    let bytes = vec![in rt.alloc(); 7, 8, 9]?;
    let fails = vec![in rt.alloc(); 0]?;
    let mut source = ListText::new(bytes, fails, false);
    source.begin(&path)?;
    let mut buf = [0u8; 4];
    assert_eq!(rt; fill(&mut source, &mut buf), Err(Failed));
    assert_eq!(rt; source.faults(), 1);
    Ok(())
}
