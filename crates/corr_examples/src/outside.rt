//! What a test hands to a run, and what it looks at afterwards.

ghost use Rattle.std.specs.Prelude.{◌≡◌, false, is_some, All};
ghost use Rattle.corr_examples.specs.Fresh.{IsFresh};

use crate::packets::Strings;
use corr_cli::run_returning;
use corr_model::Unheard;
use corr_site::{ListPrint, ListSink, ListSource, ListText};
use std::alloc::Global;
use std::test::Fail;

/// The words of two antennas, one channel, one spectrum, two heaps, one accumulation.
pub const PLAIN: &str = "spead_corr plain 2 1 1 2 1 a.cap b.cap out.cap";

/// Which call on the outside is to fail.
#[derive(Clone, Copy, PartialEq, Eq)]
pub enum Fault {
    /// None.
    No,
    /// `begin` of antenna 0's source.
    FirstBegin,
    /// `begin` of antenna 1's source.
    SourceBegin,
    /// This call of `next` of antenna 1's source, from 0.
    SourceNext(u64),
    /// `begin` of the sink.
    SinkBegin,
    /// This call of `send` of the sink, from 0.
    SinkSend(u64),
    /// The first `write` of the printed text.
    Print,
}

impl Fault {
    fn source_calls(self, alloc: Global) -> Result<Vec<u64>, Fail> {
        match self {
            Fault::SourceNext(call) => Ok(vec![in alloc; call]?),
            _ => Ok(Vec::new(alloc)),
        }
    }

    fn sink_calls(self, alloc: Global) -> Result<Vec<u64>, Fail> {
        match self {
            Fault::SinkSend(call) => Ok(vec![in alloc; call]?),
            _ => Ok(Vec::new(alloc)),
        }
    }

    fn print_calls(self, alloc: Global) -> Result<Vec<u64>, Fail> {
        match self {
            Fault::Print => Ok(vec![in alloc; 0]?),
            _ => Ok(Vec::new(alloc)),
        }
    }
}

/// What a run left behind: its status, the objects in memory, and what they hold.
#[derive(Drop)]
pub struct Ended {
    /// The status.
    pub code: u8,
    /// The sources in order of antenna, and those without one.
    pub sources: Vec<ListSource<Unheard>>,
    /// What was sent.
    pub sink: ListSink,
    /// What was printed.
    pub print: ListPrint,
}

impl Ended {
    /// How many sources are begun.
    pub fn begun_sources(&self) -> usize {
        self.sources
            .iter()
            .filter(|source| source.is_begun())
            .count()
    }

    /// The number of the first datagram that differs from these, if one does.
    pub fn first_other(&self, wanted: &[Vec<u8>]) -> Option<usize> {
        for number in 0..wanted.len() {
            if self.sink.string(number) != Some(wanted[number].as_slice()) {
                return Some(number);
            }
        }
        if self.sink.len() == wanted.len() {
            None
        } else {
            Some(wanted.len())
        }
    }
}

/// The words of a text, each after one space.
pub fn words_of(alloc: Global, text: &str) -> Result<Vec<String>, Fail> {
    let mut words = Vec::new(alloc);
    for word in text.split(' ') {
        words.push(String::from_str(alloc, word)?)?;
    }
    Ok(words)
}

// Sources that are not begun.
#[derive(Drop)]
struct Sources {
    list: Vec<ListSource<Unheard>>,
    ghost fresh: { All IsFresh list.items },
}

impl Sources {
    fn add(&mut self, source: ListSource<Unheard>) -> Result<(), Fail>
        requires { IsFresh source }
    {
        if self.list.push(source).is_err() {
            return Err(Fail::from("no memory"));
        }
        Ok(())
    }
}

// The sources of two antennas, and 62 more.
fn all_sources(
    alloc: Global,
    first: Strings,
    second: Strings,
    fault: Fault,
) -> Result<Sources, Fail> {
    let mut sources = Sources {
        list: Vec::new(alloc),
    };
    sources.add(first.into_source(Vec::new(alloc), fault == Fault::FirstBegin))?;
    let fails = fault.source_calls(alloc)?;
    sources.add(second.into_source(fails, fault == Fault::SourceBegin))?;
    for _ in 2..64 {
        sources.add(Strings::new(alloc).into_source(Vec::new(alloc), false))?;
    }
    Ok(sources)
}

/// Runs the words over the byte strings of two antennas.
pub fn run(
    alloc: Global,
    words: &[String],
    first: Strings,
    second: Strings,
    fault: Fault,
) -> Result<Ended, Fail> {
    let settings = ListText::new(Vec::new(alloc), Vec::new(alloc), false);
    run_over(alloc, words, settings, first, second, fault)
}

/// Runs the words over a text of settings and the byte strings of two antennas.
pub fn run_over(
    alloc: Global,
    words: &[String],
    mut settings: ListText,
    first: Strings,
    second: Strings,
    fault: Fault,
) -> Result<Ended, Fail>
    requires { is_some settings.at ≡ false }
{
    let mut sources = all_sources(alloc, first, second, fault)?.list;
    if sources.len() != 64 {
        return Err(Fail::from("not 64 sources"));
    }
    let fails = fault.sink_calls(alloc)?;
    let mut sink = ListSink::new(alloc, 32, 32768, fails, fault == Fault::SinkBegin)?;
    let mut print = ListPrint::new(alloc, 1024, fault.print_calls(alloc)?)?;
    let status = run_returning::<Unheard, _, _, _, _>(
        alloc,
        words,
        &mut settings,
        sources.as_mut_slice(),
        &mut sink,
        &mut print,
    );
    Ok(Ended {
        code: status.code,
        sources,
        sink,
        print,
    })
}

/// Runs the words of a text over the byte strings of two antennas.
pub fn run_text(
    alloc: Global,
    text: &str,
    first: Strings,
    second: Strings,
    fault: Fault,
) -> Result<Ended, Fail> {
    let words = words_of(alloc, text)?;
    run(alloc, words.as_slice(), first, second, fault)
}
