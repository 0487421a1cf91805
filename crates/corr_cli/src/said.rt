//! What a command line asks for: the settings of a run, from its numbers or from a text.

ghost use Rattle.std.specs.Prelude.{◌≡◌, ℕ, Bool, List, false, true, Some, None, Ok, Err, IfOk, IfErr, IfSome, IfNone, length, map, string_bytes, option_and_then};
ghost use Rattle.corr_model.specs.Plans.{Fits};
ghost use Rattle.corr_words.specs.declared.command.PlainWords.{PlainWords};
ghost use Rattle.corr_words.specs.declared.command.Command.TheVariants.{Plain, Correlate};
ghost use Rattle.corr_settings.specs.declared.refusal.SetRefusal.{SetRefusal};
ghost use Rattle.corr_settings.specs.Named.{HasShortName};
ghost use Rattle.corr_settings.specs.Read.{settings};
ghost use Rattle.corr_cli.specs.Placing.{IsAtOwn};
ghost use Rattle.corr_cli.specs.Said.{form_of, names_over_sources, needs_text, numbers, of_plain};
ghost use Rattle.corr_cli.specs.Says.{IsSaidBy, Says, SaysCause, SaysText, RefusesNumbers, IsOfText, IsOfBytes, IsOfNumbers};
ghost use Rattle.corr_cli.specs.Texts.{IsNotDone, IsPrintable};

use crate::answer::Answer;
use corr_settings::{PlainNumbers, SetRefusal, Settings, plain_settings, read};
use corr_site::{Text, TextSource};
use corr_text::fill;
use corr_words::{Command, Numbers, PlainWords, WordRefusal, plain_numbers, read as read_words};
use std::alloc::Global;

/// What a run prints at its end.
#[derive(Clone, Copy, Debug, PartialEq, Eq)]
pub enum Telling {
    /// How many packets were sent.
    Packets,
    /// All that was counted of them, and the report on each stream.
    Summary,
}

/// What a command line asks for.
#[derive(Drop)]
pub struct Asked {
    /// The plan and the places.
    pub settings: Settings,
    /// What is printed at the end.
    pub telling: Telling,
}

/// What the words ask for, with the settings of the text where they name one; or else the answer:
/// usage, a fault of the text's source, refused settings, or want of memory.
pub fn said<D: TextSource>(alloc: Global, words: &[String], text: &mut D) -> Result<Asked, Answer>
    requires text { D.begun text.old ≡ false }
    ensures says { Says (map string_bytes words.now) (D.left text.old) result }
    ensures printable { IfErr result IsPrintable }
    ensures fits { IfOk result (λ a. Fits a.settings.plan) }
    ensures inputs { IfOk result (λ a. length a.settings.inputs ≡ a.settings.plan.antennas) }
    ensures text { needs_text (map string_bytes words.now) ≡ false → text.new ≡ text.old }
    ensures at { (config : List ℕ) (serial : Bool)
        → form_of (map string_bytes words.now) ≡ Some (Correlate config serial)
        → IsAtOwn (D.begun text.new) (D.at text.new) config }
    ensures begun { IfOk result (λ a. needs_text (map string_bytes words.now) ≡ true
        → D.begun text.new ≡ true) }
    ensures stops { IfErr result IsNotDone }
    ensures cause { SaysCause (D.faults text.old) (D.faults text.new) result }
{
    if is_over_sources(words) {
        said_by(alloc, words, text)
    } else {
        Err(Answer::Usage)
    }
}

// The same of a command over the sources.
fn said_by<D: TextSource>(alloc: Global, words: &[String], text: &mut D) -> Result<Asked, Answer>
    requires text { D.begun text.old ≡ false }
    requires named { names_over_sources (map string_bytes words.now) ≡ true }
    ensures says { Says (map string_bytes words.now) (D.left text.old) result }
    ensures printable { IfErr result IsPrintable }
    ensures fits { IfOk result (λ a. Fits a.settings.plan) }
    ensures inputs { IfOk result (λ a. length a.settings.inputs ≡ a.settings.plan.antennas) }
    ensures text { needs_text (map string_bytes words.now) ≡ false → text.new ≡ text.old }
    ensures at { (config : List ℕ) (serial : Bool)
        → form_of (map string_bytes words.now) ≡ Some (Correlate config serial)
        → IsAtOwn (D.begun text.new) (D.at text.new) config }
    ensures begun { IfOk result (λ a. needs_text (map string_bytes words.now) ≡ true
        → D.begun text.new ≡ true) }
    ensures stops { IfErr result IsNotDone }
    ensures cause { SaysCause (D.faults text.old) (D.faults text.new) result }
{
    if let Some(refusal) = refused_numbers(words) {
        return Err(Answer::Settings(refusal));
    }
    match read_words(alloc, words) {
        Ok(Command::Plain(plain)) => said_plain(plain),
        Ok(Command::Correlate(config, _)) => said_text(alloc, &config, text),
        Ok(_) => Err(Answer::Usage),
        Err(WordRefusal::Usage) => Err(Answer::Usage),
        Err(WordRefusal::NoMemory) => Err(Answer::NoMemory),
    }
}

// Whether the second word is a command that correlates what the sources give.
fn is_over_sources(words: &[String]) -> bool
    ensures { result ≡ names_over_sources (map string_bytes words.now) }
{
    if words.len() < 2 {
        return false;
    }
    words[1].as_str() == "plain" || words[1].as_str() == "correlate"
}

// Why the numbers of the words are refused, where they are those of `plain`. No memory is taken.
fn refused_numbers(words: &[String]) -> Option<SetRefusal>
    ensures value { RefusesNumbers (map string_bytes words.now) result }
    ensures short { IfSome result HasShortName }
{
    let Some(said) = plain_numbers(words) else {
        return None;
    };
    match plain_settings(&numbers_of(said)) {
        Ok(_) => None,
        Err(refusal) => Some(refusal),
    }
}

// The numbers as settings.
fn numbers_of(said: Numbers) -> PlainNumbers
    ensures { result ≡ numbers said }
{
    PlainNumbers {
        antennas: said.antennas,
        channels: said.channels,
        spectra: said.spectra,
        heaps: said.heaps,
        accumulations: said.accumulations,
    }
}

// What `plain` asks for.
fn said_plain(plain: PlainWords) -> Result<Asked, Answer>
    requires { length plain.inputs ≡ plain.antennas }
    ensures says { SaysText (of_plain plain) Telling.Packets result }
    ensures answers { IfErr result IsOfNumbers }
    ensures stops { IfErr result IsNotDone }
    ensures printable { IfErr result IsPrintable }
    ensures fits { IfOk result (λ a. Fits a.settings.plan) }
    ensures inputs { IfOk result (λ a. length a.settings.inputs ≡ a.settings.plan.antennas) }
{
    let numbers = PlainNumbers {
        antennas: plain.antennas,
        channels: plain.channels,
        spectra: plain.spectra,
        heaps: plain.heaps,
        accumulations: plain.accumulations,
    };
    match plain_settings(&numbers) {
        Ok(plan) => Ok(Asked {
            settings: Settings {
                plan,
                inputs: plain.inputs,
                output: plain.output,
            },
            telling: Telling::Packets,
        }),
        Err(refusal) => Err(Answer::Settings(refusal)),
    }
}

// What the text of a file asks for.
pub(crate) fn said_text<D: TextSource>(
    alloc: Global,
    config: &Text,
    text: &mut D,
) -> Result<Asked, Answer>
    requires { D.begun text.old ≡ false }
    ensures says { (bytes : List ℕ) → D.left text.old ≡ Some bytes
        → SaysText (settings bytes) Telling.Summary result }
    ensures telling { IfOk result (λ a. a.telling ≡ Telling.Summary) }
    ensures answers { IfErr result IsOfText }
    ensures begun { IfOk result (λ a. D.begun text.new ≡ true) }
    ensures stops { IfErr result IsNotDone }
    ensures printable { IfErr result IsPrintable }
    ensures fits { IfOk result (λ a. Fits a.settings.plan) }
    ensures inputs { IfOk result (λ a. length a.settings.inputs ≡ a.settings.plan.antennas) }
    ensures at { IsAtOwn (D.begun text.new) (D.at text.new) config.now }
    ensures cause { SaysCause (D.faults text.old) (D.faults text.new) result }
{
    if text.begin(config).is_err() {
        return Err(Answer::SettingsFault);
    }
    let mut buf = [0; 65537];
    match fill(text, &mut buf) {
        Ok(len) => settings_of(alloc, &buf[..len]),
        Err(_) => Err(Answer::SettingsFault),
    }
}

// What the bytes of a text ask for.
fn settings_of(alloc: Global, bytes: &[u8]) -> Result<Asked, Answer>
    ensures says { SaysText (settings bytes.now) Telling.Summary result }
    ensures telling { IfOk result (λ a. a.telling ≡ Telling.Summary) }
    ensures answers { IfErr result IsOfBytes }
    ensures stops { IfErr result IsNotDone }
    ensures printable { IfErr result IsPrintable }
    ensures fits { IfOk result (λ a. Fits a.settings.plan) }
    ensures inputs { IfOk result (λ a. length a.settings.inputs ≡ a.settings.plan.antennas) }
{
    match read(alloc, bytes) {
        Ok(settings) => Ok(Asked {
            settings,
            telling: Telling::Summary,
        }),
        Err(SetRefusal::NoMemory) => Err(Answer::NoMemory),
        Err(refusal) => Err(Answer::Settings(refusal)),
    }
}
