//! The commands of the program, and why words are none.

ghost use Rattle.std.specs.Prelude.{◌≡◌};

use corr_site::{NoMemory, Place, Places, Text};

/// The numbers and places of `plain`. Each antenna has an input, in order.
#[derive(Debug, Drop)]
pub struct PlainWords {
    /// Antennas.
    pub antennas: u64,
    /// Channels.
    pub channels: u64,
    /// Spectra of a heap.
    pub spectra: u64,
    /// Heaps of an accumulation.
    pub heaps: u64,
    /// Accumulations.
    pub accumulations: u64,
    /// The place of each antenna's stream.
    pub inputs: Places,
    /// The place of the output.
    pub output: Place,
}

/// What a command line asks for. The flag says that all runs on one thread.
#[derive(Debug, Drop)]
pub enum Command {
    /// Correlates the inputs of its words.
    Plain(PlainWords),
    /// Correlates the inputs of the settings in this file; with the flag.
    Correlate(Text, bool),
    /// Correlates simulated inputs: the file of the settings, the seed, the flag.
    Trial(Text, u64, bool),
    /// Sends the simulated input of one antenna: the file of the settings, the seed, the antenna
    /// and the place to send it to.
    Simulate(Text, u64, u64, Place),
    /// Sends what it takes: from where, to where, and at most so many byte strings, 1 to 2^40.
    Relay(Place, Place, u64),
    /// Prints the packets that it takes from there.
    Inspect(Place),
    /// Prints the visibilities that it takes from there. A heap may have so many bytes, 1 to 2^30.
    Decode(Place, u32),
}

/// Why words are no command.
#[derive(Clone, Copy, Debug, PartialEq, Eq)]
pub enum WordRefusal {
    /// They have no form: a command that is none, a word that is empty, too long or begins with a
    /// minus, a number that is none or out of its limits, a word too few or too many.
    Usage,
    /// There was no memory.
    NoMemory,
}

impl From<NoMemory> for WordRefusal {
    ghost use Rattle.corr_words.specs.declared.command.WordRefusal.TheVariants.{NoMemory};

    ghost from_gives = { λ _ e. e ≡ NoMemory };

    fn from(_error: NoMemory) -> WordRefusal {
        WordRefusal::NoMemory
    }
}
