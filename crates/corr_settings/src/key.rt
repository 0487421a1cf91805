//! The table of the settings: each key, what its value must be, and whether it must be given.

ghost use Rattle.std.specs.Prelude.{◌≡◌};
ghost use Rattle.corr_settings.specs.Table.{key_name};

/// A setting.
#[derive(Clone, Copy, Debug, PartialEq, Eq)]
pub enum Key {
    /// How many antennas.
    Antennas,
    /// How many channels.
    Channels,
    /// How many spectra a heap has.
    Spectra,
    /// How many heaps, that is timestamps, an accumulation has.
    Heaps,
    /// Clock ticks between timestamps.
    Step,
    /// The first timestamp; 0 if not given.
    Start,
    /// How many accumulations.
    Accumulations,
    /// How many accumulations stay open, the newest included; 2 if not given.
    Lag,
    /// How many accumulations a heap may be ahead; if not given 0, which is no guard.
    Leap,
    /// Openings for which a heap waits for its packets; 8 if not given.
    Window,
    /// Slots of the ring; 4 if not given.
    Slots,
    /// Workers; 1 if not given.
    Workers,
    /// Payload bytes of a sent packet; 1,024 if not given.
    Packet,
    /// The greatest size of a heap in bytes; 4,096 more than its samples if not given.
    HeapLimit,
    /// How many byte strings of a stream count; 2^40 if not given.
    PacketLimit,
    /// Whether the voltage items are described from the start; false if not given.
    Preset,
    /// The place of each antenna's stream.
    Inputs,
    /// The place of the output.
    Output,
}

/// What the value of a setting must be.
#[derive(Clone, Copy, Debug, PartialEq, Eq)]
pub enum Rule {
    /// An integer from the first number to the second.
    Integer(u64, u64),
    /// Such an integer that is a multiple of 8.
    Eights(u64, u64),
    /// A boolean.
    Boolean,
    /// An array of strings, each of 1 to 4,096 bytes.
    Strings,
    /// A string of 1 to 4,096 bytes.
    OneString,
}

/// Whether a setting must be given.
#[derive(Clone, Copy, Debug, PartialEq, Eq)]
pub enum Need {
    /// It must be given.
    Required,
    /// It has a default.
    Optional,
}

/// A setting, what its value must be, and whether it must be given.
pub type Row = (Key, Rule, Need);

/// The settings, in the order in which they are tested. A setting more is a key with its name, a
/// row here and in the definition's table, and the field of the plan that it gives.
pub const TABLE: [Row; 18] = [
    (Key::Antennas, Rule::Integer(1, 64), Need::Required),
    (Key::Channels, Rule::Integer(1, 4096), Need::Required),
    (Key::Spectra, Rule::Integer(1, 4096), Need::Required),
    (Key::Heaps, Rule::Integer(1, 4096), Need::Required),
    (Key::Step, Rule::Integer(1, 1 << 40), Need::Required),
    (Key::Start, Rule::Integer(0, (1 << 48) - 1), Need::Optional),
    (
        Key::Accumulations,
        Rule::Integer(1, 1 << 20),
        Need::Required,
    ),
    (Key::Lag, Rule::Integer(1, 16), Need::Optional),
    (Key::Leap, Rule::Integer(0, (1 << 48) - 1), Need::Optional),
    (Key::Window, Rule::Integer(1, 64), Need::Optional),
    (Key::Slots, Rule::Integer(1, 64), Need::Optional),
    (Key::Workers, Rule::Integer(0, 64), Need::Optional),
    (Key::Packet, Rule::Eights(64, 8192), Need::Optional),
    (Key::HeapLimit, Rule::Integer(1, 2_097_152), Need::Optional),
    (Key::PacketLimit, Rule::Integer(1, 1 << 40), Need::Optional),
    (Key::Preset, Rule::Boolean, Need::Optional),
    (Key::Inputs, Rule::Strings, Need::Required),
    (Key::Output, Rule::OneString, Need::Required),
];

impl Key {
    /// The key as it is written.
    pub fn name(self) -> &'static str
        ensures { result.now ≡ key_name self }
    {
        match self {
            Key::Antennas => "antennas",
            Key::Channels => "channels",
            Key::Spectra => "spectra",
            Key::Heaps => "heaps",
            Key::Step => "step",
            Key::Start => "start",
            Key::Accumulations => "accumulations",
            Key::Lag => "lag",
            Key::Leap => "leap",
            Key::Window => "window",
            Key::Slots => "slots",
            Key::Workers => "workers",
            Key::Packet => "packet",
            Key::HeapLimit => "heap_limit",
            Key::PacketLimit => "packet_limit",
            Key::Preset => "preset",
            Key::Inputs => "inputs",
            Key::Output => "output",
        }
    }
}
