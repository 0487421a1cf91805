//! The plan of a run: its shapes, its grid of timestamps and its limits.

ghost use Rattle.std.specs.Prelude.{◌≡◌, ◌≢◌, ◌+◌, ◌-◌, ◌*◌, ◌^◌, ◌≤◌, ◌↔◌, IsTrue, MatchBool};
ghost use Rattle.corr_model.specs.Plans.{IsWithin};

/// What one run correlates. All fields are fixed before the first packet.
#[derive(Clone, Copy, Debug, PartialEq, Eq)]
pub struct Plan {
    /// Antennas, 1 to 64.
    pub antennas: u32,
    /// Channels, 1 to 4,096.
    pub channels: u32,
    /// Spectra per heap, 1 to 4,096.
    pub spectra: u32,
    /// Heaps, that is timestamps, per accumulation, 1 to 4,096.
    pub heaps: u32,
    /// Accumulations, 1 to 1,048,576.
    pub accumulations: u32,
    /// How many accumulations stay open, the newest included, 1 to 16.
    pub lag: u32,
    /// Openings for which a heap waits for its packets, 1 to 64.
    pub window: u32,
    /// Slots of the ring, 1 to 64.
    pub slots: u32,
    /// Workers, 0 to 64.
    pub workers: u32,
    /// Payload bytes of a sent packet, 64 to 8,192, a multiple of 8.
    pub packet: u32,
    /// The greatest size of a heap in bytes, 1 to 2,097,152.
    pub heap_limit: u32,
    /// Beams, 0 to 64.
    pub beams: u32,
    /// Clock ticks between timestamps, 1 to 2^40.
    pub step: u64,
    /// The first timestamp, 0 to 2^48 - 1.
    pub start: u64,
    /// How many accumulations a heap may be ahead, 0 to 2^48 - 1; 0 is no guard.
    pub leap: u64,
    /// How many byte strings of a stream count, 1 to 2^40.
    pub packet_limit: u64,
    /// Whether the voltage items are described from the start.
    pub preset: bool,
}

// Whether the value is in the range, ends included.
fn is_within(value: u64, least: u64, most: u64) -> bool
    ensures { IsTrue result ↔ IsWithin value least most }
{
    least <= value && value <= most
}

// So many times the bytes.
fn times(count: u32, bytes: u128) -> u128
    requires few { count ≤ 4096 }
    requires small { bytes ≤ 2 ^ 100 }
    ensures value { result ≡ count * bytes }
    ensures small { result ≤ 4096 * bytes }
{
    u128::from(count) * bytes
}

impl Plan {
    ghost use Rattle.corr_model.specs.Plans.{Fits, HasRanges, HasShapeRanges, HasLimitRanges, HasJointRules};
    ghost use Rattle.corr_model.specs.Plans.{baselines, sample_bytes, column_bytes, visibility_bytes, map_bytes, stream_bytes, result_bytes, reserved};

    /// Whether every field is in its range, beams included, the joint rules hold and the memory limit is kept.
    pub fn fits(&self) -> bool
        ensures { IsTrue result ↔ Fits self.now }
    {
        if !self.has_ranges() || self.beams > 64 {
            return false;
        }
        self.has_joint_rules() && self.reserved() <= 1 << 30
    }

    /// Whether every field that a setting gives is in its range: all but the number of beams.
    pub fn has_ranges(&self) -> bool
        ensures { IsTrue result ↔ HasRanges self.now }
    {
        self.has_shape_ranges() && self.has_limit_ranges()
    }

    /// Whether the two plans are the same.
    pub fn is(&self, other: &Plan) -> bool
        ensures { MatchBool result (self.now ≡ other.now) (self.now ≢ other.now) }
    {
        *self == *other
    }

    /// The bytes that a run of this plan reserves: window buffers with their maps, open columns,
    /// hands, ring, works and the outgoing result.
    pub fn reserved(&self) -> u128
        requires { HasRanges self.now }
        ensures { result ≡ reserved self.now }
    {
        let result = self.result_bytes();
        let streams = times(self.antennas, self.stream_bytes());
        let slots = times(self.slots, result);
        let works = times(self.workers.max(1), result);
        streams + slots + works + self.visibility_bytes()
    }

    fn has_shape_ranges(&self) -> bool
        ensures { IsTrue result ↔ HasShapeRanges self.now }
    {
        if !is_within(self.antennas.into(), 1, 64) {
            return false;
        }
        if !is_within(self.channels.into(), 1, 4096) {
            return false;
        }
        if !is_within(self.spectra.into(), 1, 4096) {
            return false;
        }
        if !is_within(self.heaps.into(), 1, 4096) {
            return false;
        }
        if !is_within(self.step, 1, 1 << 40) {
            return false;
        }
        if !is_within(self.start, 0, (1 << 48) - 1) {
            return false;
        }
        is_within(self.accumulations.into(), 1, 1_048_576)
    }

    fn has_limit_ranges(&self) -> bool
        ensures { IsTrue result ↔ HasLimitRanges self.now }
    {
        if !is_within(self.lag.into(), 1, 16) {
            return false;
        }
        if !is_within(self.leap, 0, (1 << 48) - 1) {
            return false;
        }
        if !is_within(self.window.into(), 1, 64) {
            return false;
        }
        if !is_within(self.slots.into(), 1, 64) {
            return false;
        }
        if !is_within(self.workers.into(), 0, 64) {
            return false;
        }
        if !is_within(self.packet.into(), 64, 8192) {
            return false;
        }
        if self.packet % 8 != 0 {
            return false;
        }
        if !is_within(self.heap_limit.into(), 1, 2_097_152) {
            return false;
        }
        is_within(self.packet_limit, 1, 1 << 40)
    }

    fn has_joint_rules(&self) -> bool
        requires { HasRanges self.now }
        ensures { IsTrue result ↔ HasJointRules self.now }
    {
        let samples = self.sample_bytes();
        if samples > 1_048_576 {
            return false;
        }
        if !self.ends_in_time() {
            return false;
        }
        samples <= u128::from(self.heap_limit)
    }

    fn ends_in_time(&self) -> bool
        requires { HasShapeRanges self.now }
        ensures { IsTrue result
            ↔ (self.now.start + self.now.accumulations * self.now.heaps * self.now.step ≤ 2 ^ 48 - 1) }
    {
        let timestamps = u128::from(self.accumulations) * u128::from(self.heaps);
        let ticks = timestamps * u128::from(self.step);
        u128::from(self.start) + ticks <= (1 << 48) - 1
    }

    fn baselines(&self) -> u128
        requires { HasShapeRanges self.now }
        ensures value { result ≡ baselines self.now }
        ensures few { result ≤ 2080 }
    {
        let antennas = u128::from(self.antennas);
        antennas * (antennas + 1) / 2
    }

    fn sample_bytes(&self) -> u128
        requires { HasShapeRanges self.now }
        ensures value { result ≡ sample_bytes self.now }
        ensures few { result ≤ 4 * 4096 * 4096 }
    {
        4 * u128::from(self.channels) * u128::from(self.spectra)
    }

    fn column_bytes(&self) -> u128
        requires { HasShapeRanges self.now }
        ensures value { result ≡ column_bytes self.now }
        ensures few { result ≤ 2 ^ 40 }
    {
        times(self.heaps, self.sample_bytes() + 1)
    }

    fn visibility_bytes(&self) -> u128
        requires { HasShapeRanges self.now }
        ensures value { result ≡ visibility_bytes self.now }
        ensures few { result ≤ 2 ^ 40 }
    {
        let baselines = self.baselines();
        64 * u128::from(self.channels) * baselines + 4 * baselines
    }

    fn map_bytes(&self) -> u128
        ensures { result ≡ map_bytes self.now }
    {
        (u128::from(self.heap_limit) + 7) / 8
    }

    fn stream_bytes(&self) -> u128
        requires { HasRanges self.now }
        ensures value { result ≡ stream_bytes self.now }
        ensures few { result ≤ 2 ^ 60 }
    {
        let buffers = times(self.window, u128::from(self.heap_limit) + self.map_bytes());
        buffers + times(self.lag + 2, self.column_bytes())
    }

    fn result_bytes(&self) -> u128
        requires { HasRanges self.now }
        ensures value { result ≡ result_bytes self.now }
        ensures few { result ≤ 2 ^ 60 }
    {
        times(self.antennas, self.column_bytes()) + self.visibility_bytes()
    }
}
