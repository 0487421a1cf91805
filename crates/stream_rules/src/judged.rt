//! The answer on a whole heap.

/// What a whole heap is to its stream: the first that applies, as far as that can be told without
/// the cells. Whether an earlier heap was used `At` the place, its column tells.
#[derive(Clone, Copy, Debug, PartialEq, Eq)]
pub enum Judged {
    /// It is a stop heap.
    Stop,
    /// It is not readable.
    Undescribed,
    /// It says another antenna's number, which is this.
    Foreign(u64),
    /// Its timestamp is before the start.
    BeforeStart,
    /// Its timestamp is between two steps.
    OffGrid,
    /// It is further ahead than the plan's guard allows.
    Wild,
    /// Its accumulation, which is this one, is past the last.
    Beyond(u64),
    /// Its accumulation is below the floor, that is closed.
    Late,
    /// It is in this open accumulation, at this place of its timestamps.
    At(u64, u32),
}
