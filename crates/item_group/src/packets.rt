//! Heaps of one packet each, written by hand: one channel, one spectrum.

// Timestamp 0, antenna 0 and four samples.
pub(crate) const FIRST: [u8; 68] = [
    0x53, 4, 2, 6, 0, 0, 0, 7, // header
    0x80, 1, 0, 0, 0, 0, 0, 1, // counter 1
    0x80, 2, 0, 0, 0, 0, 0, 4, // size 4
    0x80, 3, 0, 0, 0, 0, 0, 0, // offset 0
    0x80, 4, 0, 0, 0, 0, 0, 4, // length 4
    0x96, 0, 0, 0, 0, 0, 0, 0, // timestamp 0
    0xc1, 1, 0, 0, 0, 0, 0, 0, // antenna 0
    0x43, 0, 0, 0, 0, 0, 0, 0, // voltages at 0
    1, 2, 3, 4, // samples
];

// Timestamp 1, antenna 0 and four other samples.
pub(crate) const SECOND: [u8; 68] = [
    0x53, 4, 2, 6, 0, 0, 0, 7, // header
    0x80, 1, 0, 0, 0, 0, 0, 3, // counter 3
    0x80, 2, 0, 0, 0, 0, 0, 4, // size 4
    0x80, 3, 0, 0, 0, 0, 0, 0, // offset 0
    0x80, 4, 0, 0, 0, 0, 0, 4, // length 4
    0x96, 0, 0, 0, 0, 0, 0, 1, // timestamp 1
    0xc1, 1, 0, 0, 0, 0, 0, 0, // antenna 0
    0x43, 0, 0, 0, 0, 0, 0, 0, // voltages at 0
    5, 6, 7, 8, // samples
];

// Descriptors of timestamp, antenna and voltages.
pub(crate) const DESCRIBED: [u8; 277] = [
    0x53, 4, 2, 6, 0, 0, 0, 7, // header
    0x80, 1, 0, 0, 0, 0, 0, 2, // counter 2
    0x80, 2, 0, 0, 0, 0, 0, 0xd5, // size 213
    0x80, 3, 0, 0, 0, 0, 0, 0, // offset 0
    0x80, 4, 0, 0, 0, 0, 0, 0xd5, // length 213
    0, 5, 0, 0, 0, 0, 0, 0, // descriptor at 0
    0, 5, 0, 0, 0, 0, 0, 0x3b, // descriptor at 59
    0, 5, 0, 0, 0, 0, 0, 0x76, // descriptor at 118
    0x53, 4, 2, 6, 0, 0, 0, 6, // header
    0x80, 1, 0, 0, 0, 0, 0, 1, // counter 1
    0x80, 2, 0, 0, 0, 0, 0, 3, // size 3
    0x80, 3, 0, 0, 0, 0, 0, 0, // offset 0
    0x80, 4, 0, 0, 0, 0, 0, 3, // length 3
    0x80, 0x14, 0, 0, 0, 0, 0x16, 0, // timestamp
    0, 0x13, 0, 0, 0, 0, 0, 0, // types at 0
    0x75, 0, 0x30, // u48
    0x53, 4, 2, 6, 0, 0, 0, 6, // header
    0x80, 1, 0, 0, 0, 0, 0, 1, // counter 1
    0x80, 2, 0, 0, 0, 0, 0, 3, // size 3
    0x80, 3, 0, 0, 0, 0, 0, 0, // offset 0
    0x80, 4, 0, 0, 0, 0, 0, 3, // length 3
    0x80, 0x14, 0, 0, 0, 0, 0x41, 1, // antenna
    0, 0x13, 0, 0, 0, 0, 0, 0, // types at 0
    0x75, 0, 0x30, // u48
    0x53, 4, 2, 6, 0, 0, 0, 7, // header
    0x80, 1, 0, 0, 0, 0, 0, 1, // counter 1
    0x80, 2, 0, 0, 0, 0, 0, 0x1f, // size 31
    0x80, 3, 0, 0, 0, 0, 0, 0, // offset 0
    0x80, 4, 0, 0, 0, 0, 0, 0x1f, // length 31
    0x80, 0x14, 0, 0, 0, 0, 0x43, 0, // voltages
    0, 0x13, 0, 0, 0, 0, 0, 0, // types at 0
    0, 0x12, 0, 0, 0, 0, 0, 3, // shape at 3
    0x69, 0, 8, // i8
    0, 0, 0, 0, 0, 0, 1, // 1 channel
    0, 0, 0, 0, 0, 0, 1, // 1 spectrum
    0, 0, 0, 0, 0, 0, 2, // 2 polarisations
    0, 0, 0, 0, 0, 0, 2, // 2 parts
];

// A descriptor of the voltages in numpy's form alone: it has no types.
pub(crate) const UNREADABLE: [u8; 115] = [
    0x53, 4, 2, 6, 0, 0, 0, 5, // header
    0x80, 1, 0, 0, 0, 0, 0, 1, // counter 1
    0x80, 2, 0, 0, 0, 0, 0, 0x43, // size 67
    0x80, 3, 0, 0, 0, 0, 0, 0, // offset 0
    0x80, 4, 0, 0, 0, 0, 0, 0x43, // length 67
    0, 5, 0, 0, 0, 0, 0, 0, // descriptor at 0
    0x53, 4, 2, 6, 0, 0, 0, 7, // header
    0x80, 1, 0, 0, 0, 0, 0, 1, // counter 1
    0x80, 2, 0, 0, 0, 0, 0, 3, // size 3
    0x80, 3, 0, 0, 0, 0, 0, 0, // offset 0
    0x80, 4, 0, 0, 0, 0, 0, 3, // length 3
    0x80, 0x14, 0, 0, 0, 0, 0x43, 0, // voltages
    0, 0x10, 0, 0, 0, 0, 0, 0, // name at 0
    0, 0x15, 0, 0, 0, 0, 0, 1, // numpy form at 1
    0x76, 0x7b, 0x7d, // v and {}
];

// A descriptor of the item with id 1.
pub(crate) const ONE_ITEM: [u8; 107] = [
    0x53, 4, 2, 6, 0, 0, 0, 5, // header
    0x80, 1, 0, 0, 0, 0, 0, 1, // counter 1
    0x80, 2, 0, 0, 0, 0, 0, 0x3b, // size 59
    0x80, 3, 0, 0, 0, 0, 0, 0, // offset 0
    0x80, 4, 0, 0, 0, 0, 0, 0x3b, // length 59
    0, 5, 0, 0, 0, 0, 0, 0, // descriptor at 0
    0x53, 4, 2, 6, 0, 0, 0, 6, // header
    0x80, 1, 0, 0, 0, 0, 0, 1, // counter 1
    0x80, 2, 0, 0, 0, 0, 0, 3, // size 3
    0x80, 3, 0, 0, 0, 0, 0, 0, // offset 0
    0x80, 4, 0, 0, 0, 0, 0, 3, // length 3
    0x80, 0x14, 0, 0, 0, 0, 0, 1, // id 1
    0, 0x13, 0, 0, 0, 0, 0, 0, // types at 0
    0x75, 0, 0x30, // u48
];

// The place of the last byte of that id.
pub(crate) const ID_PLACE: usize = 95;

// The end of a stream.
pub(crate) const STOP: [u8; 48] = [
    0x53, 4, 2, 6, 0, 0, 0, 5, // header
    0x80, 1, 0, 0, 0, 0, 0, 4, // counter 4
    0x80, 2, 0, 0, 0, 0, 0, 0, // size 0
    0x80, 3, 0, 0, 0, 0, 0, 0, // offset 0
    0x80, 4, 0, 0, 0, 0, 0, 0, // length 0
    0x80, 6, 0, 0, 0, 0, 0, 2, // stream control 2
];
