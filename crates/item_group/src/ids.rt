//! The ids of the items that are read.

pub(crate) const DESCRIPTOR: u32 = 5;

pub(crate) const STREAM_CONTROL: u32 = 6;

pub(crate) const TIMESTAMP: u32 = 0x1600;

pub(crate) const ANTENNA: u32 = 0x4101;

pub(crate) const VOLTAGES: u32 = 0x4300;
