//! SPEAD packets of flavour 64-48: what a byte string says, read in place, and a packet written.
#![tactic(auto)]

mod decoding;
mod encoding;
mod layout;
mod numbers;
mod packet;
mod packet_head;
mod pointers;
mod special;
mod words;

pub use corr_model::{Pointer, Refusal};
pub use decoding::decode;
pub use encoding::encode_into;
pub use numbers::short_number;
pub use packet::Packet;
pub use packet_head::PacketHead;
pub use pointers::Pointers;

#[cfg(test)]
mod tests;
