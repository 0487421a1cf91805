//! Item descriptors and typed integers, read and written.
#![tactic(auto)]

mod descriptor;
mod draft;
mod entries;
mod items;
mod laws;
mod name;
mod numbers;
mod reading;
mod shape;
mod types;
mod writing;

pub use corr_model::{DescRefusal, Dim, ItemType};
pub use descriptor::Descriptor;
pub use laws::written_descriptor_is_read_back;
pub use name::Name;
pub use numbers::{int_at, put_int};
pub use reading::read_descriptor;
pub use shape::Shape;
pub use types::Types;
pub use writing::write_descriptor;

#[cfg(test)]
mod tests;
