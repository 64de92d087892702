// CHAR's string in the store: where its characters' descriptors stand, and whether all of it can be read.
#![tactic(auto)]

// A character's descriptor: where it stands, and what its first word says.
pub mod descriptor;

// Fault 25: whether the string, its offset words and all its descriptors can be read.
pub mod check;

pub use check::char_bad;
pub use descriptor::{descriptor_of, height_of, width_of};
