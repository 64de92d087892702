// Rows of pixels copied by whole words: any operation and mask, any phase, between two buffers or within one.
#![tactic(auto)]

pub mod carries; // carries.rt: plain bytes moved
pub mod chunks; // chunks.rt: eight words at once
pub mod copies; // copies.rt: a row copied, from one buffer to another or within one
pub mod fetches; // fetches.rt: sixteen bits of a row from any bit on
pub mod operators; // operators.rt: what an operation under a mask makes of a source word and an old one
pub mod rows; // rows.rt: one row's copy in numbers

pub use copies::{copy_row, slide_row};
pub use operators::{Operator, operator_of};
pub use rows::RowCopy;
