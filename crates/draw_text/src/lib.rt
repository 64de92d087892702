// CHAR's characters drawn: the cells of each, at the position, and a whole string that the check has passed.
#![tactic(auto)]

pub mod path; // path.rt: where the position goes after a character
pub mod cells; // cells.rt: the cells of a character as a grid of rows along x, at its rotation
pub mod rows; // rows.rt: a grid drawn, each row at once
pub mod text; // text.rt: a string, character by character

pub use text::{Characters, draw_string};
