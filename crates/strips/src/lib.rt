// Rows of pixels many at a time: what a pen makes of a row under a pattern, worked out once a command as strips of
// sixteen bytes, and a stretch of a row drawn by them.
#![tactic(auto)]

pub mod fills; // fills.rt: bytes of a row mixed by strips
pub mod inks; // inks.rt: what a pen makes of a word
pub mod patterns; // patterns.rt: patterns rotated, reversed, counted and spread over pixels
pub mod stretches; // stretches.rt: a stretch of a row drawn by strips
pub mod weaves; // weaves.rt: the sixteen strips of a pattern

pub use patterns::{counted, reversed};
pub use stretches::stretch;
pub use weaves::woven;
