// The pixel leaf: the sixteen operations, where a pixel lies, one pixel read, one pixel blended.
#![tactic(auto)]

pub mod operations; // operations.rt: the table of sixteen operations, and bits of bytes combined
pub mod place; // place.rt: the byte and the bit at which a pixel lies
pub mod pixels; // pixels.rt: one pixel read, one pixel blended

pub use operations::{Truth, truth_of};
pub use pixels::{blend, pixel_at};
pub use place::{PixelPlace, place_of};
