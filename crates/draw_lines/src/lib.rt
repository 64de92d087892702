// POINT, LINE, and the lines of an array: each as the dots that the paper names, drawn in order.
#![tactic(auto)]

pub mod segments; // segments.rt: one segment of a line, sloped or level, with the count carried on
pub mod commands; // commands.rt: POINT and LINE

pub use commands::{line, point};
pub use segments::{
    Segment, draw_segment, is_span, level_line, lone_line, pixels_of, trace_of, whole_line,
};
