// The calls on a pane's record alone, each with its whole contract; crate `console` has them under one name
// with the others.
#![tactic(auto)]

pub mod start; // start.rt: a pane set to run from an address
pub mod look; // look.rt: status, fault, pointer, position and flags of a pane
pub mod clear; // clear.rt: a pane record made fresh
pub mod switch; // switch.rt: a pane's trap switch set
