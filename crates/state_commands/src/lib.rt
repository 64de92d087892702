// The record that each command leaves which draws nothing, one function for each command. Whether a command
// faults is looked for before.
#![tactic(auto)]

pub mod control; // control.rt: where a list goes on, stops or faults
pub mod position; // position.rt: where the position goes
pub mod settings; // settings.rt: what later commands draw with
