// The calls on the bytes of a pane's store, each with its whole contract; crate `console` has them under one
// name with the others.
#![tactic(auto)]

pub mod put; // put.rt: bytes written into a store
pub mod peek; // peek.rt: one byte of a store
