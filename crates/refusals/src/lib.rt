// The refusals: whatever record and buffers are lent, which refusal applies, if any.
#![tactic(auto)]

pub mod table; // table.rt: set-up's checks of geometry, table and buffers, refusals 6 to 11
pub mod pane; // pane.rt: the check of a pane record, refusal 12
pub mod call; // call.rt: the first refusal that applies to a call on a pane
