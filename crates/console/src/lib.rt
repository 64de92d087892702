// The console: set-up and the calls on a pane. Each takes the console record by value and lends both buffers,
// whatever they hold, and answers the record after the call with a reply. Reply, record and both buffers are
// what paper 01 says of them, refused or not: `exec` and `set_up` of model's specs/Calls.antt.
#![tactic(auto)]

mod face; // face.rt: every call called once by the name that it has here

// What a caller names: the calls, what they answer, and a fresh pane record.
pub use call_common::{Answered, fresh};
pub use call_judge::judge;
pub use call_pixel::pixel;
pub use call_record::clear::clear;
pub use call_record::look::look;
pub use call_record::start::start;
pub use call_record::switch::switch;
pub use call_run::run;
pub use call_setup::set_up;
pub use call_store::peek::peek;
pub use call_store::put::put;
