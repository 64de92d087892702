// The script program with a letter for every call: the language of `panes`, and besides k for peek, c for
// clear, j for judge and t for switch.
#![tactic(auto)]

use script_lines::Language;
use std::io;

fn main(rt: HostRuntime) -> io::Result<()> {
    script_program::converse(&rt, Language::Calls)
}
