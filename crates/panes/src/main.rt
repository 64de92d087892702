// The script program of paper 01.
#![tactic(auto)]

use script_lines::Language;
use std::io;

fn main(rt: HostRuntime) -> io::Result<()> {
    script_program::converse(&rt, Language::Panes)
}
