// A first picture, for the panel's programmer: set-up, a list put, started and run, its reply matched.
// README.md shows the part between the marks; tests/run-documents compares the two.
#![tactic(auto)]

use model::{Console, Geometry, Refusal, Reply, Row};
use std::io;

// README: begin
// A screen of 16 by 8 pixels of one bit, with one pane over all of it and a store of 64 bytes.
fn one_pane() -> Console {
    let geometry = Geometry {
        width: 16,
        height: 8,
        depth: 1,
    };
    let row = Row {
        left: 0,
        top: 0,
        width: 16,
        height: 8,
        start: 0,
        len: 64,
    };
    Console {
        geometry,
        count: 1,
        rows: [row; 8],
        panes: [console::fresh(); 8],
    }
}

fn draw(screen: &mut [u8], stores: &mut [u8]) -> Result<Reply, Refusal> {
    // DEF_BITMAP the pane; DEF_COLORS foreground 1, background 0; LINE 5 to the right, 2 down; end word
    let list =
        b"\x00\x1a\x00\x00\x20\x00\x0f\x00\x07\x00\x01\x00\x00\x3d\xff\xff\x00\x00\x00\x54\x05\x00\x02\x00\x01\x00";
    let ready = console::set_up(screen, stores, one_pane());
    let put = console::put(screen, stores, ready.console, 0, 0, list);
    let started = console::start(screen, stores, put.console, 0, 0);
    let ran = console::run(screen, stores, started.console, 0, 100);
    ran.reply
}

fn tell(rt: &impl Print, reply: Result<Reply, Refusal>) -> io::Result<()> {
    match reply {
        Ok(Reply::Ran(ran)) => println!(rt; "commands done: {}", ran.commands),
        Ok(_) => println!(rt; "another reply: 0"),
        Err(refusal) => println!(rt; "refused: {}", u8::from(refusal)),
    }
}
// README: end

fn main(rt: HostRuntime) -> io::Result<()> {
    let mut screen = [0u8; 16];
    let mut stores = [0u8; 64];
    tell(&rt, draw(&mut screen, &mut stores))
}
