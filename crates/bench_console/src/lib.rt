// A list run, and a list judged, by the console's calls, exported to be timed against the second implementation
// (bench/lists).
#![tactic(auto)]

use model::{Console, Geometry, Reply, Row};

// A console of one pane over the whole screen, its store the first `len` bytes of the stores.
fn one_pane(width: u32, height: u32, depth: u32, len: u32) -> Console {
    let geometry = Geometry {
        width,
        height,
        depth,
    };
    let row = Row {
        left: 0,
        top: 0,
        width,
        height,
        start: 0,
        len,
    };
    let rows = [row; 8];
    let pane = console::fresh();
    let panes = [pane; 8];
    Console {
        geometry,
        count: 1,
        rows,
        panes,
    }
}

// Sets up a console of one pane, starts its list at address 0 and runs it: the commands done, or 0 where a
// call is refused.
#[unsafe(no_mangle)]
pub extern "C" fn run_list(
    screen: &mut [u8],
    stores: &mut [u8],
    width: u32,
    height: u32,
    depth: u32,
    len: u32,
    budget: u32,
) -> u32 {
    let first = console::set_up(screen, stores, one_pane(width, height, depth, len));
    let c = first.console;
    let second = console::start(screen, stores, c, 0, 0);
    let d = second.console;
    let third = console::run(screen, stores, d, 0, budget);
    match third.reply {
        Ok(Reply::Ran(ran)) => ran.commands,
        _ => 0,
    }
}

// Sets up a console of one pane and judges its list at address 0: the commands walked, or 0 where a call is
// refused or the list is not clean.
#[unsafe(no_mangle)]
pub extern "C" fn judge_list(
    screen: &[u8],
    stores: &[u8],
    width: u32,
    height: u32,
    depth: u32,
    len: u32,
) -> u32 {
    let first = console::set_up(screen, stores, one_pane(width, height, depth, len));
    let second = console::judge(screen, stores, first.console, 0, 0);
    match second.reply {
        Ok(Reply::Judged(Ok(walked))) => walked,
        _ => 0,
    }
}
