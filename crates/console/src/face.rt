// The face pinned: set-up and every call, each called once by the name that this crate hands it on under. The
// contract is that of the very call, so no line of the face can name another.
ghost use Rattle.std.specs.Prelude.{◌≡◌};
ghost use Rattle.model.specs.Calls.{exec, set_up, on};
ghost use Rattle.model.specs.Calls as calls;
ghost use Rattle.call_common.specs.Answers.{state, answer};

use call_common::Answered;
use model::Console;

fn set_up(screen: &[u8], stores: &[u8], console: Console) -> Answered
    ensures { answer result screen.now stores.now
        ≡ set_up (state console screen.now stores.now) }
{
    crate::set_up(screen, stores, console)
}

fn put(
    screen: &[u8],
    stores: &mut [u8],
    console: Console,
    number: u32,
    address: u32,
    bytes: &[u8],
) -> Answered
    ensures { answer result screen.now stores.new
        ≡ exec (state console screen.now stores.old)
        (on number (calls.put address bytes.now)) }
{
    crate::put(screen, stores, console, number, address, bytes)
}

fn start(screen: &[u8], stores: &[u8], console: Console, number: u32, address: u32) -> Answered
    ensures { answer result screen.now stores.now
        ≡ exec (state console screen.now stores.now) (on number (calls.start address)) }
{
    crate::start(screen, stores, console, number, address)
}

fn run(screen: &mut [u8], stores: &mut [u8], console: Console, number: u32, budget: u32) -> Answered
    ensures { answer result screen.new stores.new
        ≡ exec (state console screen.old stores.old) (on number (calls.run budget)) }
{
    crate::run(screen, stores, console, number, budget)
}

fn look(screen: &[u8], stores: &[u8], console: Console, number: u32) -> Answered
    ensures { answer result screen.now stores.now
        ≡ exec (state console screen.now stores.now) (on number calls.look) }
{
    crate::look(screen, stores, console, number)
}

fn pixel(screen: &[u8], stores: &[u8], console: Console, number: u32, x: u32, y: u32) -> Answered
    ensures { answer result screen.now stores.now
        ≡ exec (state console screen.now stores.now) (on number (calls.pixel x y)) }
{
    crate::pixel(screen, stores, console, number, x, y)
}

fn peek(screen: &[u8], stores: &[u8], console: Console, number: u32, address: u32) -> Answered
    ensures { answer result screen.now stores.now
        ≡ exec (state console screen.now stores.now) (on number (calls.peek address)) }
{
    crate::peek(screen, stores, console, number, address)
}

fn clear(screen: &[u8], stores: &[u8], console: Console, number: u32) -> Answered
    ensures { answer result screen.now stores.now
        ≡ exec (state console screen.now stores.now) (on number calls.clear) }
{
    crate::clear(screen, stores, console, number)
}

fn judge(screen: &[u8], stores: &[u8], console: Console, number: u32, address: u32) -> Answered
    ensures { answer result screen.now stores.now
        ≡ exec (state console screen.now stores.now) (on number (calls.judge address)) }
{
    crate::judge(screen, stores, console, number, address)
}

fn switch(screen: &[u8], stores: &[u8], console: Console, number: u32, value: u32) -> Answered
    ensures { answer result screen.now stores.now
        ≡ exec (state console screen.now stores.now) (on number (calls.switch value)) }
{
    crate::switch(screen, stores, console, number, value)
}
