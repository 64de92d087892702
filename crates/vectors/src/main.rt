// Runs the scripts under data/ and holds what each prints to what it must print. The arguments are the names
// of files in pairs: a script, and its replies. Nothing here says what is read or written; what a script's
// replies are is the contract of script::answer.
#![tactic(auto)]

ghost use Rattle.std.specs.Prelude.{◌≡◌, ◌+◌, ◌<◌, ◌≤◌, ◌^◌, length, take, IfOk, IfSome};

use script_lines::Language;
use std::env::FillError;
use std::rt::{Env, Files};
use std::{fmt, fs, io, str};

// Room for any path.
const MOST_NAME: usize = 4096;

// Room for a script, or for what one prints.
const MOST_FILE: usize = 65536;

// How a script went: a file is missing, the replies differ, there is no script and there are no replies, or
// they are as expected.
#[derive(Clone, Copy)]
enum Comparison {
    Missing,
    Differs,
    Empty,
    Expected,
}

impl fmt::Display for Comparison {
    fn fmt<W: fmt::Write>(&self, f: &mut fmt::Formatter<W>) -> fmt::Result {
        f.write_str(match self {
            Comparison::Missing => "missing",
            Comparison::Differs => "differs",
            Comparison::Empty => "empty, as expected",
            Comparison::Expected => "as expected",
        })
    }
}

// Puts argument k at the start of a buffer, and answers how many bytes it has: none where it is absent, or
// longer than the buffer.
fn argument<R: Env>(rt: &R, k: usize, buffer: &mut [u8]) -> usize
    ensures { result ≤ length buffer.new }
{
    rt.arg(k, buffer).unwrap_or(0)
}

// Puts the file that argument k names at the start of a buffer, and answers how many bytes it has: nothing
// where there is no such file.
fn read_file<R: Env + Files>(rt: &R, k: usize, buffer: &mut [u8]) -> io::Result<Option<usize>>
    ensures { IfOk result (λ file. IfSome file (λ n. (n ≤ length buffer.new) × (n ≡ length (take n buffer.new)))) }
{
    let mut name = [0u8; MOST_NAME];
    let length = argument(rt, k, &mut name);
    let Ok(path) = str::from_utf8(&name[..length]) else {
        return Ok(None);
    };
    match fs::open(rt, path) {
        Ok(mut file) => Ok(Some(script_program::read_full(&mut file, buffer)?)),
        Err(_) => Ok(None),
    }
}

// Whether the script that argument k names prints what the file after it has.
fn comparison_of<R: Env + Files>(rt: &R, k: usize) -> io::Result<Comparison>
    requires { k + 1 < 2 ^ 64 }
{
    let mut script = [0u8; MOST_FILE];
    let read = read_file(rt, k, &mut script)?;
    let mut expected = [0u8; MOST_FILE];
    let due = read_file(rt, k + 1, &mut expected)?;
    let (Some(n), Some(m)) = (read, due) else {
        return Ok(Comparison::Missing);
    };
    let mut replies = script::room();
    let written = script::answer(Language::Panes, &script[..n], &mut replies);
    if replies[..written] != expected[..m] {
        return Ok(Comparison::Differs);
    }
    if n + m == 0 {
        return Ok(Comparison::Empty);
    }
    Ok(Comparison::Expected)
}

// Runs one script, and writes its name and how it went.
fn compare<R: Env + Files + Print>(rt: &R, k: usize) -> io::Result<()>
    requires { k + 1 < 2 ^ 64 }
{
    let mut name = [0u8; MOST_NAME];
    let length = argument(rt, k, &mut name);
    rt.write_all(&name[..length])?;
    let found = comparison_of(rt, k)?;
    println!(rt; ": {found}")
}

// How many arguments there are, the program's own name among them.
fn argument_count<R: Env>(rt: &R) -> usize {
    let mut name = [0u8; MOST_NAME];
    for k in 0..usize::MAX {
        if let Err(FillError::NotPresent) = rt.arg(k, &mut name) {
            return k;
        }
    }
    usize::MAX
}

// Of so many arguments, the program's own name among them, the last is a script without its replies if their
// number is even.
fn compare_last<R: Print>(rt: &R, count: usize) -> io::Result<()> {
    if count % 2 == 0 {
        println!(rt; "a script without its replies")?;
    }
    Ok(())
}

// Runs the scripts that the arguments name, two arguments each; the first argument is the program's own name.
fn main(rt: HostRuntime) -> io::Result<()> {
    let count = argument_count(&rt);
    for done in 0..count / 2 {
        compare(&rt, 2 * done + 1)?;
    }
    compare_last(&rt, count)
}
