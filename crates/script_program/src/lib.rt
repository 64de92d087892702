// A script program: a script read to its end, its replies written. The contract of answer_all says which
// bytes, for a reader and a writer whose bytes are known; of the system's input and output nothing can be said.
#![tactic(auto)]

ghost use Rattle.std.specs.Prelude.{◌<◌, length, take, IfOk, OnOk, IfSome};
ghost use Rattle.std.specs.Io.{ReadsAtMost};
ghost use Rattle.std.specs.Io.KnownBytes.{Appends, Consumes, IsAtEnd};
ghost use Rattle.script.specs.Scripts.{answered};

use script::MOST_SCRIPT;
use script_lines::Language;
use std::io;
use std::io::{Read, Write};

// Reads a script in a language from standard input and writes its replies to standard output.
pub fn converse<R: Input + Print>(rt: &R, language: Language) -> io::Result<()> {
    answer_all(language, &mut rt.reader(), &mut io::writer(rt))
}

// Reads a script in a language and writes its replies. There is room for the longest script and one byte
// more, by which a longer one is known.
pub fn answer_all<R: Read, W: Write>(
    language: Language,
    reader: &mut R,
    writer: &mut W,
) -> io::Result<()>
    ensures { OnOk result (IfSome (R.remaining reader.old)
        (λ script. Appends (W.contents writer.old) (W.contents writer.new) (answered language script))) }
{
    let mut input = [0u8; MOST_SCRIPT + 1];
    let read = read_full(reader, &mut input)?;
    let mut replies = script::room();
    let written = script::answer(language, &input[..read], &mut replies);
    writer.write_all(&replies[..written])
}

// Reads until a buffer is full or the input ends, and answers how many bytes stand at its start. No method of `Read`
// does so: `read_exact` fails where the input ends before, and what `io::copy` counts is bounded only where the
// reader's bytes are known.
pub fn read_full<R: Read>(reader: &mut R, buffer: &mut [u8]) -> io::Result<usize>
    ensures bound { ReadsAtMost result buffer.new }
    ensures bytes { IfOk result (λ n. Consumes (R.remaining reader.old) (R.remaining reader.new) (take n buffer.new)) }
    ensures end { IfOk result (λ n. n < length buffer.new → IsAtEnd (R.remaining reader.new)) }
{
    let mut done = 0;
    while done < buffer.len() {
        let count = reader.read(&mut buffer[done..])?;
        if count == 0 {
            break;
        }
        done += count;
    }
    Ok(done)
}
