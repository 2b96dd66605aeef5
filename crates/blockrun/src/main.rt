// The printing program: reads standard input, and writes what is printed of it, at once. A stream that fails is told of on standard error.
#![tactic(auto)]

ghost use Rattle.std.specs.Prelude.{◌≤◌, length, IfOk};

use arrayvec::ArrayString;
use printing::{Input, Text};
use std::fmt::{Display, Formatter, Write};
use std::io::Read;
use std::{fmt, io};

// A stream that failed, and why it did.
#[derive(Drop)]
enum Failure {
    Input(io::Error),
    Output(io::Error),
}

// The stream, and the error's words.
impl Display for Failure {
    fn fmt<W: Write>(&self, f: &mut Formatter<W>) -> fmt::Result {
        let (stream, error) = match self {
            Failure::Input(error) => ("standard input", error),
            Failure::Output(error) => ("standard output", error),
        };
        let mut text = ArrayString::<256>::new();
        let _ = write!(text, "{error}");
        let words = words(text.as_str());
        write!(f, "{stream}: {words}")
    }
}

// An error's text without the number of the system's that stands behind its words.
fn words(text: &str) -> &str {
    text.split_once(" (os error ")
        .map_or(text, |(words, _)| words)
}

// Reads until the input ends, the buffer is full or a read fails: how many bytes it holds then. The loop counts them, since `read_exact` does not
// say how many it read, and `read_to_end` needs a heap.
fn read_all(stream: &mut impl Read, input: &mut [u8]) -> io::Result<usize>
    ensures { IfOk result (λ bytes. bytes ≤ length input.old) }
{
    let mut done = 0;
    while done < input.len() {
        let bytes = stream.read(&mut input[done..])?;
        if bytes == 0 {
            break;
        }
        done += bytes;
    }
    Ok(done)
}

// Says how much of the text is written.
fn say_part(rt: &impl Eprint, done: usize, size: usize) {
    let _ = eprintln!(rt; "blockrun: standard output: {done} of {size} bytes written");
}

// Writes the text, at once where the system takes it whole, until a write fails or takes nothing: how many bytes are written then. That is told
// after each write that took only a part: after the last one, that it is all. So the loop counts them, which `Print::write_all` does not.
fn write_all(rt: &(impl Print + Eprint), text: &[u8]) -> io::Result<usize>
    ensures { IfOk result (λ bytes. bytes ≤ length text.now) }
{
    let size = text.len();
    let mut done = 0;
    while done < size {
        let bytes = rt.write_some(&text[done..])?;
        done += bytes;
        if bytes < size {
            say_part(rt, done, size);
        }
        if bytes == 0 {
            break;
        }
    }
    Ok(done)
}

// Writes what is printed of the input.
fn run(rt: &(impl Print + Eprint), stream: &mut impl Read) -> Result<(), Failure> {
    let mut input = [0u8; Input::MOST];
    let size = read_all(stream, &mut input).map_err(Failure::Input)?;
    let mut text = [0u8; Text::MOST];
    let end = printing::print_run(&input[..size], &mut text);
    write_all(rt, &text[..end]).map_err(Failure::Output)?;
    Ok(())
}

// Its exit status is 0 where a stream failed too.
fn main(rt: HostRuntime) {
    if let Err(failure) = run(&rt, &mut rt.stdin()) {
        let _ = eprintln!(rt; "blockrun: {failure}");
    }
}
