// Runs the vectors: reads commands line by line from standard input and writes each with what the library answers.
#![tactic(auto)]

mod command;
mod session;
mod show;
mod text;

use session::Session;
use std::io;
use std::io::Read;

// The most input that is read.
const INPUT: usize = 524288;

fn serve(rt: &impl Print, input: &[u8]) -> io::Result<()> {
    let mut session = Session::new();
    for line in input.split_inclusive(|b| *b == b'\n') {
        session.serve(rt, line.strip_suffix(b"\n").unwrap_or(line))?;
    }
    Ok(())
}

// The buffer comes from the caller, so that no proof has an array of this size before it.
fn serve_input(rt: &impl Print, input: &mut impl Read, buffer: &mut [u8; INPUT]) -> io::Result<()> {
    let n = input::read_full(input, buffer)?;
    serve(rt, &buffer[..n])
}

fn main(rt: HostRuntime) -> io::Result<()> {
    let mut buffer = [0u8; INPUT];
    serve_input(&rt, &mut rt.stdin(), &mut buffer)
}
