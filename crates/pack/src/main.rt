// Turns a job table written as text into its bytes: text from standard input, bytes to standard output; or says on standard error on which line the text
// is refused and why, and writes nothing else.
#![tactic(auto)]

use draft::Refused;
use std::io;

// The longest text that is taken.
const TEXT: usize = 65536;

fn refuse(rt: &impl Eprint, refused: Refused) -> io::Result<()> {
    let Refused { cause, line } = refused;
    eprintln!(rt; "line {line}: cause {}: {cause}", u32::from(cause))
}

fn turn(rt: &(impl Print + Eprint), text: &[u8], bytes: &mut [u8; 4096]) -> io::Result<()> {
    match draft::pack(text, bytes) {
        Ok(length) => rt.write_all(&bytes[..length]),
        Err(refused) => refuse(rt, refused),
    }
}

// One byte more than a text may have is read, so that a longer one is refused.
fn main(rt: HostRuntime) -> io::Result<()> {
    let mut text = [0u8; TEXT + 1];
    let mut bytes = [0u8; 4096];
    let n = input::read_full(&mut rt.stdin(), &mut text)?;
    if TEXT < n {
        return rt.eprintln("the text is longer than 65,536 bytes");
    }
    turn(&rt, &text[..n], &mut bytes)
}
