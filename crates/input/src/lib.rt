// Reading the whole of an input into a lent buffer.
#![tactic(auto)]

ghost use Rattle.std.specs.Prelude.{◌≡◌, ℕ, ◌<◌, ◌≤◌, IfOk, OnErr, length, take};
ghost use Rattle.std.specs.Io.KnownBytes.{Consumes, IsAtEnd};

use std::io;
use std::io::Read;

/// Reads until the input ends or the buffer is full, and answers how many bytes it has. What was read before an error stands in the buffer too.
pub fn read_full<R: Read>(input: &mut R, buffer: &mut [u8]) -> io::Result<usize>
    ensures bound { IfOk result (λ n. n ≤ length buffer.new) }
    ensures room { length buffer.new ≡ length buffer.old }
    ensures bytes { IfOk result (λ n. Consumes (R.remaining input.old) (R.remaining input.new) (take n buffer.new)) }
    ensures end { IfOk result (λ n. n < length buffer.new → IsAtEnd (R.remaining input.new)) }
    ensures err { OnErr result ((n : ℕ) × Consumes (R.remaining input.old) (R.remaining input.new) (take n buffer.new)) }
{
    let mut n: usize = 0;
    // A loop by place: it steps by what a read gives.
    while n < buffer.len() {
        match input.read(&mut buffer[n..])? {
            0 => return Ok(n),
            more => n += more,
        }
    }
    Ok(n)
}

#[cfg(test)]
mod tests {
    use super::*;

    // An input that is shorter than the buffer, as long, and longer: what is read, and what is left.
    #[test]
    fn reads_what_fits(rt: HostRuntime) -> io::Result<()> {
        for (text, want) in [("ab", 2usize), ("abcd", 4), ("abcdef", 4)] {
            let mut input = text.as_bytes();
            let mut buffer = [0u8; 4];
            let n = read_full(&mut input, &mut buffer)?;
            assert_eq!(rt; n, want, "of {text}");
            assert_eq!(rt; input.len(), text.len() - n, "left of {text}");
        }
        Ok(())
    }
}
