// Lists the orders of a table: its bytes come from standard input, the text goes to standard output.
#![tactic(auto)]

use services::Counts;
use std::io;

// One byte more than a table may have, so that a longer one is refused.
const TABLE: usize = 4097;

// Room for 2,048 nodes, and for their lines.
const WORDS: usize = 16384;

const TEXT: usize = 204900;

fn list(rt: &impl Print, table: &[u8], words: &mut [u32], text: &mut [u8]) -> io::Result<()> {
    let drawn = services::tree(table, words);
    let Counts { nodes, orders } = drawn.unwrap_or_default();
    let length = lines::listing(services::number_of(drawn), nodes, orders, words, text);
    match text.get(..length) {
        Some(text) => rt.write_all(text),
        None => Ok(()),
    }
}

fn main(rt: HostRuntime) -> io::Result<()> {
    let mut table = [0; TABLE];
    let mut words = [0; WORDS];
    let mut text = [0; TEXT];
    let n = input::read_full(&mut rt.stdin(), &mut table)?;
    list(&rt, &table[..n], &mut words, &mut text)
}
