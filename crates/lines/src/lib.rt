// The text of the listing that paper 01 shows, written into a lent buffer as far as it goes.
#![tactic(auto)]

ghost use Rattle.std.specs.Prelude.{◌≡◌, ◌+◌, ◌*◌, ◌^◌, ◌<◌, ◌≤◌, length};
ghost use Rattle.std.proofs.lemmas.List.Edits.{sets};
ghost use Rattle.lines.specs.Text.{node_line, head_line, refused_line, listing_of};
ghost use Rattle.lines.specs.Writer.{Writes};

mod row;
mod writer;

use row::Row;
use writer::Writer;

// The line of node i.
fn node(text: &mut Writer<'_>, i: u32, row: Row)
    requires { text.old.length + 99 < 2 ^ 64 }
    ensures { Writes text.old (node_line i row) text.new }
{
    text.number(i, b' ');
    text.field(row.parent, b' ');
    text.kind(row.kind, b' ');
    text.field(row.job, b' ');
    text.field(row.segment, b' ');
    text.field(row.earliest_leaving, b' ');
    text.field(row.latest_leaving, b' ');
    text.field(row.earliest_start, b' ');
    text.field(row.latest_start, b'\n');
}

fn head(text: &mut Writer<'_>, nodes: u32, orders: u32)
    requires { text.old.length + 44 < 2 ^ 64 }
    ensures { Writes text.old (head_line nodes orders) text.new }
{
    text.word(b"nodes", b' ');
    text.number(nodes, b' ');
    text.word(b"orders", b' ');
    text.number(orders, b'\n');
}

fn refused(text: &mut Writer<'_>, refusal: u32)
    requires { text.old.length + 22 < 2 ^ 64 }
    ensures { Writes text.old (refused_line refusal) text.new }
{
    text.word(b"refused", b' ');
    text.number(refusal, b'\n');
}

// The whole listing, or the line of a refusal. Its four parameters are the answer's, as `listing` takes it.
fn write_listing(text: &mut Writer<'_>, refusal: u32, nodes: u32, orders: u32, words: &[u32])
    requires { text.old.length + 100 * (nodes + 1) < 2 ^ 64 }
    ensures { Writes text.old (listing_of refusal nodes orders words.now) text.new }
{
    if refusal != 0 {
        return refused(text, refusal);
    }
    head(text, nodes, orders);
    for i in 0..nodes {
        node(text, i, Row::at(words, i));
    }
}

// The listing of a tree's answer: refusal, nodes, orders, and the words of the nodes. Answers the length of the text, also where the buffer is
// shorter and holds only its beginning. A refusal is a number and no enum: `listing_of` has a line for any number but 0.
pub fn listing(refusal: u32, nodes: u32, orders: u32, words: &[u32], out: &mut [u8]) -> usize
    ensures value { (result ≡ length (listing_of refusal nodes orders words.now)) × (out.new ≡ sets out.old 0 (listing_of refusal nodes orders words.now)) }
    ensures short { result ≤ 100 * (nodes + 1) }
{
    let mut text = Writer { out, length: 0 };
    write_listing(&mut text, refusal, nodes, orders, words);
    text.length
}
