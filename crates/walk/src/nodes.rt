// The nodes of the tree in lent words, eight a node, as many as there is room for.
ghost use Rattle.std.specs.Prelude.{◌≡◌, ◌*◌};
ghost use Rattle.std.proofs.lemmas.List.Edits.{sets};
ghost use Rattle.walk.specs.Nodes.{row_of};

use crate::switches::Switch;
use kernel::words;

// Node number `at`: the switch x, and the segment that its job starts in.
pub fn put(nodes: &mut [u32], at: u32, parent: u32, x: &Switch, segment: Option<u32>)
    ensures { nodes.new ≡ sets nodes.old (8 * at) (row_of parent x.now segment) }
{
    let place = 8 * at as usize;
    // A walk that only counts has room for no node.
    if nodes.len() <= place {
        return;
    }
    let row = [
        parent,
        u32::from(x.kind),
        x.job.unwrap_or(words::NOTHING),
        segment.unwrap_or(words::NOTHING),
        x.first,
        x.last,
        x.from,
        x.to,
    ];
    words::write(nodes, place, &row);
}
