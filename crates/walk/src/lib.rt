// The walk over all orders of a job set, and the tree that it writes.
#![tactic(auto)]

ghost use Rattle.std.specs.Prelude.{◌≡◌, ◌≤◌};
ghost use Rattle.kernel.specs.Held.{set_of};
ghost use Rattle.orders.specs.Laws.Walk.{enough};
ghost use Rattle.walk.specs.Tree.{room_of, Passed, Walked};

mod choice;
pub mod counts;
mod descent;
mod nodes;
mod state;
mod switches;

use choice::Known;
use counts::Counts;
use descent::Walk;
use kernel::accepted::Accepted;
use kernel::words::NOTHING;

// How many nodes these words hold, at most 1,000,000.
fn room_of(words: usize) -> u32
    ensures { result ≡ room_of words }
{
    (words / 8).min(1000000) as u32
}

// How many switches may follow the first.
fn enough(set: &Accepted) -> usize
    ensures { result ≡ enough (set_of set.now.jobs) }
{
    set.total_segments() + set.jobs.jobs() - 1
}

// One walk over all orders that writes as many words as are lent, and counts nodes up to `cap`.
#[tactic(auto, using(crate::specs::Laws::Root::root_ask))]
fn pass(set: &Accepted, words: &mut [u32], cap: u32) -> Counts
    requires { cap ≤ 1000001 }
    ensures passed { Passed set.now.jobs cap words.old words.new result }
    ensures orders { result.orders ≤ result.nodes }
{
    let mut walk = Walk {
        set,
        words,
        state: state::fresh(set),
        seen: Counts::default(),
        cap,
    };
    let first = choice::first_unfinished(set, &walk.state, 0);
    let x = switches::first(set, &walk.state, first);
    walk.hang(&x, NOTHING, enough(set), Known { first, released: 0 });
    walk.seen
}

// Writes the tree, and answers how many nodes and orders it has; `None` where it has more nodes than there is room for. Counts first, so that words that do not
// hold the whole tree stay as they are.
#[tactic(auto, using(crate::specs::Laws::Whole::walked_large))]
pub fn tree(set: &Accepted, words: &mut [u32]) -> Option<Counts>
    ensures { Walked (set_of set.now.jobs) words.old words.new result }
{
    let room = room_of(words.len());
    let seen = pass(set, &mut [], room + 1);
    if room < seen.nodes {
        return None;
    }
    Some(pass(set, words, room + 1))
}
