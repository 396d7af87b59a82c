// Recursive descent from each switch to whatever may follow it. The falling number is `depth`: how many switches may still follow.
ghost use Rattle.walk.specs.Counts.{Room};

use crate::choice::Known;
use crate::counts::Counts;
use crate::state::Standing;
use crate::switches::Switch;
use crate::{choice, nodes, switches};
use kernel::accepted::Accepted;

// A walk under way: how the jobs stand, the words that hold the nodes, and how many there are. Nodes from number `cap` on are left out.
#[derive(Drop)]
pub struct Walk<'a> {
    pub set: &'a Accepted,
    pub words: &'a mut [u32],
    pub state: [Standing; 32],
    pub seen: Counts,
    pub cap: u32,
    ghost room: { Room seen cap },
}

impl<'a> Walk<'a> {
    ghost use Rattle.walk.specs.Descent.{HangAsk, Hung, GrowAsk, Grown, LeaveAsk, Left, CutAsk, CutOff};

    // The switch x as the next node, with all that may follow it.
    #[cycle(descent)]
    pub fn hang(&mut self, x: &Switch, parent: u32, depth: usize, known: Known)
        requires { HangAsk self.old x.now depth known }
        ensures { Hung self.old self.new x.now parent depth }
    {
        let at = self.seen.nodes;
        if self.cap <= at {
            return;
        }
        let Some(d) = x.job else {
            nodes::put(self.words, at, parent, x, None);
            self.seen = self.seen.with_order();
            return;
        };
        let j = d as usize;
        let was = self.state[j];
        nodes::put(self.words, at, parent, x, Some(was.segment));
        self.seen = self.seen.with_node();
        self.state[j] = was.resumed(self.set, j);
        self.grow(j, x.from, x.to, at, depth, known);
        self.state[j] = was;
    }

    // All that may follow while job j runs, which starts at a tick from `from` to `to`.
    #[cycle(descent)]
    fn grow(&mut self, j: usize, from: u32, to: u32, parent: u32, depth: usize, known: Known)
        requires { GrowAsk self.old j from to depth known }
        ensures { Grown self.old self.new j from to parent depth }
    {
        if depth == 0 {
            return;
        }
        let was = self.state[j];
        let early = from + was.least;
        let late = to + was.most;
        let known = known.by(self.set, from);
        let latest = choice::above(self.set, &self.state, known.released, was.weight(), late);
        self.leave(j, early, latest, parent, depth, known);
        if latest < late {
            self.cut_off(j, early, late, latest, parent, depth, known);
        }
    }

    // Job j leaves its segment by END or STEP at a tick from `early` to `latest`, and all that may follow.
    #[cycle(descent)]
    fn leave(&mut self, j: usize, early: u32, latest: u32, parent: u32, depth: usize, known: Known)
        requires { LeaveAsk self.old j early latest depth known }
        ensures { Left self.old self.new j early latest parent depth }
    {
        let was = self.state[j];
        let k = was.segment + 1;
        let kind = self.set.leave_kind(j, k);
        self.state[j] = Standing::begun(self.set, j, k);
        let first = choice::first_unfinished(self.set, &self.state, known.first);
        let known = Known { first, ..known };
        let mut t = early;
        // A turn takes the ticks of one span, however many.
        while t <= latest {
            let x = switches::span(self.set, &self.state, known, kind, t, latest);
            self.hang(&x, parent, depth - 1, known);
            t = x.last + 1;
        }
        self.state[j] = was;
    }

    // Job j is cut at tick `latest`, and all that may follow. At least one tick of its segment is left. Its ticks are those of this call alone, so that no struct holds them.
    #[cycle(descent)]
    #[tactic(auto, using(crate::proofs::Cutting::cut_switch))]
    fn cut_off(
        &mut self,
        j: usize,
        early: u32,
        late: u32,
        latest: u32,
        parent: u32,
        depth: usize,
        known: Known,
    )
        requires { CutAsk self.old j early late latest depth known }
        ensures { CutOff self.old self.new j early late latest parent depth }
    {
        let was = self.state[j];
        let least = early.saturating_sub(latest).max(1);
        self.state[j] = was.cut(least, late - latest);
        let x = switches::cut(self.set, &self.state, known, latest);
        self.hang(&x, parent, depth - 1, known);
        self.state[j] = was;
    }
}
