// Which job is dispatched, and until when. Releases do not fall, so that those released by a tick come first. The set stays and the row changes from call to call,
// so that they are two parameters and no struct.
ghost use Rattle.std.specs.Prelude.{◌≡◌, ◌<◌, IfSome};
ghost use Rattle.kernel.specs.Jobs.{largest};
ghost use Rattle.walk.specs.State.{key_at};
ghost use Rattle.walk.specs.Choice.{Out, OutBy, Ended, First, TopAsk, ReachAsk, Reaches, NextAsk, Follows, weight_of, Aboves};

use crate::state::Standing;
use kernel::accepted::Accepted;

// What is known already: which job is the first unfinished one, and how many jobs are released at least. That these are so is said of the job set and of how its
// jobs stand, which are not held here: the clauses say it.
#[derive(Clone, Copy, Debug, PartialEq, Eq)]
pub struct Known {
    pub first: usize,
    pub released: usize,
}

impl Known {
    // With just the jobs that are released by tick t.
    pub fn by(self, set: &Accepted, t: u32) -> Known
        requires { Out set.now.jobs t self.released }
        ensures first { result.first ≡ self.first }
        ensures released { OutBy set.now.jobs t result.released }
    {
        Known {
            released: released(set, self.released, t),
            ..self
        }
    }
}

// How many jobs are released by tick t; the first `out` are known to be.
fn released(set: &Accepted, out: usize, t: u32) -> usize
    requires { Out set.now.jobs t out }
    ensures { OutBy set.now.jobs t result }
{
    let n = set.jobs.jobs();
    (out..n).find(|&i| t < set.jobs.release(i)).unwrap_or(n)
}

// The first unfinished job, where those below `done` are finished; the number of jobs where there is none, since ranges of jobs begin there.
pub fn first_unfinished(set: &Accepted, state: &[Standing; 32], done: usize) -> usize
    requires { Ended set.now.jobs state.now done }
    ensures { First set.now.jobs state.now result }
{
    let n = set.jobs.jobs();
    (done..n).find(|&i| state[i].key != 0).unwrap_or(n)
}

// The largest key of the jobs below `out`; none below `first` has one.
#[tactic(auto, using(kernel::specs::Laws::Largest::largest_le, kernel::specs::Laws::Largest::largest_more))]
fn top(state: &[Standing; 32], first: usize, out: usize) -> u32
    requires { TopAsk state.now first out }
    ensures { result ≡ largest (key_at state.now) out }
{
    // A loop: with a chain that ends in `max`, each level of the descent takes more stack.
    let mut best: u32 = 0;
    for job in &state[first..out] {
        best = best.max(job.key);
    }
    best
}

// How many jobs are released at the next dispatch, where `out` are at the leaving: the processor may idle until the first unfinished job is released.
#[tactic(auto, using(crate::specs::Laws::Keyed::out_first, crate::specs::Laws::Keyed::reaches_now, crate::specs::Laws::Keyed::reaches_later))]
fn reached(set: &Accepted, first: usize, out: usize) -> usize
    requires { ReachAsk set.now.jobs first out }
    ensures { Reaches set.now.jobs first out result }
{
    if first < out {
        return out;
    }
    released(set, out, set.jobs.release(first))
}

// The job that is dispatched next after a leaving by which just those jobs are released, where one is unfinished.
#[tactic(auto, using(crate::specs::Laws::Keyed::follows_none))]
pub fn after(set: &Accepted, state: &[Standing; 32], known: Known) -> Option<u32>
    requires { NextAsk set.now.jobs state.now known }
    ensures follows { Follows set.now.jobs state.now known.released result }
    ensures few { IfSome result (λ d. d < 32) }
{
    let first = known.first;
    if set.jobs.jobs() <= first {
        return None;
    }
    // A key of four bytes, read as the kernel reads its own of two.
    let best = top(state, first, reached(set, first, known.released));
    Some(31 - best % 32)
}

// The weight of a job; 0 where there is none.
pub fn weight(state: &[Standing; 32], job: Option<u32>) -> u32
    requires { IfSome job (λ d. d < 32) }
    ensures { result ≡ weight_of state.now job }
{
    job.map_or(0, |d| state[d as usize].weight())
}

// The first release before e of a job that is not among the first `out` and whose weight is above w; else e.
#[tactic(auto, using(crate::specs::Laws::Keyed::aboves_none, crate::specs::Laws::Keyed::aboves_some))]
pub fn above(set: &Accepted, state: &[Standing; 32], out: usize, w: u32, e: u32) -> u32
    ensures { Aboves set.now.jobs state.now out w e result }
{
    for i in out..set.jobs.jobs() {
        let release = set.jobs.release(i);
        if e <= release {
            return e;
        }
        if w < state[i].weight() {
            return release;
        }
    }
    e
}
