// Where a run stands, and the steps of a tick.
ghost use Rattle.std.specs.Prelude.{ℕ, ◌≡◌, ◌&&◌, ◌≤◌, ◌<◌, get_or, set, ltb, leb, eqb};
ghost use Rattle.kernel.specs.Jobs.{largest};
ghost use Rattle.kernel.specs.Held.{set_of};
ghost use Rattle.kernel.specs.Code.{idle, state_of, no_standing, job_or, segment_in, NoneFrom, Fresh, end_step, release_step, dispatch_step, tick_step, Released};
ghost use Rattle.kernel.specs.Laws.Key.{job_of};

use crate::accepted::Accepted;
use crate::kind::Kind;

// What the next dispatch will report.
#[derive(Clone, Copy, Debug, PartialEq, Eq)]
pub enum Due {
    First,
    Cutting,
    // A segment was left by END or STEP at a tick.
    Leaving(Kind, u32),
}

// Where a job stands: its present segment, and what is left of that where the job does not run.
#[derive(Clone, Copy, Debug, Default, PartialEq, Eq)]
pub struct Standing {
    pub segment: u8,
    pub rest: u32,
}

// Where the jobs stand. It and Processor are two values, so that the numbers of a tick stay in registers: what is indexed lies in memory.
#[derive(Drop)]
pub struct Standings {
    pub job: [Standing; 32],
    // Of each job, once it is released, its key (see specs/Laws/Key.antt); in a row of their own, since many are compared at a time.
    pub key: [u16; 32],
}

// What the processor does.
#[derive(Clone, Copy)]
pub struct Processor {
    // How many jobs are released.
    pub released: usize,
    // The job that had the last tick, and what is left of its segment.
    // The number of jobs stands for none: specs/Rules.antt has it so, and `Shows` sets the state of `state_of` beside the rules' run field by field.
    pub running: usize,
    pub left: u32,
    pub due: Due,
}

// The largest key. The loop goes over all 32, so that it is done many at a time.
#[tactic(auto, unfolding(crate::specs::Jobs::largest))]
fn top(key: &[u16; 32]) -> u16
    ensures { result ≡ largest (λ i. get_or key.now i 0) 32 }
{
    let mut best = 0;
    for k in key {
        best = best.max(*k);
    }
    best
}

// No job from m on has a segment.
pub fn none_from(set: &Accepted, m: usize) -> bool
    ensures { NoneFrom (set_of set.now.jobs) m result }
{
    // A `for`, as the proof of `all` at a closure that calls `segments` did not close.
    for i in m..set.jobs.jobs() {
        if 0 < set.jobs.segments(i) {
            return false;
        }
    }
    true
}

impl Standings {
    // No job has begun.
    #[tactic(auto, using(crate::proofs::Filled::one_filled))]
    pub fn fresh(set: &Accepted, times: &[u32]) -> Standings
        ensures { Fresh set.now.jobs times.now (state_of result (idle set.now.jobs)) }
    {
        // A `for`, as the proof of `array::from_fn` at a closure that calls `time` did not close.
        let mut job = [Standing::default(); 32];
        for (i, standing) in job.iter_mut().enumerate() {
            standing.rest = set.jobs.time(times, i, 0);
        }
        Standings { job, key: [0; 32] }
    }

    // The job that is dispatched, where one is ready.
    #[tactic(auto, unfolding(crate::specs::Laws::Key::job_of, crate::specs::Laws::Tests::iflt))]
    pub fn dispatched(&self) -> Option<usize>
        ensures { (none : ℕ) → job_or none result ≡ job_of none (largest (λ i. get_or self.now.key i 0) 32) }
    {
        let best = top(&self.key);
        if best == 0 {
            return None;
        }
        Some(31 - usize::from(best % 32))
    }

    // The present segment of a job.
    pub fn present(&self, d: usize) -> u32
        requires { d < 32 }
        ensures { result ≡ (get_or self.now.job d no_standing).segment }
    {
        u32::from(self.job[d].segment)
    }
}

impl Processor {
    // No job has begun.
    pub fn idle(set: &Accepted) -> Processor
        ensures { result ≡ idle set.now.jobs }
    {
        Processor {
            released: 0,
            running: set.jobs.jobs(),
            left: 0,
            due: Due::First,
        }
    }

    // The running segment has had its time.
    pub fn ended(&self, set: &Accepted) -> bool
        ensures { result ≡ (ltb self.now.running (set_of set.now.jobs).jobs && eqb self.now.left 0) }
    {
        self.running < set.jobs.jobs() && self.left == 0
    }

    // 1. The running segment ends. The job is finished, or moves to its next segment.
    #[tactic(auto, unfolding(crate::specs::Code::end_step))]
    pub fn end_segment(
        &mut self,
        standings: &mut Standings,
        set: &Accepted,
        times: &[u32],
        tick: u32,
    )
        requires { (self.old.running < 32) × (segment_in (state_of standings.old self.old) self.old.running < 255) }
        ensures { state_of standings.new self.new ≡ end_step set.now.jobs times.now tick (state_of standings.old self.old) }
    {
        let j = self.running;
        let segment = standings.job[j].segment + 1;
        let k = u32::from(segment);
        let rest = set.jobs.time(times, j, k);
        standings.job[j] = Standing { segment, rest };
        standings.key[j] = set.ready_key(j, k, true);
        self.running = set.jobs.jobs();
        self.left = 0;
        self.due = Due::Leaving(set.leave_kind(j, k), tick);
    }

    // A job is released at this tick.
    pub fn releases(&self, set: &Accepted, tick: u32) -> bool
        ensures { result ≡ (ltb self.now.released (set_of set.now.jobs).jobs && leb ((set_of set.now.jobs).release self.now.released) tick) }
    {
        self.released < set.jobs.jobs() && set.jobs.release(self.released) <= tick
    }

    // 2. Jobs released at this tick become ready.
    #[tactic(auto, using(crate::proofs::Release::none_released, crate::proofs::Release::one_released, crate::proofs::Release::releases_job))]
    pub fn release(&mut self, standings: &mut Standings, set: &Accepted, tick: u32)
        ensures { Released set.now.jobs tick (state_of standings.old self.old) (state_of standings.new self.new) }
    {
        while self.releases(set, tick) {
            self.release_one(standings, set);
        }
    }

    #[tactic(auto, unfolding(crate::specs::Code::release_step))]
    fn release_one(&mut self, standings: &mut Standings, set: &Accepted)
        requires { self.old.released < 32 }
        ensures { state_of standings.new self.new ≡ release_step set.now.jobs (state_of standings.old self.old) }
    {
        let m = self.released;
        standings.key[m] = set.ready_key(m, 0, false);
        self.released += 1;
    }

    // 3. Another job than the running one is dispatched. What is left of that, where one ran, is kept.
    #[tactic(auto, unfolding(crate::specs::Code::dispatch_step))]
    pub fn dispatch(&mut self, standings: &mut Standings, set: &Accepted, d: usize)
        requires { d < 32 }
        ensures { state_of standings.new self.new ≡ dispatch_step set.now.jobs d (state_of standings.old self.old) }
    {
        let k = standings.present(d);
        // A test and an index: the library does not promise what a row ends as after `get_mut`.
        if self.running < 32 {
            standings.job[self.running].rest = self.left;
        }
        standings.key[d] = set.ready_key(d, k, true);
        self.running = d;
        self.left = standings.job[d].rest;
        self.due = Due::Cutting;
    }

    // 4. The dispatched job runs for one tick.
    #[tactic(auto, unfolding(crate::specs::Code::tick_step))]
    pub fn run_tick(&mut self)
        requires { 1 ≤ self.old.left }
        ensures { (s : Standings) → state_of s self.new ≡ tick_step (state_of s self.old) }
    {
        self.left -= 1;
    }
}
