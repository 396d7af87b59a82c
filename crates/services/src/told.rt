// The times that a log tells: how long each segment ran until each switch.
ghost use Rattle.std.specs.Prelude.{◌≡◌};
ghost use Rattle.services.specs.Told.{credited, ran_next, times_told};

use kernel::accepted::Accepted;

// What ran last, and since when.
#[derive(Clone, Copy, Debug, PartialEq, Eq)]
pub struct Ran {
    pub job: usize,
    pub segment: u32,
    pub since: u32,
}

// What ran has run until this tick. A log holds arbitrary numbers: a sum beyond the largest number stays there, and no time within bounds is as large.
#[tactic(auto, using(crate::proofs::Credits::ran_inside), unfolding(crate::specs::Told::credited))]
fn credit(set: &Accepted, times: &mut [u32; 64], ran: Ran, tick: u32)
    ensures { times.new ≡ credited set.now.jobs ran tick times.old }
{
    if ran.segment < set.jobs.segments(ran.job) {
        let at = set.jobs.first(ran.job) as usize + ran.segment as usize;
        times[at] = times[at].saturating_add(tick.saturating_sub(ran.since));
    }
}

// What runs after a switch at this tick to a segment of a job: from then on, or once the job is released.
fn next(set: &Accepted, tick: u32, job: u32, segment: u32) -> Ran
    ensures { result ≡ ran_next set.now.jobs tick job segment }
{
    let job = job as usize;
    let release = set.jobs.release(job);
    Ran {
        job,
        segment,
        since: tick.max(release),
    }
}

#[tactic(auto, using(crate::proofs::Entries::heard_none))]
pub fn times(set: &Accepted, log: &[u32]) -> [u32; 64]
    ensures { result ≡ times_told set.now.jobs log.now }
{
    let mut times = [0; 64];
    // Nothing ran before the first switch: its job is the number of jobs, as `heard` in specs/Told.antt begins.
    let mut ran = Ran {
        job: set.jobs.jobs(),
        segment: 0,
        since: 0,
    };
    let (switches, _) = log.as_chunks::<4>();
    for &[_, tick, job, segment] in switches {
        credit(set, &mut times, ran, tick);
        ran = next(set, tick, job, segment);
    }
    times
}
