// The job set of a table, as the kernel's code holds it.
#![tactic(auto)]

ghost use Rattle.std.specs.Prelude.{◌≡◌, ◌+◌, ◌<◌};
ghost use Rattle.table.specs.Sound.{Sound};
ghost use Rattle.jobset.specs.Load.{Ceilings, held_first, Laid};

mod ceilings;
mod sound;

use ceilings::LOCKS;
use kernel::accepted::Accepted;
use kernel::jobs::{Job, Jobs, Segment};
use sound::SoundTable;
use table::Table;

// Job i and its segments, which follow those of the jobs before it.
#[tactic(auto, using(crate::specs::Laws::Accepted::segments_fit))]
fn put_job(jobs: &mut Jobs, sound: &SoundTable<'_>, ceilings: &[u32; LOCKS], i: usize)
    requires { (i < sound.now.table.now.jobs) × Ceilings sound.now.table.now ceilings.now × (jobs.old ≡ held_first sound.now.table.now i) }
    ensures { jobs.new ≡ held_first sound.now.table.now (i + 1) }
{
    let table = sound.table;
    let job = table.job[i];
    jobs.job[i] = Job {
        release: job.release,
        base: u32::from(job.base),
        first: job.first as u32,
        segments: u32::from(job.count),
    };
    for number in job.first..job.first + usize::from(job.count) {
        let segment = table.segment[number];
        jobs.segment[number] = Segment {
            shortest: segment.shortest,
            longest: segment.longest,
            priority: ceilings::priority(ceilings, job.base, segment.held),
        };
    }
}

// The job set of an accepted table.
#[tactic(auto, unfolding(crate::specs::Load::held_first, table::specs::Table::padded))]
pub fn load(table: &Table) -> Accepted
    requires { Sound table.now }
    ensures { Laid table.now result.jobs }
{
    let sound = SoundTable { table };
    let ceilings = sound.ceilings();
    let mut jobs = Jobs {
        frame: table.frame,
        count: table.jobs,
        job: [Job::default(); Table::JOBS],
        segment: [Segment::default(); Table::SEGMENTS],
    };
    for i in 0..table.jobs {
        put_job(&mut jobs, &sound, &ceilings, i);
    }
    Accepted { jobs }
}
