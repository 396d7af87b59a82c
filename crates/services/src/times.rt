// One time per segment in table order, each within its bounds. The set stays, and times are a caller's or a log's: two parameters, and no struct.
ghost use Rattle.std.specs.Prelude.{◌↔◌, IsTrue};
ghost use Rattle.kernel.specs.Held.{set_of};
ghost use Rattle.services.specs.Times.{Fit, FitJob, FitJobs};

use kernel::accepted::Accepted;

// The times of the segments of job i are within their bounds.
fn fit_job(set: &Accepted, times: &[u32], i: usize) -> bool
    ensures { IsTrue result ↔ FitJob set.now.jobs times.now i }
{
    (0..set.jobs.segments(i)).all(|k| {
        let time = set.jobs.time(times, i, k);
        (set.jobs.shortest(i, k)..=set.jobs.longest(i, k)).contains(&time)
    })
}

// The times of the segments of every job are within their bounds.
pub fn fit_jobs(set: &Accepted, times: &[u32]) -> bool
    ensures { IsTrue result ↔ FitJobs set.now.jobs times.now }
{
    (0..set.jobs.jobs()).all(|i| fit_job(set, times, i))
}

pub fn fit(set: &Accepted, times: &[u32]) -> bool
    ensures { IsTrue result ↔ Fit (set_of set.now.jobs) times.now }
{
    times.len() == set.total_segments() && fit_jobs(set, times)
}
