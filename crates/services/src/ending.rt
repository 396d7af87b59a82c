// The tick at which the last run ends. It depends on releases and work alone, and the longest times decide it.
ghost use Rattle.std.specs.Prelude.{◌≡◌, ◌<◌};
ghost use Rattle.kernel.specs.Held.{set_of};
ghost use Rattle.kernel.specs.Laws.Clock.{done_at};
ghost use Rattle.kernel.specs.Laws.Ending.{work, last_end};

use kernel::accepted::Accepted;

// The ticks that job i takes at most.
#[tactic(auto, using(kernel::specs::Laws::Sums::sum_none, kernel::specs::Laws::Sums::sum_more, crate::proofs::Work::small_sum))]
fn longest_work(set: &Accepted, i: usize) -> u32
    requires { i < (set_of set.now.jobs).jobs }
    ensures { result ≡ work (set_of set.now.jobs) (set_of set.now.jobs).longest i }
{
    // A loop: no proof closed over `map` and `sum`, which asks that the total of every run over the range fits a word.
    let mut total = 0;
    for k in 0..set.jobs.segments(i) {
        total += set.jobs.longest(i, k);
    }
    total
}

// When a job is done that is released at a tick and has this work; those before it are done at tick `before`.
#[tactic(auto, using(kernel::specs::Laws::Clock::done_some, kernel::specs::Laws::Clock::done_none))]
fn done(before: u32, release: u32, work: u32) -> u32
    requires { (before < 3000000000) × (release < 3000000000) × (work < 1000000000) }
    ensures { result ≡ done_at before release work }
{
    if work == 0 {
        return before;
    }
    before.max(release) + work
}

#[tactic(auto, using(kernel::specs::Laws::Clock::clock_start, kernel::specs::Laws::Clock::clock_more, kernel::specs::Laws::Clock::done_most, crate::proofs::Work::small_work))]
pub fn last_end(set: &Accepted) -> u32
    ensures { result ≡ last_end (set_of set.now.jobs) }
{
    // A loop: no proof closed over `fold`, which asks of every total on the way what `done` asks.
    let mut end = 0;
    for i in 0..set.jobs.jobs() {
        end = done(end, set.jobs.release(i), longest_work(set, i));
    }
    end
}
