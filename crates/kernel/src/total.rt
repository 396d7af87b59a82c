// How many segments a job set has in all.
ghost use Rattle.std.specs.Prelude.{◌≡◌};
ghost use Rattle.kernel.specs.Held.{set_of};
ghost use Rattle.kernel.specs.Jobs.{sum};

use crate::accepted::Accepted;

impl Accepted {
    pub fn total_segments(&self) -> usize
        ensures { result ≡ sum (set_of self.now.jobs).segments (set_of self.now.jobs).jobs }
    {
        (0..self.jobs.jobs())
            .map(|i| self.jobs.segments(i) as usize)
            .sum()
    }
}
