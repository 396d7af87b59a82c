// The job set of a table: its jobs and its segments in table order, in rows of fixed room. A number that it does not have is 0.
#![tactic(auto, unfolding(crate::specs::Held::set_of, crate::specs::Held::first_of, crate::specs::Held::job_at, crate::specs::Held::segment_at))]

ghost use Rattle.std.specs.Prelude.{◌≡◌, get_or};
ghost use Rattle.kernel.specs.Held.{set_of, first_of, job_at, segment_at};
ghost use Rattle.kernel.specs.Code.{time_at};

// Other than a table's job, it has no mark; other than a table's segment, a segment has its priority and not its locks.
#[derive(Clone, Copy, Debug, Default, PartialEq, Eq)]
pub struct Job {
    pub release: u32,
    pub base: u32,
    // The number of its first segment, and how many it has.
    pub first: u32,
    pub segments: u32,
}

#[derive(Clone, Copy, Debug, Default, PartialEq, Eq)]
pub struct Segment {
    pub shortest: u32,
    pub longest: u32,
    // While it is dispatched.
    pub priority: u32,
}

#[derive(Clone, Copy)]
pub struct Jobs {
    pub frame: u32,
    // How many of the 32 there are. A count, and no `ArrayVec`: a job set is `Copy`, and reads as 0 past its jobs.
    pub count: usize,
    pub job: [Job; 32],
    pub segment: [Segment; 64],
}

// A word of a row; 0 past its end.
pub fn word_at(words: &[u32], i: usize) -> u32
    ensures { result ≡ get_or words.now i 0 }
{
    words.get(i).copied().unwrap_or(0)
}

impl Jobs {
    fn job(&self, i: usize) -> Job
        ensures { result ≡ job_at self.now i }
    {
        if i < self.count {
            return self.job.get(i).copied().unwrap_or_default();
        }
        Job::default()
    }

    fn segment(&self, i: usize, k: u32) -> Segment
        ensures { result ≡ segment_at self.now i k }
    {
        let job = self.job(i);
        if k < job.segments {
            let number = job.first as usize + k as usize;
            return self.segment.get(number).copied().unwrap_or_default();
        }
        Segment::default()
    }

    // From here on one function for each number: docs/PROMISES.md promises each by its name.
    pub fn frame(&self) -> u32
        ensures { result ≡ (set_of self.now).frame }
    {
        self.frame
    }

    pub fn jobs(&self) -> usize
        ensures { result ≡ (set_of self.now).jobs }
    {
        self.count
    }

    pub fn release(&self, i: usize) -> u32
        ensures { result ≡ (set_of self.now).release i }
    {
        self.job(i).release
    }

    pub fn base(&self, i: usize) -> u32
        ensures { result ≡ (set_of self.now).base i }
    {
        self.job(i).base
    }

    pub fn first(&self, i: usize) -> u32
        ensures { result ≡ first_of self.now i }
    {
        self.job(i).first
    }

    pub fn segments(&self, i: usize) -> u32
        ensures { result ≡ (set_of self.now).segments i }
    {
        self.job(i).segments
    }

    pub fn shortest(&self, i: usize, k: u32) -> u32
        ensures { result ≡ (set_of self.now).shortest i k }
    {
        self.segment(i, k).shortest
    }

    pub fn longest(&self, i: usize, k: u32) -> u32
        ensures { result ≡ (set_of self.now).longest i k }
    {
        self.segment(i, k).longest
    }

    pub fn priority(&self, i: usize, k: u32) -> u32
        ensures { result ≡ (set_of self.now).priority i k }
    {
        self.segment(i, k).priority
    }

    // The time of segment k of job i, of one time per segment in table order.
    pub fn time(&self, times: &[u32], i: usize, k: u32) -> u32
        ensures { result ≡ time_at self.now times.now i k }
    {
        word_at(times, self.first(i) as usize + k as usize)
    }
}
