// Where a walk stands. One row of all jobs serves the whole walk; each step puts back what it found.
ghost use Rattle.std.specs.Prelude.{◌≡◌, ◌/◌};
ghost use Rattle.kernel.specs.Held.{set_of};
ghost use Rattle.walk.specs.State.{start_at, begun_at, resumed_as, cut_as, new_at, Unbegun};

use kernel::accepted::Accepted;

// How one job stands: its key, its present segment, and what is left of that at least and at most (the kernel's own has one rest, and keeps keys apart).
#[derive(Clone, Copy, Debug, Default, PartialEq, Eq)]
pub struct Standing {
    pub key: u32,
    pub segment: u32,
    pub least: u32,
    pub most: u32,
}

impl Standing {
    // Job i at the start of its segment k.
    fn at(set: &Accepted, i: usize, k: u32, begun: bool) -> Standing
        ensures { result ≡ start_at (set_of set.now.jobs) i k begun }
    {
        Standing {
            key: u32::from(set.ready_key(i, k, begun)),
            segment: k,
            least: set.jobs.shortest(i, k),
            most: set.jobs.longest(i, k),
        }
    }

    // Job i, not begun.
    fn new(set: &Accepted, i: usize) -> Standing
        ensures { result ≡ new_at (set_of set.now.jobs) i }
    {
        Standing::at(set, i, 0, false)
    }

    // Job i, begun, at the start of its segment k.
    pub fn begun(set: &Accepted, i: usize, k: u32) -> Standing
        ensures { result ≡ begun_at (set_of set.now.jobs) i k }
    {
        Standing::at(set, i, k, true)
    }

    // Job i, standing as it does, once it is dispatched.
    pub fn resumed(self, set: &Accepted, i: usize) -> Standing
        ensures { result ≡ resumed_as (set_of set.now.jobs) i self }
    {
        Standing {
            key: u32::from(set.ready_key(i, self.segment, true)),
            ..self
        }
    }

    // What its key holds above its number.
    pub fn weight(self) -> u32
        ensures { result ≡ self.key / 32 }
    {
        self.key / 32
    }

    // Once it is cut, with what is left of its segment.
    pub fn cut(self, least: u32, most: u32) -> Standing
        ensures { result ≡ cut_as self least most }
    {
        Standing {
            least,
            most,
            ..self
        }
    }
}

// No job has begun.
pub fn fresh(set: &Accepted) -> [Standing; 32]
    ensures { Unbegun (set_of set.now.jobs) result }
{
    let mut state = [Standing::default(); 32];
    for (i, job) in state.iter_mut().enumerate() {
        *job = Standing::new(set, i);
    }
    state
}
