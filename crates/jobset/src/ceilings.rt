// The ceilings of the locks, and the priority that a segment has while it is dispatched.
ghost use Rattle.std.specs.Prelude.{◌≡◌, ◌<◌, max};
ghost use Rattle.std.specs.List.{list_any};
ghost use Rattle.kernel.specs.Jobs.{holds, locks, user_base, ceiling};
ghost use Rattle.jobset.specs.Load.{Ceilings, highest};

use crate::sound::SoundTable;
use std::array;
use table::Segment;

pub const LOCKS: usize = 16;

// One of the locks.
#[derive(Clone, Copy)]
struct Lock {
    number: usize,
    ghost one: { number < locks },
}

impl Lock {
    // Its bit of the held locks.
    fn is_in(self, held: u16) -> bool
        ensures { result ≡ holds held self.number }
    {
        (held >> self.number) % 2 == 1
    }

    // Whether one of the segments holds it.
    fn is_held_by(self, segments: &[Segment]) -> bool
        ensures { result ≡ list_any (λ s. holds s.held self.number) segments.now }
    {
        segments.iter().any(|segment| self.is_in(segment.held))
    }
}

impl<'a> SoundTable<'a> {
    // The base of job i if a segment of it holds the lock.
    #[tactic(auto, using(crate::specs::Laws::Accepted::segments_fit, crate::proofs::Locks::user_base_is))]
    fn user_base(&self, i: usize, lock: Lock) -> u8
        requires { i < self.now.table.now.jobs }
        ensures { result ≡ user_base self.now.table.now lock.number i }
    {
        let table = self.table;
        let job = table.job[i];
        let segments = &table.segment[job.first..job.first + usize::from(job.count)];
        if lock.is_held_by(segments) {
            job.base
        } else {
            0
        }
    }

    // A word, since one more than a base may be no byte.
    #[tactic(auto, using(kernel::specs::Laws::Largest::largest_none, crate::proofs::Locks::largest_next), unfolding(kernel::specs::Jobs::ceiling))]
    fn ceiling(&self, lock: Lock) -> u32
        ensures { result ≡ ceiling self.now.table.now lock.number }
    {
        let mut most = 0;
        for i in 0..self.table.jobs {
            most = most.max(self.user_base(i, lock));
        }
        u32::from(most) + 1
    }

    // Made once, for all segments.
    pub fn ceilings(&self) -> [u32; LOCKS]
        ensures { Ceilings self.now.table.now result }
    {
        array::from_fn(
            |number|
                requires { number < locks }
            { self.ceiling(Lock { number }) },
        )
    }
}

// The largest ceiling of the locks held.
#[tactic(auto, using(kernel::specs::Laws::Largest::largest_none, crate::proofs::Locks::largest_next), unfolding(crate::specs::Load::highest))]
fn highest(ceilings: &[u32; LOCKS], held: u16) -> u32
    ensures { result ≡ highest ceilings.now held }
{
    let mut most = 0;
    for (number, ceiling) in ceilings.iter().enumerate() {
        let lock = Lock { number };
        if lock.is_in(held) {
            most = most.max(*ceiling);
        }
    }
    most
}

pub fn priority(ceilings: &[u32; LOCKS], base: u8, held: u16) -> u32
    ensures { result ≡ max base (highest ceilings.now held) }
{
    u32::from(base).max(highest(ceilings, held))
}
