// The key of a job: its weight and its number in one, so that the job to dispatch is the one with the largest key. A finished job has key 0.
#![tactic(auto, using(crate::specs::Laws::Small::small_at), unfolding(crate::specs::Laws::Key::key_of, crate::specs::Laws::Tests::iflt))]

ghost use Rattle.std.specs.Prelude.{◌≡◌, ◌<◌};
ghost use Rattle.kernel.specs.Held.{set_of};
ghost use Rattle.kernel.specs.Code.{weight_at};
ghost use Rattle.kernel.specs.Laws.Key.{key_of};

use crate::accepted::Accepted;

// It reads no table, so it is no method. `From` makes no u32 of a usize and no u16 of a u32; that both casts fit is proved.
fn key_of(weight: u32, i: usize) -> u16
    requires { (weight < 2000) × (i < 32) }
    ensures { result ≡ key_of weight i }
{
    if weight == 0 {
        return 0;
    }
    (32 * weight + (31 - i as u32)) as u16
}

impl Accepted {
    // The key of job i at its segment k: begun, it has the priority of the segment, and before that its base. A flag says which, since docs/PROMISES.md names one function.
    pub fn ready_key(&self, i: usize, k: u32, begun: bool) -> u16
        ensures { result ≡ key_of (weight_at (set_of self.now.jobs) i k begun) i }
    {
        let base = self.jobs.base(i);
        let priority = self.jobs.priority(i, k);
        if self.jobs.segments(i) <= k {
            return 0;
        }
        if begun {
            return key_of(2 * priority + 2, i);
        }
        key_of(2 * base + 1, i)
    }
}
