// The log of a run, as its words.
ghost use Rattle.std.specs.Prelude.{◌≡◌, ◌≤◌, ℕ, List, take};
ghost use Rattle.kernel.specs.Rules.{Within};
ghost use Rattle.kernel.specs.Log.{time_in};
ghost use Rattle.kernel.specs.Held.{set_of};
ghost use Rattle.services.specs.Replay.{log_in};

use kernel::accepted::Accepted;
use std::marker::Model;

// A length stands beside the words since nothing may allocate: a run has at most 96 switches, of four words each. The words are lent to the kernel whole, and
// the Model says of them and the length what an `ArrayVec` made from them would.
#[derive(Drop)]
pub struct Log {
    words: [u32; 384],
    length: usize,
}

impl Model for Log {
    ghost Value = { List ℕ };

    ghost view = { λ l. take l.length l.words };

    ghost invariant = { λ l. l.length ≤ 384 };
}

impl Log {
    // Of the run with these times.
    pub fn of(set: &Accepted, times: &[u32]) -> Log
        requires { Within (set_of set.now.jobs) (time_in (set_of set.now.jobs) times.now) }
        ensures { result ≡ log_in (set_of set.now.jobs) times.now }
    {
        let mut words = [0; 384];
        let switches = kernel::run(set, times, &mut words);
        Log {
            words,
            length: 4 * switches,
        }
    }

    pub fn words(&self) -> &[u32]
        ensures { result.now ≡ self.now }
    {
        &self.words[..self.length]
    }
}
