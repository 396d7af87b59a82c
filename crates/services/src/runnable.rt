// A job set all of whose runs end in its frame.
ghost use Rattle.std.specs.Prelude.{◌≤◌};
ghost use Rattle.kernel.specs.Held.{set_of};
ghost use Rattle.kernel.specs.Laws.Ending.{last_end};

use kernel::accepted::Accepted;

#[derive(Clone, Copy)]
pub struct Runnable {
    pub set: Accepted,
    pub ghost in_frame: { last_end (set_of set.jobs) ≤ (set_of set.jobs).frame },
}
