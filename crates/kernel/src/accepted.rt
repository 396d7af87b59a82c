// The job set of an accepted table. The ghost field holds what every such set keeps, so that no function that takes one has to ask for it.
ghost use Rattle.kernel.specs.Held.{Loaded};

use crate::jobs::Jobs;

#[derive(Clone, Copy)]
pub struct Accepted {
    pub jobs: Jobs,
    pub ghost loaded: { Loaded jobs },
}
