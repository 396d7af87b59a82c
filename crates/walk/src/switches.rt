// The switches by which a segment may be left.
ghost use Rattle.std.specs.Prelude.{◌≡◌};
ghost use Rattle.kernel.specs.Held.{set_of};
ghost use Rattle.walk.specs.Choice.{First};
ghost use Rattle.walk.specs.Switches.{release_of, switch_to, SwitchAsk, SpanAsk, Spanned, Cuts, Begins};

use crate::choice::{self, Known};
use crate::state::Standing;
use kernel::accepted::Accepted;
use kernel::kind::Kind;

// From its first to its last tick of leaving; the job that it names, where one is left, and from when to when that starts.
#[derive(Clone, Copy, Debug, PartialEq, Eq)]
pub struct Switch {
    pub kind: Kind,
    pub first: u32,
    pub last: u32,
    pub job: Option<u32>,
    pub from: u32,
    pub to: u32,
}

// When a job is released; 0 where there is none.
fn release_of_job(set: &Accepted, job: Option<u32>) -> u32
    ensures { result ≡ release_of (set_of set.now.jobs) job }
{
    job.map_or(0, |d| set.jobs.release(d as usize))
}

// The switch to a job, of the ticks of leaving from first to last.
fn to_job(set: &Accepted, kind: Kind, first: u32, last: u32, job: Option<u32>) -> Switch
    ensures { result ≡ switch_to (set_of set.now.jobs) kind first last job }
{
    let release = release_of_job(set, job);
    Switch {
        kind,
        first,
        last,
        job,
        from: first.max(release),
        to: last.max(release),
    }
}

// The switch of the ticks of leaving from t to `latest` at most that lead to one job.
#[tactic(auto, using(crate::specs::Laws::Spanned::spanned))]
pub fn span(
    set: &Accepted,
    state: &[Standing; 32],
    known: Known,
    kind: Kind,
    t: u32,
    latest: u32,
) -> Switch
    requires { SpanAsk set.now.jobs state.now known t latest }
    ensures { Spanned set.now.jobs state.now kind t latest result }
{
    let known = known.by(set, t);
    let job = choice::after(set, state, known);
    let weight = choice::weight(state, job);
    let end = choice::above(set, state, known.released, weight, latest + 1);
    to_job(set, kind, t, end - 1, job)
}

// The switch by a cut at tick t.
#[tactic(auto, using(crate::specs::Laws::Spanned::cuts))]
pub fn cut(set: &Accepted, state: &[Standing; 32], known: Known, t: u32) -> Switch
    requires { SwitchAsk set.now.jobs state.now known t }
    ensures { Cuts set.now.jobs state.now t result }
{
    let job = choice::after(set, state, known.by(set, t));
    to_job(set, Kind::Cut, t, t, job)
}

// The first dispatch, which is a switch at its own tick.
#[tactic(auto, using(crate::specs::Laws::Spanned::begins))]
pub fn first(set: &Accepted, state: &[Standing; 32], first: usize) -> Switch
    requires { First set.now.jobs state.now first }
    ensures { Begins set.now.jobs state.now result }
{
    let known = Known { first, released: 0 };
    let job = choice::after(set, state, known.by(set, 0));
    let tick = release_of_job(set, job);
    to_job(set, Kind::First, tick, tick, job)
}
