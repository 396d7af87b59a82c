// The kinds of a switch. In a log each is a number.
ghost use Rattle.std.specs.Prelude.{◌≡◌};
ghost use Rattle.kernel.specs.Rules.{END, STEP};
ghost use Rattle.kernel.specs.Held.{set_of};
ghost use Rattle.kernel.specs.Log.{kind_number};
ghost use Rattle.kernel.specs.Code.{kind_of, leave_kind_at};
ghost use Rattle.kernel.specs.Laws.Tests.{iflt};

use crate::accepted::Accepted;

#[derive(Clone, Copy, Debug, PartialEq, Eq)]
pub enum Kind {
    First = 0,
    End,
    Step,
    Cut,
}

impl From<Kind> for u32 {
    ghost from_gives = { λ kind number. number ≡ kind_number (kind_of kind) };

    fn from(kind: Kind) -> u32 {
        kind as u32
    }
}

impl Accepted {
    // STEP where job i has a segment k, else END.
    #[tactic(auto, unfolding(crate::specs::Laws::Tests::iflt))]
    pub fn leave_kind(&self, i: usize, k: u32) -> Kind
        ensures coded { result ≡ leave_kind_at (set_of self.now.jobs) i k }
        ensures kind { kind_of result ≡ iflt k ((set_of self.now.jobs).segments i) STEP END }
    {
        if k < self.jobs.segments(i) {
            Kind::Step
        } else {
            Kind::End
        }
    }
}
