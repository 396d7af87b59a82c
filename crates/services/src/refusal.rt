// Why a call declines.
ghost use Rattle.std.specs.Prelude.{◌≡◌};
ghost use Rattle.services.specs.Refusals.{refusal_number, number_of};
ghost use Rattle.services.specs.declared.refusal.Refusal.TheVariants.{Table};

use table::{Fault, Refused};

#[derive(Clone, Copy, Debug, PartialEq, Eq)]
pub enum Refusal {
    // What the table's bytes are refused for.
    Table(Fault),
    // Some run ends later than the frame length.
    Late,
    // Not exactly one time per segment, or one outside its bounds.
    Times,
    // Fewer words are lent than the answer needs.
    Room,
    // The log is of no run.
    NoRun,
}

impl From<Refusal> for u32 {
    ghost from_gives = { λ refusal number. number ≡ refusal_number refusal };

    fn from(refusal: Refusal) -> u32 {
        match refusal {
            Refusal::Table(fault) => u32::from(fault),
            Refusal::Late => 5,
            Refusal::Times => 6,
            Refusal::Room => 7,
            Refusal::NoRun => 8,
        }
    }
}

impl From<Refused> for Refusal {
    ghost from_gives = { λ refused refusal. refusal ≡ Table refused.fault };

    fn from(refused: Refused) -> Refusal {
        Refusal::Table(refused.fault)
    }
}

// An answer as a number: 0, or the refusal's.
pub fn number_of<A: Copy>(answer: Result<A, Refusal>) -> u32
    ensures { result ≡ number_of answer }
{
    match answer {
        Ok(_) => 0,
        Err(refusal) => u32::from(refusal),
    }
}
