// Why a text is refused, and where.
ghost use Rattle.std.specs.Prelude.{◌≡◌, Some};
ghost use Rattle.draft.specs.Cause.{cause_number, cause_text};

use std::error::Error;
use std::fmt;
use table::Fault;

// The causes 1 to 10, and 20 + the number of the table's own fault.
#[derive(Clone, Copy, Debug, PartialEq, Eq)]
pub enum Cause {
    UnknownLine,
    BadNumber,
    BadWord,
    Trailing,
    FrameMisplaced,
    SegmentMisplaced,
    SegmentCount,
    TooManyLocks,
    TooLong,
    Empty,
    Table(Fault),
}

// A cause, and the line where it arose: a line of the text, where a table's `Refused` has a place in bytes.
#[derive(Clone, Copy, Debug, PartialEq, Eq)]
pub struct Refused {
    pub cause: Cause,
    pub line: u32,
}

impl From<Cause> for u32 {
    ghost from_gives = { λ cause number. number ≡ cause_number cause };

    fn from(cause: Cause) -> u32 {
        match cause {
            Cause::UnknownLine => 1,
            Cause::BadNumber => 2,
            Cause::BadWord => 3,
            Cause::Trailing => 4,
            Cause::FrameMisplaced => 5,
            Cause::SegmentMisplaced => 6,
            Cause::SegmentCount => 7,
            Cause::TooManyLocks => 8,
            Cause::TooLong => 9,
            Cause::Empty => 10,
            Cause::Table(fault) => 20 + u32::from(fault),
        }
    }
}

impl fmt::Display for Cause {
    ghost output = { λ cause. Some (cause_text cause) };

    fn fmt<W: fmt::Write>(&self, f: &mut fmt::Formatter<W>) -> fmt::Result {
        f.write_str(match self {
            Cause::UnknownLine => "a line begins with frame, job or segment",
            Cause::BadNumber => "a number is due here, of digits alone and not too large",
            Cause::BadWord => {
                "a word is missing or misspelt: job NAME release N priority N, or segment SHORTEST LONGEST holds LOCK"
            }
            Cause::Trailing => "there is something after the end of the line",
            Cause::FrameMisplaced => "frame comes once, as the first line",
            Cause::SegmentMisplaced => "a segment comes after its job",
            Cause::SegmentCount => "a job has at least one segment",
            Cause::TooManyLocks => "there are at most 16 locks",
            Cause::TooLong => "the text is longer than a table can be",
            Cause::Empty => "there is no line with words",
            Cause::Table(Fault::Unreadable) => "the table does not read whole (refusal 1)",
            Cause::Table(Fault::OutOfBounds) => "a number is outside its bounds (refusal 2)",
            Cause::Table(Fault::OutOfOrder) => {
                "the job is released earlier than the job before it (refusal 3)"
            }
            Cause::Table(Fault::Crowded) => {
                "no job, more than 32 jobs, or more than 64 segments (refusal 4)"
            }
        })
    }
}

impl Error for Cause {}
