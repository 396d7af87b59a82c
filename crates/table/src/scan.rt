// Where the records read so far first give cause for refusals 2, 3 and 4.
ghost use Rattle.std.specs.Prelude.{◌≡◌, []};
ghost use Rattle.table.specs.Refusal.{learn, outside, earlier, beyond};
ghost use Rattle.table.specs.Steps.{scan_of, scanned};

use crate::Table;
use crate::records::Record;

// What the records before one say: the frame length, the release of the last job, and how many jobs and segments there are.
#[derive(Clone, Copy, Debug, PartialEq, Eq)]
pub struct Known {
    pub frame: u32,
    pub release: u32,
    pub jobs: usize,
    pub segments: usize,
}

#[derive(Clone, Copy, Debug, PartialEq, Eq)]
pub struct Scan {
    // The release of the last job.
    pub release: u32,
    // The places of the first record with a number outside its bounds, of the first job released earlier than the one before it, and of the first record beyond a limit.
    pub faulty: Option<usize>,
    pub early: Option<usize>,
    pub beyond: Option<usize>,
}

impl Known {
    // A number of the record is outside its bounds.
    fn outside(self, rec: Record) -> bool
        ensures { result ≡ outside self rec }
    {
        match rec {
            Record::Frame(frame) => !(1..=Table::TICKS).contains(&frame),
            Record::Job(release, base, count) => {
                self.frame <= release
                    || !(1..=Table::BASE).contains(&base)
                    || !(1..=Table::COUNT).contains(&count)
            }
            Record::Segment(shortest, longest, _) => {
                !(1..=longest).contains(&shortest) || Table::TICKS < longest
            }
        }
    }

    // The record is a job released earlier than the job before it.
    fn earlier(self, rec: Record) -> bool
        ensures { result ≡ earlier self rec }
    {
        match rec {
            Record::Job(release, _, _) => release < self.release,
            _ => false,
        }
    }

    // The record is a job or a segment beyond the last that a table may have.
    fn beyond(self, rec: Record) -> bool
        ensures { result ≡ beyond self rec }
    {
        match rec {
            Record::Frame(_) => false,
            Record::Job(..) => Table::JOBS <= self.jobs,
            Record::Segment(..) => Table::SEGMENTS <= self.segments,
        }
    }

    // The release of the last job, the record counted.
    fn last_release(self, rec: Record) -> u32
        ensures { result ≡ (learn self rec).release }
    {
        match rec {
            Record::Job(release, _, _) => release,
            _ => self.release,
        }
    }
}

impl Scan {
    #[tactic(auto, unfolding(crate::specs::Steps::scan_of, crate::specs::Steps::known_of, crate::specs::Refusal::failing))]
    pub fn new() -> Scan
        ensures { result ≡ scan_of [] }
    {
        Scan {
            release: 0,
            faulty: None,
            early: None,
            beyond: None,
        }
    }

    // One record more, whose mark stands at a place.
    #[tactic(auto, unfolding(crate::specs::Steps::scanned))]
    pub fn push(&mut self, known: Known, at: usize, rec: Record)
        ensures { self.new ≡ scanned self.old known at rec }
    {
        self.release = known.last_release(rec);
        self.faulty = self.faulty.or(known.outside(rec).then_some(at));
        self.early = self.early.or(known.earlier(rec).then_some(at));
        self.beyond = self.beyond.or(known.beyond(rec).then_some(at));
    }
}
