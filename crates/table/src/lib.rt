// The job table: its bytes are read record by record, and a table that reads whole and keeps its limits is held by value.
#![tactic(auto)]

ghost use Rattle.std.specs.Prelude.{◌≡◌, [], ◌+◌, ◌*◌, ◌<◌};
ghost use Rattle.table.specs.Table.{recorded};
ghost use Rattle.table.specs.Refusal.{fault_number, outcome_of};
ghost use Rattle.table.specs.Part.{Lies, start_of, length_of, part_of};
ghost use Rattle.table.specs.Steps.{kept, added, known_by, judged};
ghost use Rattle.table.specs.Records.{may_end};

mod records;
mod scan;

use records::{Place, Record};
use scan::{Known, Scan};

// What a job's record says, the place of its mark, and the number of its first segment.
#[derive(Clone, Copy, Debug, Default, PartialEq, Eq)]
pub struct Job {
    pub mark: usize,
    pub release: u32,
    pub base: u8,
    pub first: usize,
    pub count: u8,
}

#[derive(Clone, Copy, Debug, Default, PartialEq, Eq)]
pub struct Segment {
    pub shortest: u32,
    pub longest: u32,
    pub held: u16,
}

// Jobs and segments past the last that fits are counted and not stored.
#[derive(Clone, Copy)]
pub struct Table {
    pub frame: u32,
    pub jobs: usize,
    pub segments: usize,
    // In table order.
    pub job: [Job; Table::JOBS],
    pub segment: [Segment; Table::SEGMENTS],
}

// What a table is refused for: the numbers 1 to 4.
#[derive(Clone, Copy, Debug, PartialEq, Eq)]
pub enum Fault {
    Unreadable = 1,
    OutOfBounds,
    OutOfOrder,
    Crowded,
}

// A fault, and the place in the bytes where it arose.
#[derive(Clone, Copy, Debug, PartialEq, Eq)]
pub struct Refused {
    pub fault: Fault,
    pub place: usize,
}

// Bytes that lie together in a table.
#[derive(Clone, Copy, Debug, PartialEq, Eq)]
pub struct Extent {
    pub start: usize,
    pub length: usize,
}

// Counts a value, and stores it at the end of the row where there is room.
fn put<T: Copy, const N: usize>(row: &mut [T; N], count: &mut usize, value: T)
    requires { count.old < 4096 }
    ensures stored { row.new ≡ kept N row.old count.old value }
    ensures counted { count.new ≡ count.old + 1 }
{
    // A test and an index: the library does not promise what a slice ends as after `get_mut`.
    if *count < N {
        row[*count] = value;
    }
    *count += 1;
}

impl Table {
    pub const BYTES: usize = 4096;

    pub const JOBS: usize = 32;

    pub const SEGMENTS: usize = 64;

    // Of a frame length and of a segment's longest time.
    pub const TICKS: u32 = 1000000;

    pub const BASE: u8 = 200;

    // Of the segments of one job.
    pub const COUNT: u8 = 8;

    // The table of no record.
    #[tactic(auto, unfolding(crate::specs::Table::recorded, crate::specs::Table::table_from, crate::specs::Table::jobs_from, crate::specs::Table::segments_of, crate::specs::Table::frame_of, crate::specs::Table::padded))]
    pub fn new() -> Table
        ensures { result ≡ recorded [] }
    {
        Table {
            frame: 0,
            jobs: 0,
            segments: 0,
            job: [Job::default(); Table::JOBS],
            segment: [Segment::default(); Table::SEGMENTS],
        }
    }

    // One record more, whose mark stands at a place.
    #[tactic(auto, unfolding(crate::specs::Steps::added, crate::specs::Steps::with_job, crate::specs::Steps::with_segment))]
    fn push(&mut self, at: usize, rec: Record)
        requires few_jobs { self.old.jobs < 4096 }
        requires few_segments { self.old.segments < 4096 }
        ensures { self.new ≡ added self.old at rec }
    {
        match rec {
            Record::Frame(frame) => self.frame = frame,
            Record::Job(release, base, count) => {
                let job = Job {
                    mark: at,
                    release,
                    base,
                    first: self.segments,
                    count,
                };
                put(&mut self.job, &mut self.jobs, job);
            }
            Record::Segment(shortest, longest, held) => {
                let segment = Segment {
                    shortest,
                    longest,
                    held,
                };
                put(&mut self.segment, &mut self.segments, segment);
            }
        }
    }

    // What the records so far say, where the last job has this release.
    fn known(&self, release: u32) -> Known
        ensures { result ≡ known_by self.now release }
    {
        Known {
            frame: self.frame,
            release,
            jobs: self.jobs,
            segments: self.segments,
        }
    }

    // A table that reads whole and keeps its limits; else its lowest fault, at the first place where that arises.
    #[tactic(auto, using(crate::proofs::Walk::start, crate::proofs::Walk::step, crate::proofs::Walk::told, crate::proofs::Verdict::too_long, crate::proofs::Verdict::passed, crate::proofs::Verdict::refused))]
    pub fn read(bytes: &[u8]) -> Result<Table, Refused>
        ensures { result ≡ outcome_of bytes.now }
    {
        if Table::BYTES < bytes.len() {
            return Err(Fault::Unreadable.at(Table::BYTES));
        }
        let mut table = Table::new();
        let mut scan = Scan::new();
        let mut place = Place::First;
        let mut at = 0;
        // Records differ in size, so no iterator steps over them.
        while at < bytes.len() {
            let Some(rec) = Record::read(&bytes[at..], place) else {
                return Err(Fault::Unreadable.at(at));
            };
            let known = table.known(scan.release);
            scan.push(known, at, rec);
            table.push(at, rec);
            place = place.after(rec);
            at += rec.size();
        }
        table.judge(scan, place, at)?;
        Ok(table)
    }

    // What the table is refused for, where its bytes ended at a place.
    fn judge(&self, scan: Scan, place: Place, end: usize) -> Result<(), Refused>
        ensures { result ≡ judged (may_end place) scan self.now.jobs end }
    {
        if !place.may_end() {
            return Err(Fault::Unreadable.at(end));
        }
        if let Some(at) = scan.faulty {
            return Err(Fault::OutOfBounds.at(at));
        }
        if let Some(at) = scan.early {
            return Err(Fault::OutOfOrder.at(at));
        }
        if self.jobs == 0 {
            return Err(Fault::Crowded.at(end));
        }
        if let Some(at) = scan.beyond {
            return Err(Fault::Crowded.at(at));
        }
        Ok(())
    }

    // Where the records of one job lie: nowhere, at the end, where the table is refused or has no such job.
    #[tactic(auto, using(crate::proofs::Parts::refused_there, crate::proofs::Parts::past_there, crate::proofs::Parts::job_there, crate::proofs::Parts::small))]
    pub fn extent(bytes: &[u8], job: u32) -> Extent
        ensures { result ≡ record { start = start_of bytes.now job; length = length_of bytes.now job } }
    {
        match Table::read(bytes) {
            Ok(table) if (job as usize) < table.jobs => table.job[job as usize].extent(),
            _ => Extent {
                start: bytes.len(),
                length: 0,
            },
        }
    }

    // The records of one job, as a part of the table's own bytes: empty and at the end where the table is refused or has no such job.
    #[tactic(auto, using(crate::proofs::Parts::there_fits, crate::proofs::Parts::at_job))]
    pub fn part(bytes: &[u8], job: u32) -> &[u8]
        ensures { Lies bytes.entry result (start_of bytes.now job) (part_of bytes.now job) }
    {
        let Extent { start, length } = Table::extent(bytes, job);
        &bytes[start..start + length]
    }
}

impl Job {
    // Where its record and its segments' records lie.
    fn extent(self) -> Extent
        ensures { result ≡ record { start = self.mark; length = 8 + 12 * self.count } }
    {
        Extent {
            start: self.mark,
            length: 8 + 12 * usize::from(self.count),
        }
    }
}

impl Fault {
    fn at(self, place: usize) -> Refused
        ensures { result ≡ record { fault = self; place = place } }
    {
        Refused { fault: self, place }
    }
}

impl From<Fault> for u32 {
    ghost from_gives = { λ fault number. number ≡ fault_number fault };

    fn from(fault: Fault) -> u32 {
        fault as u32
    }
}
