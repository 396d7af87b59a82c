// The table that the lines so far say, as its bytes.
ghost use Rattle.std.specs.Prelude.{◌≤◌};
ghost use Rattle.arrayvec.specs.ArrayVec.{array_vec_len};
ghost use Rattle.draft.specs.LastJob.{last_end};

use crate::cause::{Cause, Refused};
use crate::forms::Line;
use crate::locks::Names;
use crate::{bytes, forms};
use arrayvec::ArrayVec;

// The last job: the place of its mark, its line and how many segments it has.
#[derive(Clone, Copy, Debug, PartialEq, Eq)]
struct LastJob {
    at: usize,
    line: u32,
    segments: u8,
}

#[derive(Drop)]
pub struct Draft<'a> {
    made: ArrayVec<u8, 4096>,
    // Of each record, at the place of its mark, its line: by place, since the table's reader answers a place where it refuses.
    lines: [u32; 4096],
    // The line read last.
    line: u32,
    job: Option<LastJob>,
    names: Names<'a>,
    ghost inside: { last_end job ≤ array_vec_len made },
}

impl<'a> Draft<'a> {
    ghost use Rattle.std.specs.Prelude.{◌≡◌, ◌+◌, ◌<◌, ◌≤◌, length, get_or, Some, None, MatchResult};
    ghost use Rattle.draft.specs.Words.{words_of};
    ghost use Rattle.draft.specs.Text.{next_line, with_frame, with_job, with_segment, read_line, ended, start, draw_of};
    ghost use Rattle.draft.specs.Packing.{or_last};
    ghost use Rattle.draft.specs.LastJob.{bare_line};
    ghost use Rattle.draft.specs.Drafts.{Holds, Told, Follows, Pushed, size};
    ghost use Rattle.table.specs.declared.records.Record.TheVariants.{Segment as SegmentRecord};

    pub fn new() -> Draft<'a>
        ensures { Holds result start }
    {
        Draft {
            made: ArrayVec::new(),
            lines: [0; 4096],
            line: 0,
            job: None,
            names: Names::new(),
        }
    }

    // A refusal at the line read last.
    fn refused(&self, cause: Cause) -> Refused
        ensures { result ≡ record { cause = cause; line = self.now.line } }
    {
        Refused {
            cause,
            line: self.line,
        }
    }

    // The last job needs a segment.
    fn no_bare_job(&self) -> Result<(), Refused>
        ensures { MatchResult result (λ _. bare_line self.now.job ≡ None) (λ e. (e.cause ≡ Cause.SegmentCount) × (bare_line self.now.job ≡ Some e.line)) }
    {
        match self.job {
            Some(job) if job.segments == 0 => Err(Refused {
                cause: Cause::SegmentCount,
                line: job.line,
            }),
            _ => Ok(()),
        }
    }

    // Adds the bytes of one record, where there is room.
    fn push(&mut self, part: &[u8]) -> Result<(), Refused>
        requires { 0 < length part.now }
        ensures { MatchResult result (λ _. Pushed self.old part.now self.new) (λ e. (e ≡ record { cause = Cause.TooLong; line = self.old.line }) × (4096 < size self.old + length part.now)) }
    {
        let at = self.made.len();
        if self.made.try_extend_from_slice(part).is_err() {
            return Err(self.refused(Cause::TooLong));
        }
        self.lines[at] = self.line;
        Ok(())
    }

    fn with_frame(&mut self, frame: u32) -> Result<(), Refused>
        ensures { Follows self.old self.new result (with_frame self.old.line frame) }
    {
        if !self.made.is_empty() {
            return Err(self.refused(Cause::FrameMisplaced));
        }
        self.push(&bytes::frame(frame))
    }

    fn with_job(&mut self, release: u32, priority: u8) -> Result<(), Refused>
        ensures { Follows self.old self.new result (with_job self.old.line release priority) }
    {
        if self.made.is_empty() {
            return Err(self.refused(Cause::FrameMisplaced));
        }
        self.no_bare_job()?;
        let at = self.made.len();
        self.push(&bytes::job(release, priority))?;
        self.job = Some(LastJob {
            at,
            line: self.line,
            segments: 0,
        });
        Ok(())
    }

    fn with_segment(&mut self, shortest: u32, longest: u32, held: u16) -> Result<(), Refused>
        ensures { Follows self.old self.new result (with_segment self.old.line (SegmentRecord shortest longest held)) }
    {
        if self.made.is_empty() {
            return Err(self.refused(Cause::FrameMisplaced));
        }
        let Some(job) = self.job else {
            return Err(self.refused(Cause::SegmentMisplaced));
        };
        if job.segments == u8::MAX {
            return Err(self.refused(Cause::SegmentCount));
        }
        self.push(&bytes::segment(shortest, longest, held))?;
        let segments = job.segments + 1;
        let count_at = job.at + 7;
        self.made[count_at] = segments;
        self.job = Some(LastJob { segments, ..job });
        Ok(())
    }

    // Reads one line more.
    fn read(&mut self, text: &'a [u8]) -> Result<(), Refused>
        ensures { Follows self.old self.new result (read_line (next_line self.old.line) (words_of text.now)) }
    {
        self.line = self.line.saturating_add(1);
        match forms::read_line(text, &mut self.names) {
            Ok(Line::Nothing) => Ok(()),
            Ok(Line::Frame(frame)) => self.with_frame(frame),
            Ok(Line::Job(release, priority)) => self.with_job(release, priority),
            Ok(Line::Segment(shortest, longest, held)) => self.with_segment(
                shortest, longest, held,
            ),
            Err(cause) => Err(self.refused(cause)),
        }
    }

    // The text ends here.
    fn end(&self) -> Result<(), Refused>
        ensures { Follows self.now self.now result ended }
    {
        if self.made.is_empty() {
            return Err(self.refused(Cause::Empty));
        }
        self.no_bare_job()
    }

    // The lines of a text, read into a draft that has none yet. It has room for the longest table and a line for each of its bytes, so that it is lent and not handed back.
    pub fn read_all(&mut self, text: &'a [u8]) -> Result<(), Refused>
        requires { Holds self.old start }
        ensures { Told self.new result (draw_of text.now) }
    {
        for line in text.split(|b| *b == b'\n') {
            self.read(line)?;
        }
        self.end()
    }

    pub fn bytes(&self) -> &[u8]
        ensures value { result.now ≡ self.now.made.items }
        ensures fits { length result.now ≤ 4096 }
    {
        self.made.as_slice()
    }

    // The line of the record whose mark stands at a place; the text's last line where no record stands there.
    pub fn line_of(&self, place: usize) -> u32
        ensures { result ≡ or_last (get_or self.now.lines place 0) self.now.line }
    {
        match self.lines.get(place) {
            Some(line) if *line != 0 => *line,
            _ => self.line,
        }
    }
}
