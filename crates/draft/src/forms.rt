// What one line of a text says.
ghost use Rattle.std.specs.Prelude.{◌≡◌, ◌<◌, true, false, length, Some, None, MatchResult};
ghost use Rattle.draft.specs.Words.{words_of, first, others, none, same};
ghost use Rattle.draft.specs.Numbers.{number_of};
ghost use Rattle.draft.specs.Known.{known};
ghost use Rattle.draft.specs.Forms.{frame_says, job_says, holds_says, segment_says, line_says, with_names};

use crate::cause::Cause;
use crate::locks::Names;
use crate::text;

// Other than a record of a table, a line may have no word, and does not say how many segments a job has.
#[derive(Clone, Copy, Debug, PartialEq, Eq)]
pub enum Line {
    // The line has no word.
    Nothing,
    // It says the length of a frame.
    Frame(u32),
    // It says the release and the priority of a job.
    Job(u32, u8),
    // It says the shortest and the longest time of a segment, and the locks that it holds.
    Segment(u32, u32, u16),
}

// Reads the number that is due next, and answers what comes after it too.
#[tactic(auto, unfolding(crate::specs::Numbers::number_of))]
fn number(text: &[u8], most: u32) -> Result<(u32, &[u8]), Cause>
    ensures { MatchResult result (λ r. (number_of most (first (words_of text.now)) ≡ Some r.0) × (words_of r.1.now ≡ others (words_of text.now))) (λ e. (e ≡ Cause.BadNumber) × (number_of most (first (words_of text.now)) ≡ None)) }
{
    let (word, rest) = text::next_word(text).ok_or(Cause::BadNumber)?;
    let n = text::number_in(word, most).ok_or(Cause::BadNumber)?;
    Ok((n, rest))
}

// Reads the word that is due next, and answers what comes after it.
fn keyword<'a>(text: &'a [u8], key: &[u8]) -> Result<&'a [u8], Cause>
    requires { 0 < length key.now }
    ensures { MatchResult result (λ r. (same (first (words_of text.now)) key.now ≡ true) × (words_of r.now ≡ others (words_of text.now))) (λ e. (e ≡ Cause.BadWord) × (same (first (words_of text.now)) key.now ≡ false)) }
{
    match text::next_word(text) {
        Some((word, rest)) if word == key => Ok(rest),
        _ => Err(Cause::BadWord),
    }
}

// Asks that the line has no word more.
fn end(text: &[u8]) -> Result<(), Cause>
    ensures { MatchResult result (λ _. none (words_of text.now) ≡ true) (λ e. (e ≡ Cause.Trailing) × (none (words_of text.now) ≡ false)) }
{
    match text::next_word(text) {
        None => Ok(()),
        Some(_) => Err(Cause::Trailing),
    }
}

#[tactic(auto, unfolding(crate::specs::Forms::frame_says))]
fn frame(text: &[u8]) -> Result<Line, Cause>
    ensures { result ≡ frame_says (words_of text.now) }
{
    let (ticks, text) = number(text, u32::MAX)?;
    end(text)?;
    Ok(Line::Frame(ticks))
}

// Reads a job's line from the job's name on.
#[tactic(auto, using(crate::specs::Laws::Digits::number_most), unfolding(crate::specs::Forms::job_says, crate::specs::Forms::release_says, crate::specs::Forms::priority_says))]
fn job(text: &[u8]) -> Result<Line, Cause>
    ensures { result ≡ job_says (words_of text.now) }
{
    let (_, text) = text::next_word(text).ok_or(Cause::BadWord)?;
    let text = keyword(text, b"release")?;
    let (release, text) = number(text, u32::MAX)?;
    let text = keyword(text, b"priority")?;
    let (priority, text) = number(text, u32::from(u8::MAX))?;
    end(text)?;
    Ok(Line::Job(release, priority as u8))
}

// Reads a segment's line from after its longest time on.
#[tactic(auto, unfolding(crate::specs::Forms::holds_says, crate::specs::Forms::held_says))]
fn holds<'a>(
    text: &'a [u8],
    names: &mut Names<'a>,
    shortest: u32,
    longest: u32,
) -> Result<Line, Cause>
    ensures { with_names result (known names.new) ≡ holds_says (known names.old) shortest longest (words_of text.now) }
{
    if text::next_word(text).is_none() {
        return Ok(Line::Segment(shortest, longest, 0));
    }
    let text = keyword(text, b"holds")?;
    if text::next_word(text).is_none() {
        return Err(Cause::BadWord);
    }
    let held = names.held_by(text).ok_or(Cause::TooManyLocks)?;
    Ok(Line::Segment(shortest, longest, held))
}

// Reads a segment's line from its shortest time on.
#[tactic(auto, unfolding(crate::specs::Forms::segment_says))]
fn segment<'a>(text: &'a [u8], names: &mut Names<'a>) -> Result<Line, Cause>
    ensures { with_names result (known names.new) ≡ segment_says (known names.old) (words_of text.now) }
{
    let (shortest, text) = number(text, u32::MAX)?;
    let (longest, text) = number(text, u32::MAX)?;
    holds(text, names, shortest, longest)
}

// Reads a line, and adds the lock names that it brings to those known.
#[tactic(auto, unfolding(crate::specs::Forms::line_says))]
pub fn read_line<'a>(text: &'a [u8], names: &mut Names<'a>) -> Result<Line, Cause>
    ensures { with_names result (known names.new) ≡ line_says (known names.old) (words_of text.now) }
{
    let Some((word, text)) = text::next_word(text) else {
        return Ok(Line::Nothing);
    };
    // Tests one after the other: no proof closed over a `match` on byte strings with these arms and one for any other word.
    if word == b"frame".as_slice() {
        return frame(text);
    }
    if word == b"job".as_slice() {
        return job(text);
    }
    if word == b"segment".as_slice() {
        return segment(text, names);
    }
    Err(Cause::UnknownLine)
}
