// What a line of the transcript asks for.
use crate::text;

// A command that calls a service with numbers has its line, whose words after the first they are.
#[derive(Clone, Copy, Debug, PartialEq, Eq)]
pub enum Command<'a> {
    Table(&'a [u8]),
    Room(usize),
    List,
    Replay(&'a [u8]),
    Judge(&'a [u8]),
    Tree,
}

impl<'a> Command<'a> {
    // A line that begins with none of the commands' names is a remark. The beginning alone tells, so that no `match` on the line or its first word would do.
    pub fn of(line: &'a [u8]) -> Option<Command<'a>> {
        if let Some(rest) = line.strip_prefix(b"table ") {
            Some(Command::Table(text::first_word(rest)))
        } else if let Some(rest) = line.strip_prefix(b"room ") {
            Some(Command::Room(text::number(text::first_word(rest)) as usize))
        } else if line.starts_with(b"list") {
            Some(Command::List)
        } else if line.starts_with(b"replay") {
            Some(Command::Replay(line))
        } else if line.starts_with(b"judge") {
            Some(Command::Judge(line))
        } else if line.starts_with(b"tree") {
            Some(Command::Tree)
        } else {
            None
        }
    }
}
