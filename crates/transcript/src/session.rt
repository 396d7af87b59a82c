// What the commands so far have set, and the memory that the library is lent. Each call but that of `list` is lent words that hold a mark, and a word
// that the service is not said to write must hold it afterwards.
use crate::command::Command;
use crate::show::{Hex, Words};
use crate::text;
use crate::text::TABLE;
use arrayvec::ArrayVec;
use services::Counts;
use std::io;
use table::Table;

const MARK: u32 = 0xaaaa_aaaa;

// How many words a call is lent, where no command says otherwise: room for 2,048 nodes.
const ROOM: usize = 16384;

// How many words there are to lend, and room for the listing of what `list` draws.
const WORDS: usize = 16400;

const LISTING: usize = 205000;

#[derive(Drop)]
pub struct Session {
    table: ArrayVec<u8, TABLE>,
    room: usize,
    words: [u32; WORDS],
    listing: [u8; LISTING],
}

impl Session {
    pub fn new() -> Session {
        Session {
            table: ArrayVec::new(),
            room: ROOM,
            words: [0; WORDS],
            listing: [0; LISTING],
        }
    }

    // One line of the transcript.
    pub fn serve(&mut self, rt: &impl Print, line: &[u8]) -> io::Result<()> {
        rt.write_all(line)?;
        println!(rt)?;
        match Command::of(line) {
            Some(Command::Table(hex)) => self.read(rt, hex),
            Some(Command::Room(room)) => {
                self.room = room;
                Ok(())
            }
            Some(Command::List) => self.list(rt),
            Some(Command::Replay(line)) => self.replay(rt, line),
            Some(Command::Judge(line)) => self.judge(rt, line),
            Some(Command::Tree) => self.tree(rt),
            None => Ok(()),
        }
    }

    // table HEX: the refusal and its place, and the parts of the jobs by number, of one job more, and of the largest number.
    fn read(&mut self, rt: &impl Print, hex: &[u8]) -> io::Result<()> {
        self.table = text::bytes(hex);
        self.room = ROOM;
        let table = self.table.as_slice();
        let (refusal, place, jobs) = match Table::read(table) {
            Ok(table) => (0, 0, table.jobs),
            Err(refused) => (u32::from(refused.fault), refused.place, 0),
        };
        print!(rt; "reads {refusal} {place}")?;
        for job in 0..=jobs.min(32) as u32 {
            print!(rt; " {}", Hex(Table::part(table, job)))?;
        }
        println!(rt; " {}", Hex(Table::part(table, u32::MAX)))
    }

    // list: what the listing program prints. `lines` stands on no service, so that the call stands here too.
    fn list(&mut self, rt: &impl Print) -> io::Result<()> {
        let words = lent(&mut self.words, ROOM);
        let drawn = services::tree(self.table.as_slice(), words);
        let Counts { nodes, orders } = drawn.unwrap_or_default();
        let length = lines::listing(
            services::number_of(drawn),
            nodes,
            orders,
            words,
            &mut self.listing,
        );
        match self.listing.get(..length) {
            Some(text) => rt.write_all(text),
            None => Ok(()),
        }
    }

    // replay TIMES: the refusal and the log.
    fn replay(&mut self, rt: &impl Print, line: &[u8]) -> io::Result<()> {
        let times = text::numbers(line);
        let log = marked(&mut self.words, self.room);
        let replayed = services::replay(self.table.as_slice(), times.as_slice(), log);
        print!(rt; "-> {}", services::number_of(replayed))?;
        told(rt, log, 4 * replayed.unwrap_or(0) as usize)
    }

    // judge LOG: the refusal and the times.
    fn judge(&mut self, rt: &impl Print, line: &[u8]) -> io::Result<()> {
        let log = text::numbers(line);
        let times = marked(&mut self.words, self.room);
        let table = self.table.as_slice();
        let judged = services::judge(table, log.as_slice(), times);
        print!(rt; "-> {}", services::number_of(judged))?;
        let count = judged.map_or(0, |()| segments(table));
        told(rt, times, count)
    }

    // tree: the refusal, how many nodes and orders there are, and the nodes.
    fn tree(&mut self, rt: &impl Print) -> io::Result<()> {
        let words = marked(&mut self.words, self.room);
        let drawn = services::tree(self.table.as_slice(), words);
        let Counts { nodes, orders } = drawn.unwrap_or_default();
        print!(rt; "-> {} {nodes} {orders}", services::number_of(drawn))?;
        told(rt, words, 8 * nodes as usize)
    }
}

// How many segments a table has, each of which has a time.
fn segments(table: &[u8]) -> usize {
    Table::read(table).map_or(0, |table| table.segments)
}

// As many words as are asked for, and no more than there are.
fn lent(words: &mut [u32], room: usize) -> &mut [u32] {
    let room = room.min(words.len());
    &mut words[..room]
}

// The same, each with the mark.
fn marked(words: &mut [u32], room: usize) -> &mut [u32] {
    let words = lent(words, room);
    words.fill(MARK);
    words
}

// The first n words of a row, and whether the others are as they were.
fn told(rt: &impl Print, words: &[u32], n: usize) -> io::Result<()> {
    let (told, rest) = words.split_at(n.min(words.len()));
    let touched = if rest.iter().all(|word| *word == MARK) {
        ""
    } else {
        " touched"
    };
    println!(rt; "{}{touched}", Words(told))
}
