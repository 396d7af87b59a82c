// The log of a run in lent words, four words a switch.
ghost use Rattle.std.specs.Prelude.{◌<◌};
ghost use Rattle.kernel.specs.Code.{four_words, last_words, last_count, note_words, Appended};

use crate::kind::Kind;
use crate::state::Due;
use crate::words;

#[derive(Drop)]
pub struct Log<'a> {
    pub words: &'a mut [u32],
    // How many switches there are, with or without room. Each method asks that there may be one more, which no invariant of the log can say.
    pub count: usize,
}

impl<'a> Log<'a> {
    // One switch more.
    fn put(&mut self, kind: Kind, tick: u32, job: u32, segment: u32)
        requires { self.old.count < 4096 }
        ensures { Appended self.old self.new 1 (four_words kind tick job segment) }
    {
        words::write(
            self.words,
            4 * self.count,
            &[u32::from(kind), tick, job, segment],
        );
        self.count += 1;
    }

    // The last switch: an END with neither job nor segment.
    pub fn last(&mut self, due: Due)
        requires { self.old.count < 4096 }
        ensures { Appended self.old self.new (last_count due) (last_words due) }
    {
        if let Due::Leaving(kind, tick) = due {
            self.put(kind, tick, words::NOTHING, words::NOTHING);
        }
    }

    // The switch that the dispatch of segment k of job d reports at a tick, where another job ran before.
    pub fn note(&mut self, due: Due, tick: u32, d: u32, k: u32)
        requires { self.old.count < 4096 }
        ensures { Appended self.old self.new 1 (note_words due tick d k) }
    {
        match due {
            Due::First => self.put(Kind::First, tick, d, k),
            Due::Cutting => self.put(Kind::Cut, tick, d, k),
            Due::Leaving(kind, left) => self.put(kind, left, d, k),
        }
    }
}
