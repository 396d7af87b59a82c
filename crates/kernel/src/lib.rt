// The kernel of paper 01: the job set of a table, and a run tick by tick.
#![tactic(auto)]

ghost use Rattle.kernel.specs.Rules.{Within};
ghost use Rattle.kernel.specs.Held.{set_of};
ghost use Rattle.kernel.specs.Log.{time_in};
ghost use Rattle.kernel.specs.Code.{Logged};

pub mod accepted;
pub mod jobs;
pub mod keys;
pub mod kind;
mod log;
mod state;
pub mod total;
pub mod words;

use accepted::Accepted;
use log::Log;
use state::{Processor, Standings};

// Runs the jobs with these times and writes the log. Answers how many switches there are.
pub fn run(set: &Accepted, times: &[u32], log: &mut [u32]) -> usize
    requires { Within (set_of set.now.jobs) (time_in (set_of set.now.jobs) times.now) }
    ensures { Logged set.now.jobs times.now log.old log.new result }
{
    let frame = set.jobs.frame();
    let mut standings = Standings::fresh(set, times);
    let mut processor = Processor::idle(set);
    let mut log = Log {
        words: log,
        count: 0,
    };
    // Not `0..=frame`: that loop ends in two places, and the proof of the second repeats that of a turn.
    for tick in 0..frame + 1 {
        let ended = processor.ended(set);
        let released = processor.releases(set, tick);
        if ended {
            processor.end_segment(&mut standings, set, times, tick);
        }
        if released {
            processor.release(&mut standings, set, tick);
        }
        match standings.dispatched() {
            None => {
                if state::none_from(set, processor.released) {
                    log.last(processor.due);
                    return log.count;
                }
            }
            Some(d) => {
                if d != processor.running {
                    log.note(processor.due, tick, d as u32, standings.present(d));
                    processor.dispatch(&mut standings, set, d);
                }
                processor.run_tick();
            }
        }
    }
    log.count
}
