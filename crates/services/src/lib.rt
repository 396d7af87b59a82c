// The services that stand on a table of bytes. Arbitrary bytes and numbers are answered, with a refusal where one applies.
#![tactic(auto)]

ghost use Rattle.std.specs.Prelude.{◌↔◌, IsTrue};
ghost use Rattle.kernel.specs.Held.{set_of};
ghost use Rattle.services.specs.Replay.{Replays, ReplayPromise};
ghost use Rattle.services.specs.Tree.{Trees, TreePromise};
ghost use Rattle.services.specs.Judge.{Judges, JudgePromise, RunsTo};

mod ending;
mod log;
mod open;
mod refusal;
mod runnable;
mod times;
mod told;

use kernel::accepted::Accepted;
use log::Log;
pub use refusal::{Refusal, number_of};
use runnable::Runnable;
pub use walk::counts::Counts;

// The log of the run with these times, one per segment in table order. Answers how many switches it has.
pub fn replay(table: &[u8], times: &[u32], log: &mut [u32]) -> Result<u32, Refusal>
    ensures { ReplayPromise table.now times.now log.old log.new result }
{
    open::open(table)?.replay(times, log)
}

// The times of the run whose log this is, one per segment in table order.
pub fn judge(table: &[u8], log: &[u32], times: &mut [u32]) -> Result<(), Refusal>
    ensures { JudgePromise table.now log.now times.old times.new result }
{
    open::open(table)?.judge(log, times)
}

// The tree of all orders, eight words a node.
pub fn tree(table: &[u8], nodes: &mut [u32]) -> Result<Counts, Refusal>
    ensures { TreePromise table.now nodes.old nodes.new result }
{
    open::open(table)?.tree(nodes)
}

impl Runnable {
    fn replay(&self, times: &[u32], log: &mut [u32]) -> Result<u32, Refusal>
        ensures { Replays times.now log.old log.new result (set_of self.now.set.jobs) }
    {
        if !times::fit(&self.set, times) {
            return Err(Refusal::Times);
        }
        let ran = Log::of(&self.set, times);
        let words = ran.words();
        if log.len() < words.len() {
            return Err(Refusal::Room);
        }
        log[..words.len()].copy_from_slice(words);
        Ok((words.len() / 4) as u32)
    }

    fn judge(&self, log: &[u32], times: &mut [u32]) -> Result<(), Refusal>
        ensures { Judges log.now times.old times.new result (set_of self.now.set.jobs) }
    {
        let count = self.set.total_segments();
        if times.len() < count {
            return Err(Refusal::Room);
        }
        let told = told::times(&self.set, log);
        if !replays_to(&self.set, &told, log) {
            return Err(Refusal::NoRun);
        }
        times[..count].copy_from_slice(&told[..count]);
        Ok(())
    }

    fn tree(&self, nodes: &mut [u32]) -> Result<Counts, Refusal>
        ensures { Trees nodes.old nodes.new result (set_of self.now.set.jobs) }
    {
        walk::tree(&self.set, nodes).ok_or(Refusal::Room)
    }
}

// The times are within their bounds, and the run with them has this log.
fn replays_to(set: &Accepted, times: &[u32], log: &[u32]) -> bool
    ensures { IsTrue result ↔ RunsTo set.now.jobs times.now log.now }
{
    times::fit_jobs(set, times) && log == Log::of(set, times).words()
}
