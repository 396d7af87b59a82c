// The services for C: a slice passes as pointer and length, the answer is the refusal's number, and every out-parameter is written on every call. See
// include/vlodenka.h. C links them by the crate vlodenka_c, since a library of Rattle exports nothing.
#![tactic(auto)]

ghost use Rattle.std.specs.Prelude.{◌≡◌, min};
ghost use Rattle.vlodenka.specs.Answers.{Replays, Judges, Draws, Places};

use services::number_of;
use table::Table;

// A table longer than any table can be may end beyond the largest number of 32 bits: then that is shown.
fn narrow(n: usize) -> u32
    ensures { result ≡ min n 4294967295 }
{
    u32::try_from(n).unwrap_or(u32::MAX)
}

#[unsafe(no_mangle)]
pub extern "C" fn vlodenka_replay(
    table: &[u8],
    times: &[u32],
    log: &mut [u32],
    switches: &mut u32,
) -> u32
    ensures { Replays table.now times.now log.old log.new switches.new result }
{
    let answer = services::replay(table, times, log);
    *switches = answer.unwrap_or_default();
    number_of(answer)
}

#[unsafe(no_mangle)]
pub extern "C" fn vlodenka_judge(table: &[u8], log: &[u32], times: &mut [u32]) -> u32
    ensures { Judges table.now log.now times.old times.new result }
{
    number_of(services::judge(table, log, times))
}

#[unsafe(no_mangle)]
pub extern "C" fn vlodenka_tree(
    table: &[u8],
    words: &mut [u32],
    nodes: &mut u32,
    orders: &mut u32,
) -> u32
    ensures { Draws table.now words.old words.new nodes.new orders.new result }
{
    let answer = services::tree(table, words);
    let counts = answer.unwrap_or_default();
    *nodes = counts.nodes;
    *orders = counts.orders;
    number_of(answer)
}

#[unsafe(no_mangle)]
pub extern "C" fn vlodenka_part(table: &[u8], job: u32, start: &mut u32, length: &mut u32)
    ensures { Places table.now job start.new length.new }
{
    let extent = Table::extent(table, job);
    *start = narrow(extent.start);
    *length = narrow(extent.length);
}
