// The functions of vlodenka as C calls them: each is exported under its own name, and promises what the library's does. See include/vlodenka.h.
#![tactic(auto)]

ghost use Rattle.vlodenka.specs.Answers.{Replays, Judges, Draws, Places};

#[unsafe(no_mangle)]
pub extern "C" fn vlodenka_replay(
    table: &[u8],
    times: &[u32],
    log: &mut [u32],
    switches: &mut u32,
) -> u32
    ensures { Replays table.now times.now log.old log.new switches.new result }
{
    vlodenka::vlodenka_replay(table, times, log, switches)
}

#[unsafe(no_mangle)]
pub extern "C" fn vlodenka_judge(table: &[u8], log: &[u32], times: &mut [u32]) -> u32
    ensures { Judges table.now log.now times.old times.new result }
{
    vlodenka::vlodenka_judge(table, log, times)
}

#[unsafe(no_mangle)]
pub extern "C" fn vlodenka_tree(
    table: &[u8],
    words: &mut [u32],
    nodes: &mut u32,
    orders: &mut u32,
) -> u32
    ensures { Draws table.now words.old words.new nodes.new orders.new result }
{
    vlodenka::vlodenka_tree(table, words, nodes, orders)
}

#[unsafe(no_mangle)]
pub extern "C" fn vlodenka_part(table: &[u8], job: u32, start: &mut u32, length: &mut u32)
    ensures { Places table.now job start.new length.new }
{
    vlodenka::vlodenka_part(table, job, start, length)
}
