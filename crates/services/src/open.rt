// What a service finds in a table: a refusal of its bytes or of a run that ends late, or the job set.
ghost use Rattle.services.specs.Open.{Opens};

use crate::ending;
use crate::refusal::Refusal;
use crate::runnable::Runnable;
use table::Table;

pub fn open(bytes: &[u8]) -> Result<Runnable, Refusal>
    ensures { Opens bytes.now result }
{
    let table = Table::read(bytes)?;
    let set = jobset::load(&table);
    if set.jobs.frame() < ending::last_end(&set) {
        return Err(Refusal::Late);
    }
    Ok(Runnable { set })
}
