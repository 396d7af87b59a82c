// Job tables written as text, turned into table bytes.
#![tactic(auto)]

ghost use Rattle.std.specs.Prelude.{◌≤◌, IfOk};
ghost use Rattle.draft.specs.Packing.{pack_of, Gives};

use draft::Draft;
use table::Table;

mod bytes;
mod cause;
mod draft;
mod forms;
mod locks;
mod text;

pub use cause::{Cause, Refused};

// Turns a text into the bytes of the table that it says, and answers how many they are.
pub fn pack(text: &[u8], out: &mut [u8; 4096]) -> Result<usize, Refused>
    ensures given { Gives out.old out.new result (pack_of text.now) }
    ensures fits { IfOk result (λ n. n ≤ 4096) }
{
    let mut draft = Draft::new();
    draft.read_all(text)?;
    let bytes = draft.bytes();
    if let Err(refused) = Table::read(bytes) {
        return Err(Refused {
            cause: Cause::Table(refused.fault),
            line: draft.line_of(refused.place),
        });
    }
    out[..bytes.len()].copy_from_slice(bytes);
    Ok(bytes.len())
}
