// Rows of words written into lent ones, as far as there is room.
ghost use Rattle.std.specs.Prelude.{◌≡◌};
ghost use Rattle.std.proofs.lemmas.List.Edits.{sets};

// What stands where there is no job, no segment or no node before.
pub const NOTHING: u32 = u32::MAX;

// From place `at` on.
#[tactic(auto, using(crate::proofs::Written::word_in, crate::proofs::Written::word_out))]
pub fn write<T: Copy>(to: &mut [T], at: usize, row: &[T])
    ensures { to.new ≡ sets to.old at row.now }
{
    // By place: for elements of any type, no proof closed over `copy_from_slice` of a part, or over an adapter of `iter_mut`.
    for (i, x) in row.iter().enumerate() {
        let place = at.saturating_add(i);
        if place < to.len() {
            to[place] = *x;
        }
    }
}
