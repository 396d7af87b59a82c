// The lock names of a text.
ghost use Rattle.std.specs.Prelude.{◌≤◌};
ghost use Rattle.arrayvec.specs.ArrayVec.{array_vec_len};
ghost use Rattle.draft.specs.Locks.{most_locks};

use crate::text;
use arrayvec::ArrayVec;

// The names so far, in the order in which they appear first.
#[derive(Drop)]
pub struct Names<'a> {
    names: ArrayVec<&'a [u8], 16>,
    ghost few: { array_vec_len names ≤ most_locks },
}

impl<'a> Names<'a> {
    ghost use Rattle.std.specs.Prelude.{◌≡◌, []};
    ghost use Rattle.std.specs.List.{position};
    ghost use Rattle.draft.specs.Words.{words_of, same};
    ghost use Rattle.draft.specs.Known.{known, NumberIs, LocksAre};

    pub fn new() -> Names<'a>
        ensures { known result ≡ [] }
    {
        Names {
            names: ArrayVec::new(),
        }
    }

    fn place_of(&self, name: &[u8]) -> Option<usize>
        ensures { result ≡ position (λ known. same known name.now) (known self.now) }
    {
        self.names
            .as_slice()
            .iter()
            .position(|known| *known == name)
    }

    // The number of a name, which is known from then on; none where there is no room for it.
    fn number_of(&mut self, name: &'a [u8]) -> Option<usize>
        ensures { NumberIs (known self.old) (known self.new) name.now result }
    {
        if let Some(k) = self.place_of(name) {
            return Some(k);
        }
        let k = self.names.len();
        self.names.try_push(name).ok()?;
        Some(k)
    }

    // The locks that the words of a line name: the bits; none where there are too many names.
    pub fn held_by(&mut self, line: &'a [u8]) -> Option<u16>
        ensures { LocksAre (known self.old) (known self.new) (words_of line.now) result }
    {
        let mut held = 0;
        let mut rest = line;
        while let Some((name, more)) = text::next_word(rest) {
            held |= 1u16 << self.number_of(name)?;
            rest = more;
        }
        Some(held)
    }
}
