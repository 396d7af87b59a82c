// A node of the tree, from its words.
ghost use Rattle.std.specs.Prelude.{◌≡◌};
ghost use Rattle.lines.specs.Text.{row_at};

#[derive(Clone, Copy, Debug, PartialEq, Eq)]
pub struct Row {
    pub parent: u32,
    // A number and no enum: a word that no tree has here is shown as its number (`kind_word`).
    pub kind: u32,
    pub job: u32,
    pub segment: u32,
    pub earliest_leaving: u32,
    pub latest_leaving: u32,
    pub earliest_start: u32,
    pub latest_start: u32,
}

impl Row {
    // Node i, of the tree's words, eight a node; 0 past their end.
    pub fn at(words: &[u32], i: u32) -> Row
        ensures { result ≡ row_at words.now i }
    {
        // Word by word and not by chunks: where the words end within a node, the rest of it is 0.
        let first = 8 * i as usize;
        let word = |k: usize| words.get(first + k).copied().unwrap_or(0);
        Row {
            parent: word(0),
            kind: word(1),
            job: word(2),
            segment: word(3),
            earliest_leaving: word(4),
            latest_leaving: word(5),
            earliest_start: word(6),
            latest_start: word(7),
        }
    }
}
