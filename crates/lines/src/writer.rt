// Words written into a lent buffer, as far as it goes: byte for byte, as `listing` promises, and so not by `write!`.
ghost use Rattle.std.specs.Prelude.{◌≡◌, ◌+◌, ◌^◌, ◌<◌, ◌≤◌, length, set};
ghost use Rattle.lines.specs.Text.{decimal, shown, kind_word};
ghost use Rattle.lines.specs.Writer.{Writes, WritesWord};

use itoa::Buffer;

// The names of the kinds, by number.
const KINDS: [&[u8]; 4] = [b"first", b"end", b"step", b"cut"];

// A lent buffer, and the length of the text so far. Of a text that is longer than the buffer, the buffer has the beginning.
#[derive(Drop)]
pub struct Writer<'a> {
    pub out: &'a mut [u8],
    pub length: usize,
}

// One byte, where there is room.
fn store(out: &mut [u8], at: usize, b: u8)
    ensures { out.new ≡ set out.old at b }
{
    if at < out.len() {
        out[at] = b;
    }
}

impl Writer<'_> {
    // Byte by byte: words are short, and a copy of so few bytes takes longer than their stores. The buffer and the place are values of their own, so that they
    // stay in registers.
    fn text(&mut self, s: &[u8])
        requires { self.old.length + length s.now < 2 ^ 64 }
        ensures { Writes self.old s.now self.new }
    {
        let out = &mut *self.out;
        let mut at = self.length;
        for b in s {
            store(out, at, *b);
            at += 1;
        }
        self.length = at;
    }

    // A word, and the byte that ends it.
    pub fn word(&mut self, s: &[u8], end: u8)
        requires { (self.old.length + 11 < 2 ^ 64) × (length s.now ≤ 10) }
        ensures { WritesWord self.old s.now end self.new }
    {
        self.text(s);
        self.text(&[end]);
    }

    #[tactic(auto, using(crate::specs::Digits::decimal_std))]
    pub fn number(&mut self, n: u32, end: u8)
        requires { self.old.length + 11 < 2 ^ 64 }
        ensures { WritesWord self.old (decimal n) end self.new }
    {
        let mut digits = Buffer::new();
        self.word(digits.format(n).as_bytes(), end);
    }

    // A number, or `-`.
    #[tactic(auto, unfolding(crate::specs::Text::shown))]
    pub fn field(&mut self, n: u32, end: u8)
        requires { self.old.length + 11 < 2 ^ 64 }
        ensures { WritesWord self.old (shown n) end self.new }
    {
        match n {
            u32::MAX => self.word(b"-", end),
            _ => self.number(n, end),
        }
    }

    // A kind, by its name; a number that is no kind by its digits, so it is taken as a number.
    #[tactic(auto, unfolding(crate::specs::Text::kind_word))]
    pub fn kind(&mut self, kind: u32, end: u8)
        requires { self.old.length + 11 < 2 ^ 64 }
        ensures { WritesWord self.old (kind_word kind) end self.new }
    {
        match KINDS.get(kind as usize) {
            Some(name) => self.word(name, end),
            None => self.number(kind, end),
        }
    }
}
