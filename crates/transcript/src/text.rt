// Words and numbers of a text. Nothing here can fail: what is not there is empty or 0.
ghost use Rattle.std.specs.Prelude.{◌<◌};

use arrayvec::ArrayVec;

// The longest table that a command may give.
pub const TABLE: usize = 5000;

// The most numbers that a command may give.
const NUMBERS: usize = 400;

pub fn first_word(s: &[u8]) -> &[u8] {
    s.split(|c| *c == b' ').next().unwrap_or(s)
}

// A number in decimal, modulo 2^32; `-` is 4,294,967,295.
pub fn number(s: &[u8]) -> u32 {
    if s.starts_with(b"-") {
        return u32::MAX;
    }
    s.iter().fold(
        0u32,
        |n, c| n.wrapping_mul(10).wrapping_add(u32::from(digit(*c))),
    )
}

// The numbers of a line after its first word, as many as fit: `extend` stops where there is no room.
pub fn numbers(line: &[u8]) -> ArrayVec<u32, NUMBERS> {
    let mut numbers = ArrayVec::new();
    let _ = numbers.extend(line.split(|c| *c == b' ').skip(1).map(number));
    numbers
}

// Small letters alone are digits, where `to_digit(16)` takes capital letters too.
fn digit(c: u8) -> u8
    ensures { result < 16 }
{
    match c {
        b'0'..=b'9' => c - b'0',
        b'a'..=b'f' => c - b'a' + 10,
        _ => 0,
    }
}

// The bytes that a word gives, two digits each, as many as fit.
pub fn bytes(word: &[u8]) -> ArrayVec<u8, TABLE> {
    let mut bytes = ArrayVec::new();
    let (pairs, _) = word.as_chunks::<2>();
    let _ = bytes.extend(
        pairs
            .iter()
            .map(|[high, low]| 16 * digit(*high) + digit(*low)),
    );
    bytes
}
