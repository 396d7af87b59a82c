// Words and numbers in the bytes of a text.
ghost use Rattle.std.specs.Prelude.{◌≡◌, ℕ, ◌+◌, ◌*◌, ◌-◌, ◌<◌, ◌≤◌, Bool, MatchOption, [], ◌∷◌, length};
ghost use Rattle.draft.specs.Words.{is_white, is_ending, is_wordly, run, words_of};
ghost use Rattle.draft.specs.Numbers.{is_digit, within, number_of};

// White space is a space, a tab or a carriage return.
fn is_white(b: u8) -> bool
    ensures { result ≡ is_white b }
{
    matches!(b, b' ' | b'\t' | b'\r')
}

// The words of a line end at a newline and at a `#`.
fn is_ending(b: u8) -> bool
    ensures { result ≡ is_ending b }
{
    matches!(b, b'\n' | b'#')
}

fn is_wordly(b: u8) -> bool
    ensures { result ≡ is_wordly b }
{
    !(is_white(b) || is_ending(b))
}

// How many bytes from the start on pass a test.
fn run<F: Fn(u8) -> bool>(bytes: &[u8], test: F) -> usize
    requires { F.IsAlwaysCallable test }
    ensures within { result ≤ length bytes.now }
    ensures value { (p : ℕ → Bool) → ((b : ℕ) (t : Bool) → F.post test b t → t ≡ p b) → result ≡ run p bytes.now }
{
    bytes.iter().take_while(|b| test(**b)).count()
}

// The first word of a line and what comes after it, or none.
pub fn next_word(text: &[u8]) -> Option<(&[u8], &[u8])>
    ensures { MatchOption result (words_of text.now ≡ []) (λ r. (words_of text.now ≡ r.0.now ∷ words_of r.1.now) × (length r.1.now < length text.now)) }
{
    let (_, text) = text.split_at(run(text, is_white));
    let (word, rest) = text.split_at(run(text, is_wordly));
    if word.is_empty() {
        return None;
    }
    Some((word, rest))
}

// A number with one digit more.
fn longer(n: u32, b: u8, most: u32) -> Option<u32>
    ensures { result ≡ within most (is_digit b) (10 * n + (b - 48)) }
{
    if !b.is_ascii_digit() {
        return None;
    }
    let longer = n.checked_mul(10)?.checked_add(u32::from(b - b'0'))?;
    if longer <= most { Some(longer) } else { None }
}

// The number that a word is, where it is all digits and not above the limit.
pub fn number_in(word: &[u8], most: u32) -> Option<u32>
    ensures { result ≡ number_of most word.now }
{
    if word.is_empty() {
        return None;
    }
    word.iter().try_fold(0, |n, b| longer(n, *b, most))
}
