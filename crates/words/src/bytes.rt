// What stands at a place of a text.

ghost use Rattle.std.specs.Prelude.{◌≡◌, drop};
ghost use Rattle.words.specs.Words.{begins};
ghost use Rattle.words.specs.Places.{DigitAt};

// The digit at the place, as a number.
pub fn digit_at(text: &[u8], at: usize) -> Option<u8>
    ensures { DigitAt text.now at result }
{
    match text.get(at) {
        Some(b) if b.is_ascii_digit() => Some(b - b'0'),
        _ => None,
    }
}

// Whether the word stands at the place.
pub fn stands(text: &[u8], from: usize, word: &[u8]) -> bool
    ensures { result ≡ begins word.now (drop from text.now) }
{
    // No `starts_with` of what is left: a wrong loop differs from this one in a sign, and so is refused for what it answers.
    let mut at = from;
    for &letter in word {
        match text.get(at) {
            Some(&b) if b == letter => at += 1,
            _ => return false,
        }
    }
    true
}
