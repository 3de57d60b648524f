// Scores and themes of few pitches, spelt out by a number.

ghost use Rattle.std.specs.Prelude.{◌≡◌, ℕ, ◌<◌, ◌/◌, ◌%◌, ◌^◌, length, drop, slice_index};

// So many bytes by the digits of x, the lowest first: each digit stands for one of the given cells.
pub fn spell(s: &mut [u8], many: usize, x: usize, alphabet: &[u8])
    requires { 0 < length alphabet.now }
    ensures each { (i : ℕ) → i < many → i < length s.new → slice_index s.new i ≡ slice_index alphabet.now (x / length alphabet.now ^ i % length alphabet.now) }
    ensures behind { drop many s.new ≡ drop many s.old }
{
    let base = alphabet.len();
    let mut rest = x;
    let end = many.min(s.len());
    for cell in s[..end].iter_mut() {
        *cell = alphabet[rest % base];
        rest /= base;
    }
}
