// Hexadecimal digits: numbers read from lent bytes, and written into them. Past the end of lent bytes a byte is read as 0, and nothing is stored.
#![tactic(auto)]

ghost use Rattle.std.specs.Prelude.{◌≡◌, ◌<◌, take};
ghost use Rattle.std.proofs.lemmas.List.Edits.{sets};
ghost use Rattle.digits.specs.Digits.{is_digit, value_of, all_digits, byte_at, word_at, words_from, digit_of, hex2, hex4, hex_all};

// ---- digits read

// Every byte is a digit: one call of the library, as `wavetable::all_in_wave` is.
pub fn all_digits(s: &[u8]) -> bool
    ensures { result ≡ all_digits s.now }
{
    s.iter().all(|b| is_digit(*b))
}

// The two digits from place i on.
#[tactic(auto, unfolding(crate::specs::Digits::byte_at))]
pub fn byte_at(s: &[u8], i: usize) -> u16
    ensures { (result ≡ byte_at s.now i) × (result < 256) }
{
    if s.len() <= i {
        return 0;
    }
    let low = s.get(i + 1).copied().unwrap_or(0);
    value(s[i]) * 16 + value(low)
}

// The four digits from place i on.
#[tactic(auto, using(crate::proofs::Digits::word_past), unfolding(crate::specs::Digits::word_at))]
pub fn word_at(s: &[u8], i: usize) -> u16
    ensures { result ≡ word_at s.now i }
{
    if s.len() <= i {
        return 0;
    }
    byte_at(s, i) * 256 + byte_at(s, i + 2)
}

// n words of four digits from place `at` on, stored in the first n words. By place, since the promise goes past either end.
#[tactic(auto, using(crate::proofs::Digits::words_more), unfolding(crate::specs::Digits::words_from))]
pub fn words(s: &[u8], at: u16, n: u16, words: &mut [u16])
    ensures { words.new ≡ sets words.old 0 (words_from at n s.now) }
{
    let from = usize::from(at);
    for i in 0..usize::from(n) {
        word::put(words, i, word_at(s, from + 4 * i));
    }
}

// ---- digits written

// Two digits from place `at` on.
#[tactic(auto, unfolding(crate::specs::Digits::hex2))]
pub fn put2(out: &mut [u8], at: usize, x: usize)
    ensures { out.new ≡ sets out.old at (hex2 x) }
{
    if out.len() <= at {
        return;
    }
    word::put(out, at, digit(x / 16 % 16));
    word::put(out, at + 1, digit(x % 16));
}

// Four digits.
#[tactic(auto, using(crate::proofs::Digits::sets_past, crate::proofs::Digits::sets_append, crate::proofs::Digits::length_hex2), unfolding(crate::specs::Digits::hex4))]
pub fn put4(out: &mut [u8], at: usize, x: usize)
    ensures { out.new ≡ sets out.old at (hex4 x) }
{
    if out.len() <= at {
        return;
    }
    put2(out, at, x / 256);
    put2(out, at + 2, x);
}

// The first n words, four digits each; all of them where there are fewer.
#[tactic(auto, using(crate::proofs::Digits::sets_past, crate::proofs::Digits::hex_all_more, std::proofs::lemmas::Grind::common_steps), unfolding(crate::specs::Digits::hex_all))]
pub fn put_words(out: &mut [u8], at: usize, words: &[u16], n: u16)
    ensures { out.new ≡ sets out.old at (hex_all (take n words.now)) }
{
    if out.len() <= at {
        return;
    }
    let count = usize::from(n).min(words.len());
    for (i, w) in words[..count].iter().enumerate() {
        put4(out, at + 4 * i, usize::from(*w));
    }
}

// ---- one digit

// 0 to 9 or A to F.
fn is_digit(b: u8) -> bool
    ensures { result ≡ is_digit b }
{
    matches!(b, b'0'..=b'9' | b'A'..=b'F')
}

// A digit's value.
fn value(b: u8) -> u16
    ensures { (result ≡ value_of b) × (result < 16) }
{
    match b {
        b'0'..=b'9' => u16::from(b - b'0'),
        b'A'..=b'F' => u16::from(b - b'A' + 10),
        _ => 0,
    }
}

// The digit of a number below 16.
fn digit(n: usize) -> u8
    requires { n < 16 }
    ensures { result ≡ digit_of n }
{
    if n < 10 {
        b'0' + n as u8
    } else {
        b'A' + (n - 10) as u8
    }
}
