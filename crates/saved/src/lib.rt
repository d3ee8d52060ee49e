// A bench saved as lines: the settings as 01 frames of the line program, written into a lent buffer.
#![tactic(auto)]

ghost use Rattle.std.specs.Prelude.{◌≡◌, ◌+◌, ◌*◌, ◌^◌, ◌≤◌, ◌<◌, length, get_or};
ghost use Rattle.std.proofs.lemmas.List.Edits.{sets};
ghost use Rattle.digits.specs.Digits.{hex_all};
ghost use Rattle.saved.specs.Laws.{bytes_in};
ghost use Rattle.saved.specs.Saved.{span, spans, pieces, cut, words_at, line_text, text_of, Lays, save_of, Saves, saved_number, bytes_of};

// Why a save writes nothing: the buffer is too short for the lines.
#[derive(Clone, Copy)]
pub enum Refusal {
    TooShort,
}

// Words one after the other: the first address, and how many.
#[derive(Clone, Copy)]
pub struct Span {
    pub first: usize,
    pub count: usize,
}

// The settings as lines, at the front of the buffer, and how many bytes they are; a buffer that is too short stays as it is.
#[tactic(auto, unfolding(crate::specs::Saved::text_of, crate::specs::Saved::frames_of))]
pub fn save(settings: &[u16; 16960], out: &mut [u8]) -> Result<usize, Refusal>
    ensures { Saves (save_of settings.now out.old) result out.new }
{
    if out.len() < LENGTH {
        return Err(Refusal::TooShort);
    }
    let mut at = 0;
    for k in 0..SPANS {
        at = put_span(settings, span_at(k), out, at);
    }
    Ok(at)
}

// The number of an answer: 0 is that of no refusal, so it is made of the whole answer. Public, with a row in docs/PROMISES.md.
pub fn number(saved: Result<usize, Refusal>) -> u16
    ensures { result ≡ saved_number saved }
{
    match saved {
        Ok(_) => 0,
        Err(Refusal::TooShort) => 10,
    }
}

// How many bytes were written.
pub fn written(saved: Result<usize, Refusal>) -> usize
    ensures { result ≡ bytes_of saved }
{
    saved.unwrap_or(0)
}

// Span k of the 54: thirteen of each channel from its base, then the card's two. By place, as the definition `spans` has them.
fn span_at(k: usize) -> Span
    requires { k < 54 }
    ensures value { result ≡ get_or spans k (span 0 0) }
    ensures count_bound { (result.first + result.count ≤ 16960) × (result.count ≤ 1920) }
{
    if k < IN_CHANNELS {
        let (first, count) = ROWS[k % PER_CHANNEL];
        Span {
            first: k / PER_CHANNEL * 0x1000 + first,
            count,
        }
    } else {
        let (first, count) = ROWS[k - IN_CHANNELS + PER_CHANNEL];
        Span { first, count }
    }
}

// The frames of a span from place `at` on, 64 words each but the last; and where they end. The whole buffer is lent with a place, as `Lays`
// and `digits` speak of it.
#[tactic(auto, unfolding(crate::specs::Saved::text_of, crate::specs::Saved::cut))]
fn put_span(settings: &[u16], x: Span, out: &mut [u8], at: usize) -> usize
    requires { (x.first + x.count ≤ length settings.now) × (at + bytes_in (cut x 0 (pieces x)) ≤ length out.old) × (at < 2 ^ 31) × (x.count ≤ 1920) }
    ensures lays { Lays (text_of settings.now (cut x 0 (pieces x))) at out.old out.new result }
    ensures upper_bound { result ≤ at + 7890 }
{
    let mut end = at;
    for j in 0..x.count.div_ceil(64) {
        let frame = Span {
            first: x.first + 64 * j,
            count: (x.count - 64 * j).min(64),
        };
        end = put_frame(settings, frame, out, end);
    }
    end
}

// A frame of the words of a span and its LF, from place `at` on; and where it ends.
fn put_frame(settings: &[u16], x: Span, out: &mut [u8], at: usize) -> usize
    requires { (x.first + x.count ≤ length settings.now) × (at + 7 + 4 * x.count ≤ length out.old) × (at < 2 ^ 32) × (x.count ≤ 64) }
    ensures { Lays (line_text settings.now x) at out.old out.new result }
{
    digits::put2(out, at, 1);
    digits::put4(out, at + 2, x.first);
    put_words(&settings[x.first..x.first + x.count], out, at + 6);
    let end = at + 6 + 4 * x.count;
    word::put(out, end, b'\n');
    end + 1
}

// Words, four digits each, from place `at` on. There is room for them, so no store asks for it, and the table is named before the loop: by
// digits::put_words a save misses its bar of speed. By place, since after chunks_mut no proof knows what the buffer holds.
#[tactic(auto, unfolding(digits::specs::Digits::hex_all))]
fn put_words(words: &[u16], out: &mut [u8], at: usize)
    requires { at + 4 * length words.now ≤ length out.old }
    ensures { out.new ≡ sets out.old at (hex_all words.now) }
{
    let table = DIGITS;
    for (i, word) in words.iter().enumerate() {
        let w = usize::from(*word);
        let p = at + 4 * i;
        out[p] = table[w / 256 / 16 % 16];
        out[p + 1] = table[w / 256 % 16];
        out[p + 2] = table[w / 16 % 16];
        out[p + 3] = table[w % 16];
    }
}

// The digits of the numbers below 16.
const DIGITS: [u8; 16] = *b"0123456789ABCDEF";

// How many bytes all lines are.
const LENGTH: usize = 38079;

// How many spans they save: in all, in the four channels, and in each.
const SPANS: usize = 54;

const IN_CHANNELS: usize = 52;

const PER_CHANNEL: usize = 13;

// The spans of a channel, counted from its base, and the card's own: first address, words.
const ROWS: [(usize, usize); 15] = [
    (0x080, 1920),
    (0x800, 32),
    (0x840, 32),
    (0x861, 31),
    (0x880, 32),
    (0x8A1, 31),
    (0x8E0, 32),
    (0x900, 32),
    (0x920, 32),
    (0x940, 32),
    (0x960, 32),
    (0xA00, 1),
    (0xA01, 1),
    (0x4000, 256),
    (0x4200, 1),
];
