// Words of 16 bits: as signed numbers, as counters, as times, and lent by the slice.
#![tactic(auto)]

ghost use Rattle.std.specs.Prelude.{◌≡◌, ◌≤◌, min, slice_index, slice_set};
ghost use Rattle.word.specs.Word.{signed_of, grown, lasting};
ghost use Rattle.word.specs.Table.{is_end};
ghost use Rattle.word.specs.Copy.{copied};

// A word as a signed number, from -32768 to 32767.
pub fn signed(word: u16) -> i32
    ensures { result ≡ signed_of word }
{
    i32::from(word.cast_signed())
}

// A counter after one more: 65,535 goes round to 0.
pub fn grow(count: u16) -> u16
    ensures { result ≡ grown count }
{
    count.wrapping_add(1)
}

// The smaller of two.
pub fn least(a: usize, b: usize) -> usize
    ensures { (result ≡ min a b) × (result ≤ a) × (result ≤ b) }
{
    a.min(b)
}

// A time in microseconds, as delays and countdowns have it.
#[derive(Clone, Copy)]
pub struct Micros(pub u32);

// A time in samples of 10 microseconds, as time steps have it. Neither type is taken for the other.
#[derive(Clone, Copy)]
pub struct Samples(pub u16);

impl Samples {
    // How long the samples last.
    pub fn micros(self) -> Micros
        ensures { result.0 ≡ lasting self.0 }
    {
        Micros(10 * u32::from(self.0))
    }
}

// A ramp ends at a point with time step 0, and at point 63 whatever its step.
pub fn ends(point: usize, step: Samples) -> bool
    ensures { result ≡ is_end point step.0 }
{
    63 <= point || step.0 == 0
}

// The word at a place of lent words; past their end it is 0.
pub fn get(words: &[u16], at: usize) -> u16
    ensures { result ≡ slice_index words.now at }
{
    words.get(at).copied().unwrap_or(0)
}

// Stores an item at a place of lent items, as words or bytes; past their end nothing is stored. Not by `get_mut`: std's contract says nothing
// of the slice after it, and the proof did not close.
pub fn put<T: Copy>(items: &mut [T], at: usize, item: T)
    ensures { items.new ≡ slice_set items.old at item }
{
    if at < items.len() {
        items[at] = item;
    }
}

// Copies n words from a place of one list on to a place of another and on; past its end nothing is stored. By place, as the promise goes past
// both ends; by `as`, since std has no From of u32 for usize.
#[tactic(auto, unfolding(crate::specs::Copy::copied))]
pub fn copy(words: &[u16], from: u32, into: &mut [u16], to: u32, n: u32)
    ensures { into.new ≡ copied n words.now from into.old to }
{
    for i in 0..n as usize {
        put(into, to as usize + i, get(words, from as usize + i));
    }
}
