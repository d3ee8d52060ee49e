// The wave table of a channel, handed in whole.
#![tactic(auto)]

ghost use Rattle.std.specs.Prelude.{◌≡◌};
ghost use Rattle.wavetable.specs.Hand.{in_wave, all_in_wave, bad_table, hand_of, Hands, reply_number};

use card::Card;

// Why a wave table is not taken.
#[derive(Clone, Copy)]
pub enum Refusal {
    Bad,
    Running,
}

// Hands in the wave table of channel c, which neither runs nor free-runs; a refusal changes nothing.
#[tactic(auto, unfolding(crate::specs::Hand::hand_of))]
pub fn hand_in(waves: &mut [u16; 4096], card: Card, c: u16, words: &[u16]) -> Result<(), Refusal>
    ensures { Hands (hand_of card waves.old c words.now) result waves.new }
{
    if bad_table(c, words) {
        return Err(Refusal::Bad);
    }
    if channel::runs(card::channel_of(card, usize::from(c))) {
        return Err(Refusal::Running);
    }
    word::copy(words, 0, waves, 1024 * u32::from(c), 1024);
    Ok(())
}

// The number of an answer: 0 is that of no refusal, so it is made of the whole answer. Public, with a row in docs/PROMISES.md.
pub fn number(reply: Result<(), Refusal>) -> u16
    ensures { result ≡ reply_number reply }
{
    match reply {
        Ok(()) => 0,
        Err(Refusal::Bad) => 9,
        Err(Refusal::Running) => 8,
    }
}

// There is no such channel, the length is wrong, or a word is out of range.
fn bad_table(c: u16, words: &[u16]) -> bool
    ensures { result ≡ bad_table c words.now }
{
    c > 3 || words.len() != 1024 || !all_in_wave(words)
}

// Every word is in range: one call of the library, as `digits::all_digits` is.
fn all_in_wave(words: &[u16]) -> bool
    ensures { result ≡ all_in_wave words.now }
{
    words.iter().all(|word| in_wave(*word))
}

// A word from -16384 to 16384.
fn in_wave(word: u16) -> bool
    ensures { result ≡ in_wave word }
{
    (-16384..=16384).contains(&word::signed(word))
}
