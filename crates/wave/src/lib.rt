// The wave of a channel in sine mode: its word at a counter, and the sine of an amplitude.
// The four wave tables are lent one after the other, 1,024 words a channel; a table holds a quarter of the wave.
#![tactic(auto)]

ghost use Rattle.std.specs.Prelude.{◌≡◌};
ghost use Rattle.wave.specs.Sine.{entry, wave_word, sine_of};

// The output in sine mode, or none where the product is out of range.
pub fn sine(waves: &[u16; 4096], c: u16, counter: u16, amplitude: u16) -> Option<u16>
    ensures { result ≡ sine_of waves.now c counter amplitude }
{
    sum::product(amplitude, wave_word(waves, c, counter))
}

// The word of channel c's wave at a counter: bit 15 negates it.
#[tactic(auto, unfolding(crate::specs::Sine::wave_word))]
fn wave_word(waves: &[u16], c: u16, counter: u16) -> i32
    ensures { result ≡ wave_word waves.now c counter }
{
    let at = 1024 * usize::from(c) + usize::from(entry_of(counter));
    let v = word::signed(word::get(waves, at));
    if counter / 0x8000 % 2 == 1 { -v } else { v }
}

// Its place in the channel's table: bits 13 to 4, backwards where bit 14 is set.
fn entry_of(counter: u16) -> u16
    ensures { result ≡ entry counter }
{
    let i = counter / 16 % 1024;
    if counter / 0x4000 % 2 == 1 {
        1023 - i
    } else {
        i
    }
}
