// The lamp benches' profile: no overflow of a ramp sum at any level. A check goes over the settings.
#![tactic(auto)]

ghost use Rattle.std.specs.Prelude.{◌≡◌};
ghost use Rattle.sum.specs.declared.Edition.{Edition};
ghost use Rattle.sum.specs.declared.Edition.TheVariants.{First};
ghost use Rattle.sum.specs.Sample.{sample_of};
ghost use Rattle.map.specs.Addresses.{table_at};
ghost use Rattle.profile.specs.Profile.{level_verdict, channel_verdict, verdict_of};
ghost use Rattle.profile.specs.Points.{out_from};

use channel::Loaded;
use sum::Edition;
use word::Samples;

// A ramp that breaks it: channel and level, its table, and the first of its points whose sum is out of range.
#[derive(Clone, Copy)]
pub struct Break {
    pub channel: u16,
    pub level: u16,
    pub table: u16,
    pub point: u16,
}

// The verdict on a bench, whichever edition its card is: the first channel, then level, that breaks the profile, if any. It is on ramp sums
// alone: a sine's product that does not fit is none, and a ramp that was loaded before, under other settings, is not looked at.
#[tactic(auto, unfolding(crate::specs::Profile::verdict_of))]
pub fn check(settings: &[u16; 16960]) -> Result<(), Break>
    ensures { (edition : Edition) → result ≡ verdict_of edition settings.now }
{
    for c in 0..4 {
        channel_verdict(settings, c)?;
    }
    Ok(())
}

// The verdict on channel c: its first level that breaks the profile, if any.
#[tactic(auto, unfolding(crate::specs::Profile::channel_verdict))]
fn channel_verdict(settings: &[u16], c: u16) -> Result<(), Break>
    ensures { (edition : Edition) → result ≡ channel_verdict edition settings.now c }
{
    for level in 0..32 {
        level_verdict(settings, c, level)?;
    }
    Ok(())
}

// The verdict on channel c's ramp for a level.
fn level_verdict(settings: &[u16], c: u16, level: u16) -> Result<(), Break>
    ensures { (edition : Edition) → result ≡ level_verdict edition settings.now c level }
{
    let loaded = channel::settings_for(settings, c, level);
    match first_out(settings, c, loaded) {
        None => Ok(()),
        Some(point) => Err(Break {
            channel: c,
            level,
            table: loaded.table,
            point,
        }),
    }
}

// The sum of a point's own V, which is the same in both editions.
fn own_sum(loaded: Loaded, v: u16) -> Option<u16>
    ensures { result ≡ sample_of First loaded.scale v v 0 0 loaded.offset }
{
    sum::sample(
        Edition::First,
        loaded.scale,
        v,
        v,
        Samples(0),
        Samples(0),
        loaded.offset,
    )
}

// The first point up to the ramp's end whose sum is out of range, if any. By place, past the end of the words too.
fn first_out(settings: &[u16], c: u16, loaded: Loaded) -> Option<u16>
    ensures { result ≡ out_from settings.now (table_at c loaded.table) loaded 64 0 }
{
    let first = usize::from(c) * 0x1000 + 128 * usize::from(loaded.table);
    for n in 0..64 {
        let at = first + 2 * usize::from(n);
        if own_sum(loaded, word::get(settings, at)).is_none() {
            return Some(n);
        }
        if word::ends(usize::from(n), Samples(word::get(settings, at + 1))) {
            return None;
        }
    }
    None
}
