// What a word shows on the panel, and the points of a ramp as they are plotted.
#![tactic(auto)]

ghost use Rattle.std.specs.Prelude.{◌≡◌, ◌≤◌};
ghost use Rattle.word.specs.Word.{signed_of};
ghost use Rattle.panel.specs.Shown.{volts_of, factor_of, Times, shown_setting, shown_status, shown, reading_of};
ghost use Rattle.panel.specs.Plots.{plot_of, plot_from, PlotExact, PointExact};

use map::{Field, Register, Setting};
use word::{Micros, Samples};

// A reading: volts or a factor, a time of either kind, a plain number, or nothing, which document 01 asks for as a case beside the others.
#[derive(Clone, Copy)]
pub enum Reading {
    Volts(f64),
    Factor(f64),
    Micros(Micros),
    Samples(Samples),
    Plain(u16),
    Nothing,
}

// A point of a ramp: its volts, and the microseconds since the start.
#[derive(Clone, Copy)]
pub struct Plotted {
    pub volts: f64,
    pub micros: f64,
}

// What the word at an address shows: by the address alone and the word.
pub fn show_word(address: u16, word: u16) -> Reading
    ensures { result ≡ reading_of address word }
{
    show(map::register_at(address), word)
}

// Volts: ten times the signed word, over 32768, exactly.
pub fn volts(word: u16) -> f64
    ensures { (result ≡ volts_of word) × Times result 32768 (signed_of word) 10 }
{
    f64::from(word::signed(word)) * 10.0 / 32768.0
}

// A scale factor: the signed word over 256, exactly.
pub fn factor(word: u16) -> f64
    ensures { (result ≡ factor_of word) × Times result 256 (signed_of word) 1 }
{
    f64::from(word::signed(word)) / 256.0
}

// A point of a table of a channel, where the lent words have the word of address a at place a.
// Nothing where the channel, the table or the point is not there, or the ramp ends before it.
#[tactic(auto, unfolding(crate::specs::Plots::plot_of))]
pub fn plot_point(
    words: &[u16; 16960],
    channel: usize,
    table: usize,
    point: usize,
) -> Option<Plotted>
    ensures { (result ≡ plot_of words.now channel table point) × PlotExact words.now channel table point result }
{
    if channel >= 4 || table >= 16 || point >= 64 {
        return None;
    }
    plot_from(words, channel * 0x1000 + 128 * table, point)
}

// The same in the table whose first word is at `first`. By place, past the end of the words too.
#[tactic(auto, unfolding(word::specs::Table::steps_before, crate::specs::Plots::reached))]
fn plot_from(words: &[u16], first: usize, point: usize) -> Option<Plotted>
    requires { (first ≤ 0x10000) × (point ≤ 63) }
    ensures { (result ≡ plot_from words.now first point) × PointExact words.now first point result }
{
    let mut micros: u32 = 0;
    for n in 0..point {
        let step = Samples(word::get(words, first + 2 * n + 1));
        if word::ends(n, step) {
            return None;
        }
        micros += step.micros().0;
    }
    Some(Plotted {
        volts: volts(word::get(words, first + 2 * point)),
        micros: f64::from(micros),
    })
}

// What a register shows of its word.
fn show(register: Register, word: u16) -> Reading
    ensures { result ≡ shown register word }
{
    match register {
        Register::Setting(s) | Register::Fixed(s) => show_setting(s, word),
        Register::Output(_) => Reading::Volts(volts(word)),
        Register::Status(_, f) => show_status(f, word),
        Register::Overflow(_)
        | Register::Slot(_)
        | Register::Image(_)
        | Register::Erase
        | Register::Manual
        | Register::ActiveLevel
        | Register::ActiveEvent
        | Register::Count(_) => Reading::Plain(word),
        Register::Unlisted => Reading::Nothing,
    }
}

fn show_setting(setting: Setting, word: u16) -> Reading
    ensures { result ≡ shown_setting setting word }
{
    match setting {
        Setting::Value | Setting::Offset => Reading::Volts(volts(word)),
        Setting::Scale => Reading::Factor(factor(word)),
        Setting::Step => Reading::Samples(Samples(word)),
        Setting::Delay => Reading::Micros(Micros(u32::from(word))),
        Setting::RampMap
        | Setting::ScaleMap
        | Setting::OffsetMap
        | Setting::FrequencyMap
        | Setting::Frequency
        | Setting::PhaseMap
        | Setting::Phase
        | Setting::WaveformEnable
        | Setting::WaveformMode
        | Setting::ClockEnable => Reading::Plain(word),
    }
}

fn show_status(field: Field, word: u16) -> Reading
    ensures { result ≡ shown_status field word }
{
    match field {
        Field::Scale => Reading::Factor(factor(word)),
        Field::Offset => Reading::Volts(volts(word)),
        Field::Table | Field::Segment | Field::Left => Reading::Plain(word),
    }
}
