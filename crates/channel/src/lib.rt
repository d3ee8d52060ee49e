// One channel: its phase, its countdown, the load, the start, the samples of its ramp and the output that is made of them.
// Settings are lent by address; loaded tables and wave tables one after the other, 128 and 1,024 words a channel; each by itself, so that `&`
// or `&mut` says whether a call may change it.
#![tactic(auto)]

ghost use Rattle.std.specs.Prelude.{◌≡◌, ◌+◌, ◌-◌, ◌*◌, ◌<◌, ◌≤◌};
ghost use Rattle.word.specs.Table.{value_at, step_at};
ghost use Rattle.word.specs.Copy.{copied};
ghost use Rattle.channel.specs.Ramp.{enter, next, sample_at, is_sine, free_runs, onward, given, sooner, advance};
ghost use Rattle.channel.specs.Signal.{counter_at, counter_next, signal_after, sine_after};
ghost use Rattle.channel.specs.Channel.{word, first_of, Leaves, Moves, with, ramp_of, phase_of, runs_of, just_loaded, tone_for, loaded_for, load, start, count_to, move_of, moved_on, ticked, sounded, triggered, reset_channel};

use sum::Edition;
use word::{Micros, Samples};

// A sample's place in its table: the segment, and the samples left in it. None are left at the end point.
#[derive(Clone, Copy)]
pub struct Place {
    pub segment: u16,
    pub left: Samples,
}

// What a ramp's sample moves: the amplitude, and the place in A33 and A34.
#[derive(Clone, Copy)]
pub struct Shown {
    pub amplitude: u16,
    pub place: Place,
}

// What is made of it: the output, the overflow count, and in sine mode the counter.
#[derive(Clone, Copy)]
pub struct Signal {
    pub output: u16,
    pub overflow: u16,
    pub counter: u16,
}

impl Signal {
    // The output is the sum's word or held, and an overflow counts, once a sample; `over` says that the amplitude was out of range: yes or no,
    // and the count alone asks.
    fn after(self, sum: Option<u16>, over: bool, counter: u16) -> Signal
        ensures { result ≡ signal_after sum over counter self }
    {
        Signal {
            output: sum.unwrap_or(self.output),
            overflow: if over || sum.is_none() {
                word::grow(self.overflow)
            } else {
                self.overflow
            },
            counter,
        }
    }
}

// A ramp on its way: the last sample's place, the microseconds to the next sample, and those from one sample to the next.
#[derive(Clone, Copy)]
pub struct Way {
    pub place: Place,
    pub wait: Micros,
    pub period: Micros,
}

impl Way {
    // A microsecond less to the next sample.
    fn sooner(self) -> Way
        requires { 0 < self.wait.0 }
        ensures { result ≡ sooner self }
    {
        Way {
            wait: Micros(self.wait.0 - 1),
            ..self
        }
    }
}

// A ramp: none, one on its way, or one whose end is behind it and whose sine runs free. Document 01 asks for an enum of these, carried by a
// case of the phase's.
#[derive(Clone, Copy)]
pub enum Ramp {
    Still,
    Going(Way),
    Free(Way),
}

// At rest, counting toward a load or a start with an older ramp perhaps still running, running, or running free: document 01's enum.
#[derive(Clone, Copy)]
pub enum Phase {
    Rest,
    Counting(Micros, Ramp),
    Running(Way),
    FreeRunning(Way),
}

impl Phase {
    // The ramp that runs in it, if any.
    fn ramp(self) -> Ramp
        ensures { result ≡ ramp_of self }
    {
        match self {
            Phase::Rest => Ramp::Still,
            Phase::Counting(_, older) => older,
            Phase::Running(w) => Ramp::Going(w),
            Phase::FreeRunning(w) => Ramp::Free(w),
        }
    }
}

// A ramp with no countdown beside it.
impl From<Ramp> for Phase {
    ghost from_gives = { λ r p. p ≡ phase_of r };

    fn from(r: Ramp) -> Phase {
        match r {
            Ramp::Still => Phase::Rest,
            Ramp::Going(w) => Phase::Running(w),
            Ramp::Free(w) => Phase::FreeRunning(w),
        }
    }
}

// What a load takes for the sine: A01, and the level's frequency and phase.
#[derive(Clone, Copy)]
pub struct Tone {
    pub mode: u16,
    pub frequency: u16,
    pub phase: u16,
}

impl Tone {
    // A01: bit 0 is sine, bit 2 free run, which does nothing without bit 0.
    fn is_sine(self) -> bool
        ensures { result ≡ is_sine self.mode }
    {
        self.mode % 2 == 1
    }

    fn runs_free(self) -> bool
        ensures { result ≡ free_runs self.mode }
    {
        self.is_sine() && self.mode / 4 % 2 == 1
    }

    // The counter starts at the phase and grows by the frequency. `first` is yes or no: an enum of the two would be matched here alone.
    fn counter_at(self, first: bool, n: u16) -> u16
        ensures { result ≡ counter_at first self n }
    {
        if first {
            self.phase
        } else {
            self.counter_next(n)
        }
    }

    fn counter_next(self, n: u16) -> u16
        ensures { result ≡ counter_next self n }
    {
        n.wrapping_add(self.frequency)
    }
}

// What a load copies, beside the table's words.
#[derive(Clone, Copy)]
pub struct Loaded {
    pub table: u16,
    pub scale: u16,
    pub offset: u16,
    pub tone: Tone,
}

// The level is the pending one: that of the last trigger.
#[derive(Clone, Copy)]
pub struct Channel {
    pub phase: Phase,
    pub level: u16,
    pub loaded: Loaded,
    pub shown: Shown,
    pub signal: Signal,
}

impl Channel {
    // The signal in sine mode: the sine of the amplitude at a counter; `over`, for `after`, says that the amplitude itself was out of range.
    fn sine(self, waves: &[u16; 4096], c: u16, counter: u16, over: bool) -> Signal
        ensures { result ≡ sine_after waves.now c counter self.shown.amplitude over self.signal }
    {
        let sum = wave::sine(waves, c, counter, self.shown.amplitude);
        self.signal.after(sum, over, counter)
    }
}

// The sample that a tick gives: none, a ramp's, its first or a later one, with its sum, or one of a free run. An Option round the other two
// would save no line: all three are matched once, and none is made at seven places. `given`, the definition, has first or not beside the sum, too.
#[derive(Clone, Copy)]
pub enum Gave {
    NoSample,
    OfRamp(bool, Option<u16>),
    OfFreeRun,
}

// A ramp one tick on, what it has moved, and the sample that it gave.
#[derive(Clone, Copy)]
pub struct Moved {
    pub ramp: Ramp,
    pub shown: Shown,
    pub gave: Gave,
}

// A channel after the first pass of a tick, and the sample that it gave.
#[derive(Clone, Copy)]
pub struct Ticked {
    pub channel: Channel,
    pub gave: Gave,
}

// One microsecond of channel c on a card of an edition, first pass: its ramp's value moves. A ramp that only waits, nine times in ten,
// does not go through its step.
#[tactic(auto, unfolding(crate::specs::Channel::move_at, crate::specs::Ramp::advance))]
pub fn move_ramp(
    settings: &[u16; 16960],
    tables: &mut [u16; 512],
    edition: Edition,
    c: u16,
    ch: Channel,
) -> Ticked
    ensures { Moves (move_of edition settings.now tables.old c ch) result tables.new }
{
    match ch.phase {
        Phase::Rest => Ticked {
            channel: ch,
            gave: Gave::NoSample,
        },
        Phase::Counting(n, older) => count(settings, tables, edition, c, ch, n, older),
        Phase::Running(w) if 1 < w.wait.0 => Ticked {
            channel: Channel {
                phase: Phase::Running(w.sooner()),
                ..ch
            },
            gave: Gave::NoSample,
        },
        Phase::Running(_) | Phase::FreeRunning(_) => run(tables, edition, c, ch),
    }
}

// Second pass: its output is made of the sample that it gave: its sine, or in plain mode a ramp's sum.
#[tactic(auto, unfolding(crate::specs::Signal::make_of))]
pub fn make_output(waves: &[u16; 4096], c: u16, t: Ticked) -> Channel
    ensures { result ≡ sounded waves.now c t.channel t.gave }
{
    let ch = t.channel;
    let signal = match t.gave {
        Gave::NoSample => return ch,
        Gave::OfRamp(_, sum) if !ch.loaded.tone.is_sine() => {
            ch.signal.after(sum, false, ch.signal.counter)
        }
        Gave::OfRamp(first, sum) => {
            let counter = ch.loaded.tone.counter_at(first, ch.signal.counter);
            ch.sine(waves, c, counter, sum.is_none())
        }
        Gave::OfFreeRun => {
            let counter = ch.loaded.tone.counter_next(ch.signal.counter);
            ch.sine(waves, c, counter, false)
        }
    };
    Channel { signal, ..ch }
}

// A trigger of a level reaches channel c, enabled or not.
#[tactic(auto, unfolding(crate::specs::Channel::triggered))]
pub fn trigger(
    settings: &[u16; 16960],
    tables: &mut [u16; 512],
    c: u16,
    ch: Channel,
    level: u16,
) -> Channel
    ensures { Leaves (triggered settings.now tables.old c ch level) result tables.new }
{
    let d = word_at(settings, c, map::DELAYS, level);
    if d <= 10 {
        return load_level(settings, tables, c, ch, level);
    }
    Channel {
        phase: Phase::Counting(Micros(u32::from(d)), ch.phase.ramp()),
        level,
        ..ch
    }
}

// A ramp runs or free-runs: on the channel, or under its countdown, as the older one.
pub fn runs(ch: Channel) -> bool
    ensures { result ≡ runs_of ch }
{
    !matches!(ch.phase.ramp(), Ramp::Still)
}

// Whether the trigger or the tick that has just moved a channel has loaded it: then its countdown stands at 10.
pub fn just_loaded(ch: Channel) -> bool
    ensures { result ≡ just_loaded ch.phase }
{
    matches!(ch.phase, Phase::Counting(Micros(10), _))
}

// Table number, scale factor, offset and tone that the maps give a level.
pub fn settings_for(settings: &[u16], c: u16, level: u16) -> Loaded
    ensures { result ≡ loaded_for settings.now c level }
{
    let scale_entry = word_at(settings, c, map::SCALE_MAP, level);
    let offset_entry = word_at(settings, c, map::OFFSET_MAP, level);
    Loaded {
        table: word_at(settings, c, map::RAMP_MAP, level),
        scale: word_at(settings, c, map::SCALES, scale_entry),
        offset: word_at(settings, c, map::OFFSETS, offset_entry),
        tone: tone_for(settings, c, level),
    }
}

// A channel after a reset.
pub fn fresh() -> Channel
    ensures { result ≡ reset_channel }
{
    Channel {
        phase: Phase::Rest,
        level: 0,
        loaded: Loaded {
            table: 0,
            scale: 0x0100,
            offset: 0,
            tone: Tone {
                mode: 0,
                frequency: 0,
                phase: 0,
            },
        },
        shown: Shown {
            amplitude: 0,
            place: Place {
                segment: 0,
                left: Samples(0),
            },
        },
        signal: Signal {
            output: 0,
            overflow: 0,
            counter: 0,
        },
    }
}

// ---- the first pass

// The channel after a move of its ramp.
fn moved_on(ch: Channel, m: Moved) -> Ticked
    ensures { result ≡ record { channel = with ch (phase_of m.ramp) m.shown; gave = m.gave } }
{
    Ticked {
        channel: Channel {
            phase: Phase::from(m.ramp),
            shown: m.shown,
            ..ch
        },
        gave: m.gave,
    }
}

// The channel after one tick of its ramp. Apart from move_ramp: inlined there it cost a tick at rest 4 % more.
fn run(tables: &[u16], edition: Edition, c: u16, ch: Channel) -> Ticked
    ensures { result ≡ ticked (moved_on ch tables.now (advance edition tables.now (first_of c) ch.loaded (ramp_of ch.phase) ch.shown)) }
{
    let turn = Turn {
        tables,
        c,
        ch,
        edition,
    };
    moved_on(ch, turn.step(ch.phase.ramp()))
}

// The countdown falls by one: the start at 0, the load at 10, else the older ramp moves on. No method of Turn: a load changes
// the tables that a turn only reads.
#[tactic(auto, unfolding(crate::specs::Channel::start, crate::specs::Channel::count_to))]
fn count(
    settings: &[u16],
    tables: &mut [u16],
    edition: Edition,
    c: u16,
    ch: Channel,
    n: Micros,
    older: Ramp,
) -> Ticked
    ensures { Moves (count_to edition (n.0 - 1) older settings.now tables.old c ch) result tables.new }
{
    if n.0 == 11 {
        return Ticked {
            channel: load_level(settings, tables, c, ch, ch.level),
            gave: Gave::NoSample,
        };
    }
    let turn = Turn {
        tables,
        c,
        ch,
        edition,
    };
    if n.0 <= 1 {
        return turn.start(settings);
    }
    let m = turn.step(older);
    Ticked {
        channel: Channel {
            phase: Phase::Counting(Micros(n.0 - 1), m.ramp),
            shown: m.shown,
            ..ch
        },
        gave: m.gave,
    }
}

// The load for a level: an older ramp or free run is aborted, its output held, and the settings are copied.
#[tactic(auto, unfolding(crate::specs::Channel::load))]
fn load_level(settings: &[u16], tables: &mut [u16], c: u16, ch: Channel, level: u16) -> Channel
    ensures { Leaves (load settings.now tables.old c ch level) result tables.new }
{
    let loaded = settings_for(settings, c, level);
    copy_table(settings, tables, c, loaded.table);
    Channel {
        phase: Phase::Counting(Micros(10), Ramp::Still),
        level,
        loaded,
        shown: Shown {
            place: Place {
                segment: 0,
                left: Samples(0),
            },
            ..ch.shown
        },
        ..ch
    }
}

// A01, and the frequency and phase that the maps give a level.
fn tone_for(settings: &[u16], c: u16, level: u16) -> Tone
    ensures { result ≡ tone_for settings.now c level }
{
    let frequency_entry = word_at(settings, c, map::FREQUENCY_MAP, level);
    let phase_entry = word_at(settings, c, map::PHASE_MAP, level);
    Tone {
        mode: word_at(settings, c, map::MODE, 0),
        frequency: word_at(settings, c, map::FREQUENCIES, frequency_entry),
        phase: word_at(settings, c, map::PHASES, phase_entry),
    }
}

// The 128 words of table r of channel c, copied to the channel's loaded table.
fn copy_table(settings: &[u16], tables: &mut [u16], c: u16, r: u16)
    ensures { tables.new ≡ copied 128 settings.now (c * 0x1000 + 128 * r) tables.old (first_of c) }
{
    word::copy(
        settings,
        u32::from(c) * 0x1000 + 128 * u32::from(r),
        tables,
        128 * u32::from(c),
        128,
    )
}

// The word of channel c at an offset from its base, and an index past that.
fn word_at(settings: &[u16], c: u16, offset: u16, index: u16) -> u16
    ensures { result ≡ word settings.now (c * 0x1000 + offset + index) }
{
    word::get(
        settings,
        usize::from(c) * 0x1000 + usize::from(offset) + usize::from(index),
    )
}

// ---- the samples of a ramp

// A channel's turn in a tick: its number, the channel itself, the loaded tables, and the edition that rounds its samples.
#[derive(Clone, Copy)]
struct Turn<'a> {
    tables: &'a [u16],
    c: u16,
    ch: Channel,
    edition: Edition,
}

impl Turn<'_> {
    // At countdown 0: the ramp starts if the waveform is enabled.
    #[tactic(auto, unfolding(crate::specs::Channel::start))]
    fn start(&self, settings: &[u16]) -> Ticked
        ensures { result ≡ ticked (start self.now.edition settings.now self.now.tables.now self.now.c self.now.ch) }
    {
        if word_at(settings, self.c, map::ENABLE, 0) == 1 {
            let first = self.sample_given(true, Samples(1).micros(), self.point(0));
            return moved_on(self.ch, first);
        }
        Ticked {
            channel: Channel {
                phase: Phase::Rest,
                ..self.ch
            },
            gave: Gave::NoSample,
        }
    }

    // One tick of a ramp.
    #[tactic(auto, unfolding(crate::specs::Ramp::advance))]
    fn step(&self, ramp: Ramp) -> Moved
        ensures { result ≡ advance self.now.edition self.now.tables.now (first_of self.now.c) self.now.ch.loaded ramp self.now.ch.shown }
    {
        let (ramp, gave) = match ramp {
            Ramp::Still => (ramp, Gave::NoSample),
            Ramp::Going(w) if 1 < w.wait.0 => (Ramp::Going(w.sooner()), Gave::NoSample),
            Ramp::Going(w) => return self.sample_given(false, w.period, self.next_place(w.place)),
            Ramp::Free(w) if 1 < w.wait.0 => (Ramp::Free(w.sooner()), Gave::NoSample),
            Ramp::Free(w) => (
                Ramp::Free(Way {
                    wait: w.period,
                    ..w
                }),
                Gave::OfFreeRun,
            ),
        };
        Moved {
            ramp,
            shown: self.ch.shown,
            gave,
        }
    }

    // The sample at a place is given; at the end point the ramp rests or free-runs, elsewhere the next sample comes a period later.
    // `first` goes on to `counter_at`.
    #[tactic(auto, unfolding(crate::specs::Ramp::given))]
    fn sample_given(&self, first: bool, period: Micros, place: Place) -> Moved
        ensures { result ≡ given self.now.edition first self.now.tables.now (first_of self.now.c) self.now.ch.loaded period.0 place self.now.ch.shown }
    {
        let sum = self.sample_at(place);
        let amplitude = sum.unwrap_or(self.ch.shown.amplitude);
        Moved {
            ramp: ramp_after(self.ch.loaded, period, place),
            shown: Shown { amplitude, place },
            gave: Gave::OfRamp(first, sum),
        }
    }

    // The sample at a place.
    #[tactic(auto, unfolding(crate::specs::Ramp::sample_at))]
    fn sample_at(&self, p: Place) -> Option<u16>
        ensures { result ≡ sample_at self.now.edition self.now.tables.now (first_of self.now.c) self.now.ch.loaded p }
    {
        let n = usize::from(p.segment);
        let from = self.value_at(n);
        let (to, step) = if p.left.0 == 0 {
            (from, 0)
        } else {
            (self.value_at(n + 1), self.step_at(n))
        };
        sum::sample(
            self.edition,
            self.ch.loaded.scale,
            from,
            to,
            Samples(step),
            p.left,
            self.ch.loaded.offset,
        )
    }

    // Point n of the loaded table: its value, and its time step beside it.
    fn value_at(&self, n: usize) -> u16
        requires { n ≤ 65536 }
        ensures { result ≡ value_at self.now.tables.now (first_of self.now.c) n }
    {
        word::get(self.tables, 128 * usize::from(self.c) + 2 * n)
    }

    fn step_at(&self, n: usize) -> u16
        requires { n ≤ 65536 }
        ensures { result ≡ step_at self.now.tables.now (first_of self.now.c) n }
    {
        word::get(self.tables, 128 * usize::from(self.c) + 2 * n + 1)
    }

    // The place of the sample after the one at p.
    #[tactic(auto, unfolding(crate::specs::Ramp::next))]
    fn next_place(&self, p: Place) -> Place
        ensures { result ≡ next self.now.tables.now (first_of self.now.c) p }
    {
        if 1 < p.left.0 {
            return Place {
                left: Samples(p.left.0 - 1),
                ..p
            };
        }
        self.point(word::grow(p.segment))
    }

    // The place of the sample at point n.
    #[tactic(auto, unfolding(crate::specs::Ramp::enter))]
    fn point(&self, n: u16) -> Place
        ensures { result ≡ enter self.now.tables.now (first_of self.now.c) n }
    {
        let step = Samples(self.step_at(usize::from(n)));
        let left = if word::ends(usize::from(n), step) {
            Samples(0)
        } else {
            step
        };
        Place { segment: n, left }
    }
}

// The ramp once the sample at a place is given: it goes on, and from the end point under free run its sine does; else it is still. As a
// method of Turn it cost a tick a tenth more instructions.
#[tactic(auto, unfolding(crate::specs::Ramp::ended))]
fn ramp_after(loaded: Loaded, period: Micros, place: Place) -> Ramp
    ensures { result ≡ onward loaded period.0 place }
{
    let way = Way {
        place,
        wait: period,
        period,
    };
    if place.left.0 != 0 {
        Ramp::Going(way)
    } else if loaded.tone.runs_free() {
        Ramp::Free(way)
    } else {
        Ramp::Still
    }
}
