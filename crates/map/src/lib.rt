// The map of words: what the word at an address is, and the values that it accepts.
#![tactic(auto)]

ghost use Rattle.std.specs.Prelude.{◌≡◌, ◌/◌};
ghost use Rattle.map.specs.Map.{register_of, accepted_at, channel_rows, card_rows, scan, named_in, point};
ghost use Rattle.map.specs.Register.{allowed, allowed_setting, is_mode};

// A channel's block, and where its settings begin in it.
pub const BLOCK: u16 = 0x1000;

pub const RAMP_MAP: u16 = 0x800;

pub const SCALE_MAP: u16 = 0x840;

pub const SCALES: u16 = 0x860;

pub const OFFSET_MAP: u16 = 0x880;

pub const OFFSETS: u16 = 0x8A0;

pub const DELAYS: u16 = 0x8E0;

pub const FREQUENCY_MAP: u16 = 0x900;

pub const FREQUENCIES: u16 = 0x920;

pub const PHASE_MAP: u16 = 0x940;

pub const PHASES: u16 = 0x960;

pub const ENABLE: u16 = 0xA00;

pub const MODE: u16 = 0xA01;

// The card's own: the trigger map, and whether clock triggers are enabled.
pub const SLOTS: usize = 0x4000;

pub const CLOCK_ENABLE: usize = 0x4200;

#[derive(Clone, Copy)]
pub enum Access {
    ReadWrite,
    Read,
    Write,
}

// A region of the map: its first address, its last, and what may be done there.
#[derive(Clone, Copy)]
pub struct Region {
    pub first: u16,
    pub last: u16,
    pub access: Access,
}

// A setting other than a trigger slot: a word that keeps what is written to it.
#[derive(Clone, Copy)]
pub enum Setting {
    // V and the time step of a point of a ramp table.
    Value,
    Step,
    RampMap,
    ScaleMap,
    Scale,
    OffsetMap,
    Offset,
    Delay,
    FrequencyMap,
    Frequency,
    PhaseMap,
    Phase,
    WaveformEnable,
    WaveformMode,
    ClockEnable,
}

// A word of a channel that is only read: what was loaded, and where the ramp is.
#[derive(Clone, Copy)]
pub enum Field {
    Table,
    Scale,
    Offset,
    Segment,
    Left,
}

// What the word at an address is. Channels, levels and events are those of the address. Unlisted is one of the kinds: an Option round them
// would put a Some round each other arm of every match.
#[derive(Clone, Copy)]
pub enum Register {
    Setting(Setting),
    // A setting that no write alters.
    Fixed(Setting),
    Output(usize),
    Status(usize, Field),
    Overflow(usize),
    // A slot of the trigger map, by its level.
    Slot(usize),
    Image(u16),
    Erase,
    Manual,
    ActiveLevel,
    ActiveEvent,
    Count(usize),
    Unlisted,
}

// What the word at an address is.
#[tactic(auto, using(crate::proofs::Blocks::channel_register, crate::proofs::Blocks::in_card))]
pub fn register_at(address: u16) -> Register
    ensures { result ≡ register_of address }
{
    if address < 0x4000 {
        channel_register(usize::from(address / 0x1000), address % 0x1000)
    } else {
        card_register(address)
    }
}

// A value is among those that the map accepts at an address.
#[tactic(auto, using(crate::proofs::Values::accepted_is))]
pub fn accepts(address: u16, value: u16) -> bool
    ensures { result ≡ accepted_at address value }
{
    allows(register_at(address), value)
}

// The same, once the register is known.
pub fn allows(register: Register, value: u16) -> bool
    ensures { result ≡ allowed register value }
{
    match register {
        Register::Setting(s) | Register::Fixed(s) => setting_allows(s, value),
        Register::Output(_) | Register::Overflow(_) | Register::Count(_) => true,
        Register::Slot(_) => value <= 0xFF,
        Register::Erase => value <= 1,
        Register::Manual => value <= 31,
        Register::Status(_, _)
        | Register::Image(_)
        | Register::ActiveLevel
        | Register::ActiveEvent
        | Register::Unlisted => false,
    }
}

fn setting_allows(setting: Setting, value: u16) -> bool
    ensures { result ≡ allowed_setting setting value }
{
    match setting {
        Setting::Value
        | Setting::Step
        | Setting::Scale
        | Setting::Offset
        | Setting::Delay
        | Setting::Frequency
        | Setting::Phase => true,
        Setting::RampMap => value <= 15,
        Setting::ScaleMap | Setting::OffsetMap | Setting::FrequencyMap | Setting::PhaseMap => {
            value <= 31
        }
        Setting::WaveformEnable | Setting::ClockEnable => value <= 1,
        Setting::WaveformMode => is_mode(value),
    }
}

// A waveform mode: bit 0 sine, bit 2 free run, others zero.
fn is_mode(value: u16) -> bool
    ensures { result ≡ is_mode value }
{
    value <= 5 && value / 2 % 2 == 0
}

// The word of a table's point: V at an even offset, its time step at the next.
fn table_word(offset: u16) -> Setting
    ensures { result ≡ point offset }
{
    if offset % 2 == 0 {
        Setting::Value
    } else {
        Setting::Step
    }
}

// By the offset from a channel's base.
#[tactic(auto, unfolding(crate::specs::Map::channel_rows, crate::specs::Map::scan))]
fn channel_register(channel: usize, offset: u16) -> Register
    ensures { result ≡ named_in (scan channel_rows offset) channel offset }
{
    let word = table_word(offset);
    match offset {
        0x000..=0x07F => Register::Fixed(word),
        0x080..=0x7FF => Register::Setting(word),
        0x800..=0x81F => Register::Setting(Setting::RampMap),
        0x840..=0x85F => Register::Setting(Setting::ScaleMap),
        0x860 => Register::Fixed(Setting::Scale),
        0x861..=0x87F => Register::Setting(Setting::Scale),
        0x880..=0x89F => Register::Setting(Setting::OffsetMap),
        0x8A0 => Register::Fixed(Setting::Offset),
        0x8A1..=0x8BF => Register::Setting(Setting::Offset),
        0x8E0..=0x8FF => Register::Setting(Setting::Delay),
        0x900..=0x91F => Register::Setting(Setting::FrequencyMap),
        0x920..=0x93F => Register::Setting(Setting::Frequency),
        0x940..=0x95F => Register::Setting(Setting::PhaseMap),
        0x960..=0x97F => Register::Setting(Setting::Phase),
        0xA00 => Register::Setting(Setting::WaveformEnable),
        0xA01 => Register::Setting(Setting::WaveformMode),
        0xA04 => Register::Output(channel),
        0xA30 => Register::Status(channel, Field::Table),
        0xA31 => Register::Status(channel, Field::Scale),
        0xA32 => Register::Status(channel, Field::Offset),
        0xA33 => Register::Status(channel, Field::Segment),
        0xA34 => Register::Status(channel, Field::Left),
        0xA39 => Register::Overflow(channel),
        _ => Register::Unlisted,
    }
}

// From 0x4000 up.
#[tactic(auto, unfolding(crate::specs::Map::card_rows, crate::specs::Map::scan))]
fn card_register(address: u16) -> Register
    ensures { result ≡ named_in (scan card_rows address) (address / 0x1000) address }
{
    match address {
        0x4000..=0x40FF => Register::Slot(usize::from((address - 0x4000) / 8)),
        0x4100..=0x41FF => Register::Image(address - 0x4100),
        0x4200 => Register::Setting(Setting::ClockEnable),
        0x4201 => Register::Erase,
        0x4202 => Register::Manual,
        0x4210 => Register::ActiveLevel,
        0x4211 => Register::ActiveEvent,
        0x4220..=0x423F => Register::Count(usize::from(address - 0x4220)),
        _ => Register::Unlisted,
    }
}
