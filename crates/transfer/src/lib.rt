// Transfers: words written to the card and read from it, by address, with the paper's numbers. What a function may change it is lent piece by
// piece, so that its type says it: `&mut` for what it may, `&` for what stays.
#![tactic(auto)]

ghost use Rattle.std.specs.Prelude.{◌≡◌, ◌+◌, ◌≤◌, ◌<◌, take, length, cond, Err, ok_or};
ghost use Rattle.map.specs.Map.{region_of};
ghost use Rattle.channel.specs.Channel.{output_to, overflow_cleared};
ghost use Rattle.card.specs.Card.{before, LeavesWhole};
ghost use Rattle.transfer.specs.Word.{Fits, Steps, held_at, running_at, judge_of, effect_of, perform_of, write_word, status_of, read_word};
ghost use Rattle.transfer.specs.Transfer.{why_number, number_of, processed_of, reply_of, bad_count, writable, readable, write_words, write_of, Ends, Wrote, read_words, read_of, Fills, Reads};

use card::Card;
use channel::Channel;
use map::{Access, Field, Region, Register};

// Why a word is refused.
#[derive(Clone, Copy)]
pub enum Why {
    Fixed,
    Value,
    Held,
    Running,
}

impl Why {
    // Document 01's numbers.
    fn number(self) -> u16
        ensures { result ≡ why_number self }
    {
        match self {
            Why::Fixed => 5,
            Why::Value => 6,
            Why::Held => 7,
            Why::Running => 8,
        }
    }
}

// What an accepted word does: all that a write can do. Nothing is one of the kinds: a 0 written to 0x4201 is accepted, and does
// nothing; an Option round them would put a Some round each other arm.
#[derive(Clone, Copy)]
pub enum Effect {
    // The word at the address becomes this.
    Keep(u16),
    // A channel's output becomes this.
    Output(usize, u16),
    ClearOverflow(usize),
    ClearCount(usize),
    Erase,
    // A manual trigger of this level.
    Trigger(u16),
    Nothing,
}

// Why a transfer stops before its last word; what it carries is the words processed.
#[derive(Clone, Copy)]
pub enum Refusal {
    BadCount,
    NoRegion,
    NoAccess,
    Beyond(usize),
    Word(Why, usize),
}

// What a transfer says: the words processed, all of them or as many as were before a refusal, and the address of the first word not done.
#[derive(Clone, Copy)]
pub struct Reply {
    pub answer: Result<usize, Refusal>,
    pub address: u16,
}

#[derive(Clone, Copy)]
pub struct Written {
    pub card: Card,
    pub reply: Reply,
}

// A write of the first `count` words from an address on. The count stands beside the slice, since one above its length is number 1.
#[tactic(auto, using(crate::proofs::Stops::write_fits))]
pub fn write(
    settings: &mut [u16; 16960],
    tables: &mut [u16; 512],
    mut card: Card,
    start: u16,
    count: usize,
    words: &[u16],
) -> Written
    ensures { Wrote (before card settings.old tables.old) start count words.now result settings.new tables.new }
{
    let answer = write_from(settings, tables, &mut card, start, count, words);
    Written {
        card,
        reply: replied(start, answer),
    }
}

// A read of `count` words from an address on, into the first words of the slice. The count stands beside it as in a write.
#[tactic(auto, using(crate::proofs::Stops::read_fits))]
pub fn read(
    settings: &[u16; 16960],
    card: Card,
    start: u16,
    count: usize,
    words: &mut [u16],
) -> Reply
    ensures { Reads settings.now card start count words.old result words.new }
{
    replied(start, read_from(settings, card, start, count, words))
}

// The paper's number of an answer: 0 is that of no refusal, so it is made of the whole answer. Public, with a row in docs/PROMISES.md.
pub fn number(answer: Result<usize, Refusal>) -> u16
    ensures { result ≡ number_of answer }
{
    match answer {
        Ok(_) => 0,
        Err(Refusal::BadCount) => 1,
        Err(Refusal::NoRegion) => 2,
        Err(Refusal::NoAccess) => 3,
        Err(Refusal::Beyond(_)) => 4,
        Err(Refusal::Word(why, _)) => why.number(),
    }
}

// The words processed.
pub fn processed(answer: Result<usize, Refusal>) -> usize
    ensures { result ≡ processed_of answer }
{
    match answer {
        Ok(n) | Err(Refusal::Beyond(n)) | Err(Refusal::Word(_, n)) => n,
        Err(_) => 0,
    }
}

// The answer with its address, which lies as many words past the start as are done.
fn replied(start: u16, answer: Result<usize, Refusal>) -> Reply
    requires { start + processed_of answer < 65536 }
    ensures { result ≡ reply_of start answer }
{
    Reply {
        answer,
        address: start + processed(answer) as u16,
    }
}

// The words of a write: numbers 1, 2 and 3 once, then word by word. This and the three that it leads to take settings, tables and card apart:
// with a struct of three references each clause and each call would name the same three.
#[tactic(auto, unfolding(crate::specs::Transfer::write_of))]
fn write_from(
    settings: &mut [u16; 16960],
    tables: &mut [u16; 512],
    card: &mut Card,
    start: u16,
    count: usize,
    words: &[u16],
) -> Result<usize, Refusal>
    ensures { Ends (write_of (before card.old settings.old tables.old) start count words.now) card.new result settings.new tables.new }
{
    let region = entry(start, count, words.len())?;
    if !may_write(region.access) {
        return Err(Refusal::NoAccess);
    }
    write_words(settings, tables, card, start, region.last, &words[..count])
}

// The words of a read: the same, into the slice.
#[tactic(auto, using(crate::proofs::Loops::read_by_entry))]
fn read_from(
    settings: &[u16; 16960],
    card: Card,
    start: u16,
    count: usize,
    words: &mut [u16],
) -> Result<usize, Refusal>
    ensures { Fills (read_of settings.now card start count words.old) result words.new }
{
    let region = entry(start, count, words.len())?;
    if !may_read(region.access) {
        return Err(Refusal::NoAccess);
    }
    read_words(settings, card, start, region.last, &mut words[..count])
}

// Numbers 1 and 2: the region of the start, where the count is good and there is one.
fn entry(start: u16, count: usize, len: usize) -> Result<Region, Refusal>
    ensures { result ≡ cond (bad_count count len) (Err Refusal.BadCount) (ok_or (region_of start) Refusal.NoRegion) }
{
    if count == 0 || 16381 < count || len < count {
        return Err(Refusal::BadCount);
    }
    regions::region_of(start).ok_or(Refusal::NoRegion)
}

// Number 3: what the region lets be done. Here, and not methods of `Access`, whose crate knows of no transfer.
fn may_write(access: Access) -> bool
    ensures { result ≡ writable access }
{
    matches!(access, Access::ReadWrite | Access::Write)
}

fn may_read(access: Access) -> bool
    ensures { result ≡ readable access }
{
    matches!(access, Access::ReadWrite | Access::Read)
}

// The words written one after the other, in a region up to `last`.
#[tactic(auto, using(crate::proofs::Loops::write_end, crate::proofs::Loops::write_beyond, crate::proofs::Loops::write_one))]
fn write_words(
    settings: &mut [u16; 16960],
    tables: &mut [u16; 512],
    card: &mut Card,
    start: u16,
    last: u16,
    words: &[u16],
) -> Result<usize, Refusal>
    requires { length words.now ≤ 16381 }
    ensures { Ends (write_words (before card.old settings.old tables.old) start last 0 words.now) card.new result settings.new tables.new }
{
    for (i, word) in words.iter().enumerate() {
        let a = usize::from(start) + i;
        if usize::from(last) < a {
            return Err(Refusal::Beyond(i));
        }
        write_word(settings, tables, card, a as u16, *word).map_err(|why| Refusal::Word(why, i))?;
    }
    Ok(words.len())
}

// The words read one after the other. By place: the edit *fills_first_place* turns which word a step fills.
#[tactic(auto, using(crate::proofs::Loops::read_end, crate::proofs::Loops::read_beyond, crate::proofs::Loops::read_on))]
fn read_words(
    settings: &[u16; 16960],
    card: Card,
    start: u16,
    last: u16,
    words: &mut [u16],
) -> Result<usize, Refusal>
    requires { length words.old ≤ 16381 }
    ensures { Fills (read_words settings.now card start last 0 (length words.old) words.old) result words.new }
{
    for i in 0..words.len() {
        let a = usize::from(start) + i;
        if usize::from(last) < a {
            return Err(Refusal::Beyond(i));
        }
        words[i] = read_word(settings, card, a as u16);
    }
    Ok(words.len())
}

// One word: judged, and done if it is accepted.
#[tactic(auto, using(crate::proofs::Fits::fits), unfolding(crate::specs::Word::write_word))]
fn write_word(
    settings: &mut [u16; 16960],
    tables: &mut [u16; 512],
    card: &mut Card,
    address: u16,
    value: u16,
) -> Result<(), Why>
    ensures { Steps (write_word (before card.old settings.old tables.old) address value) card.new result settings.new tables.new }
{
    let register = map::register_at(address);
    judge(settings, card, register, value)?;
    perform(settings, tables, card, address, effect_of(register, value));
    Ok(())
}

// Whether a word may be written, in the paper's order.
#[tactic(auto, unfolding(crate::specs::Word::judge_of))]
fn judge(settings: &[u16; 16960], card: &Card, register: Register, value: u16) -> Result<(), Why>
    ensures { result ≡ judge_of settings.now card.now register value }
{
    if matches!(register, Register::Fixed(_)) {
        return Err(Why::Fixed);
    }
    if !map::allows(register, value) {
        return Err(Why::Value);
    }
    if is_held(settings, register, value) {
        return Err(Why::Held);
    }
    if is_running(card, register) {
        Err(Why::Running)
    } else {
        Ok(())
    }
}

// The event belongs to another level.
fn is_held(settings: &[u16; 16960], register: Register, value: u16) -> bool
    ensures { result ≡ held_at settings.now register value }
{
    match register {
        Register::Slot(level) => {
            value != 0xFE && slots::held_elsewhere(settings, value, level).is_some()
        }
        _ => false,
    }
}

// A ramp runs or free-runs on the channel whose output this is.
fn is_running(card: &Card, register: Register) -> bool
    ensures { result ≡ running_at card.now register }
{
    matches!(register, Register::Output(c) if channel::runs(card::channel_of(*card, c)))
}

// What an accepted word does at a register.
fn effect_of(register: Register, value: u16) -> Effect
    ensures { result ≡ effect_of register value }
{
    match register {
        Register::Setting(_) | Register::Slot(_) => Effect::Keep(value),
        Register::Output(c) => Effect::Output(c, value),
        Register::Overflow(c) => Effect::ClearOverflow(c),
        Register::Erase if value == 1 => Effect::Erase,
        Register::Manual => Effect::Trigger(value),
        Register::Count(level) => Effect::ClearCount(level),
        _ => Effect::Nothing,
    }
}

// The effect is carried out: the only place where a write changes the card.
#[tactic(auto, unfolding(card::specs::Trigger::trigger_of))]
fn perform(
    settings: &mut [u16; 16960],
    tables: &mut [u16; 512],
    card: &mut Card,
    address: u16,
    effect: Effect,
)
    requires { Fits address effect }
    ensures { LeavesWhole (perform_of (before card.old settings.old tables.old) address effect) card.new settings.new tables.new }
{
    match effect {
        Effect::Keep(v) => settings[usize::from(address)] = v,
        Effect::Output(c, v) => {
            *card = card::with_channel(*card, c, output_to(card::channel_of(*card, c), v));
        }
        Effect::ClearOverflow(c) => {
            *card = card::with_channel(*card, c, overflow_cleared(card::channel_of(*card, c)));
        }
        Effect::ClearCount(level) => *card = card::with_count(*card, level, 0),
        Effect::Erase => slots::erase(settings),
        Effect::Trigger(level) => *card = card::trigger(settings, tables, *card, level, 0xFE),
        Effect::Nothing => {}
    }
}

// The output and the amplitude become v.
fn output_to(mut ch: Channel, v: u16) -> Channel
    ensures { result ≡ output_to ch v }
{
    ch.shown.amplitude = v;
    ch.signal.output = v;
    ch
}

fn overflow_cleared(mut ch: Channel) -> Channel
    ensures { result ≡ overflow_cleared ch }
{
    ch.signal.overflow = 0;
    ch
}

// The word that is read at an address.
fn read_word(settings: &[u16; 16960], card: Card, address: u16) -> u16
    ensures { result ≡ read_word settings.now card address }
{
    match map::register_at(address) {
        Register::Setting(_) | Register::Fixed(_) | Register::Slot(_) => {
            word::get(settings, usize::from(address))
        }
        Register::Output(c) => card::channel_of(card, c).signal.output,
        Register::Status(c, f) => status_of(card::channel_of(card, c), f),
        Register::Overflow(c) => card::channel_of(card, c).signal.overflow,
        Register::Image(e) => slots::image(settings, e),
        Register::ActiveLevel => card.active.level,
        Register::ActiveEvent => card.active.event,
        Register::Count(level) => card::count_of(card, level),
        _ => 0,
    }
}

// A channel's words that are only read.
fn status_of(ch: Channel, field: Field) -> u16
    ensures { result ≡ status_of ch field }
{
    match field {
        Field::Table => ch.loaded.table,
        Field::Scale => ch.loaded.scale,
        Field::Offset => ch.loaded.offset,
        Field::Segment => ch.shown.place.segment,
        Field::Left => ch.shown.place.left.0,
    }
}
