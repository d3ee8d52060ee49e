// The card: four channels, triggers, clock events and ticks. Settings, loaded tables and wave tables are lent, each by itself, so that `&` or
// `&mut` says whether a call may change it; the rest goes by value.
#![tactic(auto)]

ghost use Rattle.std.specs.Prelude.{◌≡◌};
ghost use Rattle.card.specs.Card.{before, Leaves, LeavesWhole, LeavesAll, no_channel, channel_of, with_channel, count_of, with_count};
ghost use Rattle.card.specs.Active.{some_loaded, showing};
ghost use Rattle.card.specs.Trigger.{counted, struck, trigger_of, accepted_of, event_of};
ghost use Rattle.card.specs.Tick.{advanced, tick_with, ticks};
ghost use Rattle.card.specs.Reset.{settings_reset, waves_reset, card_reset, fresh_of, reset_of};

use channel::{Channel, Loaded};
use sum::Edition;

// What causes a ramp: an accepted trigger's level, and its event, 0xFE if manual.
#[derive(Clone, Copy)]
pub struct Cause {
    pub level: u16,
    pub event: u16,
}

// The edition, which no address shows, is chosen with the fresh card and never changes. 0x4210 and 0x4211 show the active cause. The pending
// one is the last trigger's; a load makes it the active one.
#[derive(Clone, Copy)]
pub struct Card {
    pub edition: Edition,
    pub channels: [Channel; 4],
    pub counts: [u16; 32],
    pub active: Cause,
    pub pending: Cause,
}

// A fresh card of an edition: settings, loaded tables, wave tables and card as after a reset.
#[tactic(auto, using(crate::proofs::Resets::all_filled), unfolding(crate::specs::Reset::tables_reset, crate::specs::Reset::waves_reset))]
pub fn fresh(
    settings: &mut [u16; 16960],
    tables: &mut [u16; 512],
    waves: &mut [u16; 4096],
    edition: Edition,
) -> Card
    ensures { LeavesWhole (fresh_of edition settings.old tables.old) result settings.new tables.new × (waves.new ≡ waves_reset waves.old) }
{
    reset_settings(settings);
    tables.fill(0);
    waves.fill(0);
    reset_card(edition)
}

// A reset: the card is fresh again, and of the same edition.
pub fn reset(
    settings: &mut [u16; 16960],
    tables: &mut [u16; 512],
    waves: &mut [u16; 4096],
    card: Card,
) -> Card
    ensures { LeavesWhole (reset_of (before card settings.old tables.old)) result settings.new tables.new × (waves.new ≡ waves_reset waves.old) }
{
    fresh(settings, tables, waves, card.edition)
}

// One tick: every channel moves on by a microsecond, then the event is taken. 0xFE is no event.
#[tactic(auto, unfolding(crate::specs::Tick::advanced))]
pub fn tick(
    settings: &[u16; 16960],
    tables: &mut [u16; 512],
    waves: &[u16; 4096],
    card: Card,
    event: u16,
) -> Card
    ensures { Leaves (tick_with waves.now (before card settings.now tables.old) event) result tables.new }
{
    let mut next = card;
    advance(settings, tables, waves, &mut next);
    receive(settings, tables, next, event)
}

// n ticks with no event.
#[tactic(auto, using(crate::proofs::Ticks::all_done))]
pub fn run(
    settings: &[u16; 16960],
    tables: &mut [u16; 512],
    waves: &[u16; 4096],
    mut card: Card,
    n: u32,
) -> Card
    ensures { Leaves (ticks waves.now n (before card settings.now tables.old)) result tables.new }
{
    for _ in 0..n {
        advance(settings, tables, waves, &mut card);
    }
    card
}

// An accepted trigger of a level: its count, every channel's countdown, and the level and event, which show once a channel loads.
#[tactic(auto, unfolding(crate::specs::Trigger::trigger_of))]
pub fn trigger(
    settings: &[u16; 16960],
    tables: &mut [u16; 512],
    card: Card,
    level: u16,
    event: u16,
) -> Card
    ensures { Leaves (trigger_of (before card settings.now tables.old) level event) result tables.new }
{
    let struck = count_trigger(strike(settings, tables, card, level), level);
    show(Card {
        pending: Cause { level, event },
        ..struck
    })
}

// Channel c, or an empty one where there is none.
pub fn channel_of(card: Card, c: usize) -> Channel
    ensures { result ≡ channel_of card c }
{
    card.channels.get(c).copied().unwrap_or_else(no_channel)
}

// The card with another channel c.
pub fn with_channel(mut card: Card, c: usize, ch: Channel) -> Card
    ensures { result ≡ with_channel card c ch }
{
    word::put(&mut card.channels, c, ch);
    card
}

// A level's count.
pub fn count_of(card: Card, level: usize) -> u16
    ensures { result ≡ count_of card level }
{
    card.counts.get(level).copied().unwrap_or(0)
}

// The card with another count of a level.
pub fn with_count(mut card: Card, level: usize, n: u16) -> Card
    ensures { result ≡ with_count card level n }
{
    word::put(&mut card.counts, level, n);
    card
}

// Every channel one microsecond on. Each has both its passes in turn, which comes to the first pass of all and then the second of all,
// since no output looks at another channel's ramp. By number, which each call takes. A load shows the pending trigger.
fn advance(settings: &[u16; 16960], tables: &mut [u16; 512], waves: &[u16; 4096], card: &mut Card)
    ensures { Leaves (advanced waves.now (before card.old settings.now tables.old)) card.new tables.new }
{
    for c in 0..4 {
        let t = channel::move_ramp(settings, tables, card.edition, c as u16, card.channels[c]);
        card.channels[c] = channel::make_output(waves, c as u16, t);
    }
    *card = show(*card);
}

// Every channel's countdown is set anew for a level.
fn strike(settings: &[u16; 16960], tables: &mut [u16; 512], mut card: Card, level: u16) -> Card
    ensures { LeavesAll (struck (before card settings.now tables.old) level) card result tables.new }
{
    for c in 0..4 {
        card.channels[c] = channel::trigger(settings, tables, c as u16, card.channels[c], level);
    }
    card
}

// The pending cause is shown if some channel has just loaded.
fn show(card: Card) -> Card
    ensures { result ≡ showing card }
{
    if some_loaded(card) {
        Card {
            active: card.pending,
            ..card
        }
    } else {
        card
    }
}

// Whether the trigger or the tick that has just moved the card has loaded some channel.
fn some_loaded(card: Card) -> bool
    ensures { result ≡ some_loaded card }
{
    card.channels.iter().any(|ch| channel::just_loaded(*ch))
}

// One more trigger of a level.
fn count_trigger(card: Card, level: u16) -> Card
    ensures { result ≡ counted card level }
{
    let l = usize::from(level);
    with_count(card, l, word::grow(count_of(card, l)))
}

// The level of the accepted trigger that an event is, if it is one.
#[tactic(auto, unfolding(crate::specs::Trigger::accepted_of))]
fn accepted(settings: &[u16; 16960], event: u16) -> Option<u16>
    ensures { result ≡ accepted_of settings.now event }
{
    if event == 0xFE || word::get(settings, map::CLOCK_ENABLE) != 1 {
        None
    } else {
        slots::held_by(settings, event)
    }
}

// An event received.
fn receive(settings: &[u16; 16960], tables: &mut [u16; 512], card: Card, event: u16) -> Card
    ensures { Leaves (event_of (before card settings.now tables.old) event) result tables.new }
{
    if let Some(level) = accepted(settings, event) {
        trigger(settings, tables, card, level, event)
    } else {
        card
    }
}

fn reset_settings(settings: &mut [u16; 16960])
    ensures { settings.new ≡ settings_reset settings.old }
{
    settings.fill(0);
    for c in 0..4 {
        slots::fill(settings, c * map::BLOCK + map::SCALES, 32, 0x0100);
    }
    slots::erase(settings)
}

// A channel that is not there.
fn no_channel() -> Channel
    ensures { result ≡ no_channel }
{
    let ch = channel::fresh();
    Channel {
        loaded: Loaded {
            scale: 0,
            ..ch.loaded
        },
        ..ch
    }
}

// The card itself after a reset.
#[tactic(auto, unfolding(crate::specs::Reset::card_reset))]
fn reset_card(edition: Edition) -> Card
    ensures { result ≡ card_reset edition }
{
    let none = Cause {
        level: 0,
        event: 0xFE,
    };
    Card {
        edition,
        channels: [channel::fresh(); 4],
        counts: [0; 32],
        active: none,
        pending: none,
    }
}
