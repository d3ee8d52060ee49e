// The trigger map among lent words: who holds an event, the event image, and erasing it.
// The lent words have the word of address a at place a; slot n is word 0x4000 + n, of level n / 8.
#![tactic(auto)]

ghost use Rattle.std.specs.Prelude.{unwrap_or, ◌≡◌, ◌+◌, ◌<◌};
ghost use Rattle.slots.specs.Slots.{holds, holder_from, holder_of, other_of, image_of, filled, erased, InLevels};

// The level of the first slot that holds an event, or none.
pub fn held_by(words: &[u16], event: u16) -> Option<u16>
    ensures { (result ≡ holder_of words.now event) × InLevels result }
{
    search(words, event, None)
}

// The same among the levels other than one.
pub fn held_elsewhere(words: &[u16], event: u16, level: usize) -> Option<u16>
    ensures { (result ≡ other_of words.now event level) × InLevels result }
{
    search(words, event, Some(level))
}

// The image word of an event: 0x0080 + level if the event is not null and some slot holds it.
pub fn image(words: &[u16], event: u16) -> u16
    ensures { result ≡ image_of words.now event }
{
    if event == 0xFE {
        return 0;
    }
    held_by(words, event).map_or(0, |level| 0x80 + level)
}

// Every slot becomes 0xFE.
pub fn erase(words: &mut [u16])
    ensures { words.new ≡ erased words.old }
{
    fill(words, 0x4000, 256, 0xFE)
}

// n words from `first` on all become `word`; past the end nothing is stored, which is why it goes by place.
#[tactic(auto, unfolding(crate::specs::Slots::filled))]
pub fn fill(words: &mut [u16], first: u16, n: u16, word: u16)
    ensures { words.new ≡ filled n words.old first word }
{
    for i in 0..usize::from(n) {
        word::put(words, usize::from(first) + i, word);
    }
}

// The slots one after the other, but for those of a level that is passed over, if any; there is no level 32. By `for`: with `find` the proof did
// not close.
#[tactic(auto, using(crate::proofs::Holders::here, crate::proofs::Holders::on, crate::proofs::Holders::after))]
fn search(words: &[u16], event: u16, but: Option<usize>) -> Option<u16>
    ensures { (result ≡ holder_from words.now event (unwrap_or but 32) 256 0) × InLevels result }
{
    for n in 0..256 {
        if slot_holds(words, event, but, n) {
            return Some((n / 8) as u16);
        }
    }
    None
}

// Slot n is of another level than `but`, and holds the event.
fn slot_holds(words: &[u16], event: u16, but: Option<usize>, n: usize) -> bool
    requires { n < 256 }
    ensures { result ≡ holds words.now event (unwrap_or but 32) n }
{
    but != Some(n / 8) && word::get(words, 0x4000 + n) == event
}
