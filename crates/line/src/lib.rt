// Lines: frames of hexadecimal, their answers, and the stream of lines over one card. What a function may change it is lent piece by piece, so
// that its type says it: `&mut` for what it may, `&` for what stays.
#![tactic(auto)]

ghost use Rattle.std.specs.Prelude.{◌≡◌, [], ◌+◌, ◌^◌, ◌≤◌, replicate, length};
ghost use Rattle.std.proofs.lemmas.List.Edits.{sets};
ghost use Rattle.digits.specs.Digits.{hex2};
ghost use Rattle.sum.specs.declared.Edition.TheVariants.{First};
ghost use Rattle.card.specs.Card.{before, LeavesWhole, channel_of};
ghost use Rattle.card.specs.Reset.{waves_reset, fresh_of};
ghost use Rattle.transfer.specs.Transfer.{write_of, read_of};
ghost use Rattle.line.specs.Frame.{words_of, frame_of, write_frame, read_frame, ticks_frame, event_frame};
ghost use Rattle.line.specs.Answer.{refused_in, head_of, wrote, read_text, outputs_of, outputs_text, step_of, Puts, Gives};
ghost use Rattle.line.specs.Session.{found, flow, Takes, Finishes, Ends, Keeps};

use card::Card;
use sum::Edition;

// What a line says, if it is a frame.
#[derive(Clone, Copy)]
pub enum Frame {
    Write { start: u16, count: usize },
    Read { start: u16, count: usize },
    // So many ticks.
    Ticks(u16),
    Event(u16),
}

// The card after an answer, and where the answer ends in the buffer.
#[derive(Clone, Copy)]
pub struct Answered {
    pub card: Card,
    pub end: usize,
}

// After some bytes: the card, how many bytes of the open line are held, where the answers end, and how many bytes were taken. The open line's
// buffer is lent with any number held beside it: `feed` and `finish` promise what they do for each, so no type may rule one out.
#[derive(Clone, Copy)]
pub struct Stream {
    pub card: Card,
    pub held: usize,
    pub end: usize,
    pub taken: usize,
}

// The fresh card on which a session starts: edition 1.
pub fn start(settings: &mut [u16; 16960], tables: &mut [u16; 512], waves: &mut [u16; 4096]) -> Card
    ensures { LeavesWhole (fresh_of First settings.old tables.old) result settings.new tables.new × (waves.new ≡ waves_reset waves.old) }
{
    card::fresh(settings, tables, waves, Edition::First)
}

// Bytes of a chunk, one after the other, as long as `out` has room for one more answer.
#[tactic(auto, using(crate::proofs::Flows::taken_none, crate::proofs::Flows::taken_stop), unfolding(crate::specs::Session::feed_of))]
pub fn feed(
    settings: &mut [u16; 16960],
    tables: &mut [u16; 512],
    waves: &[u16; 4096],
    line: &mut [u8; 263],
    out: &mut [u8],
    card: Card,
    held: usize,
    chunk: &[u8],
) -> Stream
    ensures { Takes waves.now (found card settings.old tables.old line.old held) chunk.now out.old out.new settings.new tables.new line.new result }
{
    let mut at = Stream {
        card,
        held: held.min(263),
        end: 0,
        taken: 0,
    };
    for (i, b) in chunk.iter().enumerate() {
        if out.len() < at.end + 265 {
            return Stream { taken: i, ..at };
        }
        if *b == b'\n' {
            at = end_line(settings, tables, waves, line, out, at);
        } else {
            at.held = keep(line, at.held, *b);
        }
    }
    Stream {
        taken: chunk.len(),
        ..at
    }
}

// The end of the input: a line that has begun is answered, if `out` has room for it.
#[tactic(auto, unfolding(crate::specs::Session::finish_of))]
pub fn finish(
    settings: &mut [u16; 16960],
    tables: &mut [u16; 512],
    waves: &[u16; 4096],
    line: &[u8; 263],
    out: &mut [u8],
    card: Card,
    held: usize,
) -> Stream
    ensures { Finishes waves.now (found card settings.old tables.old line.now held) out.old out.new settings.new tables.new line.now result }
{
    let at = Stream {
        card,
        held: held.min(263),
        end: 0,
        taken: 0,
    };
    if at.held == 0 || out.len() < 265 {
        return at;
    }
    end_line(settings, tables, waves, line, out, at)
}

// The answer to one line, laid into the first bytes of `out`; a line that is no frame answers FF.
#[tactic(auto, using(crate::proofs::Frames::small_frame, crate::proofs::Frames::ticked_answers, card::proofs::Ticks::ticks_settings, card::proofs::Ticks::tick_settings), unfolding(crate::specs::Answer::step_of))]
pub fn answer_line(
    settings: &mut [u16; 16960],
    tables: &mut [u16; 512],
    waves: &[u16; 4096],
    card: Card,
    line: &[u8],
    out: &mut [u8],
) -> Answered
    ensures { Gives (step_of waves.now (before card settings.old tables.old) line.now) 0 out.old out.new settings.new tables.new result }
{
    let Some(frame) = parse(line) else {
        return answer_bad(card, out);
    };
    match frame {
        Frame::Write { start, count } => {
            answer_write(settings, tables, card, line, start, count, out)
        }
        Frame::Read { start, count } => Answered {
            card,
            end: answer_read(settings, card, start, count, out),
        },
        Frame::Ticks(n) => {
            let card = card::run(settings, tables, waves, card, u32::from(n));
            answer_outputs(card, 0x83, out)
        }
        Frame::Event(e) => {
            let card = card::tick(settings, tables, waves, card, e);
            answer_outputs(card, 0x84, out)
        }
    }
}

// A line's answer is FF, or a transfer's with a number that is not 0. A match: one of its three arms asks a second byte.
pub fn refused(answer: &[u8]) -> bool
    ensures { result ≡ refused_in answer.now }
{
    match digits::byte_at(answer, 0) {
        0xFF => true,
        0x81 | 0x82 => digits::byte_at(answer, 2) != 0,
        _ => false,
    }
}

// The head of a transfer's answer from place `at` on: its name, the number, the words processed.
#[tactic(auto, using(digits::proofs::Digits::sets_past, digits::proofs::Digits::sets_append, digits::proofs::Digits::length_hex2), unfolding(crate::specs::Answer::head_of))]
pub fn put_head(out: &mut [u8], at: usize, name: usize, number: u16, processed: usize)
    ensures { out.new ≡ sets out.old at (head_of name number processed) }
{
    if out.len() <= at {
        return;
    }
    digits::put2(out, at, name);
    digits::put2(out, at + 2, usize::from(number));
    digits::put4(out, at + 4, processed);
}

// The frame that a line is, if it is one. Its first byte names it, by a match, as document 01 asks.
#[tactic(auto, unfolding(crate::specs::Frame::frame_of))]
pub fn parse(s: &[u8]) -> Option<Frame>
    ensures { result ≡ frame_of s.now }
{
    if !digits::all_digits(s) {
        return None;
    }
    match digits::byte_at(s, 0) {
        1 => write_frame(s),
        2 => read_frame(s),
        3 => ticks_frame(s),
        4 => event_frame(s),
        _ => None,
    }
}

// ---- the stream

// A line ends: it is answered, and LF ends the answer. Settings, tables and wave tables apart, as `feed` and `finish` are lent them.
fn end_line(
    settings: &mut [u16; 16960],
    tables: &mut [u16; 512],
    waves: &[u16; 4096],
    line: &[u8],
    out: &mut [u8],
    at: Stream,
) -> Stream
    requires { at.end ≤ length out.old }
    ensures ends { Ends waves.now (flow (before at.card settings.old tables.old) line.now at.held []) at.end out.old out.new settings.new tables.new line.now (record { card = result.card; end = result.end }) }
    ensures emptied { result.held ≡ 0 }
    ensures untaken { result.taken ≡ at.taken }
    ensures end_bound { result.end ≤ at.end + 265 }
{
    let n = at.held.min(line.len());
    let a = answer_line(
        settings,
        tables,
        waves,
        at.card,
        &line[..n],
        &mut out[at.end..],
    );
    let end = at.end + a.end;
    word::put(out, end, b'\n');
    Stream {
        card: a.card,
        held: 0,
        end: end + 1,
        ..at
    }
}

// A line goes on: the byte is kept while there is room, and how many are held then.
fn keep(line: &mut [u8; 263], held: usize, b: u8) -> usize
    requires { held ≤ 263 }
    ensures { Keeps line.old held b line.new result }
{
    if held == line.len() {
        return held;
    }
    line[held] = b;
    held + 1
}

// ---- answers

// 81: a write of the line's words, on memory that is lent apart, as `answer_line` is lent it.
#[tactic(auto, using(crate::proofs::Frames::wrote_answers, digits::proofs::Digits::take_sets, digits::proofs::Digits::length_words))]
fn answer_write(
    settings: &mut [u16; 16960],
    tables: &mut [u16; 512],
    card: Card,
    line: &[u8],
    start: u16,
    count: usize,
    out: &mut [u8],
) -> Answered
    requires { count ≤ 64 }
    ensures { Gives (wrote (write_of (before card settings.old tables.old) start count (words_of count line.now))) 0 out.old out.new settings.new tables.new result }
{
    let mut buffer = [0u16; 64];
    digits::words(line, 6, count as u16, &mut buffer);
    let w = transfer::write(settings, tables, card, start, count, &buffer[..count]);
    let answer = w.reply.answer;
    put_head(
        out,
        0,
        0x81,
        transfer::number(answer),
        transfer::processed(answer),
    );
    Answered {
        card: w.card,
        end: 8,
    }
}

// 82: a read, with the words read.
fn answer_read(
    settings: &[u16; 16960],
    card: Card,
    start: u16,
    count: usize,
    out: &mut [u8],
) -> usize
    requires { count ≤ 64 }
    ensures { Puts (read_text (read_of settings.now card start count (replicate 64 0))) 0 out.old out.new result }
{
    let mut buffer = [0u16; 64];
    let answer = transfer::read(settings, card, start, count, &mut buffer).answer;
    let n = transfer::processed(answer);
    put_head(out, 0, 0x82, transfer::number(answer), n);
    digits::put_words(out, 8, &buffer, n as u16);
    8 + 4 * n
}

// 83, after ticks with no event, or 84, after one tick with its event: the name and the four outputs.
#[tactic(auto, using(crate::proofs::Frames::outputs_put))]
fn answer_outputs(card: Card, name: usize, out: &mut [u8]) -> Answered
    ensures { (result.card ≡ card) × Puts (outputs_text name result.card) 0 out.old out.new result.end }
{
    digits::put2(out, 0, name);
    digits::put_words(out, 2, &outputs(card), 4);
    Answered { card, end: 18 }
}

// FF: the line is no frame.
#[tactic(auto, using(crate::proofs::Frames::bad_put))]
fn answer_bad(card: Card, out: &mut [u8]) -> Answered
    ensures { (result.card ≡ card) × Puts (hex2 0xFF) 0 out.old out.new result.end }
{
    digits::put2(out, 0, 0xFF);
    Answered { card, end: 2 }
}

// The outputs of the four channels, in order.
fn outputs(card: Card) -> [u16; 4]
    ensures { result ≡ outputs_of card }
{
    card.channels.map(|ch| ch.signal.output)
}

// ---- frames

// 01, a start, 0 to 64 words.
#[tactic(auto, unfolding(crate::specs::Frame::write_frame))]
fn write_frame(s: &[u8]) -> Option<Frame>
    ensures { result ≡ write_frame s.now }
{
    let count = s.len().checked_sub(6)? / 4;
    if s.len() != 6 + 4 * count || 64 < count {
        return None;
    }
    Some(Frame::Write {
        start: digits::word_at(s, 2),
        count,
    })
}

// 02, a start, a count up to 64.
#[tactic(auto, unfolding(crate::specs::Frame::read_frame))]
fn read_frame(s: &[u8]) -> Option<Frame>
    ensures { result ≡ read_frame s.now }
{
    if s.len() != 10 {
        return None;
    }
    let count = usize::from(digits::word_at(s, 6));
    if 64 < count {
        return None;
    }
    Some(Frame::Read {
        start: digits::word_at(s, 2),
        count,
    })
}

// 03, a number of ticks. This and the next differ in length, width and case: with these three as parameters each would be no shorter.
#[tactic(auto, unfolding(crate::specs::Frame::ticks_frame))]
fn ticks_frame(s: &[u8]) -> Option<Frame>
    ensures { result ≡ ticks_frame s.now }
{
    if s.len() != 6 {
        return None;
    }
    Some(Frame::Ticks(digits::word_at(s, 2)))
}

// 04, an event.
#[tactic(auto, unfolding(crate::specs::Frame::event_frame))]
fn event_frame(s: &[u8]) -> Option<Frame>
    ensures { result ≡ event_frame s.now }
{
    if s.len() != 4 {
        return None;
    }
    Some(Frame::Event(digits::byte_at(s, 2)))
}
