// The bench program: the line program's frames and one frame for every further call, from standard input to standard output. It starts on a
// fresh card of edition 1.
#![tactic(auto)]

ghost use Rattle.std.specs.Prelude.{◌≡◌, ◌+◌, ◌<◌, ◌≤◌, IfSome};
ghost use Rattle.bench.specs.Room.{longest, last_room, Short};

use arrayvec::ArrayVec;
use card::Card;
use panel::{Plotted, Reading};
use std::fmt;
use std::io::{Print, Read};
use std::rt::{Stdin, Stdout};
use sum::Edition;
use transfer::Reply;

// What ends a session before its input does.
#[derive(Clone, Copy)]
enum Failure {
    Input,
    Output,
}

impl fmt::Display for Failure {
    fn fmt<W: fmt::Write>(&self, f: &mut fmt::Formatter<W>) -> fmt::Result {
        f.write_str(match self {
            Failure::Input => "standard input cannot be read",
            Failure::Output => "standard output cannot be written",
        })
    }
}

// The card and the words that are lent to it.
#[derive(Drop)]
struct Bench {
    settings: [u16; 16960],
    tables: [u16; 512],
    waves: [u16; 4096],
    card: Card,
}

// A session. `Failure` and `write_answers` stand in rampcard too: a crate of their own for these few lines would be longer.
#[derive(Drop)]
struct Session {
    frames: Stdin,
    answers: Stdout,
    bench: Bench,
    // The open line. 16,395 bytes decide one, being one more than the longest frame has.
    line: ArrayVec<u8, 16395>,
    // The answers that are not yet written. No ArrayVec: an answer is laid into the room behind them.
    out: [u8; 65536],
}

// The session on a fresh card. What ends it early is told on standard error, and where that cannot be written there is nobody to tell.
fn main(rt: HostRuntime) {
    let mut settings = [0; 16960];
    let mut tables = [0; 512];
    let mut waves = [0; 4096];
    let card = line::start(&mut settings, &mut tables, &mut waves);
    let mut session = Session {
        frames: rt.stdin(),
        answers: rt.stdout(),
        bench: Bench {
            settings,
            tables,
            waves,
            card,
        },
        line: ArrayVec::new(),
        out: [0; 65536],
    };
    if let Err(failure) = session.serve() {
        let _ = eprintln!(rt; "bench: {failure}");
    }
}

// The last place of the 65,536 from which there is room for an answer, which has at most 16,397 bytes with its LF.
const LAST_ROOM: usize = 49139;

impl Session {
    // A read that fails is tried again, a hundred times in all.
    fn serve(&mut self) -> Result<(), Failure> {
        let mut chunk = [0; 65536];
        for _ in 0..100 {
            match self.serve_input(&mut chunk) {
                Err(Failure::Input) => {}
                ended => return ended,
            }
        }
        Err(Failure::Input)
    }

    // Serves the input to its end, or until a read fails. A proved loop has to end, and nothing says that the input does: the chunks are
    // counted, up to a number that no run uses up.
    fn serve_input(&mut self, chunk: &mut [u8]) -> Result<(), Failure> {
        for _ in 0..u64::MAX {
            let n = self.frames.read(chunk).map_err(|_| Failure::Input)?;
            if n == 0 {
                return self.end_input();
            }
            self.serve_chunk(&chunk[..n])?;
        }
        Ok(())
    }

    // The end of the input: the last line may lack its LF.
    fn end_input(&mut self) -> Result<(), Failure> {
        if self.line.is_empty() {
            return Ok(());
        }
        let end = end_line(&mut self.bench, &mut self.line, &mut self.out, 0);
        self.write_answers(end)
    }

    // The bytes of a chunk one after the other. The answers are written when there may be no room for one more, and at the end.
    fn serve_chunk(&mut self, chunk: &[u8]) -> Result<(), Failure> {
        let mut end = 0;
        for byte in chunk {
            if *byte == b'\n' {
                end = end_line(&mut self.bench, &mut self.line, &mut self.out, end);
                if end > LAST_ROOM {
                    self.write_answers(end)?;
                    end = 0;
                }
            } else {
                // A line goes on: the byte is kept while there is room.
                let _ = self.line.try_push(*byte);
            }
        }
        self.write_answers(end)
    }

    // Writes the answers, which end at `end`.
    fn write_answers(&self, end: usize) -> Result<(), Failure>
        requires { end ≤ 65536 }
    {
        self.answers
            .write_all(&self.out[..end])
            .map_err(|_| Failure::Output)
    }
}

// A line ends: its answer is laid at place `at`, and LF ends the answer. Where it ends. No method: it is lent no stream.
fn end_line(
    bench: &mut Bench,
    line: &mut ArrayVec<u8, 16395>,
    out: &mut [u8; 65536],
    at: usize,
) -> usize
    requires { at ≤ last_room }
    ensures { result ≤ at + longest + 1 }
{
    let end = at + bench.answer(line.as_slice(), &mut out[at..]).end;
    out[end] = b'\n';
    line.clear();
    end + 1
}

// ---- frames: each lays its answer into the first bytes of `out`. None: the line is no frame.

// Where an answer ends, which has at most 16,396 bytes.
#[derive(Clone, Copy)]
struct Answer {
    end: usize,
    ghost short: { Short end },
}

impl Bench {
    // The answer to a line: FF where it is no frame.
    fn answer(&mut self, line: &[u8], out: &mut [u8]) -> Answer {
        match self.frame(line, out) {
            Some(answer) => answer,
            None => {
                digits::put2(out, 0, 0xFF);
                Answer { end: 2 }
            }
        }
    }

    // The first byte names the frame. A match: the handlers change the card, read it or do without, so no table of them would do.
    fn frame(&mut self, line: &[u8], out: &mut [u8]) -> Option<Answer> {
        if !digits::all_digits(line) {
            return None;
        }
        match digits::byte_at(line, 0) {
            0x10 => self.hand_in(line, out),
            0x11 => self.write_slice(line, out),
            0x12 => self.read_slice(line, out),
            0x15 => self.save(line, out),
            0x16 => self.check(line, out),
            0x17 => self.fresh(line, out),
            0x18 => self.reset(line, out),
            0x1B => self.plot(line, out),
            0x1C => show(line, out),
            _ => Some(self.answer_line(line, out)),
        }
    }

    // A frame of the line program.
    fn answer_line(&mut self, line: &[u8], out: &mut [u8]) -> Answer {
        let a = line::answer_line(
            &mut self.settings,
            &mut self.tables,
            &self.waves,
            self.card,
            line,
            out,
        );
        self.card = a.card;
        Answer { end: a.end }
    }

    // 10, channel, words: the wave table of a channel; all else of the card stays. A line of 16,394 digits has 4,097 words at most.
    fn hand_in(&mut self, line: &[u8], out: &mut [u8]) -> Option<Answer>
        ensures { (self.new.settings ≡ self.old.settings) × (self.new.tables ≡ self.old.tables) × (self.new.card ≡ self.old.card) }
    {
        let count = words_after(line, 4, 4097)?;
        let mut words = [0; 4097];
        digits::words(line, 4, count, &mut words);
        let channel = digits::byte_at(line, 2);
        let reply = wavetable::hand_in(
            &mut self.waves,
            self.card,
            channel,
            &words[..usize::from(count)],
        );
        digits::put2(out, 0, 0x90);
        digits::put2(out, 2, usize::from(wavetable::number(reply)));
        Some(Answer { end: 4 })
    }

    // 11, start, count, words: a write of `count` from a slice of these words. No wave table is changed.
    fn write_slice(&mut self, line: &[u8], out: &mut [u8]) -> Option<Answer>
        ensures { self.new.waves ≡ self.old.waves }
    {
        let count = words_after(line, 10, 4096)?;
        let mut words = [0; 4096];
        digits::words(line, 10, count, &mut words);
        let w = transfer::write(
            &mut self.settings,
            &mut self.tables,
            self.card,
            digits::word_at(line, 2),
            usize::from(digits::word_at(line, 6)),
            &words[..usize::from(count)],
        );
        self.card = w.card;
        put_reply(out, 0x91, w.reply);
        Some(Answer { end: 12 })
    }

    // 12, start, count, length up to 1000 (hex), fill: a read into a slice of that length, and the whole slice.
    fn read_slice(&self, line: &[u8], out: &mut [u8]) -> Option<Answer> {
        if line.len() != 18 {
            return None;
        }
        let asked = digits::word_at(line, 10);
        if asked > 4096 {
            return None;
        }
        let mut words = [digits::word_at(line, 14); 4096];
        let reply = transfer::read(
            &self.settings,
            self.card,
            digits::word_at(line, 2),
            usize::from(digits::word_at(line, 6)),
            &mut words[..usize::from(asked)],
        );
        put_reply(out, 0x92, reply);
        digits::put_words(out, 12, &words, asked);
        Some(Answer {
            end: 12 + 4 * usize::from(asked),
        })
    }

    // 15, length (8) up to 10000 (hex): the settings saved as lines, into a buffer of that many bytes, each 55 (hex) before. 95, number (2),
    // bytes written (8), Adler-32 of the whole buffer (8).
    fn save(&self, line: &[u8], out: &mut [u8]) -> Option<Answer> {
        if line.len() != 10 {
            return None;
        }
        let asked = usize::from(digits::word_at(line, 2)) * 65536
            + usize::from(digits::word_at(line, 6));
        if asked > 65536 {
            return None;
        }
        let mut buffer = [0x55; 65536];
        let buffer = &mut buffer[..asked];
        let saved = saved::save(&self.settings, buffer);
        digits::put2(out, 0, 0x95);
        digits::put2(out, 2, usize::from(saved::number(saved)));
        put8(out, 4, saved::written(saved));
        put8(out, 12, adler(buffer));
        Some(Answer { end: 20 })
    }

    // 16: whether the bench keeps the profile: 9600, or 9601, channel (2), level (2).
    fn check(&self, line: &[u8], out: &mut [u8]) -> Option<Answer> {
        if line.len() != 2 {
            return None;
        }
        match profile::check(&self.settings) {
            Ok(()) => {
                digits::put4(out, 0, 0x9600);
                Some(Answer { end: 4 })
            }
            Err(b) => {
                digits::put4(out, 0, 0x9601);
                digits::put2(out, 4, usize::from(b.channel));
                digits::put2(out, 6, usize::from(b.level));
                Some(Answer { end: 8 })
            }
        }
    }

    // 17, edition, 01 or 02: a fresh card of that edition, and 97.
    fn fresh(&mut self, line: &[u8], out: &mut [u8]) -> Option<Answer> {
        if line.len() != 4 {
            return None;
        }
        let edition = edition_of(digits::byte_at(line, 2))?;
        self.card = card::fresh(
            &mut self.settings,
            &mut self.tables,
            &mut self.waves,
            edition,
        );
        digits::put2(out, 0, 0x97);
        Some(Answer { end: 2 })
    }

    // 18: a reset, which keeps the edition, and 98.
    fn reset(&mut self, line: &[u8], out: &mut [u8]) -> Option<Answer> {
        if line.len() != 2 {
            return None;
        }
        self.card = card::reset(
            &mut self.settings,
            &mut self.tables,
            &mut self.waves,
            self.card,
        );
        digits::put2(out, 0, 0x98);
        Some(Answer { end: 2 })
    }

    // 1B, channel, table, point: a plotted point, or 9B00 where there is none.
    fn plot(&self, line: &[u8], out: &mut [u8]) -> Option<Answer> {
        if line.len() != 8 {
            return None;
        }
        let channel = usize::from(digits::byte_at(line, 2));
        let table = usize::from(digits::byte_at(line, 4));
        let point = usize::from(digits::byte_at(line, 6));
        match panel::plot_point(&self.settings, channel, table, point) {
            Some(p) => {
                put_point(out, p);
                Some(Answer { end: 28 })
            }
            None => {
                digits::put4(out, 0, 0x9B00);
                Some(Answer { end: 4 })
            }
        }
    }
}

// 1C, address, word: what the panel shows: 9C, a kind in 2 digits, a value in 8.
fn show(line: &[u8], out: &mut [u8]) -> Option<Answer> {
    if line.len() != 10 {
        return None;
    }
    let word = digits::word_at(line, 6);
    let (kind, value) = match panel::show_word(digits::word_at(line, 2), word) {
        Reading::Nothing => (0, usize::from(word)),
        Reading::Volts(v) => (1, bits(v * 32768.0)),
        Reading::Factor(f) => (2, bits(f * 256.0)),
        Reading::Micros(_) => (3, usize::from(word)),
        Reading::Samples(_) => (4, usize::from(word)),
        Reading::Plain(_) => (5, usize::from(word)),
    };
    digits::put2(out, 0, 0x9C);
    digits::put2(out, 2, kind);
    put8(out, 4, value);
    Some(Answer { end: 12 })
}

// How many words of four digits a line has after `head` digits, if they are its whole rest and at most `most`.
fn words_after(line: &[u8], head: usize, most: u16) -> Option<u16>
    ensures { IfSome result (λ count. count ≤ most) }
{
    let rest = line.len().checked_sub(head)?;
    let count = u16::try_from(rest / 4).ok()?;
    (rest % 4 == 0 && count <= most).then_some(count)
}

// The edition that a byte names. Here, and no TryFrom: `sum`, whose enum it is, knows of no frame.
fn edition_of(byte: u16) -> Option<Edition> {
    match byte {
        1 => Some(Edition::First),
        2 => Some(Edition::Second),
        _ => None,
    }
}

// The head of a transfer's answer: its name, the number, the words processed, and the address of the first word not done.
fn put_reply(out: &mut [u8], name: usize, reply: Reply) {
    let number = transfer::number(reply.answer);
    let processed = transfer::processed(reply.answer);
    line::put_head(out, 0, name, number, processed);
    digits::put4(out, 8, usize::from(reply.address));
}

// 9B01, volts × 32768 in 8 digits, microseconds in 16.
fn put_point(out: &mut [u8], p: Plotted) {
    digits::put4(out, 0, 0x9B01);
    put8(out, 4, bits(p.volts * 32768.0));
    let micros = bits(p.micros);
    put8(out, 12, micros / 0x100000000);
    put8(out, 20, micros);
}

// Eight digits: two words of four.
fn put8(out: &mut [u8], at: usize, x: usize)
    requires { at ≤ longest }
{
    digits::put4(out, at, x / 65536);
    digits::put4(out, at + 4, x);
}

// ---- numbers

// Adler-32 of some bytes.
fn adler(bytes: &[u8]) -> usize {
    let mut a = 1;
    let mut b = 0;
    for byte in bytes {
        a = reduced(a + usize::from(*byte));
        b = reduced(b + a);
    }
    b * 65536 + a
}

// A sum of two, modulo 65,521: by a comparison, since a remainder takes twice the time.
fn reduced(sum: usize) -> usize
    requires { sum < 131042 }
    ensures { result < 65521 }
{
    if sum < 65521 { sum } else { sum - 65521 }
}

// A whole number in two's complement. Volts × 32768, factors × 256 and microseconds are far from where it would saturate.
fn bits(x: f64) -> usize {
    std::num::saturating_f64_to_isize(x).cast_unsigned()
}
