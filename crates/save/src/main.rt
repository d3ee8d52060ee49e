// The program save: plays lines from standard input on a reset card of edition 1, then writes its settings as lines to standard output. A line
// that is not answered 0 is told on standard error, and the rest goes on.
#![tactic(auto)]

ghost use Rattle.std.specs.Prelude.{◌≡◌};

use card::Card;
use std::io::{Print, Read};
use std::rt::{Stderr, Stdin, Stdout};
use std::{fmt, io};

// What ends a session before its settings are saved.
#[derive(Clone, Copy)]
enum Failure {
    Input,
    Output,
}

impl fmt::Display for Failure {
    fn fmt<W: fmt::Write>(&self, f: &mut fmt::Formatter<W>) -> fmt::Result {
        f.write_str(match self {
            Failure::Input => "standard input cannot be read; nothing is saved",
            Failure::Output =>
                "standard output cannot be written; the saved lines are not complete",
        })
    }
}

// How many lines were played, and how many of them were not answered 0; and where it is told which. It is lent an answer, and so by its type
// leaves the card.
#[derive(Drop)]
struct Tally {
    words: Stderr,
    played: u64,
    refused: u64,
}

// A session.
#[derive(Drop)]
struct Session {
    lines: Stdin,
    saved: Stdout,
    settings: [u16; 16960],
    tables: [u16; 512],
    waves: [u16; 4096],
    // The open line, and how many bytes of it are held: `line::feed` takes the two apart.
    line: [u8; 263],
    held: usize,
    card: Card,
    answer: [u8; 265],
    tally: Tally,
}

// The session on a reset card. What ends it early is told on standard error, and where that cannot be written there is nobody to tell.
fn main(rt: HostRuntime) {
    let mut settings = [0; 16960];
    let mut tables = [0; 512];
    let mut waves = [0; 4096];
    let card = line::start(&mut settings, &mut tables, &mut waves);
    let mut session = Session {
        lines: rt.stdin(),
        saved: rt.stdout(),
        settings,
        tables,
        waves,
        line: [0; 263],
        held: 0,
        card,
        answer: [0; 265],
        tally: Tally {
            words: rt.stderr(),
            played: 0,
            refused: 0,
        },
    };
    if let Err(failure) = session.serve() {
        let _ = eprintln!(rt; "save: {failure}");
    }
}

impl Session {
    // A read that fails is tried again, a hundred times in all.
    fn serve(&mut self) -> Result<(), Failure> {
        let mut chunk = [0; 65536];
        for _ in 0..100 {
            if self.play_input(&mut chunk).is_ok() {
                return self.end_input(&mut chunk);
            }
        }
        Err(Failure::Input)
    }

    // Plays the input to its end, or until a read fails. A proved loop has to end, and nothing says that the input does: the chunks are
    // counted, up to a number that no run uses up.
    fn play_input(&mut self, chunk: &mut [u8]) -> io::Result<()> {
        for _ in 0..u64::MAX {
            let n = self.lines.read(chunk)?;
            if n == 0 {
                break;
            }
            self.play(&chunk[..n]);
        }
        Ok(())
    }

    // Plays bytes one after the other, so that each call gives one answer at most. No wave table is changed.
    fn play(&mut self, bytes: &[u8])
        ensures { self.new.waves ≡ self.old.waves }
    {
        for byte in bytes {
            let s = line::feed(
                &mut self.settings,
                &mut self.tables,
                &self.waves,
                &mut self.line,
                &mut self.answer,
                self.card,
                self.held,
                &[*byte],
            );
            self.card = s.card;
            self.held = s.held;
            self.tally.count(&self.answer[..s.end]);
        }
    }

    // The end of the input: the last line may lack its LF. What was refused is summed up, and the settings are written as lines. No wave table
    // is changed, nor the open line.
    fn end_input(&mut self, out: &mut [u8]) -> Result<(), Failure>
        ensures { (self.new.waves ≡ self.old.waves) × (self.new.line ≡ self.old.line) }
    {
        let s = line::finish(
            &mut self.settings,
            &mut self.tables,
            &self.waves,
            &self.line,
            &mut self.answer,
            self.card,
            self.held,
        );
        self.tally.count(&self.answer[..s.end]);
        if self.tally.refused > 0 {
            let _ = self.tally.sum_up();
        }
        let n = saved::written(saved::save(&self.settings, out)).min(out.len());
        self.saved.write_all(&out[..n]).map_err(|_| Failure::Output)
    }
}

impl Tally {
    // Counts the line of an answer, if there is one, and tells it if it was refused.
    fn count(&mut self, answer: &[u8]) {
        if answer.is_empty() {
            return;
        }
        self.played = self.played.saturating_add(1);
        if line::refused(answer) {
            self.refused = self.refused.saturating_add(1);
            let _ = self.tell(answer);
        }
    }

    // The line that is refused. Its answer, which ends with LF, is bytes, and a format takes none.
    fn tell(&self, answer: &[u8]) -> io::Result<()> {
        eprint!(self.words; "save: line {} is answered ", self.played)?;
        self.words.write_all(answer)
    }

    // What was refused, in all.
    fn sum_up(&self) -> io::Result<()> {
        eprintln!(self.words;
            "save: {} of {} lines refused; the others were done; the guide has the numbers",
            self.refused, self.played
        )
    }
}
