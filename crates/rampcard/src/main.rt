// The line program: frames from standard input, their answers to standard output, on a reset card of edition 1.
#![tactic(auto)]

ghost use Rattle.std.specs.Prelude.{◌≡◌, ◌≤◌, length, IfOk};
ghost use Rattle.rampcard.specs.Served.{Serves};

use card::Card;
use std::fmt;
use std::io::{Print, Read};
use std::rt::{Stdin, Stdout};

// What ends a session before its input does.
#[derive(Clone, Copy)]
enum Failure {
    Input,
    Output,
}

impl fmt::Display for Failure {
    fn fmt<W: fmt::Write>(&self, f: &mut fmt::Formatter<W>) -> fmt::Result {
        f.write_str(match self {
            Failure::Input => "standard input cannot be read",
            Failure::Output => "standard output cannot be written",
        })
    }
}

// A session. `Failure` and `write_answers` stand in bench too: a crate of their own for these few lines would be longer.
#[derive(Drop)]
struct Session {
    frames: Stdin,
    answers: Stdout,
    settings: [u16; 16960],
    tables: [u16; 512],
    waves: [u16; 4096],
    // The open line, and how many bytes of it are held: `line::feed` takes the two apart.
    line: [u8; 263],
    held: usize,
    card: Card,
    // The answers that are not yet written: `line::feed` lays them from the front on, and says where they end.
    out: [u8; 65536],
}

// The session on a reset card. What ends it early is told on standard error.
fn main(rt: HostRuntime) {
    let mut settings = [0; 16960];
    let mut tables = [0; 512];
    let mut waves = [0; 4096];
    let card = line::start(&mut settings, &mut tables, &mut waves);
    let mut session = Session {
        frames: rt.stdin(),
        answers: rt.stdout(),
        settings,
        tables,
        waves,
        line: [0; 263],
        held: 0,
        card,
        out: [0; 65536],
    };
    if let Err(failure) = session.serve() {
        // Where this cannot be written there is nobody to tell.
        let _ = eprintln!(rt; "rampcard: {failure}");
    }
}

impl Session {
    // A proved loop has to end, and nothing says that the input does: the chunks are counted, up to a number that no run uses up.
    fn serve(&mut self) -> Result<(), Failure> {
        let mut chunk = [0; 65536];
        for _ in 0..u64::MAX {
            let bytes = read_some(self.frames, &mut chunk)?;
            if bytes.is_empty() {
                return self.end_input();
            }
            self.serve_chunk(bytes)?;
        }
        Ok(())
    }

    // The end of the input: the last line may lack its LF. No wave table is changed, nor the open line.
    fn end_input(&mut self) -> Result<(), Failure>
        ensures { (self.new.waves ≡ self.old.waves) × (self.new.line ≡ self.old.line) }
    {
        let s = line::finish(
            &mut self.settings,
            &mut self.tables,
            &self.waves,
            &self.line,
            &mut self.out,
            self.card,
            self.held,
        );
        self.write_answers(s.end)
    }

    // One chunk, fed again until nothing of it is left: how much a call takes depends on the room. Each time the answers are written.
    fn serve_chunk(&mut self, chunk: &[u8]) -> Result<(), Failure>
        ensures same_waves { self.new.waves ≡ self.old.waves }
        ensures served { Serves self.old self.new chunk.now result }
    {
        let mut rest = chunk;
        while !rest.is_empty() {
            let s = line::feed(
                &mut self.settings,
                &mut self.tables,
                &self.waves,
                &mut self.line,
                &mut self.out,
                self.card,
                self.held,
                rest,
            );
            rest = &rest[s.taken..];
            self.card = s.card;
            self.held = s.held;
            self.write_answers(s.end)?;
        }
        Ok(())
    }

    // Writes the answers, which end at `end`.
    fn write_answers(&self, end: usize) -> Result<(), Failure>
        requires { end ≤ 65536 }
    {
        self.answers
            .write_all(&self.out[..end])
            .map_err(|_| Failure::Output)
    }
}

// Reads once. A read that fails is tried again, a hundred times in all, so that an interrupted one is not the end. No method: it is handed the
// input alone, and so by its type leaves the card and writes nothing.
fn read_some(mut frames: Stdin, chunk: &mut [u8]) -> Result<&[u8], Failure>
    ensures { IfOk result (λ bytes. length bytes.now ≤ length chunk.old) }
{
    for _ in 0..100 {
        if let Ok(n) = frames.read(chunk) {
            return Ok(&chunk[..n]);
        }
    }
    Err(Failure::Input)
}
