// The program verdict: plays a saved bench from standard input on a reset card, and says in words on standard output whether it keeps the
// profile. Saved again the card gives the same bench; where it does not, no saved bench came in.
#![tactic(auto)]

ghost use Rattle.std.specs.Prelude.{◌≤◌, length};

use profile::Break;
use std::io::{Print, Read};
use std::rt::{Stdin, Stdout};
use std::{fmt, io};

// Why no verdict is said.
#[derive(Clone, Copy)]
enum Failure {
    Bench,
    Output,
}

impl fmt::Display for Failure {
    fn fmt<W: fmt::Write>(&self, f: &mut fmt::Formatter<W>) -> fmt::Result {
        f.write_str(match self {
            Failure::Bench => "no saved bench came in; nothing is checked",
            Failure::Output => "standard output cannot be written",
        })
    }
}

// The verdict on the bench. Why there is none is told on standard error, under the name of `./start --check`; where that cannot be written
// there is nobody to tell.
fn main(rt: HostRuntime) {
    let mut buffer = [0; 65536];
    let bench = read_full(rt.stdin(), &mut buffer);
    if let Err(failure) = judge(rt.stdout(), bench) {
        let _ = eprintln!(rt; "check: {failure}");
    }
}

// The bytes that come until the buffer is full, the input ends or a read fails. By place: each read moves it as far as it likes.
fn read_full(mut input: Stdin, buffer: &mut [u8]) -> &[u8]
    ensures { length result.now ≤ length buffer.old }
{
    let mut done = 0;
    while done < buffer.len() {
        match input.read(&mut buffer[done..]) {
            Ok(0) | Err(_) => break,
            Ok(n) => done += n,
        }
    }
    &buffer[..done]
}

// Says the verdict on the bench, if it is a saved one.
fn judge(output: Stdout, bench: &[u8]) -> Result<(), Failure> {
    let mut settings = [0; 16960];
    play(bench, &mut settings)?;
    say(output, profile::check(&settings)).map_err(|_| Failure::Output)
}

// Plays the bench on a card of these settings. Saved again they are the bench's bytes, or no saved bench came in. They are lent: handed back
// they would lie on the stack three times more.
fn play(bench: &[u8], settings: &mut [u16; 16960]) -> Result<(), Failure> {
    let mut tables = [0; 512];
    let mut waves = [0; 4096];
    let mut line = [0; 263];
    let mut out = [0; 65536];
    let card = line::start(settings, &mut tables, &mut waves);
    line::feed(
        settings,
        &mut tables,
        &waves,
        &mut line,
        &mut out,
        card,
        0,
        bench,
    );
    let n = saved::written(saved::save(settings, &mut out)).min(out.len());
    if bench == &out[..n] {
        Ok(())
    } else {
        Err(Failure::Bench)
    }
}

// The verdict in words: the ramp that breaks the profile, and its first point that does.
fn say(output: Stdout, verdict: Result<(), Break>) -> io::Result<()> {
    match verdict {
        Ok(()) => println!(output; "the bench passes: every sum of every ramp is in range"),
        Err(b) => println!(output;
            "the bench breaks the profile, first at channel {}, level {}: the sum at point {} of table {} is out of range",
            b.channel, b.level, b.point, b.table
        ),
    }
}
