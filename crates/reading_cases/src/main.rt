// Good and bad tables from the standard input, and what reading them answers.
#![tactic(auto)]

use std::io;

mod asked;
mod cases;
mod show;

// The most bytes of the input that are read.
const MOST_INPUT: usize = 65536;

fn main(rt: HostRuntime) -> io::Result<()> {
    let mut text = [0u8; MOST_INPUT];
    let n = lines::filled(&mut rt.reader(), &mut text)?;
    cases::all(&rt, &text[..n])
}
