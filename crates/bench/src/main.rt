// Cases of a text, each a model, a log and perhaps an old model, and what the C interface answers: file stdin says how they are written.
#![tactic(auto)]

use case_lines::cases::MOST_PLACES;
use std::io;

mod cases;

// The most bytes of the text that are read.
const MOST_TEXT: usize = 65536;

fn main(rt: HostRuntime) -> io::Result<()> {
    let mut text = [0u8; MOST_TEXT];
    let n = lines::filled(&mut rt.reader(), &mut text)?;
    let mut places = [0u32; MOST_PLACES];
    cases::all(&rt, &text[..n], &mut places)
}
