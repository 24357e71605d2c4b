// The lines of the input: a name that begins with the letter of what is asked, a colon, and words.
use crate::asked::AskedStep;
use crate::show;
use lines;
use std::io;

// The most words of a line that are looked at.
const MOST_WORDS: usize = 400;

// M: a model, S: a step, A: the fact of a step read again.
fn asked(rt: &impl Print, letter: u8, words: &[i32]) -> io::Result<()> {
    if letter == b'M' {
        return show::table(rt, words);
    }
    let Some(step) = AskedStep::of(words) else {
        return Ok(());
    };
    if letter == b'A' {
        show::again(rt, step)
    } else {
        show::step(rt, step)
    }
}

// The line that a text begins with. One with no name or no colon asks for nothing.
fn line(rt: &impl Print, text: &[u8]) -> io::Result<()> {
    let Some(colon) = lines::find(text, b':') else {
        return Ok(());
    };
    let [letter, ..] = &text[..colon] else {
        return Ok(());
    };
    rt.write_all(&text[..colon])?;
    print!(rt; ": ")?;
    let mut words = [0; MOST_WORDS];
    let n = lines::fill(&text[colon + 1..], &mut words);
    asked(rt, *letter, &words[..n])?;
    println!(rt)
}

pub fn all(rt: &impl Print, text: &[u8]) -> io::Result<()> {
    let mut rest = text;
    while !rest.is_empty() {
        line(rt, rest)?;
        rest = lines::next_line(rest);
    }
    Ok(())
}
