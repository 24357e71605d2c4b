// A line gives one table of a case, or asks for its answer.
use case_lines::cases::Case;
use case_lines::{cases, show};
use dimpsyholt;
use lines;
use std::io;

// The answer to a case: to a recheck where it has an old model, else to a check.
fn asked(rt: &impl Print, c: &Case, places: &mut [u32]) -> io::Result<()> {
    let model = c.model.words();
    let log = c.log.words();
    let a = match c.old() {
        Some(old) => dimpsyholt::dimpsyholt_recheck(old, model, log, places),
        None => dimpsyholt::dimpsyholt_check(model, log, places),
    };
    show::answer(rt, a)
}

// The answer to a case, and the places that are written.
fn ask(rt: &impl Print, c: &Case, places: &mut [u32]) -> io::Result<()> {
    if places.len() < c.lent {
        return Ok(());
    }
    cases::lend(&mut *places);
    asked(rt, c, &mut places[..c.lent])?;
    show::written(rt, places)
}

// A line that asks, or that gives a part of a case.
fn line(rt: &impl Print, text: &[u8], c: &mut Case, places: &mut [u32]) -> io::Result<()> {
    if cases::asks(text) {
        ask(rt, c, places)
    } else {
        c.given(rt, text)
    }
}

// Every line in turn.
pub fn all(rt: &impl Print, text: &[u8], places: &mut [u32]) -> io::Result<()> {
    let mut c = Case::new();
    let mut rest = text;
    while !rest.is_empty() {
        line(rt, rest, &mut c, &mut *places)?;
        rest = lines::next_line(rest);
    }
    Ok(())
}
