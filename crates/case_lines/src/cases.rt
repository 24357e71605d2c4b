// A line gives one table of a case, or asks for its answer.
ghost use Rattle.std.proofs.Props.{props};
ghost use Rattle.std.specs.Prelude.{◌≡◌, ◌≤◌, length, replicate, take, IfSome, option_copied, option_map};

use crate::show;
use lines;
use reading::limits::{FEWEST_PLACES, MOST_LOG_WORDS, MOST_MODEL_WORDS};
use std::io;

// A table may be given with a word more than is allowed.
const MODEL_ROOM: usize = MOST_MODEL_WORDS + 1;

const LOG_ROOM: usize = MOST_LOG_WORDS + 1;

// The most places that are lent, and as many as a new case lends.
pub const MOST_PLACES: usize = FEWEST_PLACES;

// The words of a table: so many at the front of the room.
#[derive(Clone, Copy)]
pub struct Table<const ROOM: usize> {
    room: [i32; ROOM],
    count: usize,
    ghost within: { count ≤ ROOM },
}

impl<const ROOM: usize> Table<ROOM> {
    // Before any line.
    fn new() -> Table<ROOM> {
        Table {
            room: [0; ROOM],
            count: 0,
        }
    }

    // The words of a line, put where the words before them were: the room is neither emptied nor moved.
    fn take(&mut self, text: &[u8]) {
        self.count = lines::fill(text, &mut self.room);
    }

    pub fn words(&self) -> &[i32]
        ensures { result.now ≡ take self.now.count self.now.room }
    {
        &self.room[..self.count]
    }
}

// The tables of a case, and how many places are lent. The room of an old model stays where there is none.
#[derive(Clone, Copy)]
pub struct Case {
    old_room: [i32; MODEL_ROOM],
    old_count: Option<usize>,
    pub model: Table<MODEL_ROOM>,
    pub log: Table<LOG_ROOM>,
    pub lent: usize,
    ghost old_within: { IfSome old_count (λ n. n ≤ length old_room) } by { Prim.hlevel props },
}

impl Case {
    // Before any line.
    pub fn new() -> Case {
        Case {
            old_room: [0; MODEL_ROOM],
            old_count: None,
            model: Table::new(),
            log: Table::new(),
            lent: 0,
        }
    }

    // The words of the old model, where the case is checked again.
    pub fn old(&self) -> Option<&[i32]>
        ensures { option_copied result ≡ option_map (λ n. take n self.now.old_room) self.now.old_count }
    {
        let n = self.old_count?;
        Some(&self.old_room[..n])
    }

    // A line that asks for nothing, by its first letters: case, lent, log, old, model. A new case keeps the model and the log.
    pub fn given(&mut self, rt: &impl Print, text: &[u8]) -> io::Result<()> {
        match text {
            [b'c', _, ..] => {
                show::line(rt, text)?;
                self.old_count = None;
                self.lent = MOST_PLACES;
            }
            [b'l', b'e', ..] => self.lent = first_number(behind(text, b"lent")),
            [b'l', _, ..] => self.log.take(behind(text, b"log")),
            [b'o', _, ..] => {
                self.old_count = Some(lines::fill(behind(text, b"old"), &mut self.old_room));
            }
            [b'm', _, ..] => self.model.take(behind(text, b"model")),
            _ => {}
        }
        Ok(())
    }
}

// Every place is lent with a number that no step begins at.
pub fn lend(places: &mut [u32])
    ensures { places.new ≡ replicate (length places.old) 4294967295 }
{
    places.fill(show::AS_LENT);
}

// What stands behind a name, which is told by its first letters alone.
fn behind<'a>(text: &'a [u8], name: &[u8]) -> &'a [u8] {
    text.get(name.len()..).unwrap_or(b"")
}

// The number at the front of a text, 0 where there is none.
fn first_number(text: &[u8]) -> usize {
    lines::next_word(text).map_or(0, |(value, _)| lines::number(value))
}

// Does a line ask for the answer?
pub fn asks(text: &[u8]) -> bool {
    text.starts_with(b"a")
}
