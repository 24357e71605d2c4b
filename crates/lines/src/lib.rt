// Lines of a text: where they end, and the whole numbers that are written there. A text is given from the place on that is looked at.
#![tactic(auto)]

ghost use Rattle.std.specs.Io.KnownBytes.{Consumes, IsAtEnd};
ghost use Rattle.std.specs.Prelude.{◌≤◌, ◌<◌, length, ◌≡◌, ◌==◌, IfOk, IfSome, take, position};

use std::io;
use std::io::Read;

// A number above this takes no further digit: with one more it is no word.
const MOST_SIZE: usize = 300000000;

// The first place that has this byte. `position` takes half as long again, and where no colon follows, domain_cases looks over all of the rest
// for each line.
pub fn find(text: &[u8], byte: u8) -> Option<usize>
    ensures { result ≡ position (λ b. b == byte) text.now }
{
    for (at, b) in text.iter().enumerate() {
        if *b == byte {
            return Some(at);
        }
    }
    None
}

// The text from the next line on, nothing where no line follows.
pub fn next_line(text: &[u8]) -> &[u8]
    ensures { 0 < length text.now → length result.now < length text.now }
{
    match find(text, b'\n') {
        Some(end) => &text[end + 1..],
        None => &[],
    }
}

// The digit that a text begins with, and the text behind it.
fn digit(text: &[u8]) -> Option<(usize, &[u8])>
    ensures { IfSome result (λ d. (d.0 ≤ 9) × (length d.1.now < length text.now)) }
{
    let (byte, rest) = text.split_first()?;
    match *byte {
        b'0'..=b'9' => Some(((*byte - b'0') as usize, rest)),
        _ => None,
    }
}

// The word of a size. Too large a size is told as 0, or as the least word where it is negative.
fn signed(size: usize, negative: bool) -> i32 {
    let word = i32::try_from(size);
    if negative {
        word.map_or(i32::MIN, |n| -n)
    } else {
        word.unwrap_or(0)
    }
}

// The number that a text begins with, 0 where no digit stands there, and the text behind it.
fn digits(text: &[u8], negative: bool) -> Option<(i32, &[u8])> {
    let mut rest = text;
    let mut size: usize = 0;
    while let Some((d, after)) = digit(rest) {
        if size > MOST_SIZE {
            return None;
        }
        size = size * 10 + d;
        rest = after;
    }
    Some((signed(size, negative), rest))
}

// The next word of the line, and the text behind it.
pub fn next_word(text: &[u8]) -> Option<(i32, &[u8])> {
    let start = text.iter().position(|b| *b != b' ')?;
    match &text[start..] {
        [b'\n', ..] => None,
        [b'-', size @ ..] => digits(size, true),
        size => digits(size, false),
    }
}

// How often the word before a text stands there, by `*` and a number, else once, and the text behind that.
fn times(text: &[u8]) -> Option<(usize, &[u8])> {
    match text {
        [b'*', many @ ..] => digits(many, false).map(|(n, rest)| (number(n), rest)),
        _ => Some((1, text)),
    }
}

// So many copies of a word are put at the front of a table, as far as it has room: how many they are.
fn put(words: &mut [i32], value: i32, times: usize) -> usize
    ensures { (result ≤ length words.new) × (length words.new ≡ length words.old) }
{
    let n = times.min(words.len());
    words[..n].fill(value);
    n
}

// The words of a line are put into a table, as far as it has room: how many they are. `7*100` stands for a hundred words 7.
pub fn fill(text: &[u8], words: &mut [i32]) -> usize
    ensures { (result ≤ length words.new) × (length words.new ≡ length words.old) }
{
    let mut rest = text;
    let mut n: usize = 0;
    while let Some((value, behind)) = next_word(rest) {
        let Some((many, after)) = times(behind) else {
            return n;
        };
        n += put(&mut words[n..], value, many);
        if rest.len() <= after.len() {
            return n;
        }
        rest = after;
    }
    n
}

// The number that a word is, 0 where it is negative.
pub fn number(w: i32) -> usize {
    usize::try_from(w).unwrap_or(0)
}

// Reads until the room is full or the input ends, and says how much was read: so much of the room then is what the reader had next. A read
// that fails ends it with the error.
pub fn filled<R: Read>(reader: &mut R, room: &mut [u8]) -> io::Result<usize>
    ensures within { IfOk result (λ n. n ≤ length room.new) }
    ensures bytes { IfOk result (λ n. Consumes (R.remaining reader.old) (R.remaining reader.new) (take n room.new)) }
    ensures end { IfOk result (λ n. n < length room.new → IsAtEnd (R.remaining reader.new)) }
{
    let mut n: usize = 0;
    while n < room.len() {
        let got = reader.read(&mut room[n..])?;
        let ended = got == 0;
        if ended {
            return Ok(n);
        }
        n += got;
    }
    Ok(n)
}
