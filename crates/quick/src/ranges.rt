// Single words and runs of them.
ghost use Rattle.std.specs.Prelude.{◌≡◌, ℕ, true, ◌+◌, ◌*◌, ◌≤◌, ◌<◌, pos, length, get_or, IfSome};
ghost use Rattle.meaning.specs.Read.{times, within};
ghost use Rattle.meaning.specs.Log.{number_below};
ghost use Rattle.reading.specs.At.{Names};
ghost use Rattle.quick.specs.Ends.{Ends, Well, Numbered, Runs};

use reading;
use reading::counts::Count;
use words;

// A number as a word. The remainder is the number itself: by it the compiler knows that the word is not negative, and makes one comparison of `0 <= x` and
// `x < as_word(n)`.
fn as_word(n: Count) -> i32
    ensures { result ≡ pos n.n }
{
    (n.n % 131072) as i32
}

// Kept as it is, here, in `named` and in `counted`: tried with `&&` between the tests, and it is slower.
pub fn names(s: &[i32], at: usize, n: Count) -> bool
    requires { at < length s.now }
    ensures { result ≡ true → Names n.n s.now at }
{
    let x = words::word(s, at);
    if words::at_most(as_word(n), x) {
        return false;
    }
    words::at_most(0, x)
}

pub fn is_within(s: &[i32], at: usize, lo: i32, hi: i32) -> bool
    requires { at < length s.now }
    ensures { result ≡ within lo hi (get_or s.now at (pos 0)) }
{
    words::in_range(words::word(s, at), lo, hi)
}

// The number of one of n things. It is put into its callers as it is written, for the reason that `number` gives.
#[inline(always)]
pub fn named(s: &[i32], at: usize, n: Count) -> Option<usize>
    ensures { Ends (number_below n.n) s.now at result }
{
    if s.len() <= at {
        return None;
    }
    if names(s, at, n) {
        return Some(at + 1);
    }
    None
}

pub fn all_name(s: &[i32], from: usize, n: usize, k: Count) -> bool
    requires { from + n ≤ length s.now }
    ensures { Well (times n (number_below k.n)) s.now from (from + n) result }
{
    (0..n).all(|i| names(s, from + i, k))
}

// The number at a position, where it is at most so much. It is put into its callers as it is written: otherwise the compiler picks the number by a
// conditional move, and where the next step begins waits for the word to be read.
#[inline(always)]
pub fn number(s: &[i32], at: usize, most: usize) -> Option<usize>
    requires { most ≤ 65536 }
    ensures { IfSome result (Numbered most s.now at) }
{
    if s.len() <= at {
        return None;
    }
    if is_within(s, at, 0, most as i32) {
        Some(reading::number_at(s, at))
    } else {
        None
    }
}

// A number of at most so much, and so many things, each of `size` words, that are well together: where they end. There is one test of the table's length
// for all of them. Where there are none the end does not wait for their number to be read. It is put into its callers for the same reason.
#[inline(always)]
pub fn counted<F: Fn(usize, usize) -> bool>(
    s: &[i32],
    at: usize,
    most: usize,
    size: usize,
    well: F,
) -> Option<usize>
    requires few { (most ≤ 65536) × (size ≤ 65536) }
    requires each { (from n : ℕ) → from + n * size ≤ length s.now → F.pre well from n }
    ensures { IfSome result (Runs most size (λ p n. F.post well p n true) s.now at) }
{
    let n = number(s, at, most)?;
    if n == 0 {
        return Some(at + 1);
    }
    let end = at + 1 + n * size;
    if s.len() < end {
        return None;
    }
    if well(at + 1, n) {
        return Some(end);
    }
    None
}
