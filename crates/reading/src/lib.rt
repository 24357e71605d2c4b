// Reading a lent table of signed words: a reader holds the words at a position to their ranges, and answers the position behind them or the
// numbered refusal. What the words say is asked by position, once they were read well.
#![tactic(auto)]

pub mod counts;
pub mod kinds;
pub mod limits;
pub mod refusals;

ghost use Rattle.std.specs.Prelude.{ℕ, ◌≡◌, ◌≤◌, ◌<◌, ◌^◌, pos, length, get_or, ◌≤ℤ◌};
ghost use Rattle.meaning.specs.Read.{word, count, below, neg};
ghost use Rattle.reading.specs.At.{nat_at};
ghost use Rattle.reading.specs.Reasons.{number_of};
ghost use Rattle.reading.specs.Told.{Skims, SkimsBy};
ghost use Rattle.reading.specs.Turns.{Turns};

use refusals::{Reason, Refusal};
use words;
use words::VarNo;

// What is said of a table's word that is missing, and of one that is out of its range.
#[derive(Clone, Copy)]
pub struct Table {
    pub early: Reason,
    pub outside: Reason,
}

pub const MODEL: Table = Table {
    early: Reason::ModelEndsEarly,
    outside: Reason::ModelWordOutside,
};

pub const LOG: Table = Table {
    early: Reason::LogEndsInsideStep,
    outside: Reason::LogWordOutside,
};

// The word at a position, from lo to hi: `early` where the table ends before it, `outside` where it is out of range, whatever stands for the two.
// Each way returns by itself: so the compiler makes jumps of every reader above.
pub fn word<E: Copy>(
    s: &[i32],
    at: usize,
    early: E,
    outside: E,
    lo: i32,
    hi: i32,
) -> Result<usize, E>
    ensures { (number : E → ℕ) → SkimsBy number (word (number early) (number outside) lo hi) s.now at result }
{
    if at < s.len() {
        let w = s[at];
        let next = at + 1;
        if words::in_range(w, lo, hi) {
            return Ok(next);
        }
        return Err(outside);
    }
    Err(early)
}

// A word from -most to most.
pub fn within<E: Copy>(s: &[i32], at: usize, early: E, outside: E, most: usize) -> Result<usize, E>
    requires { (1 ≤ most) × (most < 2 ^ 31) }
    ensures { (number : E → ℕ) → SkimsBy number (word (number early) (number outside) (neg most) (pos most)) s.now at result }
{
    let hi = most as i32;
    word(s, at, early, outside, 0 - hi, hi)
}

// A word that is a number from lo to hi.
pub fn number<E: Copy>(
    s: &[i32],
    at: usize,
    early: E,
    outside: E,
    lo: usize,
    hi: usize,
) -> Result<usize, E>
    requires { (lo < 2 ^ 31) × (hi < 2 ^ 31) }
    ensures { (number : E → ℕ) → SkimsBy number (count (number early) (number outside) lo hi) s.now at result }
{
    word(s, at, early, outside, lo as i32, hi as i32)
}

// A word that is a number below n: with n = 0 no word is in range.
pub fn below<E: Copy>(s: &[i32], at: usize, early: E, outside: E, n: usize) -> Result<usize, E>
    requires { n ≤ 2 ^ 31 }
    ensures { (number : E → ℕ) → SkimsBy number (below (number early) (number outside) n) s.now at result }
{
    if n == 0 {
        return number(s, at, early, outside, 1, 0);
    }
    number(s, at, early, outside, 0, n - 1)
}

// The same readers, refusing by the table's two reasons.
impl Table {
    pub fn word(self, s: &[i32], at: usize, lo: i32, hi: i32) -> Result<usize, Refusal>
        ensures { Skims (word (number_of self.early) (number_of self.outside) lo hi) s.now at result }
    {
        word(s, at, self.early.at(at), self.outside.at(at), lo, hi)
    }

    pub fn within(self, s: &[i32], at: usize, most: usize) -> Result<usize, Refusal>
        requires { (1 ≤ most) × (most < 2 ^ 31) }
        ensures { Skims (word (number_of self.early) (number_of self.outside) (neg most) (pos most)) s.now at result }
    {
        within(s, at, self.early.at(at), self.outside.at(at), most)
    }

    pub fn number(self, s: &[i32], at: usize, lo: usize, hi: usize) -> Result<usize, Refusal>
        requires { (lo < 2 ^ 31) × (hi < 2 ^ 31) }
        ensures { Skims (count (number_of self.early) (number_of self.outside) lo hi) s.now at result }
    {
        number(s, at, self.early.at(at), self.outside.at(at), lo, hi)
    }

    pub fn below(self, s: &[i32], at: usize, n: usize) -> Result<usize, Refusal>
        requires { n ≤ 2 ^ 31 }
        ensures { Skims (below (number_of self.early) (number_of self.outside) n) s.now at result }
    {
        below(s, at, self.early.at(at), self.outside.at(at), n)
    }
}

// n things in turn, each from where the one before it ended. The first that is refused ends it.
pub fn times<F: Fn(usize) -> Result<usize, Refusal>>(
    n: usize,
    from: usize,
    one: F,
) -> Result<usize, Refusal>
    requires { F.IsAlwaysCallable one }
    ensures { Turns (F.post one) n from result }
{
    let mut at = from;
    for _ in 0..n {
        at = one(at)?;
    }
    Ok(at)
}

// The number at a position, where it was read well before.
pub fn number_at(s: &[i32], at: usize) -> usize
    requires { (at < length s.now) × (pos 0 ≤ℤ get_or s.now at (pos 0)) }
    ensures { result ≡ nat_at s.now at }
{
    words::index(words::word(s, at))
}

// The variable whose number stands at a position, where it was read well before.
pub fn variable_at(s: &[i32], at: usize) -> VarNo
    requires { (at < length s.now) × (pos 0 ≤ℤ get_or s.now at (pos 0)) }
    ensures { result.0 ≡ nat_at s.now at }
{
    VarNo(number_at(s, at))
}
