// A fact: how many premises, these, how many consequents (0 or 1), this.
ghost use Rattle.std.specs.Prelude.{◌+◌, ◌*◌, ◌≤◌, length};
ghost use Rattle.meaning.specs.Limits.{most_premises};
ghost use Rattle.meaning.specs.Read.{times};
ghost use Rattle.meaning.specs.Log.{atom, consequent_of, fact};
ghost use Rattle.quick.specs.Ends.{Ends, Counted, Well};

use crate::ranges;
use reading::counts::Count;
use reading::limits::{MOST_PREMISES, MOST_VALUE};

fn atom(s: &[i32], at: usize, v: Count) -> bool
    requires { at + 3 ≤ length s.now }
    ensures { Well (atom v.n) s.now at (at + 3) result }
{
    let most = MOST_VALUE as i32;
    ranges::names(s, at, v)
        && ranges::is_within(s, at + 1, 1, 4)
        && ranges::is_within(s, at + 2, 0 - most, most)
}

fn all_atoms(s: &[i32], from: usize, n: usize, v: Count) -> bool
    requires { from + n * 3 ≤ length s.now }
    ensures { Well (times n (atom v.n)) s.now from (from + n * 3) result }
{
    (0..n).all(|i| atom(s, from + i * 3, v))
}

fn premises(s: &[i32], at: usize, v: Count) -> Option<usize>
    ensures { Counted most_premises (λ n. times n (atom v.n)) s.now at result }
{
    ranges::counted(s, at, MOST_PREMISES, 3, |from, n| all_atoms(s, from, n, v))
}

// Kept as it is: tried with `ranges::counted`, and it is slower, since the end then waits for the number to be read.
fn consequent(s: &[i32], at: usize, v: Count) -> Option<usize>
    ensures { Counted 1 (consequent_of v.n) s.now at result }
{
    let n = ranges::number(s, at, 1)?;
    if n == 0 {
        return Some(at + 1);
    }
    let end = at + 1 + 3;
    if s.len() < end {
        return None;
    }
    if atom(s, at + 1, v) {
        return Some(end);
    }
    None
}

pub fn fact(s: &[i32], at: usize, v: Count) -> Option<usize>
    ensures { Ends (fact v.n) s.now at result }
{
    let end = premises(s, at, v)?;
    consequent(s, end, v)
}
