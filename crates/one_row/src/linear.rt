// Reading a linear row: how many terms, the bound, and for each term a coefficient and a variable.
ghost use Rattle.meaning.specs.Read.{times};
ghost use Rattle.meaning.specs.Model.{term, row_of_kind};
ghost use Rattle.reading.specs.Told.{Skims};

use reading;
use reading::MODEL;
use reading::counts::Count;
use reading::limits::{MOST_COEFFICIENT, MOST_PARTS};
use reading::refusals::Refusal;

fn term(s: &[i32], at: usize, v: Count) -> Result<usize, Refusal>
    ensures { Skims (term v.n) s.now at result }
{
    let n = MODEL.within(s, at, MOST_COEFFICIENT)?;
    MODEL.below(s, n, v.n)
}

fn terms(s: &[i32], from: usize, n: usize, v: Count) -> Result<usize, Refusal>
    ensures { Skims (times n (term v.n)) s.now from result }
{
    reading::times(n, from, |at| term(s, at, v))
}

// The bound may be any word.
pub fn row(s: &[i32], at: usize, v: Count) -> Result<usize, Refusal>
    ensures { Skims (row_of_kind v.n 1) s.now at result }
{
    let next = MODEL.number(s, at, 1, MOST_PARTS)?;
    let n = reading::number_at(s, at);
    let from = MODEL.word(s, next, i32::MIN, i32::MAX)?;
    terms(s, from, n, v)
}
