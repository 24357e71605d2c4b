// Reading a row of variables of which none stands twice: all-different and circuit.
ghost use Rattle.std.specs.Prelude.{[]};
ghost use Rattle.meaning.specs.Model.{distinct, row_of_kind};
ghost use Rattle.reading.specs.Told.{Skims};

use reading;
use reading::MODEL;
use reading::counts::Count;
use reading::limits::MOST_PARTS;
use reading::refusals::{Reason, Refusal};

fn variables(s: &[i32], from: usize, n: usize, v: Count) -> Result<usize, Refusal>
    ensures { Skims (distinct v.n n []) s.now from result }
{
    let mut at = from;
    for _ in 0..n {
        let next = MODEL.below(s, at, v.n)?;
        if s[from..at].contains(&s[at]) {
            return Err(Reason::VariableTwice.at(at));
        }
        at = next;
    }
    Ok(at)
}

pub fn row(s: &[i32], at: usize, v: Count) -> Result<usize, Refusal>
    ensures { Skims (row_of_kind v.n 2) s.now at result }
{
    let next = MODEL.number(s, at, 2, MOST_PARTS)?;
    let n = reading::number_at(s, at);
    variables(s, next, n, v)
}
