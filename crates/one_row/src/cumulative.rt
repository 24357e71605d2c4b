// Reading a cumulative row: how many activities, the capacity, and for each activity its start variable, duration and usage.
ghost use Rattle.meaning.specs.Read.{times};
ghost use Rattle.meaning.specs.Model.{activity, row_of_kind};
ghost use Rattle.reading.specs.Told.{Skims};

use reading;
use reading::MODEL;
use reading::counts::Count;
use reading::limits::{MOST_DURATION, MOST_PARTS, MOST_USAGE};
use reading::refusals::Refusal;

fn activity(s: &[i32], at: usize, v: Count) -> Result<usize, Refusal>
    ensures { Skims (activity v.n) s.now at result }
{
    let n = MODEL.below(s, at, v.n)?;
    let m = MODEL.number(s, n, 1, MOST_DURATION)?;
    MODEL.number(s, m, 0, MOST_USAGE)
}

fn activities(s: &[i32], from: usize, n: usize, v: Count) -> Result<usize, Refusal>
    ensures { Skims (times n (activity v.n)) s.now from result }
{
    reading::times(n, from, |at| activity(s, at, v))
}

pub fn row(s: &[i32], at: usize, v: Count) -> Result<usize, Refusal>
    ensures { Skims (row_of_kind v.n 3) s.now at result }
{
    let next = MODEL.number(s, at, 1, MOST_PARTS)?;
    let n = reading::number_at(s, at);
    let from = MODEL.number(s, next, 0, MOST_USAGE)?;
    activities(s, from, n, v)
}
