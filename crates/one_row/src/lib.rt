// Reading one row of the model table: its kind, and what that has.
#![tactic(auto)]

mod cumulative;
mod distinct;
mod linear;

ghost use Rattle.meaning.specs.Model.{row};
ghost use Rattle.reading.specs.Told.{Skims};

use reading;
use reading::MODEL;
use reading::counts::Count;
use reading::kinds::RowKind;
use reading::refusals::Refusal;

pub fn row(s: &[i32], at: usize, v: Count) -> Result<usize, Refusal>
    ensures { Skims (row v.n) s.now at result }
{
    let next = MODEL.number(s, at, 1, 4)?;
    match RowKind::from(reading::number_at(s, at)) {
        RowKind::Linear => linear::row(s, next, v),
        RowKind::Cumulative => cumulative::row(s, next, v),
        RowKind::AllDifferent | RowKind::Circuit => distinct::row(s, next, v),
    }
}
