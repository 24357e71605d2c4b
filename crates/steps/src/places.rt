// What follows a step's kind, where it was read well before: the step and where its parts stand.
ghost use Rattle.std.specs.Prelude.{◌≡◌};
ghost use Rattle.steps.specs.Told.{placed_kind};
ghost use Rattle.steps.specs.Laws.{KindStands};

use crate::{Run, Step};
use reading;
use words;
use words::{FactNo, RowNo, VarNo};

pub fn inference(s: &[i32], at: usize) -> Step
    requires { KindStands 1 s.now at }
    ensures { result ≡ placed_kind 1 s.now at }
{
    let row = reading::number_at(s, at);
    let fact = crate::fact_at(s, at + 1);
    Step::Inference(RowNo(row), fact)
}

pub fn deduction(s: &[i32], at: usize) -> Step
    requires { KindStands 2 s.now at }
    ensures { result ≡ placed_kind 2 s.now at }
{
    let fact = crate::fact_at(s, at);
    let end = fact.consequent.from + fact.consequent.many * 3;
    let many = reading::number_at(s, end);
    let from = end + 1;
    Step::Deduction(fact, Run { from, many })
}

pub fn no_assignment(s: &[i32], at: usize) -> Step
    requires { KindStands 3 s.now at }
    ensures { result ≡ placed_kind 3 s.now at }
{
    Step::NoAssignment(FactNo(reading::number_at(s, at)))
}

pub fn never_below(s: &[i32], at: usize) -> Step
    requires { KindStands 4 s.now at }
    ensures { result ≡ placed_kind 4 s.now at }
{
    let variable = reading::number_at(s, at);
    let least = words::word(s, at + 1);
    let cited = reading::number_at(s, at + 2);
    Step::NeverBelow(VarNo(variable), least, FactNo(cited))
}
