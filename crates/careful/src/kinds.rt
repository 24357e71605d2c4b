// Reading what follows a step's kind.
ghost use Rattle.std.specs.Prelude.{◌≤◌};
ghost use Rattle.meaning.specs.Read.{times};
ghost use Rattle.meaning.specs.Log.{number_below, step_of_kind};
ghost use Rattle.reading.specs.Told.{Skims};

use crate::facts;
use reading;
use reading::LOG;
use reading::counts::{Count, Known};
use reading::kinds::StepKind;
use reading::limits::{MOST_HINTS, MOST_VALUE};
use reading::refusals::Refusal;

fn inference(s: &[i32], at: usize, known: Known) -> Result<usize, Refusal>
    ensures { Skims (step_of_kind known.variables.n known.rows.n 0 1) s.now at result }
{
    let fact = LOG.below(s, at, known.rows.n)?;
    facts::fact(s, fact, known.variables)
}

fn hints(s: &[i32], from: usize, n: usize, k: Count) -> Result<usize, Refusal>
    ensures { Skims (times n (number_below k.n)) s.now from result }
{
    reading::times(n, from, |at| LOG.below(s, at, k.n))
}

fn deduction(s: &[i32], at: usize, known: Known) -> Result<usize, Refusal>
    ensures { Skims (step_of_kind known.variables.n 0 known.facts.n 2) s.now at result }
{
    let end = facts::fact(s, at, known.variables)?;
    let first = LOG.number(s, end, 0, MOST_HINTS)?;
    let many = reading::number_at(s, end);
    hints(s, first, many, known.facts)
}

fn never_below(s: &[i32], at: usize, known: Known) -> Result<usize, Refusal>
    ensures { Skims (step_of_kind known.variables.n 0 known.facts.n 4) s.now at result }
{
    let least = LOG.below(s, at, known.variables.n)?;
    let cited = LOG.within(s, least, MOST_VALUE)?;
    LOG.below(s, cited, known.facts.n)
}

// The kind stays the number that was read: the promise speaks of it.
pub fn of_kind(s: &[i32], at: usize, kind: usize, known: Known) -> Result<usize, Refusal>
    requires { 1 ≤ kind }
    ensures { Skims (step_of_kind known.variables.n known.rows.n known.facts.n kind) s.now at result }
{
    match StepKind::from(kind) {
        StepKind::Inference => inference(s, at, known),
        StepKind::Deduction => deduction(s, at, known),
        StepKind::NoAssignment => LOG.below(s, at, known.facts.n),
        StepKind::NeverBelow => never_below(s, at, known),
    }
}
