// A quick pass over one step of the log table: where all is well it says where the step ends. Where it is not sure it says nothing, and whoever wants to
// know more reads the step with care. Each run of words has one test of the table's length, and there is one call of the fact's reader, so that it is put
// into the step.
#![tactic(auto)]

mod facts;
mod ranges;

ghost use Rattle.std.specs.Prelude.{◌≡◌};
ghost use Rattle.meaning.specs.Limits.{most_hints};
ghost use Rattle.meaning.specs.Read.{times};
ghost use Rattle.meaning.specs.Log.{number_below, step};
ghost use Rattle.quick.specs.Ends.{Ends, Counted, Follows};

use reading::counts::{Count, Known};
use reading::kinds::StepKind;
use reading::limits::MOST_HINTS;

fn hints(s: &[i32], at: usize, k: Count) -> Option<usize>
    ensures { Counted most_hints (λ n. times n (number_below k.n)) s.now at result }
{
    ranges::counted(
        s,
        at,
        MOST_HINTS,
        1,
        |from, n| ranges::all_name(s, from, n, k),
    )
}

// Where a step ends whose fact ends at a position: there, or behind its hints.
fn after_fact(s: &[i32], at: usize, kind: StepKind, k: Count) -> Option<usize>
    ensures { Follows k.n kind s.now at result }
{
    match kind {
        StepKind::Inference => Some(at),
        _ => hints(s, at, k),
    }
}

// The step that begins at a position. Of a conclusion it is never sure. Where the fact begins is told here: a function of its own answered an Option,
// which the compiler put together and took apart again by moves, and a check was slower.
pub fn step(s: &[i32], at: usize, known: Known) -> Option<usize>
    ensures { Ends (step known.variables.n known.rows.n known.facts.n) s.now at result }
{
    let kind = StepKind::from(ranges::number(s, at, 4)?);
    let from = match kind {
        StepKind::Inference => ranges::named(s, at + 1, known.rows)?,
        StepKind::Deduction => at + 1,
        StepKind::NoAssignment | StepKind::NeverBelow => return None,
    };
    let end = facts::fact(s, from, known.variables)?;
    after_fact(s, end, kind, known.facts)
}
