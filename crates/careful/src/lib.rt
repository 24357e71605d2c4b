// Reading one step of the log table with care: word by word, so that the first one that is missing or out of its range is found.
#![tactic(auto)]

mod facts;
mod kinds;

ghost use Rattle.meaning.specs.Log.{step};
ghost use Rattle.reading.specs.Told.{Skims};

use reading;
use reading::LOG;
use reading::counts::Known;
use reading::refusals::Refusal;

// The step that begins at a position.
pub fn step(s: &[i32], at: usize, known: Known) -> Result<usize, Refusal>
    ensures { Skims (step known.variables.n known.rows.n known.facts.n) s.now at result }
{
    let from = LOG.number(s, at, 1, 4)?;
    let kind = reading::number_at(s, at);
    kinds::of_kind(s, from, kind, known)
}
