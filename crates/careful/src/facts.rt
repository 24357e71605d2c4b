// Reading a fact: how many premises, these, how many consequents (0 or 1), this.
ghost use Rattle.meaning.specs.Read.{times};
ghost use Rattle.meaning.specs.Log.{atom, fact};
ghost use Rattle.reading.specs.Told.{Skims};

use reading;
use reading::LOG;
use reading::counts::Count;
use reading::limits::{MOST_PREMISES, MOST_VALUE};
use reading::refusals::Refusal;

fn atom(s: &[i32], at: usize, v: Count) -> Result<usize, Refusal>
    ensures { Skims (atom v.n) s.now at result }
{
    let relation = LOG.below(s, at, v.n)?;
    let value = LOG.number(s, relation, 1, 4)?;
    LOG.within(s, value, MOST_VALUE)
}

fn atoms(s: &[i32], from: usize, n: usize, v: Count) -> Result<usize, Refusal>
    ensures { Skims (times n (atom v.n)) s.now from result }
{
    reading::times(n, from, |at| atom(s, at, v))
}

pub fn fact(s: &[i32], at: usize, v: Count) -> Result<usize, Refusal>
    ensures { Skims (fact v.n) s.now at result }
{
    let premises = LOG.number(s, at, 0, MOST_PREMISES)?;
    let count = reading::number_at(s, at);
    let end = atoms(s, premises, count, v)?;
    let consequent = LOG.number(s, end, 0, 1)?;
    let then = reading::number_at(s, end);
    atoms(s, consequent, then, v)
}
