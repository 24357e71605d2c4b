// Reading the bounds: a pair for each variable, of which the high one is not below the low one.
ghost use Rattle.meaning.specs.Read.{times};
ghost use Rattle.meaning.specs.Model.{bounds_pair};
ghost use Rattle.reading.specs.Told.{Skims};

use reading;
use reading::MODEL;
use reading::limits::MOST_VALUE;
use reading::refusals::Refusal;
use words;

fn pair(s: &[i32], at: usize) -> Result<usize, Refusal>
    ensures { Skims bounds_pair s.now at result }
{
    let n = MODEL.within(s, at, MOST_VALUE)?;
    let low = words::word(s, at);
    MODEL.word(s, n, low, MOST_VALUE as i32)
}

pub fn pairs(s: &[i32], from: usize, v: usize) -> Result<usize, Refusal>
    ensures { Skims (times v bounds_pair) s.now from result }
{
    reading::times(v, from, |at| pair(s, at))
}
