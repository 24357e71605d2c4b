// What an engine looks at in an answer, before it opens its gate or takes a place for the start of a step. The answer is that of the C
// interface, so its kinds are numbers.
#![tactic(auto)]

ghost use Rattle.std.specs.Prelude.{◌≡◌, true};
ghost use Rattle.gate.specs.Looks.{Opens, OpensAgain, Early, PlaceOf};

use answer::{ConclusionKind, DimpsyholtAnswer, Kind};
use reading::refusals::Reason;

// The first number that a step can have.
const FIRST_OF_STEPS: u32 = Reason::NoConclusion as u32;

// Accepted, with "no assignment".
pub fn opens(a: DimpsyholtAnswer) -> bool
    ensures { result ≡ true → Opens a }
{
    a.kind == Kind::Accepted as u32 && a.conclusion == ConclusionKind::NoAssignment as u32
}

// Accepted before; now accepted or carried, with "no assignment".
pub fn opens_again(was: DimpsyholtAnswer, again: DimpsyholtAnswer) -> bool
    ensures { result ≡ true → OpensAgain was again }
{
    was.kind == Kind::Accepted as u32
        && again.kind != Kind::Refused as u32
        && again.conclusion == ConclusionKind::NoAssignment as u32
}

// Refused before any step was read.
pub fn is_early(a: DimpsyholtAnswer) -> bool
    ensures { result ≡ true → Early a }
{
    a.kind == Kind::Refused as u32 && a.number < FIRST_OF_STEPS
}

// The place of step k, where a refusal names a later step.
pub fn place_of(a: DimpsyholtAnswer, k: usize, places: &[u32]) -> Option<u32>
    ensures { PlaceOf a k places.now result }
{
    if a.kind != Kind::Refused as u32 || a.number < FIRST_OF_STEPS || k >= a.step as usize {
        return None;
    }
    let place = places.get(k)?;
    Some(*place)
}
