// The checker's answer as the nine numbers that cross to C.
#![tactic(auto)]

ghost use Rattle.std.specs.Prelude.{◌≡◌};
ghost use Rattle.meaning.specs.Limits.{most_variables};
ghost use Rattle.walking.specs.Told.{told_conclusion, told_answer, ConclusionIn, NamesIn};
ghost use Rattle.answer.specs.Numbers.{reached, fields_of};
ghost use Rattle.answer.specs.Kinds.{number_of};

use answer;
use answer::{ConclusionKind, DimpsyholtAnswer, Kind};
use walking::{Answer, Conclusion};

// A conclusion that was reached, accepted or carried by the kind.
fn reached(kind: Kind, c: Conclusion, changed: u32, judged: u32) -> DimpsyholtAnswer
    requires { ConclusionIn most_variables c }
    ensures { result ≡ reached (number_of kind) (told_conclusion c) changed judged }
{
    let (conclusion, variable, value) = match c {
        Conclusion::NoAssignment => (ConclusionKind::NoAssignment, 0, 0),
        Conclusion::NeverBelow(x, value) => (ConclusionKind::NeverBelow, x.0 as u32, value),
    };
    DimpsyholtAnswer {
        kind: kind as u32,
        number: 0,
        step: 0,
        position: 0,
        conclusion: conclusion as u32,
        variable,
        value,
        changed,
        judged,
    }
}

// The nine numbers of an answer.
pub fn fields(answer: Answer, changed: u32, judged: u32) -> DimpsyholtAnswer
    requires { NamesIn most_variables answer }
    ensures { result ≡ fields_of (told_answer answer) changed judged }
{
    match answer {
        Answer::Refused {
            number,
            step,
            position,
        } => answer::refused(number, step, position, changed, judged),
        Answer::Accepted(c) => reached(Kind::Accepted, c, changed, judged),
        Answer::Carried(c) => reached(Kind::Carried, c, changed, judged),
    }
}
