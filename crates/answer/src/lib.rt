// The answer that crosses to C: nine numbers by value.
#![tactic(auto)]

ghost use Rattle.std.specs.Prelude.{◌≡◌};
ghost use Rattle.meaning.specs.Check as says;
ghost use Rattle.answer.specs.Numbers.{fields_of};

// What is said of the log: the first of the nine numbers.
#[derive(Clone, Copy)]
pub enum Kind {
    Refused = 0,
    Accepted = 1,
    Carried = 2,
}

// What a log concludes: the fifth of the nine numbers, which is 0 in a refusal.
#[derive(Clone, Copy)]
pub enum ConclusionKind {
    NoAssignment = 3,
    NeverBelow = 4,
}

// The answer as include/dimpsyholt.h has it.
#[repr(C)]
#[derive(Clone, Copy)]
pub struct DimpsyholtAnswer {
    pub kind: u32,
    pub number: u32,
    pub step: u32,
    pub position: u32,
    pub conclusion: u32,
    pub variable: u32,
    pub value: i32,
    pub changed: u32,
    pub judged: u32,
}

// A refusal.
pub fn refused(number: u32, step: u32, position: u32, changed: u32, judged: u32) -> DimpsyholtAnswer
    ensures { result ≡ fields_of (says.shut number step position) changed judged }
{
    DimpsyholtAnswer {
        kind: Kind::Refused as u32,
        number,
        step,
        position,
        conclusion: 0,
        variable: 0,
        value: 0,
        changed,
        judged,
    }
}
