// Document 01's refusals: why a table or a step is refused, and where.
ghost use Rattle.std.specs.Prelude.{◌≡◌};
ghost use Rattle.reading.specs.Reasons.{number_of};

// Each has its number there.
#[derive(Clone, Copy, PartialEq, Eq, PartialOrd, Ord, Debug)]
pub enum Reason {
    ModelTooLong = 1,
    LogTooLong = 2,
    TooFewPlaces = 3,
    ModelEndsEarly = 4,
    ModelWordOutside = 5,
    VariableTwice = 6,
    WordsAfterModel = 7,
    NoConclusion = 10,
    LogEndsInsideStep = 11,
    LogWordOutside = 12,
    WordsAfterConclusion = 13,
    BoxEmpty = 20,
    RowDoesNotConflict = 21,
    HintDoesNotApply = 22,
    HintsUsedUp = 23,
    FactDoesNotFit = 24,
}

impl From<Reason> for u32 {
    ghost from_gives = { λ r n. n ≡ number_of r };

    fn from(r: Reason) -> u32 {
        r as u32
    }
}

#[derive(Clone, Copy, PartialEq, Eq, Debug)]
pub struct Refusal {
    pub reason: Reason,
    pub position: usize,
}

impl Reason {
    pub fn at(self, position: usize) -> Refusal
        ensures { (result.reason ≡ self) × (result.position ≡ position) }
    {
        Refusal {
            reason: self,
            position,
        }
    }
}
