// The kinds of rows and of steps, as document 01 numbers them.
ghost use Rattle.std.specs.Prelude.{◌≡◌};
ghost use Rattle.reading.specs.Kinds.{row_kind, step_kind};

#[derive(Clone, Copy, PartialEq, Eq, Debug)]
pub enum RowKind {
    Linear,
    AllDifferent,
    Cumulative,
    Circuit,
}

// A number that was read well is one of the four: where it is none of the first three, it is the last.
impl From<usize> for RowKind {
    ghost from_gives = { λ n k. k ≡ row_kind n };

    fn from(n: usize) -> RowKind {
        match n {
            1 => RowKind::Linear,
            2 => RowKind::AllDifferent,
            3 => RowKind::Cumulative,
            _ => RowKind::Circuit,
        }
    }
}

#[derive(Clone, Copy, PartialEq, Eq, Debug)]
pub enum StepKind {
    Inference,
    Deduction,
    NoAssignment,
    NeverBelow,
}

impl From<usize> for StepKind {
    ghost from_gives = { λ n k. k ≡ step_kind n };

    fn from(n: usize) -> StepKind {
        match n {
            1 => StepKind::Inference,
            2 => StepKind::Deduction,
            3 => StepKind::NoAssignment,
            _ => StepKind::NeverBelow,
        }
    }
}
