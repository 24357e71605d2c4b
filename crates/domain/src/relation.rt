// How a value stands to another. In this order the compiler numbers the three that have the numbers 1 to 3 in a log by these, so `from` costs little.
ghost use Rattle.std.specs.Prelude.{◌≡◌};
ghost use Rattle.domain.specs.Relations.{relation_of};

#[derive(Clone, Copy, PartialEq, Eq, Debug)]
pub enum Relation {
    Different,
    AtMost,
    AtLeast,
    Equal,
}

// The relation that a number in a log stands for: 1 at most, 2 at least, 3 equal, any other different.
impl From<i32> for Relation {
    ghost from_gives = { λ number relation. relation ≡ relation_of number };

    fn from(number: i32) -> Relation {
        match number {
            1 => Relation::AtMost,
            2 => Relation::AtLeast,
            3 => Relation::Equal,
            _ => Relation::Different,
        }
    }
}
