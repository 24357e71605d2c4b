// The variables that occur in a fact, in a premise or in the consequent, as a set of marks.
ghost use Rattle.std.specs.Prelude.{◌≡◌, ◌*◌, ◌<◌, pos, length, get_or, ◌≤ℤ◌};
ghost use Rattle.reading.specs.At.{nat_at};
ghost use Rattle.steps.specs.Facts.{FactIn};
ghost use Rattle.boxes.specs.Boxes.{AtomsIn};
ghost use Rattle.boxes.specs.Occurrences.{marked_each, marked_fact, marked_where, asks_for};

use reading::kinds::RowKind;
use reading::number_at;
use steps::{FactPlace, Run};

// The variables of the atoms of a run are in the set from now on.
fn mark_each(log: &[i32], atoms: Run, set: &mut [u64])
    requires { AtomsIn (64 * length set.old) log.now atoms.from atoms.many }
    ensures { set.new ≡ marked_each log.now atoms.many atoms.from set.old }
{
    for i in 0..atoms.many {
        let x = number_at(log, atoms.from + i * 3);
        marks::add(x, set);
    }
}

// The variables of the fact are in the set from now on.
fn mark(log: &[i32], fact: FactPlace, set: &mut [u64])
    requires { FactIn (64 * length set.old) log.now fact }
    ensures { set.new ≡ marked_fact log.now fact set.old }
{
    mark_each(log, fact.premises, set);
    mark_each(log, fact.consequent, set);
}

// The same where the row whose kind stands at a position asks for them: all-different alone does, and for another kind the time is saved.
pub fn mark_where_asked(model: &[i32], at: usize, log: &[i32], fact: FactPlace, set: &mut [u64])
    requires { (at < length model.now) × (pos 0 ≤ℤ get_or model.now at (pos 0)) × FactIn (64 * length set.old) log.now fact }
    ensures { set.new ≡ marked_where (asks_for (nat_at model.now at)) log.now fact set.old }
{
    if RowKind::from(number_at(model, at)) == RowKind::AllDifferent {
        mark(log, fact, set);
    }
}
