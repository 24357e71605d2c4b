// The box of a fact: the declared bounds, narrowed by every premise and by the negated consequent. Beside it, in `occurrences`, the variables of which the fact speaks.
#![tactic(auto)]

pub mod occurrences;

ghost use Rattle.std.specs.Prelude.{◌≡◌, ◌+◌, ◌*◌, ◌≤◌, ◌<◌, pos, length, get_or, ◌≤ℤ◌};
ghost use Rattle.words.specs.Lists.{all};
ghost use Rattle.meaning.specs.Limits.{most_premises};
ghost use Rattle.domain.specs.Box.{hole_place, variables, Formed, values, stands};
ghost use Rattle.domain.specs.Relations.{relation_of};
ghost use Rattle.narrowing.specs.Narrow.{Room};
ghost use Rattle.reading.specs.At.{nat_at, int_at};
ghost use Rattle.steps.specs.Facts.{AtomIn, FactIn};
ghost use Rattle.boxes.specs.Boxes.{AtomsIn, narrowed_at, narrowed_each, narrowed_not, narrowed_then, filled, empty_at, empty_each, empty_then, box_empty};

use domain;
use domain::{Cells, Relation};
use narrowing;
use reading::variable_at;
use steps::{FactPlace, Run};
use words::VarNo;

// The three words of an atom, as the box takes them.
#[derive(Clone, Copy)]
struct Atom {
    variable: VarNo,
    relation: Relation,
    value: i32,
}

// The atom that stands at a position.
fn atom_at(log: &[i32], at: usize) -> Atom
    requires { (at + 3 ≤ length log.now) × (pos 0 ≤ℤ get_or log.now at (pos 0)) }
    ensures { (result.variable.0 ≡ nat_at log.now at) × (result.relation ≡ relation_of (int_at log.now (at + 1))) × (result.value ≡ int_at log.now (at + 2)) }
{
    Atom {
        variable: variable_at(log, at),
        relation: Relation::from(log[at + 1]),
        value: log[at + 2],
    }
}

// The box after the atom that stands at a position.
pub fn narrow_atom(log: &[i32], at: usize, cells: &mut [i32])
    requires { AtomIn (variables cells.old) log.now at × Formed cells.old × Room cells.old 1 }
    ensures { cells.new ≡ narrowed_at log.now at cells.old }
{
    let atom = atom_at(log, at);
    narrowing::narrow(atom.variable, atom.relation, atom.value, cells);
}

// The box after the negation of that atom.
fn narrow_negated(log: &[i32], at: usize, cells: &mut [i32])
    requires { AtomIn (variables cells.old) log.now at × Formed cells.old × Room cells.old 1 }
    ensures { cells.new ≡ narrowed_not log.now at cells.old }
{
    let atom = atom_at(log, at);
    narrowing::narrow_not(atom.variable, atom.relation, atom.value, cells);
}

// The box after each atom of a run.
fn narrow_each(log: &[i32], atoms: Run, cells: &mut [i32])
    requires { AtomsIn (variables cells.old) log.now atoms.from atoms.many × Formed cells.old × Room cells.old atoms.many }
    ensures { cells.new ≡ narrowed_each log.now atoms.many atoms.from cells.old }
{
    for i in 0..atoms.many {
        narrow_atom(log, atoms.from + i * 3, cells);
    }
}

// "False", no consequent, adds nothing.
fn narrow_then(log: &[i32], consequent: Run, cells: &mut [i32])
    requires { (consequent.many ≤ 1) × (consequent.many ≡ 1 → AtomIn (variables cells.old) log.now consequent.from) × Formed cells.old × Room cells.old 1 }
    ensures { cells.new ≡ narrowed_then log.now consequent.many consequent.from cells.old }
{
    if consequent.many == 1 {
        narrow_negated(log, consequent.from, cells);
    }
}

// The declared bounds of the model's variables, narrowed by the fact. It is put into its callers, for a call at each step makes a check slower.
#[inline(always)]
pub fn fill(model: &[i32], v: usize, log: &[i32], fact: FactPlace, cells: &mut [i32])
    requires { (1 + 2 * v ≤ length model.now) × (v ≤ 65536) × FactIn v log.now fact × (hole_place v (most_premises + 1) ≤ length cells.old) }
    ensures { cells.new ≡ filled model.now v log.now fact cells.old }
{
    narrowing::load(model, 1, v, cells);
    narrow_each(log, fact.premises, cells);
    narrow_then(log, fact.consequent, cells);
}

// Has the variable of the atom at a position no value left?
pub fn is_empty_at(log: &[i32], at: usize, cells: Cells<'_>) -> bool
    requires { AtomIn (variables cells.words.now) log.now at }
    ensures { result ≡ empty_at log.now at cells.entry.words.now }
{
    let x = variable_at(log, at);
    cells.is_empty(x)
}

fn is_empty_each(log: &[i32], atoms: Run, cells: Cells<'_>) -> bool
    requires { AtomsIn (variables cells.words.now) log.now atoms.from atoms.many }
    ensures { result ≡ empty_each log.now atoms.many atoms.from cells.entry.words.now }
{
    (0..atoms.many).any(|i| is_empty_at(log, atoms.from + i * 3, cells))
}

fn is_empty_then(log: &[i32], consequent: Run, cells: Cells<'_>) -> bool
    requires { (consequent.many ≤ 1) × (consequent.many ≡ 1 → AtomIn (variables cells.words.now) log.now consequent.from) }
    ensures { result ≡ empty_then log.now consequent.many consequent.from cells.entry.words.now }
{
    consequent.many == 1 && is_empty_at(log, consequent.from, cells)
}

// Is a set of the box empty? Only those can be of which the fact speaks.
pub fn is_box_empty(log: &[i32], fact: FactPlace, cells: Cells<'_>) -> bool
    requires { FactIn (variables cells.words.now) log.now fact }
    ensures { result ≡ box_empty log.now fact cells.entry.words.now }
{
    is_empty_each(log, fact.premises, cells) || is_empty_then(log, fact.consequent, cells)
}

// Does the atom at a position hold for every value left?
pub fn holds_at(log: &[i32], at: usize, cells: Cells<'_>) -> bool
    requires { AtomIn (variables cells.words.now) log.now at }
    ensures { result ≡ all (stands (int_at log.now (at + 1)) (int_at log.now (at + 2))) (values cells.entry.words.now (nat_at log.now at)) }
{
    let atom = atom_at(log, at);
    cells.holds(atom.variable, atom.relation, atom.value)
}
