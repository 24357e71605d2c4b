// What writes a box: an atom or its negation narrows it, and the bounds of a model are loaded into it.
#![tactic(auto)]

ghost use Rattle.std.specs.Prelude.{◌≡◌, ◌+◌, ◌*◌, ◌≤◌, ◌<◌, pos, negsuc, length, ◌<ℤ◌};
ghost use Rattle.std.specs.Int.Signed.{le_z};
ghost use Rattle.domain.specs.Sets.{only_of, or_none};
ghost use Rattle.domain.specs.Box.{variables, high_place, Formed, values};
ghost use Rattle.domain.specs.Relations.{code};
ghost use Rattle.narrowing.specs.Narrow.{opposite, shifted, put, bounded, holed, excluded, squeezed, narrowed, Room};
ghost use Rattle.narrowing.specs.Load.{loaded};

use domain::{Cells, Relation};
use words::VarNo;

fn put(x: VarNo, a: i32, b: i32, cells: &mut [i32])
    requires { high_place x.0 < length cells.old }
    ensures { cells.new ≡ put cells.old x.0 a b }
{
    cells[2 * x.0 + 2] = a;
    cells[2 * x.0 + 3] = b;
}

// The ends of what is left: 1 and 0 where they cross.
fn bound(x: VarNo, a: i32, b: i32, cells: &mut [i32])
    requires { high_place x.0 < length cells.old }
    ensures { cells.new ≡ bounded cells.old x.0 (or_none (le_z a b) a) (or_none (le_z a b) b) }
{
    if a <= b {
        put(x, a, b, cells);
    } else {
        put(x, 1, 0, cells);
    }
}

// Kept as it is, a lent table with `Formed` asked beside it: tried with a struct that holds the `&mut` and, as a ghost field, the fact. It is no
// plainer: for the clause that a contract loses it needs another, that the struct still holds the same table
// (`cells.new.words.ghost_name ≡ cells.old.words.ghost_name`), and the fact has to be shown again behind each write.
fn add_hole(x: VarNo, value: i32, cells: &mut [i32])
    requires { Formed cells.old × Room cells.old 1 × (x.0 < variables cells.old) }
    ensures { cells.new ≡ holed cells.old x.0 value }
{
    let before = Cells { words: cells };
    let n = before.variables();
    let k = before.holes();
    let at = 2 * n + 2 * k + 2;
    cells[at] = x.0 as i32;
    cells[at + 1] = value;
    cells[1] = (k + 1) as i32;
}

// Of a variable's values one is left, if it was.
fn only(x: VarNo, value: i32, cells: &mut [i32])
    requires { Formed cells.old × (x.0 < variables cells.old) }
    ensures { cells.new ≡ bounded cells.old x.0 (only_of value (values cells.old x.0)) (only_of value (values cells.old x.0)) }
{
    let before = Cells { words: cells };
    if before.has(x, value) {
        put(x, value, value, cells);
    } else {
        put(x, 1, 0, cells);
    }
}

// One end moves to the first value left from `from` on, up or down: the values before it are gone.
fn squeeze(x: VarNo, up: bool, from: i32, cells: &mut [i32])
    requires { Formed cells.old × (x.0 < variables cells.old) }
    ensures { cells.new ≡ squeezed cells.old x.0 up from }
{
    let before = Cells { words: cells };
    let Some(v) = before.nearest(x, up, from) else {
        put(x, 1, 0, cells);
        return;
    };
    if up {
        let high = before.high_end(x);
        put(x, v, high, cells);
    } else {
        let low = before.low_end(x);
        put(x, low, v, cells);
    }
}

// A value is taken away: an end moves to the next value, or a value between the ends is a hole from now on.
fn exclude(x: VarNo, value: i32, cells: &mut [i32])
    requires { Formed cells.old × Room cells.old 1 × (x.0 < variables cells.old) }
    ensures { cells.new ≡ excluded cells.old x.0 value }
{
    let before = Cells { words: cells };
    let a = before.low_end(x);
    let b = before.high_end(x);
    if !words::in_range(value, a, b) {
        bound(x, a, b, cells);
    } else if a < value {
        if value < b {
            add_hole(x, value, cells);
        } else {
            squeeze(x, false, value - 1, cells);
        }
    } else if value < b {
        squeeze(x, true, value + 1, cells);
    } else {
        put(x, 1, 0, cells);
    }
}

// The box after an atom. The ends move to values that are left; only a value between them becomes a hole. Tried as a
// `match`: the compiler makes a table of jumps of it, and a check is slower than with three tests.
pub fn narrow(x: VarNo, relation: Relation, value: i32, cells: &mut [i32])
    requires { Formed cells.old × Room cells.old 1 × (x.0 < variables cells.old) }
    ensures { cells.new ≡ narrowed cells.old x.0 (code relation) value }
{
    if relation == Relation::AtMost {
        squeeze(x, false, value, cells);
    } else if relation == Relation::AtLeast {
        squeeze(x, true, value, cells);
    } else if relation == Relation::Equal {
        only(x, value, cells);
    } else {
        exclude(x, value, cells);
    }
}

// The relation and the value of an atom's negation: not "at most a" is "at least a + 1", and so on.
pub fn opposite(relation: Relation) -> Relation
    ensures { code result ≡ opposite (code relation) }
{
    match relation {
        Relation::AtMost => Relation::AtLeast,
        Relation::AtLeast => Relation::AtMost,
        Relation::Equal => Relation::Different,
        Relation::Different => Relation::Equal,
    }
}

pub fn shifted(relation: Relation, value: i32) -> i32
    requires { (negsuc 2147483647 <ℤ value) × (value <ℤ pos 2147483647) }
    ensures { result ≡ shifted (code relation) value }
{
    match relation {
        Relation::AtMost => value + 1,
        Relation::AtLeast => value - 1,
        Relation::Equal | Relation::Different => value,
    }
}

// The box after the negation of an atom.
pub fn narrow_not(x: VarNo, relation: Relation, value: i32, cells: &mut [i32])
    requires { Formed cells.old × Room cells.old 1 × (x.0 < variables cells.old) × (negsuc 2147483647 <ℤ value) × (value <ℤ pos 2147483647) }
    ensures { cells.new ≡ narrowed cells.old x.0 (opposite (code relation)) (shifted (code relation) value) }
{
    narrow(x, opposite(relation), shifted(relation, value), cells);
}

// The box of `count` variables whose bounds are pairs of words from `at` on.
pub fn load(words: &[i32], at: usize, count: usize, cells: &mut [i32])
    requires { (at + 2 * count ≤ length words.now) × (2 * count + 2 ≤ length cells.old) × (count < 2147483648) }
    ensures { cells.new ≡ loaded words.now at count cells.old }
{
    // Kept as a loop: tried with `copy_from_slice`, and a check is slower by the call that it makes for a few words.
    for k in 0..2 * count {
        cells[k + 2] = words[at + k];
    }
    cells[0] = count as i32;
    cells[1] = 0;
}
