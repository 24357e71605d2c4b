// All-different rows: the row's variables that occur in the fact have fewer values left than they are. Which occur, a set of marks says.
#![tactic(auto)]

ghost use Rattle.std.specs.Prelude.{◌≡◌, ◌+◌, ◌*◌, ◌≤◌, ◌<◌, length, None};
ghost use Rattle.words.specs.Lists.{keep, All};
ghost use Rattle.meaning.specs.Rule.{crowded};
ghost use Rattle.marks.specs.Marks.{marked};
ghost use Rattle.reading.specs.At.{nat_at, each_at};
ghost use Rattle.model.specs.Rows.{Counted, VariablesIn};
ghost use Rattle.domain.specs.Box.{variables, values};
ghost use Rattle.all_different.specs.Chosen.{numbers};
ghost use Rattle.all_different.specs.Soonest.{sooner, soonest_of};

use domain::Cells;
use reading::limits::{MOST_PARTS, MOST_VALUE};
use reading::{number_at, variable_at};
use rule_facts::ReadyCells;
use words::VarNo;

// No value of a box that is judged is smaller.
const LEAST_VALUE: i32 = 0 - (MOST_VALUE as i32);

// The smaller of two values, where there are two.
fn sooner(a: Option<i32>, b: Option<i32>) -> Option<i32>
    ensures { result ≡ sooner a b }
{
    match (a, b) {
        (Some(v), Some(w)) => Some(words::smaller(v, w)),
        (None, other) | (other, None) => other,
    }
}

// The least value at or above `from` that is left to one of the variables.
fn next_value(cells: Cells<'_>, xs: &[VarNo], from: i32) -> Option<i32>
    requires { All (λ x. x < variables cells.words.now) (numbers xs.now) }
    ensures { result ≡ soonest_of from (values cells.entry.words.now) None (numbers xs.now) }
{
    let mut best = None;
    for x in xs {
        best = sooner(best, cells.next_from(*x, from));
    }
    best
}

// Whether the variables have fewer values left than they are. As many values as variables are enough to know that they have not.
fn crowded(ready: ReadyCells<'_>, xs: &[VarNo]) -> bool
    requires { All (λ x. x < variables ready.cells.words.now) (numbers xs.now) }
    ensures { result ≡ crowded (values ready.entry.cells.words.now) (numbers xs.now) }
{
    let mut from: i32 = LEAST_VALUE;
    for _ in xs {
        let Some(v) = next_value(ready.cells, xs, from) else {
            return true;
        };
        from = v + 1;
    }
    false
}

// The row's variables that occur, in the row's order, in the first places of `room`: there is no heap.
fn choose<'a>(
    model: &[i32],
    p: usize,
    occurring: &[u64],
    room: &'a mut [VarNo; MOST_PARTS],
) -> &'a [VarNo]
    requires { Counted 2 model.now p × VariablesIn (64 * length occurring.now) model.now (p + 1) (nat_at model.now p) }
    ensures { numbers result.now ≡ keep (marked occurring.now) (each_at nat_at 1 (nat_at model.now p) model.now (p + 1)) }
{
    let n = number_at(model, p);
    let mut count: usize = 0;
    for i in 0..n {
        let x = variable_at(model, p + 1 + i);
        if marks::holds(occurring, x.0) {
            room[count] = x;
            count += 1;
        }
    }
    &room[..count]
}

// Whether the row's variables that occur have fewer values left than they are. The row's words after its kind begin at `p`:
// how many variables, the variables.
pub fn conflicts(model: &[i32], p: usize, occurring: &[u64], ready: ReadyCells<'_>) -> bool
    requires { Counted 2 model.now p × VariablesIn (variables ready.cells.words.now) model.now (p + 1) (nat_at model.now p) × (variables ready.cells.words.now ≤ 64 * length occurring.now) }
    ensures { result ≡ crowded (values ready.entry.cells.words.now) (keep (marked occurring.now) (each_at nat_at 1 (nat_at model.now p) model.now (p + 1))) }
{
    let mut room = [VarNo(0); MOST_PARTS];
    let chosen = choose(model, p, occurring, &mut room);
    crowded(ready, chosen)
}
