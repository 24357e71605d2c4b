// Linear rows: the least sum, in exact signed numbers, held against the bound.
#![tactic(auto)]

ghost use Rattle.std.specs.Prelude.{◌≡◌, ◌+◌, ◌<◌, length};
ghost use Rattle.std.specs.Int.Signed.{lt_z};
ghost use Rattle.meaning.specs.Rule.{least_term, least_sum};
ghost use Rattle.reading.specs.At.{int_at, nat_at, each_at, Names};
ghost use Rattle.model.specs.Rows.{term_at, Counted, TermsIn};
ghost use Rattle.domain.specs.Box.{variables, values};

use domain::Cells;
use reading::{number_at, variable_at};
use rule_facts::ReadyCells;

// The least that the term at `at` adds: a coefficient below zero takes the largest value left, any other the smallest.
fn least_term(model: &[i32], at: usize, cells: Cells<'_>) -> i64
    requires { Names (variables cells.words.now) model.now (at + 1) }
    ensures { result ≡ least_term (int_at model.now at) (values cells.entry.words.now (nat_at model.now (at + 1))) }
{
    let coefficient = model[at];
    let x = variable_at(model, at + 1);
    if coefficient < 0 {
        return words::product(coefficient, cells.largest(x));
    }
    words::product(coefficient, cells.least(x))
}

// Whether the least sum exceeds the bound. The row's words after its kind begin at `p`: how many terms, the bound, the terms.
pub fn conflicts(model: &[i32], p: usize, ready: ReadyCells<'_>) -> bool
    requires { Counted 1 model.now p × (p + 1 < length model.now) × TermsIn (variables ready.cells.words.now) model.now (p + 2) (nat_at model.now p) }
    ensures { result ≡ lt_z (int_at model.now (p + 1)) (least_sum (values ready.entry.cells.words.now) (each_at term_at 2 (nat_at model.now p) model.now (p + 2))) }
{
    let terms = number_at(model, p);
    let bound = model[p + 1] as i64;
    let mut sum: i64 = 0;
    for i in 0..terms {
        sum += least_term(model, p + 2 + i * 2, ready.cells);
    }
    bound < sum
}
