// The row rules: whether a row conflicts with a box. A crate for each kind of row; here its kind is asked.
#![tactic(auto)]

ghost use Rattle.std.specs.Prelude.{◌≡◌, ◌*◌, ◌≤◌, length};
ghost use Rattle.meaning.specs.Log.{Fact};
ghost use Rattle.meaning.specs.Rule.{conflicts};
ghost use Rattle.domain.specs.Box.{variables, values};
ghost use Rattle.reading.specs.At.{nat_at};
ghost use Rattle.model.specs.Rows.{RowIn, row_at};
ghost use Rattle.rule_facts.specs.Occurring.{Occurring};

use all_different;
use circuit;
use cumulative;
use linear;
use reading::kinds::RowKind;
use reading::number_at;
use rule_facts::ReadyCells;

// Does the row whose kind stands at `at` conflict with the box? All-different alone asks for the fact: only there the marked variables have to be just those that occur in it.
pub fn conflicts(model: &[i32], at: usize, occurring: &[u64], ready: ReadyCells<'_>) -> bool
    requires { RowIn (variables ready.cells.words.now) model.now at × (variables ready.cells.words.now ≤ 64 * length occurring.now) }
    ensures { (f : Fact) → (nat_at model.now at ≡ 2 → Occurring f occurring.now) → result ≡ conflicts f (values ready.entry.cells.words.now) (row_at model.now at) }
{
    match RowKind::from(number_at(model, at)) {
        RowKind::Linear => linear::conflicts(model, at + 1, ready),
        RowKind::AllDifferent => all_different::conflicts(model, at + 1, occurring, ready),
        RowKind::Cumulative => cumulative::conflicts(model, at + 1, ready),
        RowKind::Circuit => circuit::conflicts(model, at + 1, ready.cells),
    }
}
