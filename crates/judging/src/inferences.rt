// An inference: its row conflicts with the box of its fact.
ghost use Rattle.std.specs.Prelude.{◌≡◌, ◌+◌, ◌*◌, ◌≤◌, ◌<◌, length};
ghost use Rattle.meaning.specs.Limits.{most_variables};
ghost use Rattle.meaning.specs.Judge as judge;
ghost use Rattle.meaning.specs.Judge.{judge_inference};
ghost use Rattle.meaning.specs.Rule.{conflicts};
ghost use Rattle.domain.specs.Box.{variables, values};
ghost use Rattle.model.specs.Rows.{RowIn, row_at};
ghost use Rattle.model.specs.Planned.{model_of};
ghost use Rattle.steps.specs.Facts.{FactIn, fact_of};
ghost use Rattle.boxes.specs.Boxes.{box_room};
ghost use Rattle.judging.specs.Told.{told_verdict};

use boxes::occurrences;
use domain::Cells;
use model::Plan;
use reading::limits::MOST_VARIABLES;
use reading::refusals::{Reason, Refusal};
use rule_facts::ReadyCells;
use rules;
use steps::FactPlace;
use words::RowNo;

// A word of marks for every 64 variables.
const MARK_WORDS: usize = (MOST_VARIABLES + 63) / 64;

// Does the row whose kind stands at a position conflict with the box of the fact?
fn row_conflicts(
    model: &[i32],
    at: usize,
    log: &[i32],
    fact: FactPlace,
    ready: ReadyCells<'_>,
) -> bool
    requires { RowIn (variables ready.cells.words.now) model.now at × FactIn (variables ready.cells.words.now) log.now fact × (variables ready.cells.words.now ≤ most_variables) }
    ensures { result ≡ conflicts (fact_of log.now fact) (values ready.entry.cells.words.now) (row_at model.now at) }
{
    let mut occurring = [0u64; MARK_WORDS];
    occurrences::mark_where_asked(model, at, log, fact, &mut occurring);
    rules::conflicts(model, at, &occurring, ready)
}

pub fn inference(
    plan: Plan,
    r: RowNo,
    log: &[i32],
    fact: FactPlace,
    cells: &mut [i32],
) -> Result<(), Refusal>
    requires { (r.0 < plan.rows) × FactIn plan.variables log.now fact × (box_room plan.variables ≤ length cells.old) }
    ensures { told_verdict result ≡ judge_inference (model_of plan.entry.words.now).bounds (judge.row_at (model_of plan.entry.words.now) r.0) (fact_of log.now fact) }
{
    crate::fill_box(plan.words, plan.variables, log, fact, cells)?;
    let at = plan.starts[r.0] as usize;
    let cells = Cells { words: &*cells };
    let ready = ReadyCells { cells };
    if row_conflicts(plan.words, at, log, fact, ready) {
        return Ok(());
    }
    Err(Reason::RowDoesNotConflict.at(0))
}
