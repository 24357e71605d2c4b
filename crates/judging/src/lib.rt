// How a step is judged: the box of its fact, the row's rule, the hints, the conclusions.
#![tactic(auto)]

pub mod conclusions;
pub mod deductions;
pub mod inferences;

ghost use Rattle.std.specs.Prelude.{◌≡◌, ◌*◌, map, ◌≤◌, ◌<◌, true, false, length, get_or, MatchResult};
ghost use Rattle.meaning.specs.Refusals as refusal;
ghost use Rattle.meaning.specs.Judge.{judge};
ghost use Rattle.meaning.specs.Check.{fact_at};
ghost use Rattle.model.specs.Planned.{model_of};
ghost use Rattle.steps.specs.Facts.{FactIn, made_fact, made_place, MadeBegins};
ghost use Rattle.steps.specs.Laws.{PartsIn};
ghost use Rattle.steps.specs.Told.{step_of};
ghost use Rattle.judging.specs.Told.{told_verdict};
ghost use Rattle.reading.specs.Reasons.{number_of};
ghost use Rattle.boxes.specs.Boxes.{box_room, filled, box_empty};
ghost use Rattle.judging.specs.Cited.{Cited};
ghost use Rattle.judging.specs.Judged.{Declared};

use boxes;
use domain::Cells;
use model::Plan;
use reading::refusals::{Reason, Refusal};
use steps;
use steps::{FactPlace, Step};
use words::FactNo;

// Where the fact stands that a step made: the places say where the step begins.
pub fn cited(log: &[i32], places: &[u32], n: FactNo) -> FactPlace
    requires { (n.0 < length places.now) × MadeBegins log.now (get_or places.now n.0 0) }
    ensures { result ≡ made_place log.now (get_or places.now n.0 0) }
{
    let i = n.0;
    let start = places[i] as usize;
    steps::made_fact_at(log, start)
}

// The box of a fact, in the table of cells. Where a set of it is empty the step is refused. It is put into its two callers: called, it would write
// its answer into memory at each step, and a check is slower.
#[inline(always)]
fn fill_box(
    model: &[i32],
    v: usize,
    log: &[i32],
    fact: FactPlace,
    cells: &mut [i32],
) -> Result<(), Refusal>
    requires { Declared model.now v × FactIn v log.now fact × (box_room v ≤ length cells.old) }
    ensures filled { cells.new ≡ filled model.now v log.now fact cells.old }
    ensures told { MatchResult result (λ u. box_empty log.now fact cells.new ≡ false) (λ e. (box_empty log.now fact cells.new ≡ true) × (number_of e.reason ≡ refusal.box_empty) × (e.position ≡ 0)) }
{
    boxes::fill(model, v, log, fact, cells);
    let cells = Cells { words: &*cells };
    if boxes::is_box_empty(log, fact, cells) {
        return Err(Reason::BoxEmpty.at(0));
    }
    Ok(())
}

// A step against its rule. The places are those of the steps before it, and the table of cells is the room for its box. Log and places stay two:
// a value of both would ask besides that its variables are the plan's. The room stays a lent table: one of a fixed length would ask more.
pub fn judge(
    plan: Plan,
    log: &[i32],
    places: &[u32],
    step: Step,
    cells: &mut [i32],
) -> Result<(), Refusal>
    requires { Cited plan.variables log.now places.now (length places.now) × PartsIn plan.variables plan.rows (length places.now) log.now step × (box_room plan.variables ≤ length cells.old) }
    ensures { told_verdict result ≡ judge (model_of plan.entry.words.now) (fact_at (map (made_fact log.now) places.now)) (step_of log.now step) }
{
    match step {
        Step::Inference(r, f) => inferences::inference(plan, r, log, f, cells),
        Step::Deduction(f, hints) => deductions::deduction(
            plan.words,
            plan.variables,
            log,
            places,
            f,
            hints,
            cells,
        ),
        Step::NoAssignment(n) => conclusions::no_assignment(log, places, n),
        Step::NeverBelow(x, a, n) => conclusions::never_below(log, places, x, a, n),
    }
}
