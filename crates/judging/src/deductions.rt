// A deduction: its hints, taken in order, empty the box of its fact.
ghost use Rattle.std.specs.Prelude.{◌≡◌, map, ◌+◌, ◌*◌, ◌≤◌, length};
ghost use Rattle.meaning.specs.Judge.{judge_deduction};
ghost use Rattle.meaning.specs.Check.{fact_at};
ghost use Rattle.domain.specs.Box.{variables};
ghost use Rattle.model.specs.Planned.{model_of};
ghost use Rattle.reading.specs.At.{nat_at, each_at};
ghost use Rattle.steps.specs.Facts.{FactIn, fact_of, made_fact};
ghost use Rattle.steps.specs.Laws.{HintsIn};
ghost use Rattle.boxes.specs.Boxes.{box_room, Boxed};
ghost use Rattle.judging.specs.Cited.{Cited};
ghost use Rattle.judging.specs.Following.{Says};
ghost use Rattle.judging.specs.Judged.{Declared};
ghost use Rattle.judging.specs.Told.{told_verdict};

use crate::cited;
use boxes;
use domain::Cells;
use reading;
use reading::refusals::{Reason, Refusal};
use steps::{FactPlace, Run};
use words::FactNo;

// The hints in order from the box in the cells on. The first that empties it ends the step; later hints are not applied. Document 01 asks for a
// loop whose break yields pass or refusal, so it counts the hints by hand.
fn follow(log: &[i32], places: &[u32], hints: Run, cells: &mut [i32]) -> Result<(), Refusal>
    requires { Cited (variables cells.old) log.now places.now (length places.now) × HintsIn (length places.now) log.now hints.from hints.many × Boxed (variables cells.old) hints.many cells.old }
    ensures { Says (variables cells.old) log.now (fact_at (map (made_fact log.now) places.now)) hints.from hints.many cells.old (told_verdict result) }
{
    let Run { from, many } = hints;
    let mut i: usize = 0;
    'hint: loop {
        if i >= many {
            break Err(Reason::HintsUsedUp.at(0));
        }
        let n = reading::number_at(log, from + i);
        let f = cited(log, places, FactNo(n));
        let before = Cells { words: &*cells };
        for j in 0..f.premises.many {
            if !boxes::holds_at(log, f.premises.from + j * 3, before) {
                break 'hint Err(Reason::HintDoesNotApply.at(i));
            }
        }
        if f.consequent.many == 0 {
            break Ok(());
        }
        boxes::narrow_atom(log, f.consequent.from, cells);
        let after = Cells { words: &*cells };
        if boxes::is_empty_at(log, f.consequent.from, after) {
            break Ok(());
        }
        i += 1;
    }
}

pub fn deduction(
    model: &[i32],
    v: usize,
    log: &[i32],
    places: &[u32],
    fact: FactPlace,
    hints: Run,
    cells: &mut [i32],
) -> Result<(), Refusal>
    requires { Declared model.now v × Cited v log.now places.now (length places.now) × FactIn v log.now fact × HintsIn (length places.now) log.now hints.from hints.many × (box_room v ≤ length cells.old) }
    ensures { told_verdict result ≡ judge_deduction (model_of model.now).bounds (fact_at (map (made_fact log.now) places.now)) (fact_of log.now fact) (each_at nat_at 1 hints.many log.now hints.from) }
{
    crate::fill_box(model, v, log, fact, cells)?;
    follow(log, places, hints, cells)
}
