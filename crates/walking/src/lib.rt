// The walk over the log: one step after the other, each read before its meaning is looked at.
#![tactic(auto)]

ghost use Rattle.std.specs.Prelude.{◌≡◌, ℕ, ◌+◌, ◌*◌, ◌≤◌, ◌<◌, length, drop, set, []};
ghost use Rattle.meaning.specs.Limits.{most_rows};
ghost use Rattle.meaning.specs.Check.{advance, over};
ghost use Rattle.row_set.specs.Whole.{whole_in, set_in};
ghost use Rattle.steps.specs.Facts.{made_fact};
ghost use Rattle.steps.specs.Told.{step_of};
ghost use Rattle.walking.specs.Told.{told_moved, held_by, say_by, answer_by, after_passing, concluded, RowBelow, Tells};
ghost use Rattle.boxes.specs.Boxes.{box_room};
ghost use Rattle.model.specs.Planned.{model_of};
ghost use Rattle.judging.specs.Cited.{Cited};
ghost use Rattle.walking.specs.LeadsTo.{LeadsTo};
ghost use Rattle.walking.specs.FromStep.{state_at};

use judging;
use model::Plan;
use reading::counts::{Count, Known};
use reading::refusals::{Reason, Refusal};
use row_set;
use steps;
use steps::Step;
use words;
use words::VarNo;

#[derive(Clone, Copy)]
pub enum Conclusion {
    NoAssignment,
    NeverBelow(VarNo, i32),
}

#[derive(Clone, Copy)]
pub enum Answer {
    Refused {
        number: u32,
        step: u32,
        position: u32,
    },
    Accepted(Conclusion),
    Carried(Conclusion),
}

// Where a step that passed leads: the next step begins there, or it is the conclusion, and nothing follows it.
#[derive(Clone, Copy)]
pub enum Onward {
    To(usize),
    End(Conclusion),
}

// The answer, and how many steps were held against their rule.
#[derive(Clone, Copy)]
pub struct Walked {
    pub answer: Answer,
    pub judged: u32,
}

// Is the step held against its rule? Where nothing is told of changed rows every step is, else the inferences that cite one.
fn is_held(changed: Option<u64>, step: Step) -> bool
    requires { RowBelow most_rows step }
    ensures { result ≡ held_by (whole_in changed) (set_in changed) (step_of [] step) }
{
    let Some(set) = changed else {
        return true;
    };
    match step {
        Step::Inference(r, _) => row_set::is_changed(set, r),
        Step::Deduction(_, _) => false,
        Step::NoAssignment(_) => false,
        Step::NeverBelow(_, _, _) => false,
    }
}

// A passed step makes a fact, or it ends the log unless words follow.
fn after_passing(step: Step, next: usize, len: usize) -> Result<Onward, Refusal>
    ensures { result ≡ after_passing step next len }
{
    match step {
        Step::Inference(_, _) => Ok(Onward::To(next)),
        Step::Deduction(_, _) => Ok(Onward::To(next)),
        Step::NoAssignment(_) => conclude(Conclusion::NoAssignment, next, len),
        Step::NeverBelow(x, a, _) => conclude(Conclusion::NeverBelow(x, a), next, len),
    }
}

fn conclude(c: Conclusion, next: usize, len: usize) -> Result<Onward, Refusal>
    ensures { result ≡ concluded c next len }
{
    if next < len {
        return Err(Reason::WordsAfterConclusion.at(next));
    }
    Ok(Onward::End(c))
}

// The step that begins at a position, after those passed, is read and, where it is held, judged; how many were is counted.
fn one_step(
    plan: Plan,
    changed: Option<u64>,
    log: &[i32],
    passed: &[u32],
    at: usize,
    judged: &mut u32,
    cells: &mut [i32],
) -> Result<Onward, Refusal>
    requires { Cited plan.variables log.now passed.now (length passed.now) × (box_room plan.variables ≤ length cells.old) × (length log.now ≤ 65536) × (at ≤ length log.now) × (length passed.now ≤ at) × (judged.old < 65536) }
    ensures moved { told_moved (say_by (whole_in changed)) log.now (state_at (made_fact log.now) passed.now judged.new) (length passed.now) at (made_fact log.now at) result ≡ advance (held_by (whole_in changed) (set_in changed)) (say_by (whole_in changed)) (model_of plan.entry.words.now) (length passed.now) (state_at (made_fact log.now) passed.now judged.old) at (drop at log.now) }
    ensures leads { LeadsTo plan.entry.variables log.now at result }
    ensures counted { judged.new ≤ judged.old + 1 }
{
    if at >= log.len() {
        return Err(Reason::NoConclusion.at(at));
    }
    let known = Known {
        variables: Count { n: plan.variables },
        rows: Count { n: plan.rows },
        facts: Count { n: passed.len() },
    };
    let read = steps::read_step(log, at, known);
    let Ok(next) = read else {
        return Err(read.unwrap_err());
    };
    let step = steps::step_at(log, at);
    let held = is_held(changed, step);
    if held {
        *judged += 1;
        judging::judge(plan, log, passed, step, cells)?;
    }
    after_passing(step, next, log.len())
}

// A log that gets through is accepted where all was checked, else carried.
fn answer_of(changed: Option<u64>, c: Conclusion) -> Answer
    ensures { result ≡ answer_by (whole_in changed) c }
{
    match changed {
        None => Answer::Accepted(c),
        Some(_) => Answer::Carried(c),
    }
}

// The first word of step k goes into the places.
fn note_start(k: usize, at: usize, places: &mut [u32])
    requires { (k < length places.old) × (at ≤ 65536) }
    ensures { places.new ≡ set places.old k at }
{
    let start = at as u32;
    words::put_place(k, start, places);
}

// Every step from the first on. The first word of each step passed goes into the places. No count ends it but a step, so the steps are counted
// by hand.
pub fn walk(
    plan: Plan,
    changed: Option<u64>,
    log: &[i32],
    places: &mut [u32],
    cells: &mut [i32],
) -> Walked
    requires { (length log.now ≤ 65536) × (length log.now ≤ 4 * length places.old) × (box_room plan.variables ≤ length cells.old) }
    ensures { Tells result places.old places.new (over (held_by (whole_in changed) (set_in changed)) (say_by (whole_in changed)) (model_of plan.entry.words.now) log.now) }
{
    let mut at: usize = 0;
    let mut k: usize = 0;
    let mut judged: u32 = 0;
    loop {
        let moved = one_step(
            plan,
            changed,
            log,
            &places[..k],
            at,
            &mut judged,
            &mut *cells,
        );
        match moved {
            Ok(Onward::To(next)) => {
                note_start(k, at, &mut *places);
                at = next;
                k += 1;
            }
            Ok(Onward::End(c)) => {
                note_start(k, at, places);
                return Walked {
                    answer: answer_of(changed, c),
                    judged,
                };
            }
            Err(refusal) => {
                return Walked {
                    answer: Answer::Refused {
                        number: u32::from(refusal.reason),
                        step: k as u32,
                        position: refusal.position as u32,
                    },
                    judged,
                };
            }
        }
    }
}
