// The check of a log against a model, step by step.
#![tactic(auto)]

mod entry;

ghost use Rattle.std.specs.Prelude.{◌≡◌, ◌≤◌, length};
ghost use Rattle.meaning.specs.Limits.{most_rows};
ghost use Rattle.meaning.specs.Check.{check, recheck};
ghost use Rattle.row_set.specs.Whole.{whole_in, set_in};
ghost use Rattle.checker.specs.Checks.{Checks, Rechecks, size_by};

use amend;
use reading::limits::{MOST_HINTS, MOST_PREMISES, MOST_ROWS, MOST_VARIABLES};
use row_set;
use walking;
use walking::Answer;

// The words of a step's box: two counts, two ends for each variable, and two words for each atom of the fact and for each hint.
const BOX_WORDS: usize = 2 * MOST_VARIABLES + 2 * (MOST_PREMISES + 1 + MOST_HINTS) + 2;

// The recheck's answer: the size of the changed set, and how many steps were held against their rule.
#[derive(Clone, Copy)]
pub struct Rechecked {
    pub answer: Answer,
    pub changed: u32,
    pub judged: u32,
}

// The whole check: does the log show, against the model, what it concludes?
pub fn check(model: &[i32], log: &[i32], places: &mut [u32]) -> Answer
    ensures { Checks result places.old places.new (check model.now log.now (length places.old)) }
{
    let mut row_starts = [0u32; MOST_ROWS];
    match entry::enter(model, log, places.len(), &mut row_starts) {
        Err(e) => entry::refused(e),
        Ok(plan) => {
            let mut cells = [0i32; BOX_WORDS];
            walking::walk(plan, None, log, places, &mut cells).answer
        }
    }
}

// How many rows are reported: in whole mode all.
fn rows_reported(changed: Option<u64>, rows: usize) -> u32
    requires { rows ≤ most_rows }
    ensures { result ≡ size_by (whole_in changed) (set_in changed) rows }
{
    match changed {
        None => rows as u32,
        Some(set) => row_set::size_of_set(set),
    }
}

// The recheck of an amended plan: only the inferences that cite a changed row are judged, or all steps where the old model does not fit.
pub fn recheck(old: &[i32], new: &[i32], log: &[i32], places: &mut [u32]) -> Rechecked
    ensures { Rechecks result places.old places.new (recheck old.now new.now log.now (length places.old)) }
{
    let mut row_starts = [0u32; MOST_ROWS];
    match entry::enter(new, log, places.len(), &mut row_starts) {
        Err(e) => Rechecked {
            answer: entry::refused(e),
            changed: 0,
            judged: 0,
        },
        Ok(plan) => {
            let set = amend::compare(old, plan);
            let mut cells = [0i32; BOX_WORDS];
            let w = walking::walk(plan, set, log, places, &mut cells);
            Rechecked {
                answer: w.answer,
                changed: rows_reported(set, plan.rows),
                judged: w.judged,
            }
        }
    }
}
