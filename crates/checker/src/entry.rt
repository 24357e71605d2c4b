// What stands before the walk: the sizes in document 01's order, then the model.
ghost use Rattle.std.specs.Prelude.{◌≡◌, ◌≤◌, length};
ghost use Rattle.meaning.specs.Limits.{most_rows};
ghost use Rattle.checker.specs.Entry.{sizes_of, Enters, ToldEarly};

use model::Plan;
use reading::limits::{FEWEST_PLACES, MOST_LOG_WORDS, MOST_MODEL_WORDS};
use reading::refusals::{Reason, Refusal};
use walking::Answer;

// The sizes, in their order.
fn sizes(model: usize, log: usize, places: usize) -> Result<(), Refusal>
    ensures { result ≡ sizes_of model log places }
{
    if MOST_MODEL_WORDS < model {
        return Err(Reason::ModelTooLong.at(0));
    }
    if MOST_LOG_WORDS < log {
        return Err(Reason::LogTooLong.at(0));
    }
    if places < FEWEST_PLACES {
        return Err(Reason::TooFewPlaces.at(0));
    }
    Ok(())
}

// The model that the walk begins with. Its rows' first words go into the table of row starts.
pub fn enter<'a>(
    model: &'a [i32],
    log: &[i32],
    places: usize,
    row_starts: &'a mut [u32],
) -> Result<Plan<'a>, Refusal>
    requires { most_rows ≤ length row_starts.old }
    ensures { Enters model.now log.now places result }
{
    sizes(model.len(), log.len(), places)?;
    Plan::read(model, row_starts)
}

// A refusal before the walk carries step 0.
pub fn refused(e: Refusal) -> Answer
    requires { e.position ≤ 65536 }
    ensures { ToldEarly e result }
{
    Answer::Refused {
        number: u32::from(e.reason),
        step: 0,
        position: e.position as u32,
    }
}
