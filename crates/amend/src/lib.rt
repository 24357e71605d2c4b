// Which rows of a model changed: two models are held against each other word by word.
#![tactic(auto)]

ghost use Rattle.std.specs.Prelude.{◌≡◌};
ghost use Rattle.meaning.specs.Check.{read_good};
ghost use Rattle.model.specs.Planned.{model_of};
ghost use Rattle.row_set.specs.Bits.{packed};
ghost use Rattle.row_set.specs.Whole.{whole_in, set_in};
ghost use Rattle.amend.specs.Changed.{whole_of, changed_of};

use model::Plan;
use reading::limits::{MOST_MODEL_WORDS, MOST_ROWS};
use row_changes;

// The set of changed rows, with one bit for each row; nothing where the recheck is the whole check. That is so where the old model is refused,
// or where it has other bounds or another number of rows.
pub fn compare(old: &[i32], new: Plan) -> Option<u64>
    ensures { (whole_in result ≡ whole_of (read_good old.now) (model_of new.entry.words.now)) × (set_in result ≡ packed (changed_of (read_good old.now) (model_of new.entry.words.now))) }
{
    let too_long = old.len() > MOST_MODEL_WORDS;
    if too_long {
        return None;
    }
    let mut olds = [0u32; MOST_ROWS];
    let Ok(was) = Plan::read(old, &mut olds) else {
        return None;
    };
    if was.variables != new.variables {
        return None;
    }
    if was.rows != new.rows {
        return None;
    }
    let end = 1 + new.variables * 2;
    if !row_changes::same_words(&old[1..end], &new.words[1..end]) {
        return None;
    }
    Some(row_changes::changed_rows(was, new))
}
