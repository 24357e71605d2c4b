// The words of two tables held against each other, and the rows that differ.
#![tactic(auto)]

ghost use Rattle.std.specs.Prelude.{◌≡◌, ◌+◌, ◌≤◌, length, take, drop};
ghost use Rattle.meaning.specs.Check.{same_words, changes};
ghost use Rattle.model.specs.Planned.{model_of};
ghost use Rattle.row_set.specs.Bits.{packed};
ghost use Rattle.row_changes.specs.Rows.{row_words_at, Stands};

use model;
use model::Plan;
use words;

// Whether two stretches of words are the same.
#[tactic(auto, using(crate::specs::Words::pointwise_same))]
pub fn same_words(a: &[i32], b: &[i32]) -> bool
    ensures { result ≡ same_words a.now b.now }
{
    a == b
}

// The words of the row that begins at a word.
fn row_words(s: &[i32], start: usize) -> &[i32]
    requires { Stands s.now start }
    ensures { result.now ≡ row_words_at s.now start }
{
    let n = model::row_size(s, start);
    &s[start..start + n]
}

// The rows of two good models, held against each other: they have as many.
pub fn changed_rows(old: Plan, new: Plan) -> u64
    requires { old.rows ≡ new.rows }
    ensures { result ≡ packed (changes (model_of old.entry.words.now).rows (model_of new.entry.words.now).rows) }
{
    let mut set: u64 = 0;
    for k in 0..new.rows {
        let p = old.starts[k] as usize;
        let q = new.starts[k] as usize;
        if !same_words(row_words(old.words, p), row_words(new.words, q)) {
            set = set | (1 << k);
        }
    }
    set
}
