// Reading the model table: every word is held to its range, and the first word of each row is noted. How much it holds is asked where it was read well.
#![tactic(auto)]

mod bounds;
mod rows;

ghost use Rattle.std.specs.Prelude.{◌≡◌, ◌≤◌, length, Err, IfOk, MatchResult};
ghost use Rattle.std.proofs.lemmas.List.Edits.{sets};
ghost use Rattle.meaning.specs.Limits.{most_rows};
ghost use Rattle.meaning.specs.Model.{read_model};
ghost use Rattle.reading.specs.Told.{Skims};
ghost use Rattle.model.specs.RowWords.{RowBegins, row_size};
ghost use Rattle.model.specs.Starts.{model_starts};
ghost use Rattle.model.specs.Planned.{model_of, Modelled, Noted, Planned};
ghost use Rattle.model.specs.OnePlan.{planned_prop};

use reading;
use reading::MODEL;
use reading::counts::Count;
use reading::kinds::RowKind;
use reading::limits::{MOST_ROWS, MOST_VARIABLES};
use reading::refusals::{Reason, Refusal};

// A good model: its words, where each of its rows begins, and how many variables and rows it has. The table of starts is lent with room for the
// most rows.
#[derive(Clone, Copy)]
pub struct Plan<'a> {
    pub words: &'a [i32],
    pub starts: &'a [u32],
    pub variables: usize,
    pub rows: usize,
    pub ghost planned: { Planned words.now starts.now variables rows } by { planned_prop words.now starts.now variables rows },
}

impl<'a> Plan<'a> {
    // The plan that a table holds. The first word of each row is noted in `starts`.
    pub fn read(model: &'a [i32], starts: &'a mut [u32]) -> Result<Plan<'a>, Refusal>
        requires { (length model.now ≤ 65536) × (most_rows ≤ length starts.old) }
        ensures read { MatchResult result (λ plan. (plan.words.now ≡ model.now) × Modelled model.now) (λ e. Skims read_model model.now 0 (Err e)) }
        ensures noted { IfOk result (λ plan. plan.starts.now ≡ sets starts.old 0 (model_starts model.now)) }
    {
        read_model(model, &mut *starts)?;
        Ok(Plan::of(model, starts))
    }

    // The plan of a table that `read_model` read well, with the starts that it noted: for a caller that looks at these after a refusal too, of
    // which `read` says nothing.
    pub fn of(model: &'a [i32], starts: &'a [u32]) -> Plan<'a>
        requires read { Modelled model.now }
        requires noted { Noted model.now starts.now }
        ensures { (result.words.now ≡ model.now) × (result.starts.now ≡ starts.now) }
    {
        Plan {
            words: model,
            starts,
            variables: variables_of(model),
            rows: rows_of(model),
        }
    }
}

// The whole model.
pub fn read_model(s: &[i32], starts: &mut [u32]) -> Result<usize, Refusal>
    requires { (length s.now ≤ 65536) × (most_rows ≤ length starts.old) }
    ensures read { Skims read_model s.now 0 result }
    ensures noted { starts.new ≡ sets starts.old 0 (model_starts s.now) }
{
    let first = MODEL.number(s, 0, 1, MOST_VARIABLES)?;
    let v = reading::number_at(s, 0);
    let n = bounds::pairs(s, first, v)?;
    let from = MODEL.number(s, n, 0, MOST_ROWS)?;
    let c = reading::number_at(s, n);
    let end = rows::rows(s, from, Count { n: v }, &mut starts[..c])?;
    let more = end < s.len();
    if more {
        return Err(Reason::WordsAfterModel.at(end));
    }
    Ok(end)
}

// ---- what the words say, where they were read well before

// How many variables the model has.
pub fn variables_of(s: &[i32]) -> usize
    requires { Modelled s.now }
    ensures { result ≡ length (model_of s.now).bounds }
{
    reading::number_at(s, 0)
}

// How many rows it has: their number stands behind the bounds.
pub fn rows_of(s: &[i32]) -> usize
    requires { Modelled s.now }
    ensures { result ≡ length (model_of s.now).rows }
{
    let v = variables_of(s);
    reading::number_at(s, 1 + v * 2)
}

// How many words the row has that begins at a word.
pub fn row_size(s: &[i32], start: usize) -> usize
    requires { RowBegins s.now start }
    ensures { result ≡ row_size s.now start }
{
    let n = reading::number_at(s, start + 1);
    match RowKind::from(reading::number_at(s, start)) {
        RowKind::Linear => 3 + n * 2,
        RowKind::Cumulative => 3 + n * 3,
        RowKind::AllDifferent | RowKind::Circuit => 2 + n,
    }
}
