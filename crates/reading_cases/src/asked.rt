// The step that a line asks for.
ghost use Rattle.std.specs.Prelude.{◌≡◌, ◌≤◌, drop, IfOk, IfSome};
ghost use Rattle.std.specs.Result.{result_map_both};
ghost use Rattle.meaning.specs.Limits.{most_log_words, most_rows, most_variables};
ghost use Rattle.meaning.specs.Log.{step};
ghost use Rattle.reading.specs.Told.{Skims};
ghost use Rattle.steps.specs.Told.{placed};

use lines;
use reading::counts::{Count, Known};
use reading::limits::{MOST_LOG_WORDS, MOST_ROWS, MOST_VARIABLES};
use reading::refusals::Refusal;
use steps::Step;

// A step of a log: where it begins, and what it can name.
#[derive(Clone, Copy)]
pub struct AskedStep<'a> {
    pub log: &'a [i32],
    pub at: usize,
    known: Known,
    ghost allowed: { (known.facts.n ≤ most_log_words) × (known.variables.n ≤ most_variables) × (known.rows.n ≤ most_rows) },
}

impl<'a> AskedStep<'a> {
    // The words of a line: the step's position and number, how many variables and rows there are, and the log's words. None where one of these four
    // is missing, or where the number, the variables or the rows are more than document 01 allows.
    pub fn of(words: &'a [i32]) -> Option<AskedStep<'a>>
        ensures { IfSome result (λ step. step.log.now ≡ drop 4 words.now) }
    {
        let [at, k, v, c, log @ ..] = words else {
            return None;
        };
        let number = lines::number(*k);
        let variables = lines::number(*v);
        let rows = lines::number(*c);
        if number > MOST_LOG_WORDS || variables > MOST_VARIABLES || rows > MOST_ROWS {
            return None;
        }
        Some(AskedStep {
            log,
            at: lines::number(*at),
            known: Known {
                variables: Count { n: variables },
                rows: Count { n: rows },
                facts: Count { n: number },
            },
        })
    }

    // What the step is, and where the next one begins.
    pub fn read(self) -> Result<(Step, usize), Refusal>
        ensures read { Skims (step self.entry.known.variables.n self.entry.known.rows.n self.entry.known.facts.n) self.entry.log.now self.entry.at (result_map_both (λ r. r.1) (λ e. e) result) }
        ensures placed { IfOk result (λ r. r.0 ≡ placed self.entry.log.now self.entry.at) }
    {
        let next = steps::read_step(self.log, self.at, self.known)?;
        Ok((steps::step_at(self.log, self.at), next))
    }
}
