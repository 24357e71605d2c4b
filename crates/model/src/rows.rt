// Reading the rows: each is read over, and its first word is noted.
ghost use Rattle.std.specs.Prelude.{◌≡◌, ◌≤◌, length, drop};
ghost use Rattle.std.proofs.lemmas.List.Edits.{sets};
ghost use Rattle.meaning.specs.Read.{times};
ghost use Rattle.meaning.specs.Model.{row};
ghost use Rattle.reading.specs.Told.{Skims};
ghost use Rattle.model.specs.Starts.{row_starts};

use one_row;
use reading::counts::Count;
use reading::refusals::Refusal;

// As many rows as the table of starts is long.
pub fn rows(s: &[i32], from: usize, v: Count, starts: &mut [u32]) -> Result<usize, Refusal>
    requires { (length s.now ≤ 65536) × (from ≤ length s.now) }
    ensures read { Skims (times (length starts.old) (row v.n)) s.now from result }
    ensures noted { starts.new ≡ sets starts.old 0 (row_starts v.n (length starts.old) from (drop from s.now)) }
{
    let mut at = from;
    for start in starts.iter_mut() {
        *start = at as u32;
        at = one_row::row(s, at, v)?;
    }
    Ok(at)
}
