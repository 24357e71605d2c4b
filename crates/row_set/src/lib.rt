// A set of rows as one number, with one bit for each row, as document 01 asks for it.
#![tactic(auto)]

ghost use Rattle.std.specs.Prelude.{◌≡◌, ◌<◌};
ghost use Rattle.std.specs.Int.Count.{ones};
ghost use Rattle.row_set.specs.Bits.{bit_at};

use words;
use words::RowNo;

// How many rows are in the set.
pub fn size_of_set(set: u64) -> u32
    ensures { result ≡ ones set }
{
    u64::count_ones(set)
}

// Is row r in the set?
pub fn is_changed(set: u64, r: RowNo) -> bool
    requires { r.0 < 64 }
    ensures { result ≡ bit_at set r.0 }
{
    let k = r.0;
    (set >> k) % 2 == 1
}
