// The circuit row: a set of positions, neither empty nor all, that no value left of its members leaves.
// Position i leads to position j where a value left to the i-th variable is j. There is such a set exactly where position 0 does not reach all positions, or some position does not reach position 0.
// A set of positions is a mask with a bit for each.
#![tactic(auto)]

ghost use Rattle.std.specs.Prelude.{◌≡◌, ◌+◌, ◌-◌, ◌<◌, ◌≤◌, ◌^◌, pos, length};
ghost use Rattle.std.specs.Int.Bits.{bit_or, bit_xor};
ghost use Rattle.std.specs.Int.Count.{count_trailing_zeros};
ghost use Rattle.meaning.specs.Limits.{most_parts};
ghost use Rattle.words.specs.Int.{eq_z};
ghost use Rattle.words.specs.Lists.{member};
ghost use Rattle.meaning.specs.Rule.{trapped};
ghost use Rattle.domain.specs.Box.{variables, values};
ghost use Rattle.reading.specs.At.{nat_at, each_at};
ghost use Rattle.model.specs.Rows.{Counted, VariablesIn};
ghost use Rattle.circuit.specs.Mask.{Mask};
ghost use Rattle.circuit.specs.Reach.{names, leads, Links, Swept, Reached};
ghost use Rattle.circuit.specs.Trap.{flip, TellsSplit};

use domain::{Base, Cells};
use reading::limits::MOST_PARTS;
use reading::{number_at, variable_at};
use words::VarNo;

fn with(set: u32, k: usize) -> u32
    requires { k < 32 }
    ensures { result ≡ bit_or set (2 ^ k) }
{
    set | (1 << k)
}

// The set of all positions below n.
fn all_below(n: usize) -> u32
    requires { n ≤ most_parts }
    ensures { result ≡ 2 ^ n - 1 }
{
    (1 << n) - 1
}

// The positions below n that a value left to x names.
fn targets(cells: Cells<'_>, x: VarNo, n: usize) -> u32
    requires { (x.0 < variables cells.words.now) × (n ≤ most_parts) }
    ensures { Mask n (λ j. member eq_z (pos j) (values cells.entry.words.now x.0)) result }
{
    let all = cells.mask(x, Base { first: 0 });
    (all & (all_below(n) as u64)) as u32
}

// Where each of the n positions leads, whose variables stand from p on.
fn links_of(model: &[i32], p: usize, n: usize, cells: Cells<'_>) -> [u32; MOST_PARTS]
    requires { VariablesIn (variables cells.words.now) model.now p n × (n ≤ most_parts) }
    ensures { Links (names (values cells.entry.words.now) (each_at nat_at 1 n model.now p)) n result }
{
    let mut table = [0u32; MOST_PARTS];
    for i in 0..n {
        let x = variable_at(model, p + i);
        table[i] = targets(cells, x, n);
    }
    table
}

// The first position that one of two sets has and the other has not.
fn first_apart(a: u32, b: u32) -> usize
    ensures { result ≡ count_trailing_zeros 32 (bit_xor a b) }
{
    u32::trailing_zeros(a ^ b) as usize
}

// Where each of a row's positions leads, as a mask.
#[derive(Clone, Copy)]
struct Leads<'a> {
    masks: &'a [u32],
    ghost some: { 0 < length masks.now },
    ghost few: { length masks.now ≤ most_parts },
    ghost linked: { Links (leads masks.now) (length masks.now) masks.now },
}

impl Leads<'_> {
    // The positions that position 0 reaches. What was looked at is done; what that leads to is seen.
    fn reach(&self) -> u32
        ensures { Reached (leads self.now.masks.now) (length self.now.masks.now) result }
    {
        let mut seen: u32 = 1;
        let mut done: u32 = 0;
        while done != seen {
            let k = first_apart(seen, done);
            seen |= self.masks[k];
            done = with(done, k);
        }
        seen
    }

    // The set with the positions that lead into it.
    fn sweep_back(&self, set: u32) -> u32
        requires { set < 2 ^ length self.now.masks.now }
        ensures { Swept (flip (leads self.now.masks.now)) (length self.now.masks.now) set (length self.now.masks.now) result }
    {
        let mut more = set;
        for (i, &row) in self.masks.iter().enumerate() {
            let joined = 0 < row & more;
            if joined {
                more = with(more, i);
            }
        }
        more
    }

    // The positions that reach position 0: what position 0 reaches by the links the other way round.
    fn reach_back(&self) -> u32
        ensures { Reached (flip (leads self.now.masks.now)) (length self.now.masks.now) result }
    {
        let mut set: u32 = 1;
        let mut more = self.sweep_back(set);
        while set < more {
            set = more;
            more = self.sweep_back(set);
        }
        set
    }

    // Whether some set of positions, neither empty nor all, has no link that leaves it.
    fn splits(&self) -> bool
        ensures { TellsSplit (leads self.now.masks.now) (length self.now.masks.now) result }
    {
        let all = all_below(self.masks.len());
        if self.reach() < all {
            return true;
        }
        self.reach_back() < all
    }
}

// Whether a circuit row conflicts with the box. The row's words after its kind begin at p: how many variables, the variables.
pub fn conflicts(model: &[i32], p: usize, cells: Cells<'_>) -> bool
    requires { Counted 2 model.now p × VariablesIn (variables cells.words.now) model.now (p + 1) (nat_at model.now p) }
    ensures { result ≡ trapped (values cells.entry.words.now) (each_at nat_at 1 (nat_at model.now p) model.now (p + 1)) }
{
    let n = number_at(model, p);
    let links = links_of(model, p + 1, n, cells);
    Leads { masks: &links[..n] }.splits()
}
