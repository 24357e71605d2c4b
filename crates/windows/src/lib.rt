// Windows: 64 whole numbers from `base` on, a bit for each.
#![tactic(auto)]

ghost use Rattle.std.specs.Prelude.{◌≡◌, ◌&&◌, ◌+◌, ◌-◌, ◌*◌, ◌^◌, ◌≤◌, ◌<◌, pos, ◌+ℤ◌, ◌≤ℤ◌};
ghost use Rattle.words.specs.Int.{eq_z};
ghost use Rattle.words.specs.Words.{in_z};
ghost use Rattle.windows.specs.Window.{Window, zeros};

// The n lowest bits.
fn ones(n: usize) -> u64
    requires { (0 < n) × (n ≤ 64) }
    ensures { result ≡ 2 ^ n - 1 }
{
    u64::MAX >> (64 - n)
}

// The bits from one place to another.
fn stretch(from: usize, to: usize) -> u64
    requires { (from ≤ to) × (to < 64) }
    ensures { result ≡ (2 ^ (to + 1 - from) - 1) * 2 ^ from }
{
    ones(to + 1 - from) << from
}

// The place of a value.
fn offset(v: i32, base: i32) -> usize
    requires { (base ≤ℤ v) × (v ≤ℤ (base +ℤ pos 63)) }
    ensures { (base +ℤ pos result ≡ v) × (result < 64) }
{
    words::index(v - base)
}

// Where a window begins. The last of its numbers is a word too.
#[derive(Clone, Copy)]
pub struct Base {
    pub first: i32,
    pub ghost early: { first ≤ℤ pos 2147483584 },
}

impl Base {
    // The values from one to another.
    pub fn range_mask(self, low: i32, high: i32) -> u64
        ensures { Window (in_z low high) self.first result }
    {
        let a = words::larger(low, self.first);
        let b = words::smaller(high, self.first + 63);
        if b < a {
            return 0;
        }
        stretch(offset(a, self.first), offset(b, self.first))
    }

    fn value_mask(self, v: i32) -> u64
        ensures { Window (eq_z v) self.first result }
    {
        if words::in_range(v, self.first, self.first + 63) {
            1 << offset(v, self.first)
        } else {
            0
        }
    }

    // What one hole takes from the variable `name`.
    pub fn taken_mask(self, variable: i32, taken: i32, name: i32) -> u64
        ensures { Window (λ v. eq_z variable name && eq_z taken v) self.first result }
    {
        if variable == name {
            self.value_mask(taken)
        } else {
            0
        }
    }
}

// How many numbers of a window come before the first that has its bit, seen from its low end (up) or from its high end.
pub fn zeros(up: bool, m: u64) -> i32
    ensures { result ≡ pos (zeros up m) }
{
    let n = if up {
        m.trailing_zeros()
    } else {
        m.leading_zeros()
    };
    n as i32
}
