// A set of numbers in a lent table of 64-bit words, a bit for each number: there is no heap for a set of std's.
#![tactic(auto)]

ghost use Rattle.std.specs.Prelude.{◌≡◌, ◌*◌, ◌<◌, length};
ghost use Rattle.marks.specs.Marks.{marked, added};

// Whether the set has n.
pub fn holds(set: &[u64], n: usize) -> bool
    requires { n < 64 * length set.now }
    ensures { result ≡ marked set.now n }
{
    (set[n / 64] >> (n % 64)) % 2 == 1
}

// The set has n from now on.
pub fn add(n: usize, set: &mut [u64])
    requires { n < 64 * length set.old }
    ensures { set.new ≡ added set.old n }
{
    set[n / 64] |= 1 << (n % 64);
}
