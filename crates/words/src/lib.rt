// Signed words, tables of them, and the three kinds of number.
#![tactic(auto)]

ghost use Rattle.std.specs.Prelude.{◌≡◌, ◌<◌, pos, ◌*ℤ◌, length, get_or, set, ◌≤ℤ◌};
ghost use Rattle.std.specs.Int.Signed.{le_z};
ghost use Rattle.words.specs.Int.{eq_z};
ghost use Rattle.words.specs.Words.{min_z, max_z, in_z};

// Fact numbers, row numbers and variable numbers are three kinds, which document 01 keeps apart.
#[derive(Clone, Copy, PartialEq, Eq, PartialOrd, Ord, Debug)]
pub struct FactNo(pub usize);

#[derive(Clone, Copy, PartialEq, Eq, PartialOrd, Ord, Debug)]
pub struct RowNo(pub usize);

#[derive(Clone, Copy, PartialEq, Eq, PartialOrd, Ord, Debug)]
pub struct VarNo(pub usize);

// Comparisons and conversions stay functions: each says in the words of specs/Words what std says in its own, and has an edit that holds it.

pub fn at_most(a: i32, b: i32) -> bool
    ensures { result ≡ le_z a b }
{
    a <= b
}

pub fn same(a: i32, b: i32) -> bool
    ensures { result ≡ eq_z a b }
{
    a == b
}

pub fn smaller(a: i32, b: i32) -> i32
    ensures { result ≡ min_z a b }
{
    a.min(b)
}

pub fn larger(a: i32, b: i32) -> i32
    ensures { result ≡ max_z a b }
{
    a.max(b)
}

pub fn in_range(x: i32, lo: i32, hi: i32) -> bool
    ensures { result ≡ in_z lo hi x }
{
    (lo..=hi).contains(&x)
}

// The number that a word is, where it is not negative.
pub fn index(x: i32) -> usize
    requires { pos 0 ≤ℤ x }
    ensures { pos result ≡ x }
{
    x as usize
}

pub fn product(a: i32, b: i32) -> i64
    ensures { result ≡ a *ℤ b }
{
    (a as i64) * (b as i64)
}

pub fn word(s: &[i32], i: usize) -> i32
    requires { i < length s.now }
    ensures { result ≡ get_or s.now i (pos 0) }
{
    s[i]
}

pub fn put_place(k: usize, start: u32, places: &mut [u32])
    requires { k < length places.old }
    ensures { places.new ≡ set places.old k start }
{
    places[k] = start;
}
