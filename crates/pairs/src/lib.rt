// Pairs of words: whether one is among them, and a window of what stands second in those that begin alike.
#![tactic(auto)]

ghost use Rattle.std.specs.Prelude.{◌≡◌};
ghost use Rattle.windows.specs.Window.{Window};
ghost use Rattle.pairs.specs.Pairs.{is_pair, among};

use windows::Base;

fn is_pair(pair: &[i32; 2], name: i32, value: i32) -> bool
    ensures { result ≡ is_pair name value pair.now }
{
    words::same(pair[0], name) & words::same(pair[1], value)
}

// Whether one of eight is: all are looked at, without a branch on what they are.
fn in_eight(block: &[[i32; 2]; 8], name: i32, value: i32) -> bool
    ensures { result ≡ among block.now name value }
{
    let mut found = false;
    for pair in block {
        found |= is_pair(pair, name, value);
    }
    found
}

// Whether one of the pairs is: they are looked at in blocks of eight, then the rest one by one.
pub fn has(pairs: &[[i32; 2]], name: i32, value: i32) -> bool
    ensures { result ≡ among pairs.now name value }
{
    let (blocks, rest) = pairs.as_chunks::<8>();
    blocks.iter().any(|block| in_eight(block, name, value))
        || rest.iter().any(|pair| is_pair(pair, name, value))
}

// Of 64 numbers from `base` on, those that stand second in a pair that begins with `name`.
pub fn mask(pairs: &[[i32; 2]], name: i32, base: Base) -> u64
    ensures { Window (among pairs.now name) base.first result }
{
    let mut found = 0;
    for pair in pairs {
        found |= base.taken_mask(pair[0], pair[1], name);
    }
    found
}
