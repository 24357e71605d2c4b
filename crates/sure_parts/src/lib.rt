// The sure parts of a cumulative row's activities, in a table: what is surely in use at a time, whatever starts are taken.
#![tactic(auto)]

ghost use Rattle.std.specs.Prelude.{◌≡◌, ◌<◌, ◌≤◌, length};
ghost use Rattle.meaning.specs.Limits.{most_parts};
ghost use Rattle.model.specs.Rows.{activity_at, ActivitiesIn};
ghost use Rattle.domain.specs.Box.{variables, values};
ghost use Rattle.sure_parts.specs.Table.{used_by, used_at, load, Sized};
ghost use Rattle.sure_parts.specs.Parts.{part_of};
ghost use Rattle.sure_parts.specs.Fill.{Peaked, Filled, ActivityIn};

use reading::variable_at;
use rule_facts::ReadyCells;

// The sure part of an activity, and its usage: it surely runs from the largest start left to it up to, not including, the end of a run from the least.
#[derive(Clone, Copy)]
pub struct Part {
    pub from: i32,
    pub until: i32,
    pub usage: i32,
}

impl Part {
    // No part: nothing is in use at any time.
    pub const NONE: Part = Part {
        from: 0,
        until: 0,
        usage: 0,
    };

    // What the activity surely uses at t.
    fn used_at(self, t: i32) -> i32
        ensures { result ≡ used_by self t }
    {
        if self.from <= t && t < self.until {
            return self.usage;
        }
        0
    }
}

// What activity k surely uses at t.
pub fn used_at(parts: &[Part], k: usize, t: i32) -> i32
    requires { k < length parts.now }
    ensures { result ≡ used_at parts.now t k }
{
    parts[k].used_at(t)
}

// What all of them surely use at t.
pub fn sure_at(parts: &[Part], t: i32) -> i32
    requires { Sized parts.now }
    ensures { result ≡ load parts.now t (length parts.now) }
{
    let mut sum: i32 = 0;
    for part in parts {
        sum += part.used_at(t);
    }
    sum
}

// The sure part of the activity at `at` of the model.
fn part_of(model: &[i32], at: usize, ready: ReadyCells<'_>) -> Part
    requires { ActivityIn (variables ready.cells.words.now) model.now at }
    ensures { result ≡ part_of (values ready.entry.cells.words.now) (activity_at model.now at) }
{
    let x = variable_at(model, at);
    let lasts = model[at + 1];
    let usage = model[at + 2];
    let from = ready.cells.largest(x);
    let until = ready.cells.least(x) + lasts;
    Part { from, until, usage }
}

// Stores the sure parts of as many activities as there are places. The activities begin at q of the model.
pub fn fill_parts(model: &[i32], q: usize, ready: ReadyCells<'_>, parts: &mut [Part])
    requires { (length parts.old ≤ most_parts) × ActivitiesIn (variables ready.cells.words.now) model.now q (length parts.old) }
    ensures { Filled (values ready.entry.cells.words.now) model.now q (length parts.old) parts.new }
{
    for (k, part) in parts.iter_mut().enumerate() {
        *part = part_of(model, q + k * 3, ready);
    }
}

// Stores what is surely in use just before the end of each sure part.
pub fn fill_peaks(parts: &[Part], peaks: &mut [i32])
    requires { Sized parts.now × (length peaks.old ≡ length parts.now) }
    ensures { Peaked parts.now (length parts.now) peaks.new }
{
    for (k, part) in parts.iter().enumerate() {
        peaks[k] = sure_at(parts, part.until - 1);
    }
}
