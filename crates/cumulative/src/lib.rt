// The cumulative row: some activity finds no room at any start left to it, beside the sure parts of the others.
//
// Why the search leaps. A start of an activity is blocked where it covers a time that is too full: its usage and what the others
// surely use then exceed the capacity. What the others surely use falls only where one of their sure parts ends. So a time that is
// too full is followed by such times alone, up to the next end. Two leaps follow from a start s that is tried.
// - The last time that s covers is too full. A later start before the next end either covers that time too, or begins at a time
//   that is too full. The next start worth a try is that end.
// - The last time is not, but some time before it is. The latest such time comes just before an end e. Each start from s up to e
//   covers it. The next start worth a try is e.
// Where neither is so, s is free. Each leap but the last goes to an end of a sure part: there are hardly more leaps than activities,
// however long they last.
#![tactic(auto)]

ghost use Rattle.std.specs.Prelude.{◌≡◌, ◌||◌, [], ◌+◌, ◌<◌, ◌≤◌, pos, ◌+ℤ◌, length, get_or, ◌≤ℤ◌};
ghost use Rattle.meaning.specs.Limits.{most_usage};
ghost use Rattle.meaning.specs.Rule.{overloaded, squeezed};
ghost use Rattle.meaning.specs.Below.{some_below};
ghost use Rattle.reading.specs.At.{nat_at, each_at};
ghost use Rattle.model.specs.Rows.{activity_at, Counted, ActivitiesIn};
ghost use Rattle.domain.specs.Box.{variables, values};
ghost use Rattle.sure_parts.specs.Table.{from_of, most_load, Sized, Loads};
ghost use Rattle.cumulative.specs.Steps.{over_by, nearer, next_end, later, last_bad, leap, Capacity, Start};
ghost use Rattle.cumulative.specs.Top.{top_of};
ghost use Rattle.cumulative.specs.Row.{squeezes, Prepared};

use domain::Cells;
use reading::limits::MOST_PARTS;
use reading::{number_at, variable_at};
use rule_facts::ReadyCells;
use sure_parts::Part;

// What the search for a start of an activity looks at: the sure parts of the row's activities, what is surely in use just before the end
// of each, and the capacity. What is in use stands beside the parts and not in them, since each is made from all parts.
#[derive(Clone, Copy)]
struct Row<'a> {
    parts: &'a [Part],
    peaks: &'a [i32],
    capacity: i32,
    ghost sized: { Sized parts.now },
    ghost loads: { Loads peaks.now },
    ghost long: { length peaks.now ≡ length parts.now },
    ghost limited: { Capacity capacity },
}

impl Row<'_> {
    // Whether activity i and the sure parts of the others use more than the capacity at t, a time when all surely use `load`.
    fn over(&self, i: usize, t: i32, load: i32) -> bool
        requires { (i < length self.now.parts.now) × (pos 0 ≤ℤ load) × (load ≤ℤ pos most_load) }
        ensures { result ≡ over_by self.now.parts.now self.now.capacity i t load }
    {
        let usage = self.parts[i].usage;
        let own = sure_parts::used_at(self.parts, i, t);
        self.capacity + own < usage + load
    }

    // The end of activity k's sure part, where it comes after t and before u; else u. Activity i does not count.
    fn nearer_end(&self, i: usize, t: i32, k: usize, u: i32) -> i32
        requires { k < length self.now.parts.now }
        ensures { result ≡ nearer self.now.parts.now i t k u }
    {
        let end = self.parts[k].until;
        if k != i && t < end && end < u {
            return end;
        }
        u
    }

    // The first end of another activity's sure part after t; one past the largest start left to i, where none comes before that.
    fn next_end(&self, i: usize, t: i32) -> i32
        requires { i < length self.now.parts.now }
        ensures { result ≡ next_end self.now.parts.now i t (from_of self.now.parts.now i +ℤ pos 1) (length self.now.parts.now) }
    {
        let mut u = self.parts[i].from + 1;
        for k in 0..self.parts.len() {
            u = self.nearer_end(i, t, k, u);
        }
        u
    }

    // The end of activity k's sure part, where it comes after e, not after `stop`, and activity i finds no room just before it; else e.
    fn later_end(&self, i: usize, stop: i32, k: usize, e: i32) -> i32
        requires { (k < length self.now.parts.now) × (i < length self.now.parts.now) }
        ensures { result ≡ later self.now.parts.now self.now.peaks.now self.now.capacity i stop k e }
    {
        let until = self.parts[k].until;
        let peak = self.peaks[k];
        if e < until && until <= stop && self.over(i, until - 1, peak) {
            return until;
        }
        e
    }

    // The last end of a sure part after s and not after `stop` just before which activity i finds no room; s where there is none.
    fn last_bad(&self, i: usize, s: i32, stop: i32) -> i32
        requires { i < length self.now.parts.now }
        ensures { result ≡ last_bad self.now.parts.now self.now.peaks.now self.now.capacity i s stop (length self.now.parts.now) }
    {
        let mut e = s;
        for k in 0..self.parts.len() {
            e = self.later_end(i, stop, k, e);
        }
        e
    }

    // Where the search for a start of activity i, which lasts so long, goes on from the start s: at s itself where s is not blocked.
    fn leap_from(&self, i: usize, s: i32, lasts: i32) -> i32
        requires { (i < length self.now.parts.now) × Start s lasts }
        ensures { result ≡ leap self.now.parts.now self.now.peaks.now (length self.now.parts.now) self.now.capacity i s lasts }
    {
        let stop = s + lasts;
        let last = stop - 1;
        let load = sure_parts::sure_at(self.parts, last);
        if self.over(i, last, load) {
            return self.next_end(i, last);
        }
        self.last_bad(i, s, stop)
    }

    // Whether every start left to activity i is blocked. The search goes on from a start that is blocked at the next start left past its
    // leap.
    fn squeezed_at(&self, model: &[i32], p: usize, cells: Cells<'_>, i: usize) -> bool
        requires { (i < nat_at model.now p) × Prepared cells.words.now model.now p self.now.parts.now self.now.peaks.now × (self.now.capacity ≡ get_or model.now (p + 1) (pos 0)) }
        ensures { result ≡ squeezes (values cells.entry.words.now) model.now p i }
    {
        let at = p + 2 + i * 3;
        let x = variable_at(model, at);
        let lasts = model[at + 1];
        let last = self.parts[i].from;
        let mut s = self.parts[i].until - lasts;
        loop {
            let u = self.leap_from(i, s, lasts);
            if u <= s {
                return false;
            }
            if last < u {
                return true;
            }
            let Some(v) = cells.next_from(x, u) else {
                return true;
            };
            s = v;
        }
    }

    // The most that is surely in use at any time.
    fn highest(&self) -> i32
        ensures { result ≡ top_of self.now.peaks.now (length self.now.peaks.now) }
    {
        let mut top: i32 = 0;
        for peak in self.peaks {
            top = words::larger(top, *peak);
        }
        top
    }

    // Whether every start left to some activity is blocked. More than the capacity surely in use blocks one, and an activity that fits
    // beside the most that is surely in use is not blocked.
    fn some_squeezed(&self, model: &[i32], p: usize, cells: Cells<'_>) -> bool
        requires { Prepared cells.words.now model.now p self.now.parts.now self.now.peaks.now × (self.now.capacity ≡ get_or model.now (p + 1) (pos 0)) }
        ensures { result ≡ some_below (squeezes (values cells.entry.words.now) model.now p) (nat_at model.now p) }
    {
        let capacity = self.capacity;
        let top = self.highest();
        if capacity < top {
            return true;
        }
        let room = capacity - top;
        for (i, part) in self.parts.iter().enumerate() {
            if room < part.usage && self.squeezed_at(model, p, cells, i) {
                return true;
            }
        }
        false
    }
}

// Whether a cumulative row conflicts with the box. The row's words after its kind begin at p: how many activities, the capacity, the
// activities (start variable, duration, usage).
pub fn conflicts(model: &[i32], p: usize, ready: ReadyCells<'_>) -> bool
    requires { Counted 1 model.now p × (p + 1 < length model.now) × ((pos 0 ≤ℤ get_or model.now (p + 1) (pos 0)) × (get_or model.now (p + 1) (pos 0) ≤ℤ pos most_usage)) × ActivitiesIn (variables ready.cells.words.now) model.now (p + 2) (nat_at model.now p) }
    ensures { result ≡ (overloaded (values ready.entry.cells.words.now) (nat_at model.now (p + 1)) (each_at activity_at 3 (nat_at model.now p) model.now (p + 2)) || squeezed (values ready.entry.cells.words.now) (nat_at model.now (p + 1)) [] (each_at activity_at 3 (nat_at model.now p) model.now (p + 2))) }
{
    let n = number_at(model, p);
    let mut part_room = [Part::NONE; MOST_PARTS];
    let mut peak_room = [0i32; MOST_PARTS];
    let parts = &mut part_room[..n];
    let peaks = &mut peak_room[..n];
    sure_parts::fill_parts(model, p + 2, ready, &mut *parts);
    sure_parts::fill_peaks(&*parts, &mut *peaks);
    let row = Row {
        parts: &*parts,
        peaks: &*peaks,
        capacity: model[p + 1],
    };
    row.some_squeezed(model, p, ready.cells)
}
