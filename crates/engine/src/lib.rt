// An engine that calls the C interface, as a proof: what it may do with the answers, in its own words. It asks nothing of the tables.
#![tactic(auto)]

ghost use Rattle.std.specs.Prelude.{◌≡◌, true};
ghost use Rattle.engine.specs.Gate.{NoneLeft, NoneLeftAgain, BeginsThere, BeginsThereAgain};

use dimpsyholt;
use gate;

// May the stage open, on this log and this model?
pub fn may_open(model: &[i32], log: &[i32], places: &mut [u32]) -> bool
    ensures { result ≡ true → NoneLeft model.now log.now places.old places.new }
{
    let a = dimpsyholt::dimpsyholt_check(model, log, places);
    gate::opens(a)
}

// May it open after the plan was amended? The log is held against the old model once more, with places of its own.
pub fn may_open_again(
    old: &[i32],
    new: &[i32],
    log: &[i32],
    before: &mut [u32],
    places: &mut [u32],
) -> bool
    ensures { result ≡ true → NoneLeftAgain old.now new.now log.now places.old places.new }
{
    let was = dimpsyholt::dimpsyholt_check(old, log, before);
    let again = dimpsyholt::dimpsyholt_recheck(old, new, log, places);
    gate::opens_again(was, again)
}

// Were the tables refused before any step was read? Then the places are as they were lent.
pub fn refused_unread(model: &[i32], log: &[i32], places: &mut [u32]) -> bool
    ensures { result ≡ true → places.new ≡ places.old }
{
    let a = dimpsyholt::dimpsyholt_check(model, log, places);
    gate::is_early(a)
}

// Where does step k of a refused log begin?
pub fn step_start(model: &[i32], log: &[i32], k: usize, places: &mut [u32]) -> Option<u32>
    ensures { BeginsThere model.now log.now k result }
{
    let a = dimpsyholt::dimpsyholt_check(model, log, &mut *places);
    gate::place_of(a, k, places)
}

// The same of a recheck.
pub fn step_start_again(
    old: &[i32],
    new: &[i32],
    log: &[i32],
    k: usize,
    places: &mut [u32],
) -> Option<u32>
    ensures { BeginsThereAgain old.now new.now log.now k result }
{
    let a = dimpsyholt::dimpsyholt_recheck(old, new, log, &mut *places);
    gate::place_of(a, k, places)
}
