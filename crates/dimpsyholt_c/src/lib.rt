// The C interface: the check and the recheck over lent tables, whose answer is nine numbers by value.
#![tactic(auto)]

ghost use Rattle.std.specs.Prelude.{◌≡◌, length};
ghost use Rattle.meaning.specs.Check as says;
ghost use Rattle.dimpsyholt.specs.Fields.{CheckTold, RecheckTold};

use answer::DimpsyholtAnswer;
use dimpsyholt;

// The version of this interface, as include/dimpsyholt.h has it: two digits each for minor and patch.
#[unsafe(no_mangle)]
pub extern "C" fn dimpsyholt_version() -> u32
    ensures { result ≡ 10000 }
{
    dimpsyholt::dimpsyholt_version()
}

// The log held against the model.
#[unsafe(no_mangle)]
pub extern "C" fn dimpsyholt_check(
    model: &[i32],
    log: &[i32],
    places: &mut [u32],
) -> DimpsyholtAnswer
    ensures { CheckTold result places.old places.new (says.check model.now log.now (length places.old)) }
{
    dimpsyholt::dimpsyholt_check(model, log, places)
}

// The log held against the new model, as far as it differs from the old one.
#[unsafe(no_mangle)]
pub extern "C" fn dimpsyholt_recheck(
    old: &[i32],
    new: &[i32],
    log: &[i32],
    places: &mut [u32],
) -> DimpsyholtAnswer
    ensures { RecheckTold result places.old places.new (says.recheck old.now new.now log.now (length places.old)) }
{
    dimpsyholt::dimpsyholt_recheck(old, new, log, places)
}
