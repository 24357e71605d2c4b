// A conclusion: the fact that it cites has no premises and says what is concluded.
ghost use Rattle.std.specs.Prelude.{◌≡◌, [], map, ◌<◌, length, get_or};
ghost use Rattle.std.proofs.Math.Option.{some};
ghost use Rattle.meaning.specs.Judge.{fits24, says_false, gives_at_least, says_at_least};
ghost use Rattle.meaning.specs.Check.{fact_at};
ghost use Rattle.steps.specs.Facts.{made_fact, fact_of, atom_at, AtomIn, FactIn, MadeBegins, MadeFrom};
ghost use Rattle.judging.specs.Told.{told_verdict};
ghost use Rattle.judging.specs.Cited.{Some};

use crate::cited;
use domain::Relation;
use reading;
use reading::refusals::{Reason, Refusal};
use steps::FactPlace;
use words;
use words::{FactNo, VarNo};

fn verdict(fits: bool) -> Result<(), Refusal>
    ensures { told_verdict result ≡ fits24 fits }
{
    if fits {
        Ok(())
    } else {
        Err(Reason::FactDoesNotFit.at(0))
    }
}

// Does the fact say "false" without any premise?
fn says_false(fact: FactPlace, log: &[i32]) -> bool
    ensures { result ≡ says_false (fact_of log.now fact) }
{
    fact.premises.many == 0 && fact.consequent.many == 0
}

// Does the atom at a position say that x is at least some number not below `value`?
fn is_at_least(log: &[i32], at: usize, x: VarNo, value: i32) -> bool
    requires { Some (λ v. AtomIn v log.now at) }
    ensures { result ≡ gives_at_least x.0 value [] (some (atom_at log.now at)) }
{
    Relation::from(log[at + 1]) == Relation::AtLeast
        && reading::variable_at(log, at) == x
        && words::at_most(value, log[at + 2])
}

// Does it say, without any premise, that x is at least some number not below `value`?
fn says_at_least(fact: FactPlace, log: &[i32], x: VarNo, value: i32) -> bool
    requires { Some (λ v. FactIn v log.now fact) }
    ensures { result ≡ says_at_least x.0 value (fact_of log.now fact) }
{
    fact.premises.many == 0
        && fact.consequent.many == 1
        && is_at_least(log, fact.consequent.from, x, value)
}

pub fn no_assignment(log: &[i32], places: &[u32], n: FactNo) -> Result<(), Refusal>
    requires { (n.0 < length places.now) × MadeBegins log.now (get_or places.now n.0 0) }
    ensures { told_verdict result ≡ fits24 (says_false (fact_at (map (made_fact log.now) places.now) n.0)) }
{
    let f = cited(log, places, n);
    verdict(says_false(f, log))
}

pub fn never_below(
    log: &[i32],
    places: &[u32],
    x: VarNo,
    value: i32,
    n: FactNo,
) -> Result<(), Refusal>
    requires { (n.0 < length places.now) × Some (λ v. MadeFrom v log.now (get_or places.now n.0 0)) }
    ensures { told_verdict result ≡ fits24 (says_at_least x.0 value (fact_at (map (made_fact log.now) places.now) n.0)) }
{
    let f = cited(log, places, n);
    verdict(says_at_least(f, log, x, value))
}
