// What the rules of all kinds lean on: a box that is ready to be judged, and, as definitions and facts alone, the parts of a row taken one at a time.
#![tactic(auto)]

ghost use Rattle.rule_facts.specs.Ready.{Ready, ready_prop};

use domain::Cells;

// A box that is judged: no set is empty, and its values are those of declared bounds.
#[derive(Clone, Copy)]
pub struct ReadyCells<'a> {
    pub cells: Cells<'a>,
    pub ghost ready: { Ready cells.words.now } by { ready_prop cells.words.now },
}
