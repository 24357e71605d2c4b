// What the domain arithmetic leaves is what the meaning says is left: definitions and laws alone.
#![tactic(auto)]
