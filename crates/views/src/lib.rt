// A sound store seen as its parts: the map in the table, the steps, the slots; and the steps that no read needs any more taken
// away.
#![tactic(auto)]

pub mod trim;
