// Shows a day at the counter, for a reader who has never heard of the unit: each line says in words what is asked of it and
// what it answers. The prices, states and refusals are those that `unit::serve` and `price_batch` gave.
#![tactic(auto)]

mod counter;
mod day;
mod output;
mod pricing;
mod print;

use crate::day::day;
use crate::output::StandardOutput;

fn main() {
    // README promises status 0 whether or not the output could be written.
    let _ = day(&StandardOutput);
}
