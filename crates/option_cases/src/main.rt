// Runs the rules' cases of refused options through the public functions and the exported ones, and prints each on a line. The file stdout holds
// what the rules say.
#![tactic(auto)]

mod places; // places.rt: at which byte an option is refused
mod protocols; // protocols.rt: the strict setting
mod readings; // readings.rt: one option by every call that reads it

fn main(rt: HostRuntime) {
    places::all(&rt);
    protocols::all(&rt);
}
