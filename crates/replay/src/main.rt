// Reads a trace on standard input, a call a line, carries each call out on one card's tables, and writes what each line answers.
#![tactic(auto, using(text::proofs::Putting::put_then), unfolding(text::specs::Out::put_all))]

mod answer;
mod desk;
mod lists;
mod memory;
mod moving;
mod place;

use desk::Desk;
use moving::serve;

// The bytes that one read may bring, and those that may wait to be written.
const LARGE: usize = 65536;

fn main(rt: HostRuntime) {
    let mut desk = Desk::new();
    let mut input = [0; LARGE];
    serve(&rt, &mut desk, &mut input);
}
