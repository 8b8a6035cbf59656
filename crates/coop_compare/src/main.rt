// Drives the proved cooperative bucket and the second implementation with the same calls, and compares every output, the state and every word of the
// versions. Standard input is a script; printed are its rows, what came out of each of its calls, then counts by kind of output of random schedules, so
// that a reader sees that each line, answer and refusal was met.
#![tactic(auto)]

mod both;
mod draw;
mod flat;
mod report;
mod script;
mod vars;

ghost use Rattle.std.specs.Prelude.{◌≡◌, length};

use coop_reference::slices::clear;
use coop_reference::words::{VERSIONS, WHAT};

// The `ensures` gives the length, which lending a part needs.
fn memory() -> [u32; 284000]
    ensures { 284000 ≡ length result }
{
    [1; 284000]
}

// A byte is printed as it is read, but the end of a row after what came out of it.
fn run(text: &[u8], m: &mut [u32]) {
    for b in text {
        script::take(m, *b);
        io::write_all(1, &[*b]);
    }
}

// The script is what standard input has, below 65,536 bytes.
fn script_in(space: &[u8], n: usize) -> &[u8] {
    if n <= space.len() {
        return &space[0..n];
    }
    &space[..0]
}

fn main() {
    let mut space = io::large_buffer();
    let n = io::read_full(0, &mut space);
    let mut m = memory();
    clear(&mut m, WHAT, VERSIONS);
    clear(&mut m, vars::LETTER, 284000);
    run(script_in(&space, n), &mut m);
    report::print(&m);
}
