// Drives the proved set and the second implementation with the same calls, and compares every output, the state and every word of
// both pools and of what is listed and shown. Standard input is a script; printed are its text, what came out of each of its calls, then counts by
// kind of output of random schedules, so that a reader sees that each line, answer and refusal was met.
#![tactic(auto)]

mod both;
mod draw;
mod first;
mod flat;
mod report;
mod script;
mod vars;

use reference_words::words::{END, Memory, NOWHERE, WHAT, copy, get};

fn run(text: &[u8], m: &mut Memory, ns: &mut [u32; 2210], bs: &mut [u32; 67650]) {
    for _ in 0..10000000 {
        script::next(text, m);
        if 10 < get(m, WHAT) {
            return;
        }
        both::call(m, ns, bs);
    }
}

fn say_if_cut(n: usize) {
    if 65536 <= n {
        io::write_all(1, b"the script is cut: it has 65536 bytes or more\n");
    }
}

// The script is what standard input has, below 65,536 bytes.
fn main() {
    let mut space = io::large_buffer();
    let n = io::read_full(0, &mut space);
    say_if_cut(n);
    // 34 x 65 words, and 66 x 1,025 words, for the pools of the proved set.
    let mut ns = [7; 2210];
    let mut bs = [7; 67650];
    let mut m = [1; 150060];
    copy(&mut m, NOWHERE, END, vars::KEPT - END);
    run(&space[..n], &mut m, &mut ns, &mut bs);
    report::print(&m);
}
