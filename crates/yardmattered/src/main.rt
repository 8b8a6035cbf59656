// yardmattered: over standard input a session; over standard output the step that mattered (mattered_text::program).
#![tactic(auto)]

use stdio::source::Reader;

fn main(rt: HostRuntime) {
    let mut from = Reader::new(rt.stdin());
    mattered_text::program::yardmattered(&mut from);
}
