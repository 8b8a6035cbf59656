// yardtimeline: a session as rows, its input on standard input and the rows on standard output (timeline_program).
#![tactic(auto)]

use stdio::source::Reader;

fn main(rt: HostRuntime) {
    let mut from = Reader::new(rt.stdin());
    timeline_program::yardtimeline(&mut from);
}
