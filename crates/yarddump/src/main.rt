// yarddump: a session over standard input; over standard output the memory that it leaves (`session_dump`).
#![tactic(auto)]

use stdio::source::Reader;

fn main(rt: HostRuntime) {
    let mut from = Reader::new(rt.stdin());
    session_dump::yarddump(&mut from);
}
