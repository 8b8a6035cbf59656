// yardrecord: the recording of a session, its input on standard input and the recording on standard output (recorder, program).
#![tactic(auto)]

use stdio::source::Reader;

fn main(rt: HostRuntime) {
    let mut from = Reader::new(rt.stdin());
    recorder::program::yardrecord(&mut from);
}
