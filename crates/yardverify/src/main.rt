// yardverify: what a reader of recordings answers, the recording on standard input and `same`, `line=N` or `refuse=N` on standard output.
#![tactic(auto)]

use stdio::source::Reader;

fn main(rt: HostRuntime) {
    let mut from = Reader::new(rt.stdin());
    reader::program::yardverify(&mut from);
}
