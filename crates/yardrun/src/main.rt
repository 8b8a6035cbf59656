// yardrun: a session over standard input and standard output (`session_run`). It ends with status 0, as do its like
// for the other commands; `yard` gives their exit statuses.
#![tactic(auto)]

use stdio::source::Reader;

fn main(rt: HostRuntime) {
    let mut from = Reader::new(rt.stdin());
    session_run::yardrun(&mut from);
}
