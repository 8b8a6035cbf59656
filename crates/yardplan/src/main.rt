// yardplan: how many records so many tasks need, and what a list of calls comes to, over standard input and output.
#![tactic(auto)]

use stdio::source::Reader;

fn main(rt: HostRuntime) {
    let mut from = Reader::new(rt.stdin());
    plan_text::program::yardplan(&mut from);
}
