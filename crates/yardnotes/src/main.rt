// yardnotes: two lanes' notes over standard input, their order over standard output.
#![tactic(auto)]

use stdio::source::Reader;

fn main(rt: HostRuntime) {
    let mut from = Reader::new(rt.stdin());
    notes_text::program::yardnotes(&mut from);
}
