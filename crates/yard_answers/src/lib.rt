// What a call for C answers, put into words that the caller lends: a number and an answer's words, and the state's words after a move. specs/Answers
// has the numbers and the words.
#![tactic(auto)]

ghost use Rattle.std.specs.Prelude.{◌≡◌, true, ◌∷◌, ◌+◌, ◌*◌, ◌≤◌, length};
ghost use Rattle.spec.specs.Numbers.{opening_number, output_words};
ghost use Rattle.spec.specs.Machine.{state_chosen};
ghost use Rattle.spec.specs.Words.{overwrite};
ghost use Rattle.lines.specs.Reply.{settled};
ghost use Rattle.state_words.specs.StateWords.{state_words, state_of_words, state_fits};
ghost use Rattle.yard_answers.specs.Answers.{open_number, out_number, out_left};

use lines::Moved;
use spec::{Output, Refusal};

// An opening's number: 0, or 256 and the refusal's.
pub fn open_number(why: Option<Refusal>) -> u32
    ensures { result ≡ open_number (opening_number why) }
{
    match why {
        None => 0,
        Some(refusal) => 256 + refusal.number(),
    }
}

// An output's number, and its words unless it is a refusal.
pub fn put_output(out: &mut [u32], o: Output) -> u32
    requires { (length out.old ≡ 4) × (out_number o ≤ 511) }
    ensures { (result ≡ out_number o) × (out.new ≡ out_left o out.old) }
{
    if let Err(why) = o {
        return 256 + why.number();
    }
    schedule_words::write_output(out, 0, o);
    0
}

// A turn that named task k, the turn number i: the task's number and its step's output.
pub fn put_named(out: &mut [u32], i: usize, k: u32, o: Output)
    requires { 5 * i + 5 ≤ length out.old }
    ensures { out.new ≡ overwrite out.old (5 * i) (k ∷ output_words o) }
{
    let at = 5 * i;
    schedule_words::write_output(&mut out[at + 1..], 0, o);
    out[at] = k;
}

// The state's words after task k has moved so.
pub fn put_moved(w: &mut [u32], k: u32, m: Moved)
    requires { state_fits w.old ≡ true }
    ensures { w.new ≡ state_words (settled (state_of_words w.old) k m) }
{
    if lines::changes(m.out, k) {
        yard_words::put_changes(w, k, m.head, m.last_node, m.last_bucket, m.task);
    }
}

// The state's words after a turn in which task k has moved so.
pub fn put_turned(w: &mut [u32], k: u32, m: Moved)
    requires { state_fits w.old ≡ true }
    ensures { w.new ≡ state_words (state_chosen k (settled (state_of_words w.old) k m)) }
{
    put_moved(w, k, m);
    w[8] = k;
}
