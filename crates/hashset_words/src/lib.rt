// The entries that move the yard set, start and step, of a state that a caller outside Rattle lends as words: what they change of it. Memory is tested
// on the words; a start makes no state, a step makes one of sound words.
#![tactic(auto)]

ghost use Rattle.std.specs.Prelude.{◌≡◌, true};
ghost use Rattle.spec.specs.Entries.{start, step};
ghost use Rattle.spec.specs.Machine.{machine_of};
ghost use Rattle.lines.specs.Reply.{Gives};
ghost use Rattle.state_words.specs.StateWords.{state_of_words, state_fits};

use lines::Moved;
use spec::{Call, Refusal};

// What a start for task k changes of the state.
pub fn moved_by_start(w: &[u32], k: u32, call: Call, tag: u32, ns: &[u32], bs: &[u32]) -> Moved
    requires { state_fits w.now ≡ true }
    ensures { Gives (state_of_words w.now) k result ns.now bs.now
        (start (machine_of (state_of_words w.now) ns.now bs.now) k call tag) }
{
    let d = sound_words::check(w, k, ns, bs);
    let g = yard_words::config_of(w);
    checked_start::start_of(g, w[5], w[6], w[7], d, k, call, tag)
}

// What a step of task k by one line changes of the state.
pub fn moved_by_step(w: &[u32], k: u32, ns: &mut [u32], bs: &mut [u32]) -> Moved
    requires { state_fits w.now ≡ true }
    ensures { Gives (state_of_words w.now) k result ns.new bs.new
        (step (machine_of (state_of_words w.now) ns.old bs.old) k) }
{
    let d = sound_words::check(w, k, ns, bs);
    if d.is_none() {
        return checked_start::refused(w[5], w[6], w[7], Refusal::Spoilt);
    }
    let s = sound_words::state_of_words(w);
    checked_step::step(s, d, k, ns, bs)
}
