// The dispatcher (paper 02, U7), over the entries: a turn steps the running task that is next, going round from the last one chosen.
#![tactic(auto)]

ghost use Rattle.std.specs.Prelude.{◌≡◌, List, ℕ};
ghost use Rattle.spec.specs.Machine.{machine_of};
ghost use Rattle.turns.specs.Turn.{turn};
ghost use Rattle.held_marks.specs.Marks.{link_of};
ghost use Rattle.dispatch.specs.Turned.{turned_of, next_to_step, uses_turn, chosen_after, stepped_turn};

use lines::Stepped;
use spec::{Output, Refusal, State};
use turns::Turn;

// What a turn answers, and the state that it leaves.
#[derive(Clone, Copy)]
pub struct Turned {
    pub says: Turn,
    pub state: State,
}

// The number of the first running task after the last one chosen, going round and trying the last one chosen itself at the end; None if nothing
// runs, or if T or the last one chosen is out of bounds.
pub fn next_task(s: State) -> Option<u32>
    ensures { (ns bs : List ℕ) → link_of result ≡ next_to_step (machine_of s ns bs) }
{
    let t = s.config.tasks;
    let last = s.chosen;
    if 8 < t || t <= last {
        return None;
    }
    for j in 1..=t {
        let k = (last + j) % t;
        if s.task[k as usize].running {
            return Some(k);
        }
    }
    None
}

// Whether a step that answers so uses up its turn: all but one that is refused with another number than 7.
pub fn uses_turn(o: Output) -> bool
    ensures { result ≡ uses_turn o }
{
    match o {
        Ok(_) => true,
        Err(why) => why == Refusal::NoRecord,
    }
}

// The task chosen last, after a turn of task k whose step answers so.
pub fn chosen_after(o: Output, k: u32, last: u32) -> u32
    ensures { result ≡ chosen_after o k last }
{
    if uses_turn(o) { k } else { last }
}

// What a turn gives that went to task k, whose step gave r and left these words. A step that is refused with 7 uses up its turn. With 8 memory
// says whose it is: the step's in sound memory, which names the task, the turn's own in spoilt memory.
fn after_step(k: u32, r: Stepped, ns: &[u32], bs: &[u32]) -> Turned
    ensures { result ≡ stepped_turn k r ns.now bs.now }
{
    let Stepped { out, state } = r;
    if uses_turn(out) {
        return Turned {
            says: Turn::Of(k, out),
            state: State { chosen: k, ..state },
        };
    }
    let says = match out {
        Err(why) if !soundness::sound(state, ns, bs) => Turn::Refused(why),
        _ => Turn::Of(k, out),
    };
    Turned { says, state }
}

// One turn: the running task that is next is stepped. The step's own test of memory is the turn's, so that memory is looked through a second time
// only after an 8.
pub fn turn(s: State, ns: &mut [u32], bs: &mut [u32]) -> Turned
    ensures { turned_of result ns.new bs.new ≡ turn (machine_of s ns.old bs.old) }
{
    if let Some(k) = next_task(s) {
        let r = hashset::step(s, k, ns, bs);
        return after_step(k, r, ns, bs);
    }
    let says = if soundness::sound(s, ns, bs) {
        Turn::Idle
    } else {
        Turn::Refused(Refusal::Spoilt)
    };
    Turned { says, state: s }
}
