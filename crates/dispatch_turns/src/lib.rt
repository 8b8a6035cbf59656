// Many turns of the dispatcher in one call, with their words (paper 02, U7): memory is sound before the first of them, and every turn keeps it so: it
// is not looked through in between. `run_turns` is the main loop of paper 01: it holds one state and lends it to each turn, which moves that state on.
#![tactic(auto)]

ghost use Rattle.std.specs.Prelude.{◌≡◌, true, ◌*◌, ◌≤◌, length};
ghost use Rattle.spec.specs.Machine.{machine_of};
ghost use Rattle.spec.specs.Sound.{sound};
ghost use Rattle.turns.specs.Turns.{turned_so, next_turn, written, turns_written};

use spec::State;

// Whether a turn named a task, and the state that it leaves.
#[derive(Clone, Copy)]
pub struct Taken {
    pub named: bool,
    pub state: State,
}

// How many turns named a task, and the state that they leave.
#[derive(Clone, Copy)]
pub struct Ran {
    pub turns: usize,
    pub state: State,
}

// The turn number i, unless n were taken: the state by value.
fn turn_taken(
    s: State,
    i: usize,
    n: usize,
    ns: &mut [u32],
    bs: &mut [u32],
    outs: &mut [u32],
) -> Taken
    requires { (5 * n ≤ length outs.old) × (sound (machine_of s ns.old bs.old) ≡ true) }
    ensures { turned_so result.named (machine_of result.state ns.new bs.new) outs.new
        ≡ next_turn i n (machine_of s ns.old bs.old) outs.old }
{
    let mut t = s;
    if n <= i {
        return Taken {
            named: false,
            state: t,
        };
    }
    let Some(k) = dispatch::next_task(t) else {
        return Taken {
            named: false,
            state: t,
        };
    };
    let c = t.task[(k % 8) as usize];
    let d = schedule::known_sound(c, k);
    let m = checked_step::step(t, d, k, ns, bs);
    let out = m.out;
    yard_answers::put_named(outs, i, k, out);
    let last = dispatch::chosen_after(out, k, t.chosen);
    t.chosen = last;
    if lines::changes(out, k) {
        t.head = m.head;
        t.last_node = m.last_node;
        t.last_bucket = m.last_bucket;
        let x = m.task;
        let j = k as usize;
        t.task[j] = x;
    }
    Taken {
        named: true,
        state: t,
    }
}

// The parts of what `turn_taken` gives, and what `run_turns` gives: what is lent is taken apart here alone, so that the answers of the loop speak of no place.
fn named_of(d: Taken) -> bool
    ensures { result ≡ d.named }
{
    d.named
}

fn state_of(d: Taken) -> State
    ensures { result ≡ d.state }
{
    d.state
}

fn ended(turns: usize, state: State) -> Ran
    ensures { (result.turns ≡ turns) × (result.state ≡ state) }
{
    Ran { turns, state }
}

// The turn number i, unless n were taken, on the lent state and the lent pools. Gives whether it named a task.
fn turn_lent(
    s: &mut State,
    i: usize,
    n: usize,
    ns: &mut [u32],
    bs: &mut [u32],
    outs: &mut [u32],
) -> bool
    requires { (5 * n ≤ length outs.old) × (sound (machine_of s.old ns.old bs.old) ≡ true) }
    ensures { turned_so result (machine_of s.new ns.new bs.new) outs.new
        ≡ next_turn i n (machine_of s.old ns.old bs.old) outs.old }
{
    let old = *s;
    let d = turn_taken(old, i, n, ns, bs, outs);
    let new = state_of(d);
    *s = new;
    named_of(d)
}

// At most n turns, up to the first that finds nothing to run.
pub fn run_turns(s: State, n: usize, ns: &mut [u32], bs: &mut [u32], outs: &mut [u32]) -> Ran
    requires { (5 * n ≤ length outs.old) × (sound (machine_of s ns.old bs.old) ≡ true) }
    ensures { written result.turns (machine_of result.state ns.new bs.new) outs.new
        ≡ turns_written n (machine_of s ns.old bs.old) outs.old }
{
    let mut t = s;
    let mut i: usize = 0;
    while turn_lent(&mut t, i, n, ns, bs, outs) {
        i += 1;
    }
    let new = t;
    ended(i, new)
}
