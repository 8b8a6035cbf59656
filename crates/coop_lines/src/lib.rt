// What the lines of Figure 6 share. One step is one line: `coop_calls` and `coop_helpers` have a function for each line, in the figure's
// order. A line takes the state by value, the task's number and record, and the words that it reads or writes, and gives the answer with
// the state after it, after a refusal too: what `step_running` of the definitions gives for a task that stands there.
#![tactic(auto)]

ghost use Rattle.std.specs.Prelude.{◌≡◌, List, [], ◌&&◌, ℕ, ◌+◌, ◌*◌, ◌<◌, min, set, if◌then◌else◌};
ghost use Rattle.spec.specs.Words.{link, number, filled};
ghost use Rattle.coop_spec.specs.Machine.{machine_of, to_line, to_line_with, to_help};
ghost use Rattle.coop_spec.specs.Lines.{yes_no, frozen, no_op, own_done, moves, answers, returns_true, returns};
ghost use Rattle.coop_spec.specs.Entries.{refuse, accept};
ghost use Rattle.coop_lines.specs.Reply.{reply_of, tested};

use coop_spec::{Answer, Output, Progress, Refusal, State, Task};

// What a step or a start answers, and the state after it.
#[derive(Clone, Copy)]
pub struct Stepped {
    pub out: Output,
    pub state: State,
}

// ---- tests

// b.node.op = ⊥
#[tactic(auto, unfolding(coop_spec::specs::Lines::frozen))]
pub fn frozen(s: State, vs: &[u32]) -> bool
    ensures { result ≡ frozen (machine_of s vs.now) }
{
    coop_pool::op_word(vs, s.node) == 1
}

// o.op = nil
#[tactic(auto, unfolding(coop_spec::specs::Lines::no_op))]
fn no_op(c: Task, vs: &[u32]) -> bool
    ensures { (s : State) → result ≡ no_op (machine_of s vs.now) c }
{
    coop_pool::op_word(vs, pool::number_of(c.o)) == 0
}

// The prio of the task's own operation is infinite.
#[tactic(auto, unfolding(coop_spec::specs::Lines::own_done))]
pub fn own_done(s: State, c: Task) -> bool
    ensures { (vs : List ℕ) → result ≡ own_done (machine_of s vs) c }
{
    coop_state::operation(s, c.op).done
}

// CAS(&o.op, nil, m): whether o had no operation.
pub fn cas_op(c: Task, vs: &mut [u32], m: u32) -> bool
    ensures { ((s : State) → result ≡ no_op (machine_of s vs.old) c)
        × (vs.new ≡ (if result then set vs.old (66 * number c.o) m else vs.old)) }
{
    if !no_op(c, vs) {
        return false;
    }
    coop_pool::set_op_word(vs, pool::number_of(c.o), m);
    true
}

// The places o and helped are filled.
pub fn both_filled(c: Task) -> bool
    ensures { result ≡ (filled c.o && filled c.helped) }
{
    c.o != 0 && c.helped != 0
}

pub fn yes_no(b: bool) -> Answer
    ensures { result ≡ yes_no b }
{
    if b { Answer::Yes } else { Answer::No }
}

// ---- the three ways in which a line ends: it is refused, the task goes on, its call ends

#[tactic(auto, unfolding(coop_spec::specs::Entries::refuse))]
pub fn refused(s: State, why: Refusal) -> Stepped
    ensures { (vs : List ℕ) → reply_of result vs ≡ refuse why (machine_of s vs) }
{
    Stepped {
        out: Err(why),
        state: s,
    }
}

// One own step more, staying at 65535. (As line_moves has it, which the cooperative bucket does not rest on.)
fn one_more_own_step(n: u16) -> u16
    ensures { result ≡ min (n + 1) 65535 }
{
    n.saturating_add(1)
}

// The task goes on with the record x.
#[tactic(auto, unfolding(coop_spec::specs::Entries::accept, coop_spec::specs::Entries::finish, coop_spec::specs::Words::apply_all, coop_spec::specs::Machine::with_own))]
pub fn go(s: State, k: u32, x: Task) -> Stepped
    ensures { (vs : List ℕ) → reply_of result vs ≡ accept (machine_of s vs) k x.own (moves x) }
{
    let w = Task {
        own: one_more_own_step(x.own),
        ..x
    };
    Stepped {
        out: Ok(Progress::At(x.line)),
        state: coop_state::with_task(s, k, w),
    }
}

// On to a line of INVOKE, FREEZE or DOFREEZE that uses no o.
#[tactic(auto, unfolding(coop_spec::specs::Machine::to_line))]
pub fn go_line(s: State, k: u32, c: Task, line: u32) -> Stepped
    ensures { (vs : List ℕ) → reply_of result vs ≡ accept (machine_of s vs) k c.own (moves (to_line line c)) }
{
    go(
        s,
        k,
        Task {
            line,
            back: 0,
            o: 0,
            helped: 0,
            ..c
        },
    )
}

// On to a line that uses o.
#[tactic(auto, unfolding(coop_spec::specs::Machine::to_line_with))]
pub fn go_with(s: State, k: u32, c: Task, line: u32, o: u32) -> Stepped
    ensures { (vs : List ℕ) → reply_of result vs ≡ accept (machine_of s vs) k c.own (moves (to_line_with line o c)) }
{
    go(s, k, Task { line, o, ..c })
}

// Into HELPFINISH, which is to return to this line.
#[tactic(auto, unfolding(coop_spec::specs::Machine::to_help))]
pub fn go_help(s: State, k: u32, c: Task, back: u32) -> Stepped
    ensures { (vs : List ℕ) → reply_of result vs ≡ accept (machine_of s vs) k c.own (moves (to_help back c)) }
{
    go(
        s,
        k,
        Task {
            line: 129,
            back,
            o: 0,
            helped: 0,
            ..c
        },
    )
}

// The call ends.
#[tactic(auto, unfolding(coop_spec::specs::Entries::accept, coop_spec::specs::Entries::finish, coop_spec::specs::Words::apply_all))]
pub fn end(s: State, k: u32, c: Task, a: Answer) -> Stepped
    ensures { (vs : List ℕ) → reply_of result vs ≡ accept (machine_of s vs) k c.own (answers a) }
{
    Stepped {
        out: Ok(Progress::End(a, one_more_own_step(c.own))),
        state: coop_state::with_task(s, k, coop_state::idle()),
    }
}

// An invoke ends with yes: its operation's response may be read from now on.
#[tactic(auto, unfolding(coop_spec::specs::Entries::accept, coop_spec::specs::Words::apply_all))]
pub fn end_true(s: State, k: u32, c: Task) -> Stepped
    ensures { (vs : List ℕ) → reply_of result vs ≡ accept (machine_of s vs) k c.own (returns_true c []) }
{
    end(coop_state::set_returned(s, c.op), k, c, Answer::Yes)
}

// ---- lines of one shape

// On to one of two lines: 95, 96, 120.
pub fn choose(s: State, k: u32, c: Task, b: bool, x: u32, y: u32) -> Stepped
    ensures { (vs : List ℕ) → reply_of result vs ≡ accept (machine_of s vs) k c.own (moves (to_line (if b then x else y) c)) }
{
    if b {
        go_line(s, k, c, x)
    } else {
        go_line(s, k, c, y)
    }
}

// o <- b.node: 99, 112, 121, 129.
pub fn read_node(s: State, k: u32, c: Task, next: u32) -> Stepped
    requires { s.node < s.versions }
    ensures { (vs : List ℕ) → reply_of result vs ≡ accept (machine_of s vs) k c.own (moves (to_line_with next (link s.node) c)) }
{
    go_with(s, k, c, next, s.node + 1)
}

// if o.op = nil on to the next line, else HELPFINISH(b): 100, 122.
#[tactic(auto, unfolding(crate::specs::Reply::through_o))]
pub fn test_op(s: State, k: u32, c: Task, vs: &[u32], next: u32, back: u32) -> Stepped
    ensures { reply_of result vs.now ≡ tested (machine_of s vs.now) k c next back }
{
    if c.o == 0 {
        return refused(s, Refusal::Spoilt);
    }
    if no_op(c, vs) {
        return go_with(s, k, c, next, c.o);
    }
    go_help(s, k, c, back)
}

// HELPFINISH returns to its caller: 130, 140.
#[tactic(auto, unfolding(coop_spec::specs::Lines::returns))]
pub fn return_to(s: State, k: u32, c: Task) -> Stepped
    ensures { (vs : List ℕ) → reply_of result vs ≡ accept (machine_of s vs) k c.own (returns c []) }
{
    if c.back == 103 {
        return end_true(s, k, c);
    }
    choose(s, k, c, c.back == 106, 95, 120)
}
