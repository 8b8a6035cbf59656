// Refusal 8, as far as it does not depend on the entry called: the state and the pool of versions are sound. The state's numbers first,
// then the operations, one pass over the versions, and the tasks.
#![tactic(auto)]

ghost use Rattle.std.specs.Prelude.{◌≡◌, List, ℕ, ◌*◌, ◌≤◌, length};
ghost use Rattle.spec.specs.Lists.{member, every};
ghost use Rattle.coop_spec.specs.Machine.{Machine, machine_of};
ghost use Rattle.coop_spec.specs.Sound.{was_invoked, sound_operation, sound_op_word, sound_version, sound_versions};
ghost use Rattle.coop_spec.specs.Sound.{lines_of, back_of_line, operation_of_call, helped_invoked};
ghost use Rattle.coop_spec.specs.Sound.{sound_running, sound_task, sound_tasks, sound_numbers, sound};
ghost use Rattle.coop_sound.specs.Kinds.{Kinds};

use coop_spec::{Operation, State, Task};

const MOST_VERSIONS: u32 = coop_pool::MOST_VERSIONS as u32;

#[tactic(auto, unfolding(coop_spec::specs::Sound::sound_numbers))]
fn numbers_ok(s: State, vs: &[u32]) -> bool
    ensures { result ≡ sound_numbers (machine_of s vs.now) }
{
    let v = s.versions;
    let tasks = sound_records::within(1, 8, s.tasks);
    let versions = sound_records::within(1, MOST_VERSIONS, v);
    let words = vs.len() == coop_pool::VERSION_WORDS * (v as usize);
    tasks & versions & words & (s.node < v) & (s.last < v)
}

// ---- operations

#[tactic(auto, unfolding(coop_spec::specs::Sound::sound_operation))]
fn operation_ok(op: Operation) -> bool
    ensures { result ≡ sound_operation op }
{
    let known = op.kind <= coop_state::INVOKE_REMOVE;
    let zeros = (op.tag == 0) & !op.resp & !op.done & !op.returned;
    known & ((op.kind != 0) | zeros) & (!op.returned | op.done)
}

fn operations_ok(s: State) -> bool
    ensures { result ≡ every sound_operation s.operation }
{
    for op in s.operation {
        if !operation_ok(op) {
            return false;
        }
    }
    true
}

// The kinds of all operations, as words that are lent to the pass over the versions.
#[tactic(auto, unfolding(coop_spec::specs::Machine::never_invoked))]
fn kinds_of(s: State) -> [u32; 64]
    ensures { (vs : List ℕ) → Kinds (machine_of s vs) result }
{
    let mut kinds = [0; 64];
    for (n, op) in s.operation.iter().enumerate() {
        kinds[n] = op.kind;
    }
    kinds
}

fn invoked(kinds: &[u32], n: u32) -> bool
    ensures { (y : Machine) → Kinds y kinds.now → result ≡ was_invoked y n }
{
    pool::word(kinds, n as usize) != 0
}

// ---- versions

#[tactic(auto, using(crate::proofs::Laws::op_word_to_1, crate::proofs::Laws::op_word_over_1))]
fn op_word_ok(kinds: &[u32], m: u32) -> bool
    ensures { (y : Machine) → Kinds y kinds.now → result ≡ sound_op_word y m }
{
    m <= 1 || invoked(kinds, m - 2)
}

// The version whose first word is the part's.
#[tactic(auto, unfolding(coop_spec::specs::Sound::sound_version, coop_spec::specs::Sound::sound_tags))]
fn version_ok(kinds: &[u32], w: &[u32]) -> bool
    requires { 66 ≤ length w.now }
    ensures { (y : Machine) → Kinds y kinds.now → result ≡ sound_version y w.now }
{
    op_word_ok(kinds, w[0]) && sound_records::tags_ok(w)
}

fn versions_ok(kinds: &[u32], vs: &[u32], n: usize) -> bool
    requires { (n ≤ 1024) × (66 * n ≤ length vs.now) }
    ensures { (y : Machine) → Kinds y kinds.now → result ≡ sound_versions y n vs.now }
{
    for k in 0..n {
        if !version_ok(kinds, &vs[coop_pool::VERSION_WORDS * k..]) {
            return false;
        }
    }
    true
}

// ---- tasks

// The lines of an invoke, a freeze and a member test; those of HELPFINISH, which the first two have too.
const INVOKE_LINES: [u32; 17] = [
    95, 96, 99, 100, 101, 102, 107, 120, 121, 122, 123, 127, 129, 130, 138, 139, 140,
];

const FREEZE_LINES: [u32; 11] = [109, 120, 121, 122, 123, 127, 129, 130, 138, 139, 140];

const MEMBER_LINES: [u32; 2] = [112, 113];

const HELP_LINES: [u32; 5] = [129, 130, 138, 139, 140];

// A line of the call, by its number.
#[tactic(auto, using(crate::proofs::Laws::lines), unfolding(spec::specs::Lists::member))]
fn line_ok(call: u32, line: u32) -> bool
    ensures { result ≡ member line (lines_of call) }
{
    match call {
        coop_state::INVOKE_INSERT | coop_state::INVOKE_REMOVE => {
            sound_records::among(line, &INVOKE_LINES)
        }
        coop_state::FREEZE => sound_records::among(line, &FREEZE_LINES),
        coop_state::HAS_MEMBER => sound_records::among(line, &MEMBER_LINES),
        coop_state::GET_RESPONSE => line == 117,
        _ => false,
    }
}

#[tactic(auto, unfolding(coop_spec::specs::Sound::back_of_line, coop_spec::specs::Sound::help_lines))]
fn back_ok(c: Task) -> bool
    ensures { result ≡ back_of_line c }
{
    if sound_records::among(c.line, &HELP_LINES) {
        let in_invoke = matches!(c.back, 103 | 106);
        (c.back == 126) | (coop_state::is_invoke(c.call) & in_invoke)
    } else {
        c.back == 0
    }
}

#[tactic(auto, unfolding(coop_spec::specs::Sound::operation_of_call))]
fn op_ok(s: State, c: Task) -> bool
    ensures { (vs : List ℕ) → result ≡ operation_of_call (machine_of s vs) c }
{
    if 64 <= c.op {
        return false;
    }
    let op = coop_state::operation(s, c.op);
    match c.call {
        coop_state::INVOKE_INSERT | coop_state::INVOKE_REMOVE => op.kind == c.call,
        coop_state::GET_RESPONSE => op.returned,
        _ => c.op == 0,
    }
}

fn helped_ok(kinds: &[u32], c: Task) -> bool
    ensures { (y : Machine) → Kinds y kinds.now → result ≡ helped_invoked y c }
{
    c.helped == 0 || invoked(kinds, c.helped - 1)
}

#[tactic(auto, unfolding(coop_spec::specs::Sound::sound_running))]
fn running_ok(s: State, kinds: &[u32], k: u32, c: Task) -> bool
    ensures { (vs : List ℕ) → Kinds (machine_of s vs) kinds.now → result ≡ sound_running (machine_of s vs) k c }
{
    let tag = (c.call == coop_state::HAS_MEMBER) | (c.tag == 0);
    (k < s.tasks)
        & line_ok(c.call, c.line)
        & back_ok(c)
        & op_ok(s, c)
        & tag
        & (c.o <= s.versions)
        & helped_ok(kinds, c)
}

#[tactic(auto, unfolding(coop_spec::specs::Sound::sound_task, coop_spec::specs::Sound::zero_task, coop_spec::specs::Machine::idle, spec::specs::Lists::every))]
fn task_ok(s: State, kinds: &[u32], k: u32, c: Task) -> bool
    ensures { (vs : List ℕ) → Kinds (machine_of s vs) kinds.now → result ≡ sound_task (machine_of s vs) k c }
{
    if c.running {
        running_ok(s, kinds, k, c)
    } else {
        c == coop_state::idle()
    }
}

fn tasks_ok(s: State, kinds: &[u32]) -> bool
    ensures { (vs : List ℕ) → Kinds (machine_of s vs) kinds.now → result ≡ sound_tasks (machine_of s vs) 0 s.task }
{
    for (k, c) in s.task.iter().enumerate() {
        if !task_ok(s, kinds, k as u32, *c) {
            return false;
        }
    }
    true
}

// Refusal 8, as far as it does not depend on the entry called.
#[tactic(auto, unfolding(coop_spec::specs::Sound::sound))]
pub fn sound(s: State, vs: &[u32]) -> bool
    ensures { result ≡ sound (machine_of s vs.now) }
{
    if !numbers_ok(s, vs) || !operations_ok(s) {
        return false;
    }
    let kinds = kinds_of(s);
    versions_ok(&kinds, vs, s.versions as usize) && tasks_ok(s, &kinds)
}
