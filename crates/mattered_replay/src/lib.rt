// Events given as words are run after an opening, all of them or all but one, and the calls that end are noted (`ended_calls` of mattered):
// four words each, task, call, tag and answer. Memory is its own from the opening on: it is not scanned before an event.
#![tactic(auto)]

ghost use Rattle.std.specs.Prelude.{◌≡◌, ◌≤◌, ◌<◌, ◌+◌, ◌*◌, length, get_or};
ghost use Rattle.spec.specs.Machine.{idle, machine_of};
ghost use Rattle.spec.specs.Sound.{sound};
ghost use Rattle.spec.specs.Entries.{opening};
ghost use Rattle.spec.specs.Schedule.{event};
ghost use Rattle.lines.specs.Reply.{reply_of};
ghost use Rattle.schedule_events.specs.Events.{event_of, events_of};
ghost use Rattle.schedule_events.specs.EventLaws.{event_at};
ghost use Rattle.mattered.specs.EndedCalls.{ended_by};
ghost use Rattle.mattered.specs.Mattered.{without};
ghost use Rattle.mattered_replay.specs.Replay.{NotedAfter, RunNoted, noted, on_event};

use lines::Stepped;
use spec::{Config, Output, Progress, State, Task};

// What is run, once and then without each step: after an opening with `config` the first `count` events of some words.
#[derive(Clone, Copy)]
pub struct Replay<'a> {
    pub config: Config,
    pub events: &'a [u32],
    pub count: usize,
    ghost few: { count ≤ 256 },
}

// A run up to some event: whether memory is sound, the state, and how many calls are noted.
#[derive(Clone, Copy)]
struct Run {
    sound: bool,
    state: State,
    count: usize,
}

// Task k's record, an idle one past the eight.
fn task_of(s: State, k: u32) -> Task
    ensures { result ≡ get_or s.task k idle }
{
    match s.task.get(k as usize) {
        Some(c) => *c,
        None => state::idle(),
    }
}

impl Run {
    // What the next event gives, by its words.
    fn event(self, kind: u32, task: u32, tag: u32, ns: &mut [u32], bs: &mut [u32]) -> Stepped
        requires { self.sound ≡ sound (machine_of self.state ns.old bs.old) }
        ensures { reply_of result ns.new bs.new ≡ event (machine_of self.state ns.old bs.old) (event_of kind task tag) }
    {
        match schedule_events::asked_by(kind) {
            Some(call) => known_memory::start(self.sound, self.state, task, call, tag),
            None => known_memory::step(self.sound, self.state, task, ns, bs),
        }
    }

    // Notes the call that an output for task k ends, if it ends one, after the others; c is the task's record before. Gives how many are noted.
    fn note(self, k: u32, c: Task, out: Output, calls: &mut [u32]) -> usize
        requires { (self.count < 256) × (4 * self.count + 4 ≤ length calls.old) }
        ensures { NotedAfter (ended_by k c out) self.count calls.old result calls.new }
    {
        match out {
            Ok(Progress::End(a, _, _)) => {
                let x = schedule_words::answer_number(a);
                schedule_words::write_words(calls, self.count, [k, c.call, c.tag, x]);
                self.count + 1
            }
            Ok(Progress::At(_)) => self.count,
            Err(_) => self.count,
        }
    }

    // The run after event i of these words.
    fn after(
        self,
        i: usize,
        events: &[u32],
        ns: &mut [u32],
        bs: &mut [u32],
        calls: &mut [u32],
    ) -> Run
        requires { (self.count ≤ i) × (i < 256) × (1024 ≤ length calls.old) × (self.sound ≡ sound (machine_of self.state ns.old bs.old)) }
        ensures turn { (result.count ≤ self.count + 1)
            × (noted (machine_of result.state ns.new bs.new) result.count calls.new
            ≡ on_event (noted (machine_of self.state ns.old bs.old) self.count calls.old) (event_at events.now i)) }
        ensures as_sound { result.sound ≡ self.sound }
    {
        let at = 4 * i;
        let k = pool::word(events, at + 1);
        let c = task_of(self.state, k);
        let kind = pool::word(events, at);
        let tag = pool::word(events, at + 2);
        let d = self.event(kind, k, tag, ns, bs);
        let count = self.note(k, c, d.out, calls);
        Run {
            state: d.state,
            count,
            ..self
        }
    }
}

// Opens, runs the events but for event k, all of them if k is their number, and notes the calls that end. Gives how many ended, and
// no slice of them: the clause tells the words past them too, and a lent slice that a result borrows from has no value at the return to tell.
pub fn run_without(r: Replay, k: usize, ns: &mut [u32], bs: &mut [u32], calls: &mut [u32]) -> usize
    requires { 1024 ≤ length calls.old }
    ensures { RunNoted (opening r.entry.config ns.old bs.old).machine (without k (events_of r.entry.count r.entry.events.now)) r.entry.count
        calls.old result calls.new ns.new bs.new }
{
    let o = opening::open(r.config, ns, bs);
    let mut run = Run {
        sound: o.refusal.is_none(),
        state: o.state,
        count: 0,
    };
    for i in 0..r.count {
        if i == k {
            continue;
        }
        run = run.after(i, r.events, ns, bs, calls);
    }
    run.count
}
