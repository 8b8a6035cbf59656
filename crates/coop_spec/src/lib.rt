// The types of the cooperative bucket of Figure 6: an operation, a task's record, the state, and what a start or a step answers.
// specs/ has every definition of what they mean; no code is here but a refusal's number.
#![tactic(auto)]

ghost use Rattle.std.specs.Prelude.{◌≡◌};
ghost use Rattle.coop_spec.specs.Numbers.{refusal_number};

// The calls: an invoke of an operation that inserts or that removes, a freeze, a member test, a get response. `call_number` in
// specs/Numbers gives the number that a task's record keeps.
#[derive(Clone, Copy, PartialEq, Eq)]
pub enum Call {
    InvokeInsert,
    InvokeRemove,
    Freeze,
    HasMember,
    GetResponse,
}

// How a call ends: a freeze with the number of the version that has the frozen set, every other call with yes or no.
#[derive(Clone, Copy, PartialEq, Eq)]
pub enum Answer {
    Yes,
    No,
    Version(u32),
}

// What an accepted start or step answers: the line at which the task now stands, or the ended call's answer and own steps.
#[derive(Clone, Copy, PartialEq, Eq)]
pub enum Progress {
    At(u32),
    End(Answer, u16),
}

// Why an opening, a start or a step is refused, in the order of the paper's numbers, which `refusal_number` in specs/Numbers gives.
#[derive(Clone, Copy, PartialEq, Eq)]
pub enum Refusal {
    BadTasks,
    BadVersions,
    NoTask,
    NotStarted,
    Idle,
    NoVersion,
    Spoilt,
}

impl Refusal {
    // Its number in the papers.
    pub fn number(self) -> u32
        ensures { result ≡ refusal_number self }
    {
        match self {
            Refusal::BadTasks => 1,
            Refusal::BadVersions => 3,
            Refusal::NoTask => 4,
            Refusal::NotStarted => 5,
            Refusal::Idle => 6,
            Refusal::NoVersion => 7,
            Refusal::Spoilt => 8,
        }
    }
}

// What a start or a step answers.
pub type Output = Result<Progress, Refusal>;

// An operation (FSETOP). One never invoked is zeros.
#[derive(Clone, Copy, PartialEq, Eq)]
pub struct Operation {
    // 0 never invoked, 1 insert, 2 remove
    pub kind: u32,
    pub tag: u32,
    pub resp: bool,
    // its prio is infinite
    pub done: bool,
    // an invoke of it has ended with yes
    pub returned: bool,
}

// One task's record. A task that runs nothing has a record of zeros.
#[derive(Clone, Copy, PartialEq, Eq)]
pub struct Task {
    pub running: bool,
    // 0 none, else the call's number
    pub call: u32,
    // the operation of an invoke or a get response
    pub op: u32,
    // the tag of a member test
    pub tag: u32,
    pub line: u32,
    // where HELPFINISH returns to while it runs: 103, 106 or 126; else 0
    pub back: u32,
    pub own: u16,
    // the version o: its number plus 1, or 0 for empty
    pub o: u32,
    // the operation that HELPFINISH finishes: its number plus 1, or 0 for empty
    pub helped: u32,
}

// The state: T, the number of versions, the version that the bucket has, the one last taken, the bucket's flag, 64 operations and
// eight tasks, those from T on idle.
#[derive(Clone, Copy)]
pub struct State {
    pub tasks: u32,
    pub versions: u32,
    pub node: u32,
    pub last: u32,
    pub flag: bool,
    pub operation: [Operation; 64],
    pub task: [Task; 8],
}
