// The types of the set: a task's record, the state that every entry takes and gives back, and what the entries answer.
// specs/ has every definition of what they mean; no code is here but the numbers of a
// call and of a refusal, and the answer to whether a tag was found.
#![tactic(auto)]

ghost use Rattle.std.specs.Prelude.{◌≡◌};
ghost use Rattle.spec.specs.Numbers.{call_number, refusal_number};
ghost use Rattle.spec.specs.Plain.{found_answer};

// The five calls. `call_number` in specs/Numbers gives the number that a task's record keeps.
#[derive(Clone, Copy, PartialEq, Eq)]
pub enum Call {
    Insert,
    Remove,
    Contains,
    Grow,
    Shrink,
}

impl Call {
    // The number that a task's record keeps, 1 to 5.
    pub fn number(self) -> u32
        ensures { result ≡ call_number self }
    {
        match self {
            Call::Insert => 1,
            Call::Remove => 2,
            Call::Contains => 3,
            Call::Grow => 4,
            Call::Shrink => 5,
        }
    }
}

// How a call ends: an insert, remove or contains with yes, no or full, a resize with done, lost or limit.
#[derive(Clone, Copy, PartialEq, Eq)]
pub enum Answer {
    Yes,
    No,
    Full,
    Done,
    Lost,
    Limit,
}

// Yes where a tag was found, else no.
impl From<bool> for Answer {
    ghost from_gives = { λ found a. a ≡ found_answer found };

    fn from(found: bool) -> Answer {
        if found { Answer::Yes } else { Answer::No }
    }
}

// What an accepted start or step answers: the line at which the task now stands, or the ended call's answer, own steps and how many tags
// its bucket holds afterwards, which an ended insert or remove gives and a contains and a resize do not.
#[derive(Clone, Copy, PartialEq, Eq)]
pub enum Progress {
    At(u32),
    End(Answer, u16, Option<u32>),
}

// Why an opening, a start, a step, a turn or a list is refused, in the order of the paper's numbers, which `refusal_number` in specs/Numbers gives.
#[derive(Clone, Copy, PartialEq, Eq)]
pub enum Refusal {
    BadTasks,
    BadNodes,
    BadBuckets,
    NoTask,
    Running,
    Idle,
    NoRecord,
    Spoilt,
    ShortList,
    BadVersion,
    Withdrawn,
}

impl Refusal {
    // Its number in the papers.
    pub fn number(self) -> u32
        ensures { result ≡ refusal_number self }
    {
        match self {
            Refusal::BadTasks => 1,
            Refusal::BadNodes => 2,
            Refusal::BadBuckets => 3,
            Refusal::NoTask => 4,
            Refusal::Running => 5,
            Refusal::Idle => 6,
            Refusal::NoRecord => 7,
            Refusal::Spoilt => 8,
            Refusal::ShortList => 9,
            Refusal::BadVersion => 11,
            Refusal::Withdrawn => 14,
        }
    }
}

// What a start or a step answers.
pub type Output = Result<Progress, Refusal>;

// What a list answers: the number of tags written.
pub type Listing = Result<u32, Refusal>;

// One task's record. A place (t, s, b, m, n, new_node, new_bucket) is a record's number plus 1, or 0 for empty.
#[derive(Clone, Copy, PartialEq, Eq)]
pub struct Task {
    pub running: bool,
    pub call: u32,
    pub tag: u32,
    pub line: u32,
    pub i: u32,
    pub own: u16,
    pub t: u32,
    pub s: u32,
    pub b: u32,
    pub m: u32,
    pub n: u32,
    pub new_node: u32,
    pub new_bucket: u32,
}

// What an opening is given besides the two slices, and what the state keeps of it: T, the number of tasks, the version of the tags, 1 or 2,
// and whether tag 0 is withdrawn: then no insert of it can be started.
#[derive(Clone, Copy, PartialEq, Eq)]
pub struct Config {
    pub tasks: u32,
    pub version: u32,
    pub zero_withdrawn: bool,
}

// The state: what it was opened with, H, B, the head, the node and the bucket last taken, the task that a dispatcher chose last, and
// eight tasks, those from T on idle.
#[derive(Clone, Copy)]
pub struct State {
    pub config: Config,
    pub nodes: u32,
    pub buckets: u32,
    pub head: u32,
    pub last_node: u32,
    pub last_bucket: u32,
    pub chosen: u32,
    pub task: [Task; 8],
}
