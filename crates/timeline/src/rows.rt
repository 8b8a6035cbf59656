// The columns of a row, and the first row, printed on a page: each function appends what its definition gives (specs/Rows); bytes that find no room are
// left out (Buffer of session).
ghost use Rattle.std.specs.Prelude.{◌≡◌, min};
ghost use Rattle.session_bytes.specs.Pages.{Appends};
ghost use Rattle.timeline_rows.specs.Rows.{figure, number_field, mark, stands_first, stands_second, column, task_columns, row_columns};
ghost use Rattle.timeline_rows.specs.Rows.{task_name, task_names, heading};
ghost use Rattle.timeline_rows.specs.Columns.{one_more, counted, columns_of, heading_of};
ghost use Rattle.timeline.specs.Lines.{timeline, taken, front, count_after};

use crate::{Taken, Timeline};
use session::EventLine;
use session_bytes::Page;
use session_state::{Session, reads_events};
use spec::{State, Task};

// The most tasks that a set has, each with a column.
const MOST_TASKS: u32 = 8;

// A number's last digit, a blank for 0.
#[tactic(auto, unfolding(timeline_rows::specs::Rows::figure))]
fn figure(n: u32) -> u8
    ensures { result ≡ figure n }
{
    if n == 0 { b' ' } else { b'0' + (n % 10) as u8 }
}

// An event's number.
#[tactic(auto, unfolding(timeline_rows::specs::Rows::number_field))]
fn number_field(page: &mut Page<'_>, n: u32)
    ensures { Appends (number_field n) page.old page.new }
{
    let a = figure(n / 100000);
    let b = figure(n / 10000);
    let c = figure(n / 1000);
    let d = figure(n / 100);
    let e = figure(n / 10);
    let f = figure(n);
    page.bytes(&[a, b, c, d, e, f, b' ']);
}

#[tactic(auto, unfolding(timeline_rows::specs::Rows::mark))]
fn mark(named: bool) -> u8
    ensures { result ≡ mark named }
{
    if named { b'*' } else { b' ' }
}

#[tactic(auto, unfolding(timeline_rows::specs::Rows::stands_first))]
fn stands_first(c: Task) -> u8
    ensures { result ≡ stands_first c }
{
    if c.running { figure(c.line / 10) } else { b'.' }
}

#[tactic(auto, unfolding(timeline_rows::specs::Rows::stands_second))]
fn stands_second(c: Task) -> u8
    ensures { result ≡ stands_second c }
{
    if c.running { figure(c.line) } else { b' ' }
}

// A task's column.
#[tactic(auto, unfolding(timeline_rows::specs::Rows::column))]
fn column(page: &mut Page<'_>, named: bool, c: Task)
    ensures { Appends (column named c) page.old page.new }
{
    let a = mark(named);
    let b = stands_first(c);
    let d = stands_second(c);
    page.bytes(&[a, b, d, b' ', b' ', b' ', b' ', b' ']);
}

// How many tasks have a column.
fn shown(tasks: u32) -> u32
    ensures { result ≡ min tasks 8 }
{
    tasks.min(MOST_TASKS)
}

// The columns of the tasks, in this state; the event names task k.
#[tactic(auto, using(crate::proofs::Laws::columns), unfolding(spec::specs::Machine::idle))]
fn task_columns(page: &mut Page<'_>, tasks: u32, k: u32, s: State)
    ensures { Appends (task_columns (min tasks 8) 0 k s.task) page.old page.new }
{
    let most = shown(tasks);
    for j in 0..most {
        column(page, j == k, s.task[j as usize]);
    }
}

// What stands in an event's row before the session's line.
#[tactic(auto, using(session_bytes::proofs::Laws::parts), unfolding(timeline_rows::specs::Rows::row_columns))]
fn row_columns(page: &mut Page<'_>, n: u32, tasks: u32, k: u32, s: State)
    ensures { Appends (row_columns n tasks k s) page.old page.new }
{
    number_field(page, n);
    task_columns(page, tasks, k, s);
}

#[tactic(auto, unfolding(timeline_rows::specs::Rows::task_name))]
fn task_name(page: &mut Page<'_>, j: u32)
    ensures { Appends (task_name j) page.old page.new }
{
    let digit = b'0' + (j % 10) as u8;
    page.bytes(&[b't', b'a', b's', b'k', b' ', digit, b' ', b' ']);
}

#[tactic(auto, using(crate::proofs::Laws::names))]
fn task_names(page: &mut Page<'_>, tasks: u32)
    ensures { Appends (task_names (min tasks 8) 0) page.old page.new }
{
    let most = shown(tasks);
    for j in 0..most {
        task_name(page, j);
    }
}

// The first row.
#[tactic(auto, using(crate::proofs::Laws::heading_parts))]
fn heading(page: &mut Page<'_>, tasks: u32)
    ensures { Appends (heading tasks) page.old page.new }
{
    page.bytes(b" event ");
    task_names(page, tasks);
    page.bytes(b"answer\n");
}

#[tactic(auto, unfolding(timeline_rows::specs::Columns::one_more))]
fn one_more(n: u32) -> u32
    ensures { result ≡ one_more n }
{
    n.saturating_add(1)
}

#[tactic(auto, unfolding(timeline_rows::specs::Columns::counted))]
fn counted(x: Option<EventLine>, n: u32) -> u32
    ensures { result ≡ counted x n }
{
    match x {
        Some(EventLine::Start(..)) | Some(EventLine::Step(_)) => one_more(n),
        None => n,
    }
}

// The columns of a line's row.
#[tactic(auto, unfolding(timeline_rows::specs::Columns::columns_of, session::specs::Buffer::append))]
fn columns_of(page: &mut Page<'_>, x: Option<EventLine>, n: u32, before: Session, after: Session)
    ensures { Appends (columns_of x n before after) page.old page.new }
{
    if let Some(EventLine::Start(k, _, _) | EventLine::Step(k)) = x {
        row_columns(
            page,
            one_more(n),
            after.header.config.tasks,
            k,
            before.state,
        );
    }
}

// The first row, where the line has opened the set.
#[tactic(auto, unfolding(timeline_rows::specs::Columns::heading_of, session::specs::Buffer::append))]
fn heading_of(page: &mut Page<'_>, reading: bool, after: Session)
    ensures { Appends (heading_of reading after) page.old page.new }
{
    if !reading {
        heading(page, after.header.config.tasks);
    }
}

// What is printed before the session's own line.
#[tactic(auto, using(session_bytes::proofs::Laws::parts), unfolding(crate::specs::Lines::front, session::specs::Buffer::append))]
pub fn front(page: &mut Page<'_>, x: Option<EventLine>, t: Timeline, after: Session)
    ensures { Appends (front x t after) page.old page.new }
{
    if reads_events(after.phase) {
        let before = t.session;
        let reading = reads_events(before.phase);
        heading_of(page, reading, after);
        columns_of(page, x, t.events, before, after);
    }
}

// How many events there were after the line.
#[tactic(auto, unfolding(crate::specs::Lines::count_after))]
pub fn count_after(x: Option<EventLine>, t: Timeline, after: Session) -> u32
    ensures { result ≡ count_after x t after }
{
    if reads_events(after.phase) {
        counted(x, t.events)
    } else {
        t.events
    }
}

pub fn taken(session: Session, events: u32, printed: usize) -> Taken
    ensures { result ≡ taken (timeline session events) printed }
{
    Taken {
        timeline: Timeline { session, events },
        printed,
    }
}
