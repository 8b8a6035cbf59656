// Printing what is planned on a page, over the printer of a session's lines: each function appends what its definition gives; bytes that find
// no room are left out.
ghost use Rattle.std.specs.Prelude.{◌≡◌, ◌≤◌};
ghost use Rattle.session_bytes.specs.Pages.{Appends};
ghost use Rattle.plans.specs.Plan.{list_of};
ghost use Rattle.plan_text.specs.Text.{figures_line, figures_lines, size_lines, plan_lines};

use plans::{Calls, Figures};
use session_bytes::Page;

// What a call comes to.
fn figures_line(page: &mut Page<'_>, f: Figures)
    ensures { Appends (figures_line f) page.old page.new }
{
    page.bytes(b"plan=");
    session_print::answer(page, f.answer);
    page.keyed(b",", u64::from(f.own), b',');
    page.key_line(b"", u64::from(f.buckets));
}

// What some calls come to.
#[tactic(auto, using(crate::proofs::Laws::figures_on, crate::proofs::Laws::figures_end))]
fn figures_lines(page: &mut Page<'_>, figures: &[Figures])
    ensures { Appends (figures_lines figures.now) page.old page.new }
{
    for f in figures {
        figures_line(page, *f);
    }
}

// How many records are enough for so many tasks.
fn sizes(page: &mut Page<'_>, tasks: u32)
    requires { tasks ≤ 8 }
    ensures { Appends (size_lines tasks) page.old page.new }
{
    let tasks = u64::from(tasks);
    let nodes = 2 * tasks + 2;
    let buckets = 32 * nodes + 4 * tasks;
    page.key_line(b"nodes=", nodes);
    page.key_line(b"buckets=", buckets);
}

// What is said of so many tasks, a version and a list.
pub fn planned(page: &mut Page<'_>, tasks: u32, version: u32, calls: Calls)
    ensures { Appends (plan_lines tasks version (list_of calls)) page.old page.new }
{
    if tasks < 1 || 8 < tasks {
        return page.refusal(1);
    }
    match planner::plan(version, calls) {
        Ok(figures) => {
            sizes(page, tasks);
            figures_lines(page, &figures[..calls.count]);
        }
        Err(r) => page.refusal(r.number()),
    }
}
