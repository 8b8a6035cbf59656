// An input, line by line: of the calls the first 64 are kept.
ghost use Rattle.std.specs.Prelude.{◌≡◌, true};
ghost use Rattle.session.specs.Buffer.{buffer, append};
ghost use Rattle.session_bytes.specs.Pages.{Appends};
ghost use Rattle.stdio.specs.Readers.{last_lines};
ghost use Rattle.plan_text.specs.Text.{in_grammar};
ghost use Rattle.plan_text.specs.Reading.{add_call, new_reading, add_line, take_line as after_line, answer as answer_of, decided as fixed};
ghost use Rattle.plan_text.specs.declared.reading.Reading.{Reading as Standing};
ghost use Rattle.plan_text.specs.Lines.{plan_decides, plan_takes, plan_outside};
ghost use Rattle.plan_text.specs.OutputBound.{answer_bound};

use crate::{Due, PlanLine};
use line_readers::LineReader;
use plans::{Calls, Planned};
use session_bytes::Page;
use spec::Call;
use stdio::input::Input;

// An input as far as it is read: which line is due (none after a line outside the grammar), T, the version, the calls.
#[derive(Clone, Copy)]
pub struct Reading {
    pub due: Option<Due>,
    pub tasks: u32,
    pub version: u32,
    pub calls: Calls,
}

// A list with a call more. Of a list of more than 64 the count stays at 65.
#[tactic(auto, unfolding(crate::specs::Reading::add_call))]
fn add(mut l: Calls, c: Planned) -> Calls
    ensures { result ≡ add_call l c }
{
    if l.count < 64 {
        l.call[l.count] = c;
        l.count += 1;
    } else {
        l.count = 65;
    }
    l
}

// Nothing is read yet.
#[tactic(auto, unfolding(crate::specs::Reading::new_reading, crate::specs::Reading::no_calls))]
pub fn new_reading() -> Reading
    ensures { result ≡ new_reading }
{
    let c = Planned {
        call: Call::Contains,
        tag: 0,
    };
    Reading {
        due: Some(Due::Tasks),
        tasks: 0,
        version: 1,
        calls: Calls {
            count: 0,
            call: [c; 64],
        },
    }
}

// What a line says.
#[tactic(auto, unfolding(crate::specs::Reading::add_line))]
fn add_line(r: Reading, said: Option<PlanLine>) -> Reading
    ensures { result ≡ add_line r said }
{
    match said {
        Some(PlanLine::Tasks(tasks)) => Reading {
            due: Some(Due::Version),
            tasks,
            ..r
        },
        Some(PlanLine::Version(version)) => Reading {
            due: Some(Due::Call),
            version,
            ..r
        },
        Some(PlanLine::Call(c)) => Reading {
            due: Some(Due::Call),
            calls: add(r.calls, c),
            ..r
        },
        None => Reading { due: None, ..r },
    }
}

// Whether the answer is fixed: a line was outside the grammar.
#[tactic(auto, unfolding(crate::specs::Reading::decided))]
pub fn decided(due: Option<Due>) -> bool
    ensures { result ≡ fixed due }
{
    due.is_none()
}

// Whether an input may end where this line is due.
#[tactic(auto, unfolding(crate::specs::Text::in_grammar))]
fn in_grammar(due: Option<Due>) -> bool
    ensures { result ≡ in_grammar due }
{
    matches!(due, Some(Due::Version | Due::Call))
}

// Prints what is said where no more is read.
fn print_answer(page: &mut Page<'_>, r: Reading, p: Input)
    ensures { Appends (answer_of r (last_lines p)) page.old page.new }
{
    if stdio::input::cut_off(p) || !in_grammar(r.due) {
        return page.refusal(10);
    }
    crate::print::planned(page, r.tasks, r.version, r.calls);
}

// What is printed where no more is read: it is written from the buffer's first byte on, as far as there is room, and its length given.
pub fn finish(r: Reading, p: Input, out: &mut [u8]) -> usize
    ensures { buffer out.new result ≡ append (answer_of r (last_lines p)) (buffer out.old 0) }
{
    let mut page = Page::new(out);
    print_answer(&mut page, r, p);
    page.printed()
}

impl LineReader for Reading {
    ghost Stands = { Standing };

    ghost stands = { λ r first second. r };

    ghost answer = { answer_of };

    ghost next = { after_line };

    ghost decides = { λ r. fixed r.due };

    ghost most = { 3448 };

    #[tactic(auto, unfolding(crate::specs::Reading::take_line))]
    fn take_line(self, _first: &mut [u32], _second: &mut [u32], line: &[u8]) -> Reading {
        add_line(self, crate::parse::line(self.due, line))
    }

    fn is_decided(self) -> bool {
        decided(self.due)
    }

    fn finish(self, p: Input, _first: &mut [u32], _second: &mut [u32], out: &mut [u8]) -> usize {
        finish(self, p, out)
    }

    ghost takes = { plan_takes };

    ghost decided = { λ r first second e ls. plan_decides r e ls };

    ghost outside = { plan_outside };

    ghost short = { λ x p. answer_bound x (last_lines p) };
}
