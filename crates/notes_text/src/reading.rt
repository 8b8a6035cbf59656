// An input of notes, line by line: of each lane's notes the first six are kept.
ghost use Rattle.std.specs.Prelude.{◌≡◌, true};
ghost use Rattle.session.specs.Buffer.{buffer, append};
ghost use Rattle.session_bytes.specs.Pages.{Appends};
ghost use Rattle.stdio.specs.Readers.{last_lines};
ghost use Rattle.notes_text.specs.Reading.{add_note, new_reading, add_line, take_line as after_line, answer as answer_of};
ghost use Rattle.notes_text.specs.declared.reading.Reading.{Reading as Standing};
ghost use Rattle.notes_text.specs.Lines.{outside_decides, notes_takes, notes_outside};
ghost use Rattle.notes_text.specs.OutputBound.{answer_bound};

use line_readers::LineReader;
use notes::{Note, NoteLine, Notes};
use session_bytes::Page;
use spec::{Answer, Call};
use stdio::input::Input;

// An input as far as it is read: whether a line was outside the grammar, and both lanes' notes.
#[derive(Clone, Copy)]
pub struct Reading {
    pub outside: bool,
    pub one: Notes,
    pub two: Notes,
}

// A list with a note more. Of a list of more than six the count stays at seven.
#[tactic(auto, unfolding(crate::specs::Reading::add_note))]
fn add(mut l: Notes, x: Note) -> Notes
    ensures { result ≡ add_note l x }
{
    if l.count < 6 {
        l.note[l.count] = x;
        l.count += 1;
    } else {
        l.count = 7;
    }
    l
}

// Nothing is read yet.
#[tactic(auto, unfolding(crate::specs::Reading::new_reading, crate::specs::Reading::no_notes))]
pub fn new_reading() -> Reading
    ensures { result ≡ new_reading }
{
    let x = Note {
        call: Call::Contains,
        tag: 0,
        answer: Answer::No,
    };
    let none = Notes {
        count: 0,
        note: [x; 6],
    };
    Reading {
        outside: false,
        one: none,
        two: none,
    }
}

// What a line says.
#[tactic(auto, unfolding(crate::specs::Reading::add_line))]
fn add_line(r: Reading, said: Option<NoteLine>) -> Reading
    ensures { result ≡ add_line r said }
{
    match said {
        Some(NoteLine::First(x)) => Reading {
            one: add(r.one, x),
            ..r
        },
        Some(NoteLine::Second(x)) => Reading {
            two: add(r.two, x),
            ..r
        },
        None => Reading { outside: true, ..r },
    }
}

// Prints what is said where no more is read.
fn print_answer(page: &mut Page<'_>, r: Reading, p: Input)
    ensures { Appends (answer_of r (last_lines p)) page.old page.new }
{
    if r.outside || stdio::input::cut_off(p) {
        return page.refusal(10);
    }
    crate::print::merged(page, r.one, r.two);
}

// What is printed where no more is read: it is written from the buffer's first byte on, as far as there is room, and its length given.
pub fn finish(r: Reading, p: Input, out: &mut [u8]) -> usize
    ensures { buffer out.new result ≡ append (answer_of r (last_lines p)) (buffer out.old 0) }
{
    let mut page = Page::new(out);
    print_answer(&mut page, r, p);
    page.printed()
}

impl LineReader for Reading {
    ghost Stands = { Standing };

    ghost stands = { λ r first second. r };

    ghost answer = { answer_of };

    ghost next = { after_line };

    ghost decides = { λ r. r.outside };

    ghost most = { 744 };

    #[tactic(auto, unfolding(crate::specs::Reading::take_line))]
    fn take_line(self, _first: &mut [u32], _second: &mut [u32], line: &[u8]) -> Reading {
        add_line(self, crate::parse::line(line))
    }

    fn is_decided(self) -> bool {
        self.outside
    }

    fn finish(self, p: Input, _first: &mut [u32], _second: &mut [u32], out: &mut [u8]) -> usize {
        finish(self, p, out)
    }

    ghost takes = { notes_takes };

    ghost decided = { λ r first second e ls. outside_decides r e ls };

    ghost outside = { notes_outside };

    ghost short = { λ x p. answer_bound x (last_lines p) };
}
