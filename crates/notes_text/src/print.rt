// Printing notes and what is said of two lists on a page, over the printer of a session's lines: each function appends what its definition
// gives; bytes that find no room are left out.
ghost use Rattle.std.specs.Prelude.{◌≡◌};
ghost use Rattle.session_bytes.specs.Pages.{Appends};
ghost use Rattle.notes.specs.Merge.{list_of, number_of};
ghost use Rattle.notes.specs.Text.{call_field, note_line, merge_lines};
ghost use Rattle.notes_text.specs.Printing.{lane_lines};

use notes::{Lane, Note, Notes, Unfit};
use session_bytes::Page;
use spec::Call;

// A call, with its tag if it has one.
#[tactic(auto, unfolding(notes::specs::Text::call_field))]
fn call_field(page: &mut Page<'_>, call: Call, tag: u32)
    ensures { Appends (call_field call tag) page.old page.new }
{
    match call {
        Call::Insert => page.keyed(b"insert,", u64::from(tag), b','),
        Call::Remove => page.keyed(b"remove,", u64::from(tag), b','),
        Call::Contains => page.keyed(b"contains,", u64::from(tag), b','),
        Call::Grow => page.bytes(b"grow,"),
        Call::Shrink => page.bytes(b"shrink,"),
    }
}

// A lane's note.
fn note(page: &mut Page<'_>, lane: Lane, x: Note)
    ensures { Appends (note_line (number_of lane) x) page.old page.new }
{
    page.keyed(b"note=", lane.number(), b',');
    call_field(page, x.call, x.tag);
    session_print::answer(page, x.answer);
    page.byte(b'\n');
}

// The calls of both lists in the order of these lanes, as far as they go.
fn order(page: &mut Page<'_>, lanes: [Option<Lane>; 12], a: &[Note], b: &[Note])
    ensures { Appends (lane_lines lanes a.now b.now) page.old page.new }
{
    let mut firsts = a;
    let mut seconds = b;
    for lane in lanes {
        let Some(lane) = lane else {
            return;
        };
        match lane {
            Lane::First => {
                let Some((x, rest)) = firsts.split_first() else {
                    return;
                };
                note(page, lane, *x);
                firsts = rest;
            }
            Lane::Second => {
                let Some((x, rest)) = seconds.split_first() else {
                    return;
                };
                note(page, lane, *x);
                seconds = rest;
            }
        }
    }
}

// What is said of both lists.
pub fn merged(page: &mut Page<'_>, a: Notes, b: Notes)
    ensures { Appends (merge_lines (list_of a) (list_of b)) page.old page.new }
{
    match merge::merge(a, b) {
        Ok(Some(lanes)) => order(page, lanes, &a.note[..a.count], &b.note[..b.count]),
        Ok(None) => page.bytes(b"none\n"),
        Err(Unfit::LongerOrResize) => page.refusal(13),
    }
}
