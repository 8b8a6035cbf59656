// Comparing a line, given without its closing byte, with what the machine prints.
ghost use Rattle.std.specs.Prelude.{◌≡◌};
ghost use Rattle.session.specs.Grammar.{equals};
ghost use Rattle.session.specs.Print.{output_line};
ghost use Rattle.session_bytes.specs.Pages.{Appends};
ghost use Rattle.recording.specs.declared.ReaderPhase.TheVariants.{Event as EventDue, Listed};
ghost use Rattle.recording.specs.Recording.{close};
ghost use Rattle.reader_state.specs.Standing.{next_place, after_comparing};
ghost use Rattle.reader_state.specs.ListedLines.{listed_line};

use crate::Reader;
use recording::ReaderPhase;
use session_bytes::Page;
use spec::Output;

// Whether the line is, with byte 10 behind it, what is printed.
pub fn same_line(printed: &[u8], line: &[u8]) -> bool
    ensures { result ≡ equals printed.now (close line.now) }
{
    let n = line.len();
    printed.len() == n + 1 && printed[n] == 10 && session_keys::equals(line, &printed[..n])
}

// The line after an event of task k, which answered o.
pub fn compare_output(r: Reader, k: u32, o: Output, line: &[u8]) -> Reader
    ensures { result ≡ after_comparing (equals (output_line k o) (close line.now)) EventDue r }
{
    let mut w = [0u8; 73];
    let mut page = Page::new(&mut w);
    session_print::output(&mut page, k, o);
    crate::after_comparing(same_line(page.text(), line), ReaderPhase::Event, r)
}

// The line at place k of the listing, where this is printed; nothing is, past its end.
pub fn compare_listed(r: Reader, k: u32, printed: &[u8], line: &[u8]) -> Reader
    ensures { result ≡ after_comparing (equals printed.now (close line.now)) (Listed (next_place k)) r }
{
    let next = ReaderPhase::Listed(crate::next_place(k));
    crate::after_comparing(same_line(printed, line), next, r)
}

// Prints the line at place k of the listing of a head's size and the tags; nothing past its end.
#[tactic(auto, unfolding(crate::specs::ListedLines::listed_line))]
pub fn print_listed(page: &mut Page<'_>, size: u32, ts: &[u32], k: u32)
    ensures { Appends (listed_line size ts.now k) page.old page.new }
{
    match k {
        0 => page.key_line(b"size=", u64::from(size)),
        1 => page.key_line(b"tags=", ts.len() as u64),
        _ => {
            if let Some(tag) = ts.get((k - 2) as usize) {
                page.key_line(b"tag=", u64::from(*tag));
            }
        }
    }
}
