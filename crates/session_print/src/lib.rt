// Printing the lines of a session on a page: each function appends what the definition of that line gives
// (specs/Print); bytes that find no room are left out (specs/Buffer).
#![tactic(auto)]

ghost use Rattle.std.specs.Prelude.{Ok};
ghost use Rattle.spec.specs.declared.Progress.TheVariants.{At, End};
ghost use Rattle.session.specs.Print.{answer_word, occupancy_field, output_line, tag_lines, listing_lines};
ghost use Rattle.session_bytes.specs.Pages.{Appends};

use session_bytes::Page;
use spec::{Answer, Output, Progress};

// An answer's word.
#[tactic(auto, unfolding(session::specs::Print::answer_word))]
pub fn answer(page: &mut Page<'_>, a: Answer)
    ensures { Appends (answer_word a) page.old page.new }
{
    let word: &[u8] = match a {
        Answer::Yes => b"yes",
        Answer::No => b"no",
        Answer::Full => b"full",
        Answer::Done => b"done",
        Answer::Lost => b"lost",
        Answer::Limit => b"limit",
    };
    page.bytes(word);
}

// `at=task,next line`.
#[tactic(auto, using(crate::proofs::Laws::at_parts))]
fn at_line(page: &mut Page<'_>, k: u32, l: u32)
    ensures { Appends (output_line k (Ok (At l))) page.old page.new }
{
    page.keyed(b"at=", u64::from(k), b',');
    page.number(u64::from(l));
    page.byte(b'\n');
}

// The fourth field of an end line, where the number of tags is given.
#[tactic(auto, using(session_bytes::proofs::Laws::parts), unfolding(session::specs::Print::occupancy_field, session::specs::Buffer::append))]
fn occupancy_field(page: &mut Page<'_>, full: Option<u32>)
    ensures { Appends (occupancy_field full) page.old page.new }
{
    if let Some(n) = full {
        page.byte(b',');
        page.number(u64::from(n));
    }
}

// `end=task,answer,own steps`, and for an insert or a remove `,number of tags`.
#[tactic(auto, using(crate::proofs::Laws::end_parts))]
fn end_line(page: &mut Page<'_>, k: u32, w: Answer, own: u16, full: Option<u32>)
    ensures { Appends (output_line k (Ok (End w own full))) page.old page.new }
{
    page.keyed(b"end=", u64::from(k), b',');
    answer(page, w);
    page.byte(b',');
    page.number(u64::from(own));
    occupancy_field(page, full);
    page.byte(b'\n');
}

// The line for what task k's start or step answered.
#[tactic(auto, unfolding(session::specs::Print::output_line))]
pub fn output(page: &mut Page<'_>, k: u32, o: Output)
    ensures { Appends (output_line k o) page.old page.new }
{
    match o {
        Ok(Progress::At(l)) => at_line(page, k, l),
        Ok(Progress::End(a, own, full)) => end_line(page, k, a, own, full),
        Err(why) => page.refusal(why.number()),
    }
}

// A `tag=` line for each tag.
#[tactic(auto, using(crate::proofs::Laws::tags_on, crate::proofs::Laws::tags_end))]
fn tags(page: &mut Page<'_>, ts: &[u32])
    ensures { Appends (tag_lines ts.now) page.old page.new }
{
    for t in ts {
        page.key_line(b"tag=", u64::from(*t));
    }
}

// The final listing: `size=`, `tags=` and a `tag=` line for each tag.
#[tactic(auto, using(session_bytes::proofs::Laws::parts), unfolding(session::specs::Print::listing_lines))]
pub fn listing(page: &mut Page<'_>, size: u32, ts: &[u32])
    ensures { Appends (listing_lines size ts.now) page.old page.new }
{
    page.key_line(b"size=", u64::from(size));
    page.key_line(b"tags=", ts.len() as u64);
    tags(page, ts);
}
