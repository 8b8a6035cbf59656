// A name with a number, printed on a page (session_bytes). A page that is full at the end may lack some bytes.
#![tactic(auto, using(crate::proofs::Laws::printing))]

ghost use Rattle.dump_text.specs.Within.{Within};

use session_bytes::Page;

// A name and a number.
pub fn field(page: &mut Page<'_>, name: &str, n: u32)
    ensures { Within page.old page.new }
{
    page.bytes(name.as_bytes());
    page.number(u64::from(n));
}

// A name and the number of the record that a link names; nothing for an empty link.
pub fn record_field(page: &mut Page<'_>, name: &str, link: u32)
    ensures { Within page.old page.new }
{
    if let Some(k) = link.checked_sub(1) {
        field(page, name, k);
    }
}
