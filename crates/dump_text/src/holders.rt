// Who holds a record: the head, a task by one of its variables, a held node by its predecessor or a place.
#![tactic(auto, using(crate::proofs::Laws::printing))]

ghost use Rattle.dump_text.specs.Within.{Within};

use crate::print::field;
use crate::tasks::VARIABLES;
use crate::words::{Kind, Set};
use session_bytes::Page;

fn by_head(page: &mut Page<'_>, set: Set<'_>, kind: Kind, link: u32)
    ensures { Within page.old page.new }
{
    if kind == Kind::Node && set.head() == pool::number_of(link) {
        page.bytes(b"; held as head");
    }
}

// Tasks that name it. An idle task's words are empty.
fn by_tasks(page: &mut Page<'_>, set: Set<'_>, kind: Kind, link: u32)
    ensures { Within page.old page.new }
{
    for k in 0..crate::tasks::MOST_TASKS {
        for v in VARIABLES {
            if v.kind() == Some(kind) && v.of_task(set, k) == link {
                page.bytes(b"; held as ");
                page.bytes(v.name().as_bytes());
                field(page, " of task ", k);
            }
        }
    }
}

// A held node that names it: a node as its predecessor, a bucket in a place.
fn by_node(page: &mut Page<'_>, nodes: &[u32], k: u32, kind: Kind, link: u32)
    ensures { Within page.old page.new }
{
    match kind {
        Kind::Node => {
            if pool::pred_at(nodes, k) == link {
                field(page, "; held as predecessor of node ", k);
            }
        }
        Kind::Bucket => {
            for i in 0..pool::PLACES {
                if pool::place_at(nodes, k, i) == link {
                    field(page, "; held as place ", i);
                    field(page, " of node ", k);
                }
            }
        }
    }
}

// Held nodes that name it.
fn by_nodes(page: &mut Page<'_>, set: Set<'_>, kind: Kind, link: u32)
    ensures { Within page.old page.new }
{
    for k in 0..pool::MOST_NODES {
        if set.is_held(Kind::Node, k) {
            by_node(page, set.nodes, k, kind, link);
        }
    }
}

// All that hold the record of a kind that a link names, and the end of the line.
pub fn holders(page: &mut Page<'_>, set: Set<'_>, kind: Kind, link: u32)
    ensures { Within page.old page.new }
{
    by_head(page, set, kind, link);
    by_tasks(page, set, kind, link);
    by_nodes(page, set, kind, link);
    page.bytes(b"\n");
}
