ghost use Rattle.std.specs.Prelude.{◌≡◌, filter, IfOk};
ghost use Rattle.ctrl_model.specs.Numbered.{numbers};
ghost use Rattle.fabric_graph.specs.LinkEnds.{is_at};

use crate::links::LinkRow;
use ctrl_model::{Numbers, RouterNo};
use record_tables::NamedTable;
use std::alloc::{AllocError, Global};

// Whether a link ends at a router.
fn is_at(link: &LinkRow, router: RouterNo) -> bool
    ensures { result ≡ is_at router.0 link.now }
{
    link.a.0 == router.0 || link.b.0 == router.0
}

/// The numbers of the links that end at a router, ascending.
pub fn links_at(
    alloc: Global,
    links: &NamedTable<LinkRow>,
    router: RouterNo,
) -> Result<Numbers, AllocError>
    ensures { IfOk result (λ ns. ns ≡ numbers (filter (λ row. is_at router.0 row.1) links.now.rows)) }
{
    let mut found = Vec::new(alloc);
    'links: for (number, link) in links.rows() {
        if is_at(link, router) {
            found.push(*number)?;
        }
    }
    Ok(Numbers::of(found))
}
