ghost use Rattle.std.specs.Prelude.{◌≡◌, filter, IfOk};
ghost use Rattle.ctrl_model.specs.Numbered.{numbers};
ghost use Rattle.terminators.specs.NamedTerms.{stands_on};

use crate::kept::KeptTerm;
use crate::offers::Term;
use ctrl_model::{Kind, Numbers};
use record_tables::NumberedTable;
use std::alloc::{AllocError, Global};

// Whether a terminator stands on an entity of a kind and number: on its host, its service or its router.
fn stands_on(term: &Term, kind: Kind, number: u32) -> bool
    ensures { result ≡ stands_on kind number term.now }
{
    match kind {
        Kind::Identity => match term.host {
            Some(host) => host.0 == number,
            None => false,
        },
        Kind::Service => term.service.0 == number,
        Kind::Router => term.router.0 == number,
        _ => false,
    }
}

/// The numbers of the terminators that stand on an entity of a kind and number, ascending.
pub fn standing_in(
    alloc: Global,
    terms: &NumberedTable<KeptTerm>,
    kind: Kind,
    number: u32,
) -> Result<Numbers, AllocError>
    ensures { IfOk result (λ ns. ns ≡ numbers (filter (λ row. stands_on kind number row.1.term) terms.now.rows)) }
{
    let mut standing = Vec::new(alloc);
    'terms: for (place, kept) in terms.rows() {
        if stands_on(&kept.term, kind, number) {
            standing.push(*place)?;
        }
    }
    Ok(Numbers::of(standing))
}
