use crate::items::{Copies, Items};
use crate::numbering::{Numbers, RouterNo, TermNo};
use std::alloc::AllocError;

/// The least costs of paths from each of some routers to one of them. `u64::MAX` stands for a router without a path,
/// which JSON writes as `null`.
pub type Potentials = Items<u64>;

/// The least costs of paths to one router.
#[derive(Drop)]
pub struct Reach {
    pub router: RouterNo,
    pub values: Potentials,
}

impl Copies for Reach {
    fn copy(&self) -> Result<Reach, AllocError> {
        let values = self.values.copy()?;
        Ok(Reach {
            router: self.router,
            values,
        })
    }
}

/// A list of such entries.
pub type Reaches = Items<Reach>;

/// A route with what shows that it is the least: the numbers of all routers, and for each router that carries a
/// terminator of the route's precedence or a better one the least costs of paths to it.
#[derive(Drop)]
pub struct Explanation {
    pub ingress: RouterNo,
    pub links: Numbers,
    pub potentials: Reaches,
    pub routers: Numbers,
    pub terminator: TermNo,
    pub total: u32,
}
