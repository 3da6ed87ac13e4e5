ghost use Rattle.std.specs.Prelude.{◌≡◌};
ghost use Rattle.ctrl_model.specs.InterceptForm.{same_ports};

use crate::addresses::Addresses;
use crate::items::{Copies, Items};
use std::alloc::AllocError;

/// The ports from one to another, both included: 1 to 65,535, and the lowest is not above the highest.
#[derive(Clone, Copy, PartialEq, Eq)]
pub struct PortRange {
    pub low: u16,
    pub high: u16,
}

impl PortRange {
    /// Whether it is the same range as another.
    pub fn is_same(&self, other: &PortRange) -> bool
        ensures { result ≡ same_ports self.now other.now }
    {
        self.low == other.low && self.high == other.high
    }
}

impl Copies for PortRange {
    fn copy(&self) -> Result<PortRange, AllocError> {
        Ok(*self)
    }
}

/// A list of ranges of ports.
pub type PortRanges = Items<PortRange>;

/// The protocols of an intercept.
#[derive(Clone, Copy)]
pub struct ProtocolSet {
    pub tcp: bool,
    pub udp: bool,
}

/// What a service claims of the network (docs/RULES.md, "Intercepts"): protocols, addresses and ports.
#[derive(Drop)]
pub struct Intercept {
    pub tcp: bool,
    pub udp: bool,
    pub addresses: Addresses,
    pub ports: PortRanges,
}

impl Copies for Intercept {
    fn copy(&self) -> Result<Intercept, AllocError> {
        let addresses = self.addresses.copy()?;
        let ports = self.ports.copy()?;
        Ok(Intercept {
            tcp: self.tcp,
            udp: self.udp,
            addresses,
            ports,
        })
    }
}
