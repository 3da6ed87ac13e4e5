ghost use Rattle.std.specs.Prelude.{◌≡◌, ◌↔◌, true, false, IfOk, IsErrOf};
ghost use Rattle.std.specs.List.{list_all};
ghost use Rattle.ctrl_model.specs.NameForm.{is_name, is_name_byte, is_instance};

use crate::items::{Copies, Items};
use crate::limits::LONGEST_NAME;
use std::alloc::{AllocError, Global};
use std::marker::Model;
use thiserror::Error;

/// A name of an entity, a link, a policy or an attribute: 1 to 64 bytes of `A-Z a-z 0-9 . _ -` (docs/RULES.md, "Names").
///
/// Contracts see a name as the list of its bytes.
#[derive(Drop)]
pub struct Name {
    bytes: Vec<u8>,
}

impl Model for Name {
    ghost use Rattle.std.specs.Prelude.{List, ℕ, ◌≡◌, true};
    ghost use Rattle.ctrl_model.specs.NameForm.{is_name};

    ghost Value = { List ℕ };

    ghost view = { λ n. n.bytes.items };

    ghost invariant = { λ n. is_name n.bytes.items ≡ true };
}

/// Why bytes are no name and no instance.
#[derive(Clone, Copy, Debug, PartialEq, Eq, Error)]
pub enum NameFault {
    /// The bytes are not of the form.
    #[error("the bytes are no name")]
    BadName,
    /// There is no memory for a copy of them.
    #[error("no memory")]
    NoMemory,
}

impl From<AllocError> for NameFault {
    ghost use Rattle.std.specs.Prelude.{◌≡◌};
    ghost use Rattle.ctrl_model.specs.declared.texts.NameFault.TheVariants.{NoMemory};

    ghost from_gives = { λ _ e. e ≡ NoMemory };

    fn from(_error: AllocError) -> NameFault {
        NameFault::NoMemory
    }
}

fn is_name_byte(byte: u8) -> bool
    ensures { result ≡ is_name_byte byte }
{
    byte.is_ascii_alphanumeric() || byte == b'.' || byte == b'_' || byte == b'-'
}

fn all_of_names(bytes: &[u8]) -> bool
    ensures { result ≡ list_all is_name_byte bytes.now }
{
    bytes.iter().all(|byte| is_name_byte(*byte))
}

impl Name {
    /// Whether the bytes are a name. No memory is taken.
    pub fn is(bytes: &[u8]) -> bool
        ensures form { result ≡ is_name bytes.now }
    {
        !bytes.is_empty() && bytes.len() <= LONGEST_NAME && all_of_names(bytes)
    }

    /// The name that the bytes are.
    ///
    /// `BadName` comes exactly where the bytes are no name; else only memory can be wanting.
    pub fn of(alloc: Global, bytes: &[u8]) -> Result<Name, NameFault>
        ensures named { IfOk result (λ name. (name ≡ bytes.now) × (is_name bytes.now ≡ true)) }
        ensures bad { IsErrOf result NameFault.BadName ↔ (is_name bytes.now ≡ false) }
    {
        if !Name::is(bytes) {
            return Err(NameFault::BadName);
        }
        let bytes = Vec::from_slice(alloc, bytes)?;
        Ok(Name { bytes })
    }

    /// The bytes of the name.
    pub fn bytes(&self) -> &[u8]
        ensures value { result.now ≡ self.now }
        ensures form { is_name self.now ≡ true }
    {
        self.bytes.as_slice()
    }
}

impl Copies for Name {
    fn copy(&self) -> Result<Name, AllocError> {
        let bytes = Vec::from_slice(*self.bytes.allocator(), self.bytes.as_slice())?;
        Ok(Name { bytes })
    }
}

/// The instance of a terminator: a name, or the empty text.
///
/// Contracts see an instance as the list of its bytes.
#[derive(Drop)]
pub struct Instance {
    bytes: Vec<u8>,
}

impl Model for Instance {
    ghost use Rattle.std.specs.Prelude.{List, ℕ, ◌≡◌, true};
    ghost use Rattle.ctrl_model.specs.NameForm.{is_instance};

    ghost Value = { List ℕ };

    ghost view = { λ i. i.bytes.items };

    ghost invariant = { λ i. is_instance i.bytes.items ≡ true };
}

impl Instance {
    /// Whether the bytes are an instance. No memory is taken.
    pub fn is(bytes: &[u8]) -> bool
        ensures form { result ≡ is_instance bytes.now }
    {
        bytes.is_empty() || Name::is(bytes)
    }

    /// The instance that the bytes are.
    ///
    /// `BadName` comes exactly where the bytes are not empty and no name; else only memory can be wanting.
    pub fn of(alloc: Global, bytes: &[u8]) -> Result<Instance, NameFault>
        ensures named { IfOk result (λ instance. (instance ≡ bytes.now) × (is_instance bytes.now ≡ true)) }
        ensures bad { IsErrOf result NameFault.BadName ↔ (is_instance bytes.now ≡ false) }
    {
        if !Instance::is(bytes) {
            return Err(NameFault::BadName);
        }
        let bytes = Vec::from_slice(alloc, bytes)?;
        Ok(Instance { bytes })
    }

    /// The bytes of the instance.
    pub fn bytes(&self) -> &[u8]
        ensures value { result.now ≡ self.now }
        ensures form { is_instance self.now ≡ true }
    {
        self.bytes.as_slice()
    }
}

impl Copies for Instance {
    fn copy(&self) -> Result<Instance, AllocError> {
        let bytes = Vec::from_slice(*self.bytes.allocator(), self.bytes.as_slice())?;
        Ok(Instance { bytes })
    }
}

/// Bytes that stand for themselves, as the body of a frame.
pub type Bytes = Items<u8>;

/// A list of names.
pub type Names = Items<Name>;
