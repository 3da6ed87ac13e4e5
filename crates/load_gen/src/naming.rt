ghost use Rattle.std.specs.Prelude.{◌≡◌, ◌∷◌, [], ◌<◌, ◌^◌, ◌&&◌, nat_le, codes, true, IfOk, length};
ghost use Rattle.ctrl_model.specs.NameForm.{is_name};
ghost use Rattle.load_gen.specs.LoadCommands.{numbered, two_attributes, with_attributes, everything};

use ctrl_model::{Instance, Name, NameFault, Names, Side};
use std::alloc::{AllocError, Global};

// The name of a letter and a number.
pub(crate) fn numbered(alloc: Global, letter: &str, number: u32) -> Result<Name, AllocError>
    requires { (is_name letter.now && nat_le (length letter.now) 10) ≡ true }
    ensures { IfOk result (λ n. n ≡ numbered letter.now number) }
{
    let text = format!(in alloc; "{letter}{number}")?;
    match Name::of(alloc, text.as_bytes()) {
        Ok(name) => Ok(name),
        Err(NameFault::NoMemory) => Err(AllocError),
        Err(NameFault::BadName) => unreachable!(),
    }
}

// One attribute.
pub(crate) fn one_attribute(alloc: Global, letter: &str, number: u32) -> Result<Names, AllocError>
    requires { (is_name letter.now && nat_le (length letter.now) 10) ≡ true }
    ensures { IfOk result (λ ns. ns ≡ numbered letter.now number ∷ []) }
{
    let mut items = Vec::new(alloc);
    items.push(numbered(alloc, letter, number)?)?;
    Ok(Names::of(items))
}

// The attributes of an identity.
pub(crate) fn two_attributes(alloc: Global, g: u32, h: u32) -> Result<Names, AllocError>
    ensures { IfOk result (λ ns. ns ≡ two_attributes g h) }
{
    let mut items = Vec::new(alloc);
    items.push(numbered(alloc, "g", g)?)?;
    items.push(numbered(alloc, "h", h)?)?;
    Ok(Names::of(items))
}

// The side that has these attributes.
pub(crate) fn with_attributes(alloc: Global, attributes: Names) -> Side
    ensures { result ≡ with_attributes attributes }
{
    Side {
        all: false,
        ids: Names::of(Vec::new(alloc)),
        attributes,
    }
}

// The side of all.
pub(crate) fn everything(alloc: Global) -> Side
    ensures { result ≡ everything }
{
    Side {
        all: true,
        ids: Names::of(Vec::new(alloc)),
        attributes: Names::of(Vec::new(alloc)),
    }
}

// The empty instance.
pub(crate) fn no_instance(alloc: Global) -> Result<Instance, AllocError>
    ensures { IfOk result (λ i. i ≡ []) }
{
    match Instance::of(alloc, &[]) {
        Ok(instance) => Ok(instance),
        Err(NameFault::NoMemory) => Err(AllocError),
        Err(NameFault::BadName) => unreachable!(),
    }
}
