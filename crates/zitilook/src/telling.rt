ghost use Rattle.std.specs.Prelude.{◌≡◌, true, IfOk};
ghost use Rattle.std.specs.Option.{option_map};
ghost use Rattle.ctrl_model.specs.NameForm.{is_name};
ghost use Rattle.ctrl_model.specs.ValidState.{ValidState};
ghost use Rattle.access_reasons.specs.ReasonLines.{lines_of as reason_lines};
ghost use Rattle.access_reasons.specs.Reasons.{who, why};
ghost use Rattle.access_reasons.specs.StateStores.{AreStoresOf};
ghost use Rattle.dump_lines.specs.Dumps.{dump_lines};
ghost use Rattle.network_picture.specs.Pictures.{picture_asked as asked_picture, picture_of as whole_picture};
ghost use Rattle.record_lines.specs.RecordLines.{lines_asked, lines_of};
ghost use Rattle.zitilook.specs.LookedTexts.{HasNames, asked_name, text_of};
ghost use Rattle.zitilook.specs.OpenedRows.{IsOpened};

use crate::opening::rows_opened;
use access_reasons::{Stores, lines, who, why};
use ctrl_core::Core;
use ctrl_model::{Bytes, Format, Name, NameFault, Relation};
use dump_lines::dump;
use network_picture::{picture, picture_asked};
use record_lines::{Listed, list, show};
use row_codec::Batch;
use std::alloc::{AllocError, Global};

/// What is asked of the state of a folder that is looked at.
#[derive(Clone, Copy)]
pub enum Look<'a> {
    /// The lines of the records of a kind, or of the intercepts.
    Lines(Listed),
    /// The line of one of them, by its name, or by its number where it has none.
    Line { listed: Listed, name: &'a str },
    /// The lines on why an identity can or cannot reach a service, by their names.
    Why { identity: &'a str, service: &'a str },
    /// The lines on who is granted Dial on a service, by its name.
    Who { service: &'a str },
    /// The lines of the commands that make the like of the state.
    Dump,
    /// The picture of the network.
    Picture,
    /// That picture with the way of a circuit marked, by its number.
    PictureOf { circuit: &'a str },
}

/// The name by which one record is asked for, if one is.
pub fn asked_name<'a>(look: &Look<'a>) -> Option<&'a str>
    ensures { option_map (λ n. n.now) result ≡ asked_name look.now }
{
    match look {
        Look::Line { name, .. } => Some(name),
        Look::PictureOf { circuit } => Some(circuit),
        _ => None,
    }
}

// The name that a word is.
fn name_of(alloc: Global, word: &str) -> Result<Name, AllocError>
    requires { is_name word.now ≡ true }
    ensures { IfOk result (λ name. name ≡ word.now) }
{
    match Name::of(alloc, word.as_bytes()) {
        Ok(name) => Ok(name),
        Err(NameFault::NoMemory) => Err(AllocError),
        Err(NameFault::BadName) => unreachable!(),
    }
}

// The stores of a core that say who reaches which service.
fn stores_of<'a>(core: &'a Core) -> Stores<'a>
    requires { core.now.live ≡ true }
    ensures { AreStoresOf result core.now.state }
{
    Stores {
        entities: core.entities(),
        policies: core.policies(),
        fabric: core.fabric(),
        terminators: core.terminators(),
        dial: core.counted(Relation::Dial),
        bind: core.counted(Relation::Bind),
        identity_router: core.counted(Relation::IdentityRouter),
        service_router: core.counted(Relation::ServiceRouter),
        circuits_full: core.circuits_full(),
    }
}

// The lines on why an identity can or cannot reach a service, in the state of a core.
fn why_in(alloc: Global, core: &Core, identity: &str, service: &str) -> Result<Bytes, AllocError>
    requires live { core.now.live ≡ true }
    requires valid { ValidState core.now.state }
    requires identity { is_name identity.now ≡ true }
    requires service { is_name service.now ≡ true }
    ensures { IfOk result (λ text. text ≡ reason_lines (why core.now.state identity.now service.now)) }
{
    let identity = name_of(alloc, identity)?;
    let service = name_of(alloc, service)?;
    let stores = stores_of(core);
    let findings = why(alloc, &stores, &identity, &service)?;
    lines(alloc, &findings)
}

// The lines on who is granted Dial on a service, in the state of a core.
fn who_in(alloc: Global, core: &Core, service: &str) -> Result<Bytes, AllocError>
    requires live { core.now.live ≡ true }
    requires service { is_name service.now ≡ true }
    ensures { IfOk result (λ text. text ≡ reason_lines (who core.now.state service.now)) }
{
    let service = name_of(alloc, service)?;
    let stores = stores_of(core);
    let findings = who(alloc, &stores, &service)?;
    lines(alloc, &findings)
}

// The lines of what is listed of what a folder opened to, which is let go.
fn list_of(
    alloc: Global,
    core: Core,
    format: Format,
    puts: Batch,
    listed: Listed,
) -> Result<Bytes, AllocError>
    requires { IsOpened core format puts }
    ensures { IfOk result (λ text. text ≡ lines_of listed core.state) }
{
    let rows = rows_opened(alloc, core, format, puts)?;
    list(alloc, rows.as_slice(), listed)
}

// The line of one of what is listed of what a folder opened to, which is let go.
fn show_of(
    alloc: Global,
    core: Core,
    format: Format,
    puts: Batch,
    listed: Listed,
    name: &str,
) -> Result<Bytes, AllocError>
    requires { IsOpened core format puts }
    ensures { IfOk result (λ text. text ≡ lines_asked listed name.now core.state) }
{
    let rows = rows_opened(alloc, core, format, puts)?;
    show(alloc, rows.as_slice(), listed, name.as_bytes())
}

// The lines on why an identity can or cannot reach a service in the state of a core, which is let go.
fn why_of(alloc: Global, core: Core, identity: &str, service: &str) -> Result<Bytes, AllocError>
    requires live { core.live ≡ true }
    requires valid { ValidState core.state }
    requires identity { is_name identity.now ≡ true }
    requires service { is_name service.now ≡ true }
    ensures { IfOk result (λ text. text ≡ reason_lines (why core.state identity.now service.now)) }
{
    let text = why_in(alloc, &core, identity, service);
    drop(core);
    text
}

// The lines on who is granted Dial on a service in the state of a core, which is let go.
fn who_of(alloc: Global, core: Core, service: &str) -> Result<Bytes, AllocError>
    requires live { core.live ≡ true }
    requires service { is_name service.now ≡ true }
    ensures { IfOk result (λ text. text ≡ reason_lines (who core.state service.now)) }
{
    let text = who_in(alloc, &core, service);
    drop(core);
    text
}

// The lines of the commands that make the like of what a folder opened to, which is let go.
fn dump_of(alloc: Global, core: Core, format: Format, puts: Batch) -> Result<Bytes, AllocError>
    requires { IsOpened core format puts }
    ensures { IfOk result (λ text. text ≡ dump_lines core.state) }
{
    let rows = rows_opened(alloc, core, format, puts)?;
    dump(alloc, rows.as_slice())
}

// The picture of what a folder opened to, which is let go.
fn picture_of(alloc: Global, core: Core, format: Format, puts: Batch) -> Result<Bytes, AllocError>
    requires { IsOpened core format puts }
    ensures { IfOk result (λ text. text ≡ whole_picture core.state) }
{
    let rows = rows_opened(alloc, core, format, puts)?;
    picture(alloc, rows.as_slice())
}

// The picture of what a folder opened to, which is let go, with the way of a circuit marked.
fn picture_asked_of(
    alloc: Global,
    core: Core,
    format: Format,
    puts: Batch,
    circuit: &str,
) -> Result<Bytes, AllocError>
    requires { IsOpened core format puts }
    ensures { IfOk result (λ text. text ≡ asked_picture circuit.now core.state) }
{
    let rows = rows_opened(alloc, core, format, puts)?;
    picture_asked(alloc, rows.as_slice(), circuit.as_bytes())
}

/// The text that is asked for of what a folder opened to, which is let go.
pub fn text_of(
    alloc: Global,
    look: &Look,
    core: Core,
    format: Format,
    puts: Batch,
) -> Result<Bytes, AllocError>
    requires opened { IsOpened core format puts }
    requires names { HasNames look.now }
    ensures { IfOk result (λ text. text ≡ text_of look.now core.state) }
{
    match look {
        Look::Lines(listed) => list_of(alloc, core, format, puts, *listed),
        Look::Line { listed, name } => show_of(alloc, core, format, puts, *listed, name),
        Look::Why { identity, service } => why_of(alloc, core, identity, service),
        Look::Who { service } => who_of(alloc, core, service),
        Look::Dump => dump_of(alloc, core, format, puts),
        Look::Picture => picture_of(alloc, core, format, puts),
        Look::PictureOf { circuit } => picture_asked_of(alloc, core, format, puts, circuit),
    }
}
