ghost use Rattle.std.specs.Prelude.{◌≡◌, true, false, [], Ok, OnOk};
ghost use Rattle.ctrl_model.specs.declared.kinds.Kind.TheVariants as kind;
ghost use Rattle.ctrl_model.specs.ValueForms.{is_cost};
ghost use Rattle.entity_store.specs.AttributeUses.{has_attribute_room};
ghost use Rattle.entity_store.specs.EntityTables.{with_attributes, with_entity, with_router};
ghost use Rattle.entity_store.specs.TableRules.{attributes_at, is_there, may_add};
ghost use Rattle.entity_commands.specs.EntityChanges.{CanChangeEntities, after_entity_change};

use ctrl_model::{Kind, Name, Names, RouterNo};
use entity_store::{Entities, EntityChange};
use std::alloc::AllocError;

fn add_router(
    entities: &mut Entities,
    name: &Name,
    attributes: &Names,
    cost: u32,
    through: bool,
) -> Result<(), AllocError>
    requires may { may_add kind.Router name.now entities.old ≡ Ok tt }
    requires room { has_attribute_room entities.old [] attributes.now ≡ true }
    requires cost { is_cost cost ≡ true }
    ensures { OnOk result (entities.new ≡ with_router entities.old.routers.next cost through false (with_entity kind.Router name.now attributes.now entities.old)) }
{
    let number = entities.next(Kind::Router);
    entities.add(Kind::Router, name, attributes)?;
    entities.set_router(RouterNo(number), cost, through, false);
    Ok(())
}

fn describe_router(
    entities: &mut Entities,
    number: u32,
    attributes: &Names,
    cost: u32,
    through: bool,
    connected: bool,
) -> Result<(), AllocError>
    requires there { is_there kind.Router number entities.old ≡ true }
    requires room { has_attribute_room entities.old (attributes_at kind.Router number entities.old) attributes.now ≡ true }
    requires cost { is_cost cost ≡ true }
    ensures { OnOk result (entities.new ≡ with_router number cost through connected (with_attributes kind.Router number attributes.now entities.old)) }
{
    entities.update(Kind::Router, number, attributes)?;
    entities.set_router(RouterNo(number), cost, through, connected);
    Ok(())
}

/// Makes a change of the entities. Of a change that fails for want of memory nothing is said.
pub fn apply_entity_change(entities: &mut Entities, change: &EntityChange) -> Result<(), AllocError>
    requires { CanChangeEntities change.now entities.old }
    ensures { OnOk result (entities.new ≡ after_entity_change change.now entities.old) }
{
    match change {
        EntityChange::Add {
            kind,
            name,
            attributes,
        } => {
            entities.add(*kind, name, attributes)?;
        }
        EntityChange::AddRouter {
            name,
            attributes,
            cost,
            through,
        } => add_router(entities, name, attributes, *cost, *through)?,
        EntityChange::Describe {
            kind,
            number,
            attributes,
        } => entities.update(*kind, *number, attributes)?,
        EntityChange::DescribeRouter {
            number,
            attributes,
            cost,
            through,
            connected,
        } => describe_router(entities, *number, attributes, *cost, *through, *connected)?,
        EntityChange::Mark {
            number,
            cost,
            through,
            connected,
        } => entities.set_router(RouterNo(*number), *cost, *through, *connected),
        EntityChange::Remove { kind, number, .. } => entities.remove(*kind, *number),
    }
    Ok(())
}
