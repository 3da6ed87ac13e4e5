ghost use Rattle.std.specs.Prelude.{◌≡◌, OnOk, OnErr};
ghost use Rattle.fabric_graph.specs.FabricChanges.{after_link_change};
ghost use Rattle.link_commands.specs.LinkChanges.{CanChangeLinks};

use fabric_graph::{Fabric, LinkChange};
use std::alloc::AllocError;

/// Makes a change of the links. For want of memory the links stay.
pub fn apply_link_change(fabric: &mut Fabric, change: LinkChange) -> Result<(), AllocError>
    requires { CanChangeLinks change fabric.old }
    ensures ok { OnOk result (fabric.new ≡ after_link_change change fabric.old) }
    ensures err { OnErr result (fabric.new ≡ fabric.old) }
{
    match change {
        LinkChange::Add(row) => {
            let _number = fabric.add(row)?;
        }
        LinkChange::Set {
            no,
            cost,
            latency_a,
            latency_b,
            up,
        } => fabric.set(no, cost, latency_a, latency_b, up),
        LinkChange::Remove(no) => fabric.remove(no),
        LinkChange::SetLeast(cost) => fabric.set_least(cost),
    }
    Ok(())
}
