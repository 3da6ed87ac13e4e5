ghost use Rattle.std.specs.Prelude.{◌≡◌, nat_lt, if◌then◌else◌};
ghost use Rattle.ctrl_model.specs.ContentTypes.{content_of};

use ctrl_model::Command;

// The content type of a command on entities or policies, and 0 of another.
fn content_of_managed(command: &Command) -> u32
    ensures { result ≡ (if nat_lt (content_of command.now) 1200 then content_of command.now else 0) }
{
    match command {
        Command::CreateIdentity { .. } => 1000,
        Command::UpdateIdentity { .. } => 1001,
        Command::DeleteIdentity { .. } => 1002,
        Command::CreateService { .. } => 1010,
        Command::UpdateService { .. } => 1011,
        Command::DeleteService { .. } => 1012,
        Command::CreateRouter { .. } => 1020,
        Command::UpdateRouter { .. } => 1021,
        Command::DeleteRouter { .. } => 1022,
        Command::ConnectRouter { .. } => 1023,
        Command::DisconnectRouter { .. } => 1024,
        Command::CreateServicePolicy { .. } => 1100,
        Command::UpdateServicePolicy { .. } => 1101,
        Command::DeleteServicePolicy { .. } => 1102,
        Command::CreateEdgeRouterPolicy { .. } => 1110,
        Command::UpdateEdgeRouterPolicy { .. } => 1111,
        Command::DeleteEdgeRouterPolicy { .. } => 1112,
        Command::CreateServiceEdgeRouterPolicy { .. } => 1120,
        Command::UpdateServiceEdgeRouterPolicy { .. } => 1121,
        Command::DeleteServiceEdgeRouterPolicy { .. } => 1122,
        _ => 0,
    }
}

/// The content type of the frames that are a command (docs/FORMATS.md, "Commands").
pub fn content_of(command: &Command) -> u32
    ensures { result ≡ content_of command.now }
{
    match command {
        Command::Hello => 0,
        Command::CreateLink { .. } => 1200,
        Command::SetLinkCost { .. } => 1201,
        Command::ReportLatency { .. } => 1202,
        Command::ReportState { .. } => 1203,
        Command::DeleteLink { .. } => 1204,
        Command::SetLeastRouterCost { .. } => 1210,
        Command::CreateTerminator { .. } => 1300,
        Command::UpdateTerminator { .. } => 1301,
        Command::DeleteTerminator { .. } => 1302,
        Command::CreateCircuit { .. } => 1400,
        Command::DeleteCircuit { .. } => 1401,
        Command::Explain { .. } => 1402,
        Command::VerifyRoute { .. } => 1403,
        Command::ShowGrants { .. } => 1500,
        Command::ListServices { .. } => 1501,
        Command::ShowCounts => 1502,
        Command::ShowCircuit { .. } => 1503,
        Command::Compact => 1510,
        Command::SetIntercept { .. } => 1600,
        Command::ClearIntercept { .. } => 1601,
        Command::Pick { .. } => 1610,
        Command::ListClashes { .. } => 1611,
        _ => content_of_managed(command),
    }
}
