ghost use Rattle.std.specs.Prelude.{◌≡◌, false, [], ◌∷◌, codes};
ghost use Rattle.ctrl_model.specs.declared.commands.Command.TheVariants as command;
ghost use Rattle.ctrl_model.specs.declared.kinds.Kind.TheVariants as kind;
ghost use Rattle.ctrl_model.specs.State.{start};
ghost use Rattle.record_lines.specs.declared.listing.Listed.TheVariants.{Records};
ghost use Rattle.record_lines.specs.WorkedRecords.{small_network};
ghost use Rattle.dump_lines.specs.WorkedDumps.{unsaid_policy, worn_network};
ghost use Rattle.dump_laws.specs.SaidDumps.{command_frame, commands_told, frames_from_commands, said_commands, section_told};

/// The commands that lines of small dumps say, and frames of commands: a link that is down, a circuit and a policy that no line says, and
/// two commands of which the second comes behind the greatest sequence number.
pub fn worked_said_dumps()
    ensures entry { commands_told (Records kind.Identity) small_network (1, record { name = codes "ann"; attributes = codes "staff" ∷ [] }) ≡ command.CreateIdentity (codes "ann") (codes "staff" ∷ []) ∷ [] }
    ensures links { section_told worn_network (Records kind.Link) ≡ command.CreateLink (codes "l1") (codes "r2") (codes "r1") 11 3 9 ∷ command.ReportState (codes "l1") (codes "r2") false ∷ [] }
    ensures circuits { section_told small_network (Records kind.Circuit) ≡ [] }
    ensures unsaid { said_commands (record start { edge_router_policies = unsaid_policy.edge_router_policies }) ≡ command.SetLeastRouterCost 10 ∷ [] }
    ensures frame { command_frame 7 (command.DeleteIdentity (codes "ann")) ≡ record { content = 1002; sequence = 7; headers = []; body = codes "{\"name\":\"ann\"}" } }
    ensures numbered { frames_from_commands 4294967295 (command.Compact ∷ command.Hello ∷ []) ≡ record { content = 1510; sequence = 4294967295; headers = []; body = codes "{}" } ∷ record { content = 0; sequence = 0; headers = []; body = [] } ∷ [] }
{}
