ghost use Rattle.std.specs.Prelude.{◌≡◌, ◌||◌, List, None, ℕ, true};
ghost use Rattle.ctrl_model.specs.declared.kinds.Kind.{Kind};
ghost use Rattle.ctrl_model.specs.declared.kinds.Relation.{Relation};
ghost use Rattle.ctrl_model.specs.Numbered.{no_rows, records};
ghost use Rattle.ctrl_model.specs.State.{State, start};
ghost use Rattle.ctrl_model.specs.Tables.{is_entity_kind, is_policy_kind, table};
ghost use Rattle.ctrl_model.specs.ValidState.{ValidState};
ghost use Rattle.ctrl_model.specs.WorkedStates.{after};
ghost use Rattle.frame_lines.specs.TextReading.{fault_said, frames_said};
ghost use Rattle.dump_lines.specs.Dumps.{are_spelled, dump_commands, dump_lines};
ghost use Rattle.dump_laws.specs.AnsweredInTurn.{none_refused};
ghost use Rattle.dump_laws.specs.NamedCounts.{named_count};
ghost use Rattle.dump_laws.specs.SaidDumps.{frames_from_commands, said_commands};

/// Of each valid state, the commands of a dump are answered from the start without a refusal, and the state behind them is the like of
/// it: a dump of it has the same commands, which say all records by names, so that it has the same links and terminators between records
/// of the same names, and the same intercepts and setting; its identities, services, routers and policies are the same records in the
/// same order; as many policies grant each relation to each two names; and it has no circuits.
pub fn a_dump_makes_the_like()
    ensures accepted { (s : State) → ValidState s → none_refused (dump_commands s) start ≡ true }
    ensures same_dump { (s : State) → ValidState s → dump_commands (after (dump_commands s) start) ≡ dump_commands s }
    ensures same_records { (s : State) → ValidState s → (k : Kind) → (is_entity_kind k || is_policy_kind k) ≡ true
        → records (table k (after (dump_commands s) start)).rows ≡ records (table k s).rows }
    ensures same_grants { (s : State) → ValidState s → (relation : Relation) (left right : List ℕ)
        → named_count relation (after (dump_commands s) start) left right ≡ named_count relation s left right }
    ensures no_circuits { (s : State) → ValidState s → (after (dump_commands s) start).circuits ≡ no_rows }
{}

/// Of each valid state, the lines of a dump are read without a fault, and as exactly the frames of the commands that they say, in their
/// order, numbered from 1 on: remarks are passed. Where some lines say each command of the dump, these are all its commands.
pub fn a_dump_is_read_back()
    ensures frames { (s : State) → ValidState s → frames_said (dump_lines s) ≡ frames_from_commands 1 (said_commands s) }
    ensures faultless { (s : State) → ValidState s → fault_said (dump_lines s) ≡ None }
    ensures all_said { (s : State) → are_spelled (dump_commands s) ≡ true → said_commands s ≡ dump_commands s }
{}
