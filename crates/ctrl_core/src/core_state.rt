ghost use Rattle.std.specs.Prelude.{◌≡◌, ◌⊎◌, ◌+◌, ◌<◌, ℕ, [], true, false, IfOk, IsErrOf, OnOk, OnErr};
ghost use Rattle.ctrl_model.specs.State.{start};
ghost use Rattle.ctrl_model.specs.SpelledCommands.{is_spelled};
ghost use Rattle.ctrl_model.specs.Controller.{carry, counted};
ghost use Rattle.ctrl_model.specs.Grants.{count};
ghost use Rattle.ctrl_model.specs.Limits.{last_serial};
ghost use Rattle.ctrl_model.specs.Networks.{circuits_full, open_circuits};
ghost use Rattle.ctrl_model.specs.ValidState.{ValidState};
ghost use Rattle.model_laws.specs.Plans.{CanLeadBy, led_by, tells_change};
ghost use Rattle.grant_denorm.specs.MovedCounts.{AreCountsOf};
ghost use Rattle.policy_store.specs.PolicyChanges.{tables_of};
ghost use Rattle.terminators.specs.TermTables.{open_at};
ghost use Rattle.row_codec.specs.Batches.{batch_between};
ghost use Rattle.row_codec.specs.StateRows.{HasRows};
ghost use Rattle.state_building.specs.declared.flaws.Flaw.{Flaw};
ghost use Rattle.row_loading.specs.declared.faults.CoreFault.TheVariants.{NotAState};
ghost use Rattle.row_loading.specs.LoadedRows.{AreOfNoState};
ghost use Rattle.row_loading.specs.RefusedRows.{RefusesRows};
ghost use Rattle.grant_steps.specs.LeadingSteps.{LeadAllCounts};
ghost use Rattle.ctrl_core.specs.Changes.{CanChange, CanLead, IsStill, LeadsFrom, NamesSettled, after_change, led};
ghost use Rattle.ctrl_core.specs.KeptFormat.{kept_format};

use crate::applying::move_stores;
use crate::commands::plan_command;
use crate::completing::{completed, settled_after};
use crate::loading::load;
use crate::plans::Planned;
use core_stores::{Change, Settled, Stores};
use ctrl_model::{Command, Format, Relation, Reply};
use entity_store::Entities;
use fabric_graph::Fabric;
use grant_denorm::Counted;
use policy_store::{GrantSteps, Policies};
use row_codec::Batch;
use row_loading::{CoreFault, read_rows};
use std::alloc::{AllocError, Global};
use std::marker::Model;
use terminators::Terminators;

/// The state of a controller, kept in stores, with the grant count of every pair. Contracts see the state, and whether the core
/// is live: after want of memory in `apply` it is given up.
#[derive(Drop)]
pub struct Core {
    alloc: Global,
    live: bool,
    // Whether it is known that what granted each circuit stands.
    granted: bool,
    stores: Stores,
}

impl Model for Core {
    ghost use Rattle.std.specs.Prelude.{◌≡◌, true};
    ghost use Rattle.ctrl_core.specs.KeptState.{Cored, Keeps, IsGranted};
    ghost use Rattle.core_stores.specs.StoredState.{state_of};

    ghost Value = { Cored };

    ghost view = { λ c. record { state = state_of c.stores; live = c.live } };

    ghost invariant = { λ c. c.live ≡ true → Keeps c.stores × IsGranted c.granted (state_of c.stores) };
}

impl Core {
    /// A core in the state at the start.
    pub fn empty(alloc: Global) -> Result<Core, AllocError>
        ensures { IfOk result (λ c. c ≡ record { state = start; live = true }) }
    {
        let stores = Stores::new(alloc)?;
        Ok(Core {
            alloc,
            live: true,
            granted: true,
            stores,
        })
    }

    /// The core of the state whose rows a batch puts, in a format, all of them, where no row was. Nothing is taken on trust: the counts are
    /// found anew from the policies, and those of the rows have to be the same.
    ///
    /// `NotAState` comes exactly where they are not all rows of a valid state. It tells the first place at which a row cannot be the
    /// next one, or where a count is missing, and why (docs/FORMATS.md, "Rows of a valid state").
    pub fn from_rows(alloc: Global, format: Format, rows: &Batch) -> Result<Core, CoreFault>
        ensures live { IfOk result (λ c. c.live ≡ true) }
        ensures rows { IfOk result (λ c. rows.now ≡ batch_between format start c.state) }
        ensures valid { IfOk result (λ c. ValidState c.state) }
        ensures has_rows { IfOk result (λ c. HasRows format c.state) }
        ensures refused { (place : ℕ) (flaw : Flaw) → IsErrOf result (NotAState place flaw) → RefusesRows format rows.now place flaw }
        ensures none { (place : ℕ) (flaw : Flaw) → IsErrOf result (NotAState place flaw) → AreOfNoState format rows.now }
    {
        let rows = read_rows(alloc, format, rows.as_slice())?;
        let stores = load(alloc, rows.as_slice())?;
        // Rows of before circuits were revoked may have some that nothing grants.
        Ok(Core {
            alloc,
            live: true,
            granted: false,
            stores,
        })
    }

    /// The kept counts of a relation: for every pair the number of present policies that grant it in the core's state.
    pub fn counted(&self, relation: Relation) -> &Counted
        requires { self.now.live ≡ true }
        ensures { AreCountsOf (count relation self.now.state) result.now }
    {
        self.stores.grants.counted(relation)
    }

    /// The identities, services and routers of the core's state.
    pub fn entities(&self) -> &Entities
        requires { self.now.live ≡ true }
        ensures identities { result.now.identities ≡ self.now.state.identities }
        ensures services { result.now.services ≡ self.now.state.services }
        ensures routers { result.now.routers ≡ self.now.state.routers }
    {
        &self.stores.entities
    }

    /// The policies of the core's state.
    pub fn policies(&self) -> &Policies
        requires { self.now.live ≡ true }
        ensures { result.now ≡ tables_of self.now.state }
    {
        &self.stores.policies
    }

    /// The links of the core's state, and its least cost of entering a router.
    pub fn fabric(&self) -> &Fabric
        requires { self.now.live ≡ true }
        ensures links { result.now.links ≡ self.now.state.links }
        ensures least { result.now.least ≡ self.now.state.least_router_cost }
    {
        &self.stores.fabric
    }

    /// The terminators of the core's state, each with the number of circuits that are open at it.
    pub fn terminators(&self) -> &Terminators
        requires { self.now.live ≡ true }
        ensures terminators { result.now.terminators ≡ self.now.state.terminators }
        ensures loads { (n : ℕ) → open_at result.now n ≡ open_circuits self.now.state n }
    {
        &self.stores.terminators
    }

    /// Whether no circuit can be added in the core's state.
    pub fn circuits_full(&self) -> bool
        requires { self.now.live ≡ true }
        ensures { result ≡ circuits_full self.now.state }
    {
        self.stores.circuits.is_full()
    }

    /// The serial of the core's state.
    pub fn serial(&self) -> u64
        ensures { result ≡ self.now.state.serial }
    {
        self.stores.serial
    }

    /// Plans the answer to a command that some body spells, as the controller gives it to who may send it. A plan of a refusal, or of a
    /// reply that shows something, has no change and moves no count. It leads to the next state counted: where that is another one, its
    /// serial is one higher. Its batch is exactly the difference between the rows of the two, so it is empty where they are equal. The
    /// state stays, and it is valid.
    pub fn plan(&self, command: &Command) -> Result<Planned, AllocError>
        requires live { self.now.live ≡ true }
        requires spelled { is_spelled command.now ≡ true }
        ensures reply { IfOk result (λ p. p.reply ≡ (carry command.now self.now.state).0) }
        ensures leads { IfOk result (λ p. LeadsFrom p self.now.state (counted self.now.state (carry command.now self.now.state).1)) }
        ensures still { IfOk result (λ p. tells_change p.reply ≡ false → IsStill p.change p.steps) }
        ensures batch { IfOk result (λ p. p.batch ≡ batch_between kept_format self.now.state (counted self.now.state (carry command.now self.now.state).1)) }
        ensures valid { ValidState self.now.state }
    {
        let draft = plan_command(self.alloc, &self.stores, command)?;
        completed(self.alloc, &self.stores, draft, self.granted)
    }

    /// Moves the state to where a plan leads, counted, and answers the plan's reply. A plan with a batch wants another serial. After want of
    /// memory the core is given up.
    pub fn apply(&mut self, planned: Planned) -> Result<Reply, AllocError>
        requires live { self.old.live ≡ true }
        requires can { CanLead planned self.old.state }
        requires room { planned.batch ≡ [] ⊎ self.old.state.serial < last_serial }
        ensures reply { IfOk result (λ r. r ≡ planned.reply) }
        ensures next { IfOk result (λ r. self.new ≡ record { state = counted self.old.state (led planned self.old.state); live = true }) }
        ensures err { OnErr result (self.new.live ≡ false) }
    {
        let Planned {
            reply,
            batch,
            change,
            settled,
            steps,
        } = planned;
        let reply = self.go_on(reply, change, settled, &steps)?;
        if !batch.is_empty() {
            self.count_on();
        }
        Ok(reply)
    }

    /// Answers a command that some body spells, and moves the state to the next one, which is not counted. No batch is made. Where memory is
    /// wanting the core stays, or it is given up.
    pub fn answer(&mut self, command: &Command) -> Result<Reply, AllocError>
        requires live { self.old.live ≡ true }
        requires spelled { is_spelled command.now ≡ true }
        ensures answered { IfOk result (λ r. (r, self.new.state) ≡ carry command.now self.old.state) }
        ensures live { OnOk result (self.new.live ≡ true) }
        ensures valid { ValidState self.old.state }
        ensures err { OnErr result (self.new.live ≡ true → self.new ≡ self.old) }
    {
        let draft = plan_command(self.alloc, &self.stores, command)?;
        match settled_after(self.alloc, &self.stores, &draft, self.granted) {
            Ok(settled) => self.go_on(draft.reply, draft.change, settled, &draft.steps),
            Err(error) => {
                drop(draft);
                Err(error)
            }
        }
    }

    // Raises the serial by one.
    fn count_on(&mut self)
        requires live { self.old.live ≡ true }
        requires room { self.old.state.serial < last_serial }
        ensures { self.new ≡ record { state = record self.old.state { serial = self.old.state.serial + 1 }; live = true } }
    {
        self.stores.serial += 1;
    }

    // Makes a change that leads to a valid state, if there is one, and answers a reply. After want of memory the core is given up.
    fn go_on(
        &mut self,
        reply: Reply,
        change: Option<Change>,
        settled: Settled,
        steps: &GrantSteps,
    ) -> Result<Reply, AllocError>
        requires live { self.old.live ≡ true }
        requires can { CanLeadBy CanChange change self.old.state }
        requires valid { ValidState (led_by after_change change self.old.state) }
        requires settled { NamesSettled change self.old.state settled }
        requires counts { LeadAllCounts self.old.state (led_by after_change change self.old.state) steps.now }
        ensures reply { IfOk result (λ r. r ≡ reply) }
        ensures next { IfOk result (λ r. self.new ≡ record { state = led_by after_change change self.old.state; live = true }) }
        ensures was_valid { OnOk result (ValidState self.old.state) }
        ensures same_serial { OnOk result ((led_by after_change change self.old.state).serial ≡ self.old.state.serial) }
        ensures err { OnErr result (self.new.live ≡ false) }
    {
        self.live = false;
        // Of a state settled nothing is revoked.
        self.granted |= change.is_some();
        move_stores(self.alloc, &mut self.stores, change, settled, steps)?;
        self.live = true;
        Ok(reply)
    }
}
