ghost use Rattle.std.specs.Prelude.{◌≡◌, ◌≢◌, ◌<◌, Err, IfErr, IfOk, IsTrue, OnErr, OnOk};
ghost use Rattle.sm_lead.specs.Commands.{read_at, run_at};
ghost use Rattle.sm_lead.specs.NextSteps.{IsAllowed, fallen, server_step, shard_step};
ghost use Rattle.sm_settings.specs.SettingsLine.{settings_of};
ghost use Rattle.sm_director.specs.declared.director_stage.DirectorStage.TheVariants.{Stands as StandsAs};
ghost use Rattle.sm_director.specs.Calls.{SpellsSent};
ghost use Rattle.sm_director.specs.Refusals.{CannotSpell, HasNoControl, IsNotSent, IsUnreadable, LacksMemory};
ghost use Rattle.sm_director.specs.Refusals.{LacksServer, LacksShard, shard_fault};
ghost use Rattle.sm_director.specs.Resettlings.{RefusesResettling, SendsSettings};
ghost use Rattle.sm_lead.specs.Waits.{has_waited};
ghost use Rattle.sm_director.specs.Directors.{AddsAck, AddsFollower, AddsRecord, AddsState, ForgetsAcks, ForgetsAll};
ghost use Rattle.sm_director.specs.Directors.{ForgetsFollowers, IsPrepared};
ghost use Rattle.sm_director.specs.Directors.{HasControl, IsFollowed, IsNewDirector, KeepsAll, LoadsControl};
ghost use Rattle.sm_director.specs.Directors.{MakesCommand, RefusesWith, RefusesFor, SendsCommand, desk_of_settings};
ghost use Rattle.sm_director.specs.Directors.{drain_step, vacant_step};

use crate::command_numbers::CommandNumbers;
use crate::director_fault::DirectorFault;
use crate::director_stage::DirectorStage;
use crate::layouts::same_layout;
use crate::spelling::{spell, spell_resettling};
use sm_codec::{read_record, read_state};
use sm_desk::{Command, CommandFault, Desk};
use sm_lead::laws::{commands_may_be_sent, settings_may_be_sent};
use sm_lead::{
    AckRead, Follower, Judged, Leadership, NextStep, RecordRead, ResettleFault, StoreControl,
    all_follow, read_at,
};
use sm_ownership::change::Change;
use sm_ownership::change_fault::ChangeFault;
use sm_place::Books;
use sm_ranges::server_id::ServerId;
use sm_ranges::shard_id::ShardId;
use sm_settings::{Settings, SettingsFault};
use sm_store::server_run::ServerRun;
use sm_tasks::Tasks;
use sm_tasks::laws::all_up_meets_caps;
use std::alloc::Global;

/// The control of a shared store with its settings, its readings, and the servers that follow.
#[derive(Drop)]
pub struct Director {
    pub settings: Settings,
    /// The caps of restarts that the settings give.
    pub caps: Tasks,
    pub lead: Leadership,
    /// Whether commands wait for acks.
    pub waits: bool,
    /// The records and states that were added, to be read.
    pub records: Vec<RecordRead>,
    pub runs: Vec<ServerRun>,
    pub followers: Vec<Follower>,
    pub acks: Vec<AckRead>,
    pub stage: DirectorStage,
}

impl Director {
    /// Makes the director of the store with this line of settings, for an elected process. It has read nothing. `waits`
    /// says whether commands wait for acks: they needn't if all servers are in one process.
    pub fn new(
        alloc: Global,
        line: &[u8],
        lead: Leadership,
        waits: bool,
    ) -> Result<Director, SettingsFault>
        requires { 0 < lead.elected }
        ensures made { IfOk result (IsNewDirector line.now lead.process lead.elected waits) }
        ensures fault { IfErr result (λ fault. fault ≢ SettingsFault.NoMemory → settings_of line.now ≡ Err fault) }
    {
        match Settings::read(alloc, line) {
            Ok(settings) => {
                let caps = Tasks::new(settings.ops);
                Ok(Director {
                    settings,
                    caps,
                    lead,
                    waits,
                    records: Vec::new(alloc),
                    runs: Vec::new(alloc),
                    followers: Vec::new(alloc),
                    acks: Vec::new(alloc),
                    stage: DirectorStage::Unread,
                })
            }
            Err(fault) => Err(fault),
        }
    }

    /// Adds the next shard's record, before `read`: these bytes, last written at this revision.
    pub fn add_record(&mut self, bytes: &[u8], stood: u64) -> Result<(), DirectorFault>
        ensures added { OnOk result (AddsRecord bytes.now stood self.old self.new) }
        ensures refused { IfErr result IsUnreadable }
        ensures kept { OnErr result (KeepsAll self.old self.new) }
    {
        let stored = read_record(bytes)?;
        self.records.push(RecordRead {
            state: stored.state,
            stood,
        })?;
        Ok(())
    }

    /// Adds the next server's state, before `read`: these bytes.
    pub fn add_state(&mut self, bytes: &[u8]) -> Result<(), DirectorFault>
        ensures added { OnOk result (AddsState bytes.now self.old self.new) }
        ensures refused { IfErr result IsUnreadable }
        ensures kept { OnErr result (KeepsAll self.old self.new) }
    {
        let stored = read_state(bytes)?;
        self.runs.push(stored.run)?;
        Ok(())
    }

    /// Adds a server whose key is there, and the revision up to which it has read the store.
    pub fn add_follower(&mut self, server: ServerId, revision: u64) -> Result<(), DirectorFault>
        ensures added { OnOk result (AddsFollower server revision self.old self.new) }
        ensures kept { OnErr result (KeepsAll self.old self.new) }
    {
        self.followers.push(Follower { server, revision })?;
        Ok(())
    }

    /// Forgets all followers.
    pub fn forget_followers(&mut self, alloc: Global)
        ensures { ForgetsFollowers self.old self.new }
    {
        self.followers = Vec::new(alloc);
    }

    /// Adds the generation up to which a server was read to have acked a shard's records.
    pub fn add_ack(
        &mut self,
        shard: ShardId,
        server: ServerId,
        generation: u64,
    ) -> Result<(), DirectorFault>
        ensures added { OnOk result (AddsAck shard server generation self.old self.new) }
        ensures kept { OnErr result (KeepsAll self.old self.new) }
    {
        self.acks.push(AckRead {
            shard,
            server,
            generation,
        })?;
        Ok(())
    }

    /// Forgets all acks.
    pub fn forget_acks(&mut self, alloc: Global)
        ensures { ForgetsAcks self.old self.new }
    {
        self.acks = Vec::new(alloc);
    }

    /// Notes that everything that was added was read, at one revision, at which the key of commands was last written at
    /// this one. The added readings are dropped. Then there is a control; or, if none can be made, nothing is read.
    pub fn read(&mut self, alloc: Global, placed: u64) -> Result<(), DirectorFault>
        ensures made { OnOk result (LoadsControl placed self.old self.new) }
        ensures unread { OnErr result (ForgetsAll self.old self.new) }
    {
        let records = std::mem::replace(&mut self.records, Vec::new(alloc));
        let runs = std::mem::replace(&mut self.runs, Vec::new(alloc));
        self.stage = DirectorStage::Unread;
        let desk = self.desk(alloc)?;
        match StoreControl::read(
            desk,
            self.lead,
            self.settings.ceiling,
            self.waits,
            records,
            runs,
            placed,
        ) {
            Ok(control) => {
                self.stage = DirectorStage::Stands(control);
                Ok(())
            }
            Err(fault) => Err(DirectorFault::Load(fault)),
        }
    }

    // The desk of the settings, on which nothing has happened.
    fn desk(&self, alloc: Global) -> Result<Desk, DirectorFault>
        ensures { IfOk result (λ desk. desk ≡ desk_of_settings self.now) }
    {
        let settings = &self.settings;
        let Ok(books) = Books::new(
            alloc,
            &settings.servers,
            &settings.groups,
            &settings.shards,
            &settings.domains,
        ) else {
            // Rows of settings keep their rules, so it fails only if memory is refused.
            return Err(DirectorFault::Memory);
        };
        all_up_meets_caps();
        Ok(Desk::new(books, self.caps))
    }

    /// Forgets its readings and its command: everything must be read again.
    pub fn forget(&mut self, alloc: Global)
        ensures { ForgetsAll self.old self.new }
    {
        self.records = Vec::new(alloc);
        self.runs = Vec::new(alloc);
        self.stage = DirectorStage::Unread;
    }

    /// Judges the command, if this process runs the server that it names. If the control doesn't refuse it, and the
    /// process may be named, it must be sent.
    pub fn command(&mut self, process: u64, command: Command) -> Result<(), DirectorFault>
        ensures sent { OnOk result (SendsCommand process command self.old self.new) }
        ensures refused { IfErr result (RefusesFor command self.old) }
        ensures kept { OnErr result (self.new ≡ self.old) }
    {
        match std::mem::replace(&mut self.stage, DirectorStage::Unread) {
            DirectorStage::Stands(control) => {
                if !is_followed(&control, &self.followers, &command) {
                    self.stage = DirectorStage::Stands(control);
                    return Err(DirectorFault::NotFollowed);
                }
                if !has_waited(&control, &self.acks, &command) {
                    self.stage = DirectorStage::Stands(control);
                    return Err(DirectorFault::NotAcked);
                }
                let is_named = control.may_name(process, &command);
                if !is_named {
                    let refused = unnamed(&control, process, &command);
                    self.stage = DirectorStage::Stands(control);
                    return Err(refused);
                }
                control.desk.soundness();
                commands_may_be_sent::<Vec<u8>, Vec<u8>>();
                match control.command(process, command) {
                    Judged::Sent(sent) => {
                        self.stage = DirectorStage::Sent(sent);
                        Ok(())
                    }
                    Judged::Refused(kept, fault) => {
                        self.stage = DirectorStage::Stands(kept);
                        Err(DirectorFault::Command(fault))
                    }
                }
            }
            DirectorStage::Sent(sent) => {
                self.stage = DirectorStage::Sent(sent);
                Err(DirectorFault::UnderWay)
            }
            DirectorStage::Unread => Err(DirectorFault::Unread),
        }
    }

    /// Writes the compares and the writes of the command that was sent.
    pub fn sending(
        &self,
        alloc: Global,
        numbers: &mut CommandNumbers,
        into: &mut [u8],
    ) -> Result<(), DirectorFault>
        ensures refused { IfErr result (CannotSpell self.now) }
        ensures spelled { OnOk result (SpellsSent numbers.new into.new self.now) }
    {
        match &self.stage {
            DirectorStage::Sent(sent) => {
                spell(alloc, &sent.sending(), numbers, into)?;
                Ok(())
            }
            _ => Err(DirectorFault::NotSent),
        }
    }

    /// The command that was sent was made, at this revision.
    pub fn on_made(&mut self, revision: u64) -> Result<(), DirectorFault>
        ensures made { OnOk result (MakesCommand revision self.old self.new) }
        ensures refused { IfErr result (IsNotSent self.old) }
        ensures kept { OnErr result (self.new ≡ self.old) }
    {
        match std::mem::replace(&mut self.stage, DirectorStage::Unread) {
            DirectorStage::Sent(sent) => {
                self.stage = DirectorStage::Stands(sent.made(revision));
                Ok(())
            }
            other => {
                self.stage = other;
                Err(DirectorFault::NotSent)
            }
        }
    }

    /// Writes the compares of the transaction that replaces this director's settings by those of the other director,
    /// which has the same records and states. The transaction also writes the settings. Whoever reads them makes a new
    /// director.
    pub fn resettle(
        &self,
        alloc: Global,
        other: &Director,
        numbers: &mut CommandNumbers,
        into: &mut [u8],
    ) -> Result<(), DirectorFault>
        ensures sent { OnOk result (SendsSettings self.now other.now numbers.new into.new) }
        ensures refused { IfErr result (RefusesResettling self.now other.now) }
    {
        let control = self.standing()?;
        let drafted = other.standing()?;
        if !same_layout(&self.settings.layout, &other.settings.layout) {
            return Err(DirectorFault::Resettle(ResettleFault::OtherShards));
        }
        match control.resettle(drafted) {
            Ok(()) => {
                control.desk.soundness();
                drafted.desk.soundness();
                settings_may_be_sent::<Vec<u8>, Vec<u8>>();
                spell_resettling(alloc, control, numbers, into)
            }
            Err(fault) => Err(DirectorFault::Resettle(fault)),
        }
    }

    // Returns the control.
    fn standing(&self) -> Result<&StoreControl, DirectorFault>
        ensures stands { IfOk result (λ control. self.now.stage ≡ StandsAs control.now) }
        ensures refused { IfErr result (HasNoControl self.now) }
    {
        match &self.stage {
            DirectorStage::Stands(control) => Ok(control),
            DirectorStage::Sent(_) => Err(DirectorFault::UnderWay),
            DirectorStage::Unread => Err(DirectorFault::Unread),
        }
    }

    /// Returns the next step of the shard.
    pub fn next_of_shard(&self, k: ShardId) -> Result<NextStep, DirectorFault>
        ensures refused { IfErr result (LacksShard k self.now) }
        ensures told { IfOk result (λ step. HasControl (λ control.
            (step ≡ shard_step control self.now.followers.items self.now.acks.items k)
            × IsAllowed control step) self.now) }
    {
        let control = self.standing()?;
        if k.index() >= control.records.len() {
            return Err(unknown_shard());
        }
        Ok(control.next_of_shard(k, &self.followers, &self.acks))
    }

    /// Returns the next step of the server's restart.
    pub fn next_of_server(&self, server: ServerId) -> Result<NextStep, DirectorFault>
        ensures refused { IfErr result (HasNoControl self.now) }
        ensures told { IfOk result (λ step. HasControl (λ control.
            (step ≡ server_step control self.now.acks.items server) × IsAllowed control step) self.now) }
    {
        let control = self.standing()?;
        Ok(control.next_of_server(server, &self.acks))
    }

    /// Returns the next step of the drain of the server.
    pub fn next_of_drain(&self, alloc: Global, server: ServerId) -> Result<NextStep, DirectorFault>
        ensures refused { IfErr result (LacksMemory self.now) }
        ensures told { IfOk result (λ step. HasControl (λ control.
            (step ≡ drain_step control server) × IsAllowed control step) self.now) }
    {
        let control = self.standing()?;
        let step = control.next_of_drain(alloc, server)?;
        Ok(step)
    }

    /// Returns the next step of the vacant shards.
    pub fn next_of_vacant(&self, alloc: Global) -> Result<NextStep, DirectorFault>
        ensures refused { IfErr result (LacksMemory self.now) }
        ensures told { IfOk result (λ step. HasControl (λ control.
            (step ≡ vacant_step control) × IsAllowed control step) self.now) }
    {
        let control = self.standing()?;
        let step = control.next_of_vacant(alloc)?;
        Ok(step)
    }

    /// Returns the first server to which requests go and that isn't among the followers.
    pub fn fallen(&self) -> Result<Option<ServerId>, DirectorFault>
        ensures refused { IfErr result (HasNoControl self.now) }
        ensures told { IfOk result (λ found. HasControl (λ control.
            found ≡ fallen control.desk.books self.now.followers.items) self.now) }
    {
        let control = self.standing()?;
        Ok(control.fallen_server(&self.followers))
    }

    /// Returns the shard's record, and the revision at which it was last written.
    pub fn record_of(&self, k: ShardId) -> Result<RecordRead, DirectorFault>
        ensures refused { IfErr result (LacksShard k self.now) }
        ensures told { IfOk result (λ read. HasControl (λ control. read ≡ read_at control.records.items k) self.now) }
    {
        let control = self.standing()?;
        if k.index() >= control.records.len() {
            return Err(unknown_shard());
        }
        Ok(read_at(&control.records, k))
    }

    /// Returns the server's state, and the process that it names.
    pub fn run_of(&self, server: ServerId) -> Result<ServerRun, DirectorFault>
        ensures refused { IfErr result (LacksServer server self.now) }
        ensures told { IfOk result (λ run. HasControl (λ control. run ≡ run_at control server) self.now) }
    {
        let control = self.standing()?;
        control.desk.soundness();
        if !control.desk.knows(server) {
            return Err(DirectorFault::Command(CommandFault::UnknownServer));
        }
        Ok(ServerRun {
            state: control.desk.books().state(server),
            process: control.process_of(server),
        })
    }
}

// Returns whether each follower has read that the shard is taken, if the command drops it.
fn is_followed(control: &StoreControl, followers: &[Follower], command: &Command) -> bool
    ensures { IsTrue result → IsFollowed control.now followers.now command.now }
{
    match command {
        Command::Change(k, Change::DropShard) => {
            all_follow(followers, read_at(&control.records, *k).stood)
        }
        _ => true,
    }
}

// Returns whether the awaited servers have acked, and the next owner is prepared before the owner forwards; or the
// control doesn't wait.
fn has_waited(control: &StoreControl, acks: &[AckRead], command: &Command) -> bool
    ensures waited { IsTrue result → IsTrue (has_waited control.now acks.now command.now) }
    ensures prepared { IsTrue result → IsPrepared control.now acks.now command.now }
{
    let is_prepared = match command {
        Command::Change(k, Change::PrepareDropShard) => control.is_prepared(acks, *k),
        Command::Change(
            _,
            Change::Assign(_)
            | Change::PrepareAddShard(_)
            | Change::AddShard
            | Change::DropShard
            | Change::Cancel
            | Change::Pause
            | Change::Resume
            | Change::Reassign(_),
        )
        | Command::Ask(_)
        | Command::Approve(_)
        | Command::Stopped(_)
        | Command::Back(_)
        | Command::Fail(_) => true,
    };
    is_prepared && control.has_waited(acks, command)
}

// Returns why the command isn't sent, if this process may not be named in the state: the first fault for which it is
// refused, or that the process began too early.
fn unnamed(control: &StoreControl, process: u64, command: &Command) -> DirectorFault
    ensures { RefusesWith control.now command.now result }
{
    match control.judge(process, command) {
        Ok(_) => DirectorFault::EarlierProcess,
        Err(fault) => DirectorFault::Command(fault),
    }
}

// The fault of a shard that isn't there.
fn unknown_shard() -> DirectorFault
    ensures { result ≡ shard_fault }
{
    DirectorFault::Command(CommandFault::Change(ChangeFault::UnknownShard))
}
