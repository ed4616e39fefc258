ghost use Rattle.std.specs.Prelude.{◌≡◌, ◌<◌, IfOk, length, true};
ghost use Rattle.sm_ranges.specs.Ranges.{shard_of};
ghost use Rattle.sm_script.specs.declared.call.Call.TheVariants as call;
ghost use Rattle.sm_service.specs.Service.{key_of_request};
ghost use Rattle.sm_settings.specs.SettingsLine.{values_of};
ghost use Rattle.sm_settings.specs.SettingsRules.{KeepsRules};
ghost use Rattle.sm_model.specs.Calls.{ends_in_step};
ghost use Rattle.sm_model.specs.Sessions.{GivesAnswer, IsNew};

use crate::calls::{answer_of, carry_out, run_request_at};
use sm_desk::command::Command;
use sm_ranges::key::Key;
use sm_ranges::server_id::ServerId;
use sm_ranges::shard_id::ShardId;
use sm_script::{Call, LineAnswer, LineFault, LoadClients, Refused};
use sm_service::CounterText;
use sm_service::request::Request;
use sm_session::Backend;
use sm_session::beginning::{desk_of, empty_bodies};
use sm_settings::settings::Settings;
use sm_table::world::{Setup, World};
use std::alloc::{AllocError, Global};
use std::marker::Model;

/// A world of the sample service on which a script's calls are made. Between two calls no request is under way.
#[derive(Drop)]
pub struct WorldBackend {
    alloc: Global,
    world: World<CounterText>,
}

impl Model for WorldBackend {
    ghost use Rattle.sm_service.specs.declared.request.Request.{Request};
    ghost use Rattle.sm_table.specs.Standing.{WorldView};
    ghost use Rattle.sm_model.specs.Sessions.{IsIdle};

    ghost Value = { WorldView Request };

    ghost view = { λ backend. backend.world };

    ghost invariant = { λ backend. IsIdle backend.world };
}

impl WorldBackend {
    /// Returns a world with these settings, in which nothing has happened yet.
    pub fn new(alloc: Global, settings: Settings) -> Result<WorldBackend, AllocError>
        requires { KeepsRules (values_of settings) }
        ensures { IfOk result (IsNew (values_of settings)) }
    {
        let count = settings.layout.count();
        let desk = desk_of(alloc, &settings)?;
        let bodies = empty_bodies(alloc, count, settings.kept as usize)?;
        let setup = Setup {
            layout: settings.layout,
            desk,
            ceiling: settings.ceiling,
        };
        let world = World::new(alloc, setup, bodies)?;
        Ok(WorldBackend { alloc, world })
    }

    /// Makes the steps of the call. Returns an error only if memory is refused.
    fn make(&mut self, call: Call) -> Result<LineAnswer, AllocError>
        requires { ends_in_step call ≡ true }
        ensures { IfOk result (λ answer. GivesAnswer self.old call answer self.new) }
    {
        answer_of(carry_out(&mut self.world, call))
    }

    /// Executes the request for this shard, from the server on. Returns an error only if memory is refused.
    fn ask_at(
        &mut self,
        shard: ShardId,
        server: ServerId,
        request: Request,
    ) -> Result<LineAnswer, AllocError>
        requires within { shard < length self.old.bounds }
        requires shard { shard ≡ shard_of self.old.bounds (key_of_request request) }
        ensures { IfOk result (λ answer. GivesAnswer self.old (call.RequestAt server request) answer self.new) }
    {
        answer_of(run_request_at(&mut self.world, shard, server, request))
    }
}

impl Backend for WorldBackend {
    ghost use Rattle.sm_model.specs.Sessions.{GivesAnswer};

    ghost answers = { GivesAnswer };

    fn command(&mut self, command: Command) -> Result<LineAnswer, AllocError> {
        self.make(Call::Control(command))
    }

    fn hold(&mut self, shard: ShardId, server: ServerId) -> Result<LineAnswer, AllocError> {
        self.make(Call::Hold(shard, server))
    }

    fn free(&mut self, shard: ShardId) -> Result<LineAnswer, AllocError> {
        self.make(Call::Free(shard))
    }

    fn checkpoint(&mut self, shard: ShardId, server: ServerId) -> Result<LineAnswer, AllocError> {
        self.make(Call::Checkpoint(shard, server))
    }

    fn publish(&mut self, shard: ShardId) -> Result<LineAnswer, AllocError> {
        self.make(Call::Publish(shard))
    }

    fn route(&mut self, key: Key) -> Result<LineAnswer, AllocError> {
        self.make(Call::Route(key))
    }

    fn look(&mut self, shard: ShardId) -> Result<LineAnswer, AllocError> {
        self.make(Call::Look(shard))
    }

    fn load(
        &mut self,
        _key: Key,
        _clients: LoadClients,
        _each: u16,
    ) -> Result<LineAnswer, AllocError> {
        Ok(LineAnswer::Error(LineFault::NotHere))
    }

    fn place(&mut self) -> Result<LineAnswer, AllocError> {
        match self.world.desk().books().plan_assign(self.alloc) {
            Ok(plan) => Ok(LineAnswer::Planned(plan)),
            Err(fault) => Err(fault),
        }
    }

    fn drain(&mut self, server: ServerId) -> Result<LineAnswer, AllocError> {
        if !self.world.desk().knows(server) {
            return Ok(LineAnswer::Refused(Refused::UnknownServer));
        }
        match self.world.desk().books().plan_drain(self.alloc, server) {
            Ok(plan) => Ok(LineAnswer::Planned(plan)),
            Err(fault) => Err(fault),
        }
    }

    fn request(&mut self, request: Request) -> Result<LineAnswer, AllocError> {
        self.make(Call::Request(request))
    }

    fn request_at(&mut self, server: ServerId, request: Request) -> Result<LineAnswer, AllocError> {
        self.make(Call::RequestAt(server, request))
    }

    fn request_by_route(&mut self, request: Request) -> Result<LineAnswer, AllocError> {
        let shard = self.world.shard_of(&request);
        match self.world.route(shard) {
            Some(route) => self.ask_at(shard, route.server, request),
            None => Ok(LineAnswer::Refused(Refused::NoRoute)),
        }
    }
}
