ghost use Rattle.std.specs.Prelude.{◌≡◌, ◌≤◌, ◌⊎◌, [], All, IfErr, IfOk, None, Some, length, map};
ghost use Rattle.std.specs.Arc.{arc_value};
ghost use Rattle.sm_ranges.specs.declared.stand.Stand.TheVariants.{Vacant};
ghost use Rattle.sm_control.specs.Controls.{Commanded};
ghost use Rattle.sm_desk.specs.Desk.{desk_fault};
ghost use Rattle.sm_settings.specs.SettingsLine.{values_of};
ghost use Rattle.sm_settings.specs.SettingsRules.{KeepsRules};
ghost use Rattle.sm_place.specs.Books.{first_books_fault};
ghost use Rattle.sm_foreign.specs.Chiefs.{HasNoPass, HasServer, IsControlBy, PlansNothing};
ghost use Rattle.sm_foreign.specs.Chiefs.{desk_of_rows, equal_shards, first_desk};
ghost use Rattle.sm_foreign.specs.Chiefs.{first_servers, one_group, own_domains, planned_for};
ghost use Rattle.sm_foreign.specs.Holding.{HasNotActed};
ghost use Rattle.sm_foreign.specs.Refusals.{OpensNothingBy, OpensNothing};

use crate::board_pass::BoardPass;
use crate::foreign::Foreign;
use crate::free_pass::FreePass;
use crate::open_fault::OpenFault;
use crate::pass_fault::PassFault;
use sm_body::service::Service;
use sm_control::{Control, DrainFault};
use sm_desk::{Command, CommandFault, Desk};
use sm_place::{Books, BooksFault, Plan};
use sm_ranges::server_id::ServerId;
use sm_rows::limits::MAX_DOMAIN_DOWN;
use sm_rows::{DomainRow, GroupRow, ServerRow, ShardRow, equal_domains};
use sm_rule::{Board, Chair};
use sm_settings::Settings;
use sm_tasks::Tasks;
use sm_tasks::laws::all_up_meets_caps;
use std::alloc::{AllocError, Global};
use std::marker::Model;
use std::sync::Arc;

/// A board and its control. Contracts see the control.
#[derive(Drop)]
pub struct Chief<S: Service> {
    board: Arc<Board<S>>,
    control: Control<S>,
}

impl<S: Service> Model for Chief<S> {
    ghost use Rattle.std.specs.Prelude.{◌≡◌};
    ghost use Rattle.std.specs.Arc.{arc_value};
    ghost use Rattle.sm_control.specs.Controls.{ControlValue};

    ghost Value = { ControlValue S.Request };

    ghost view = { λ chief. chief.control };

    ghost invariant = { λ chief. chief.control.chair.board ≡ arc_value chief.board };
}

impl<S: Service> Chief<S> {
    /// Makes the chief of a new board with these bodies, which must not have applied anything yet, and with so many
    /// servers from 1 on (at most 4,095), at most `ops` of which (at most 4,095) restart at once. Generations stay at
    /// or below the ceiling (3 to 2^36 - 1).
    pub fn make(
        alloc: Global,
        bodies: Vec<S>,
        servers: u16,
        ops: u16,
        ceiling: u64,
    ) -> Result<Box<Chief<S>>, OpenFault>
        requires initial { All (λ body. S.base body ≡ S.initial) bodies.items }
        requires before { All (λ body. S.before body ≡ 0) bodies.items }
        requires empty { All (λ body. S.requests body ≡ []) bodies.items }
        ensures count { IfOk result (λ chief. chief.value.chair.board.limits.count ≡ length bodies.items) }
        ensures ceiling { IfOk result (λ chief. chief.value.chair.board.limits.ceiling ≡ ceiling) }
        ensures bodies { IfOk result (λ chief. chief.value.chair.board.limits.bodies ≡ map S.limit bodies.items) }
        ensures desk { IfOk result (λ chief. chief.value.desk ≡ first_desk servers (length bodies.items) ops) }
        ensures refused { IfErr result (OpensNothing (length bodies.items) servers ops ceiling) }
    {
        if servers > 4095 {
            return Err(OpenFault::Servers);
        }
        if ops > 4095 {
            return Err(OpenFault::Restarts);
        }
        let count = bodies.len();
        let (board, chair) = match Board::make(alloc, bodies, ceiling) {
            Ok(made) => made,
            Err(fault) => return Err(OpenFault::Board(fault)),
        };
        let desk = match desk_of(alloc, servers, count, ops) {
            Ok(desk) => desk,
            Err(fault) => return Err(OpenFault::Books(fault)),
        };
        Chief::of_parts(alloc, board, chair, desk)
    }

    /// Returns the chief of a new board with these bodies, which have applied nothing yet, as the settings say: a body
    /// for each of their shards, the rows of servers, groups, shards and domains, the cap of restarts and the ceiling.
    pub fn by_settings(
        alloc: Global,
        bodies: Vec<S>,
        settings: &Settings,
    ) -> Result<Box<Chief<S>>, OpenFault>
        requires initial { All (λ body. S.base body ≡ S.initial) bodies.items }
        requires before { All (λ body. S.before body ≡ 0) bodies.items }
        requires empty { All (λ body. S.requests body ≡ []) bodies.items }
        requires rules { KeepsRules (values_of settings.now) }
        ensures made { IfOk result
            (λ chief. IsControlBy chief.value (map S.limit bodies.items) (values_of settings.now)) }
        ensures refused { IfErr result (OpensNothingBy (length bodies.items) (values_of settings.now)) }
    {
        if settings.shards.len() != bodies.len() {
            return Err(OpenFault::Bodies);
        }
        let (board, chair) = match Board::make(alloc, bodies, settings.ceiling) {
            Ok(made) => made,
            Err(fault) => return Err(OpenFault::Board(fault)),
        };
        let desk = match desk_over(
            alloc,
            &settings.servers,
            &settings.groups,
            &settings.shards,
            &settings.domains,
            settings.ops,
        ) {
            Ok(desk) => desk,
            Err(fault) => return Err(OpenFault::Books(fault)),
        };
        Chief::of_parts(alloc, board, chair, desk)
    }

    // The chief of a board whose chair has seen nothing.
    fn of_parts(
        alloc: Global,
        board: Board<S>,
        chair: Chair<S>,
        desk: Desk,
    ) -> Result<Box<Chief<S>>, OpenFault>
        requires board { chair.board ≡ board }
        requires seen { chair.seen ≡ [] }
        requires count { length desk.books.shards ≡ chair.board.limits.count }
        requires vacant { All (λ shard. shard.stand ≡ Vacant) desk.books.shards }
        ensures chair { IfOk result (λ chief. chief.value.chair ≡ chair) }
        ensures desk { IfOk result (λ chief. chief.value.desk ≡ desk) }
        ensures refused { IfErr result (λ fault. fault ≡ OpenFault.NoMemory) }
    {
        let Ok(board) = Arc::new(alloc, board) else {
            return Err(OpenFault::NoMemory);
        };
        let control = Control::new(chair, desk);
        match Box::new(alloc, Chief { board, control }) {
            Ok(chief) => Ok(chief),
            Err(_) => Err(OpenFault::NoMemory),
        }
    }

    /// Returns a new pass on the board, admitted as this server, which the board has, or never.
    pub fn pass(&self, server: Option<ServerId>) -> Result<FreePass<S>, PassFault>
        ensures board { IfOk result (λ free. free.board ≡ self.now.chair.board) }
        ensures server { IfOk result (λ free. free.server ≡ server) }
        ensures new { IfOk result HasNotActed }
        ensures known { IfOk result (λ free. HasServer self.now.desk.books server) }
        ensures refused { IfErr result (HasNoPass self.now.desk.books server) }
    {
        let server = self.known(server)?;
        let board = Arc::try_clone(&self.board)?;
        Ok(FreePass::new(board, server))
    }

    // Returns the server, if the board has it. If no server is named, returns none.
    fn known(&self, server: Option<ServerId>) -> Result<Option<ServerId>, PassFault>
        ensures same { IfOk result (λ it. it ≡ server) }
        ensures known { IfOk result (λ it. HasServer self.now.desk.books server) }
        ensures refused { IfErr result (HasNoPass self.now.desk.books server) }
    {
        let Some(named) = server else {
            return Ok(None);
        };
        if self.control.desk().knows(named) {
            Ok(Some(named))
        } else {
            Err(PassFault::UnknownServer)
        }
    }

    /// Returns the control's plan for the shards of the server, or, without a server, for the vacant shards; or the
    /// first fault that applies.
    pub fn plan(&self, alloc: Global, from: Option<ServerId>) -> Result<Plan, DrainFault>
        ensures plan { IfOk result (λ plan. plan ≡ planned_for self.now.desk.books from) }
        ensures refused { IfErr result (PlansNothing self.now.desk.books from) }
    {
        match from {
            Some(server) => self.control.plan_drain(alloc, server),
            None => match self.control.plan_assign(alloc) {
                Ok(plan) => Ok(plan),
                Err(_) => Err(DrainFault::NoMemory),
            },
        }
    }

    /// Gives the command to the control: it is made, or refused by the first fault that applies.
    pub fn command(&mut self, command: Command) -> Result<(), CommandFault>
        ensures answer { Commanded (desk_fault self.old.desk command) self.old self.new command result }
        ensures board { self.new.chair.board ≡ self.old.chair.board }
    {
        self.control.command(&self.board, command)
    }
}

impl Chief<Foreign> {
    /// Returns a new pass to foreign bodies, admitted as this server, which the board has, or never.
    pub fn foreign_pass(&self, server: Option<ServerId>) -> Result<BoardPass<Foreign>, PassFault>
        ensures board { IfOk result (λ pass. pass.0.board ≡ self.now.chair.board) }
        ensures server { IfOk result (λ pass. pass.0.server ≡ server) }
        ensures new { IfOk result (λ pass. HasNotActed pass.0) }
        ensures known { IfOk result (λ pass. HasServer self.now.desk.books server) }
        ensures free { IfOk result (λ pass. pass.1 ≡ None) }
        ensures refused { IfErr result (HasNoPass self.now.desk.books server) }
    {
        let server = self.known(server)?;
        let board = Arc::try_clone(&self.board)?;
        Ok(BoardPass::new(board, server))
    }
}

// Servers 1 to this one, each in a domain of its own.
fn rows_of(alloc: Global, last: u16) -> Result<Vec<ServerRow>, AllocError>
    requires { last ≤ 4095 }
    ensures { IfOk result (λ rows. rows.items ≡ first_servers last) }
{
    let mut rows = Vec::new(alloc);
    for number in 0..last {
        rows.push(ServerRow {
            id: ServerId::of(number + 1),
            domain: number,
            capacity: 4096,
        })?;
    }
    Ok(rows)
}

// Makes the desk of so many servers, and of so many shards of load 1, all vacant and in one group.
fn desk_of(alloc: Global, servers: u16, count: usize, ops: u16) -> Result<Desk, BooksFault>
    requires servers { servers ≤ 4095 }
    requires ops { ops ≤ 4095 }
    ensures desk { IfOk result (λ desk. desk ≡ first_desk servers count ops) }
    ensures count { IfOk result (λ desk. length desk.books.shards ≡ count) }
    ensures vacant { IfOk result (λ desk. All (λ shard. shard.stand ≡ Vacant) desk.books.shards) }
    ensures refused { IfErr result (λ fault. (fault ≡ BooksFault.NoMemory) ⊎ (Some fault
        ≡ first_books_fault (first_servers servers) one_group (equal_shards count) (own_domains servers))) }
{
    let groups = [GroupRow {
        limit: 4096,
        down: 4096,
    }];
    let rows = rows_of(alloc, servers)?;
    let shards = vec![in alloc; ShardRow {
        group: 0,
        load: 1,
        cap: 1
    }; count]?;
    let domains = equal_domains(alloc, &rows, MAX_DOMAIN_DOWN)?;
    desk_over(alloc, &rows, &groups, &shards, &domains, ops)
}

// The desk of these rows: all servers are up, and all shards vacant.
fn desk_over(
    alloc: Global,
    servers: &[ServerRow],
    groups: &[GroupRow],
    shards: &[ShardRow],
    domains: &[DomainRow],
    ops: u16,
) -> Result<Desk, BooksFault>
    requires { ops ≤ 4095 }
    ensures desk { IfOk result (λ desk. desk ≡ desk_of_rows servers.now groups.now shards.now domains.now ops) }
    ensures vacant { IfOk result (λ desk. All (λ shard. shard.stand ≡ Vacant) desk.books.shards) }
    ensures refused { IfErr result (λ fault. (fault ≡ BooksFault.NoMemory)
        ⊎ (Some fault ≡ first_books_fault servers.now groups.now shards.now domains.now)) }
{
    let books = Books::new(alloc, servers, groups, shards, domains)?;
    all_up_meets_caps();
    Ok(Desk::new(books, Tasks::new(ops)))
}
