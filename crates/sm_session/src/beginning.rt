//! The state with which a session's backend begins.

ghost use Rattle.std.specs.Prelude.{◌≡◌, [], All, IfOk, length, replicate};
ghost use Rattle.sm_desk.specs.Desk.{stands_of};
ghost use Rattle.sm_ranges.specs.declared.stand.Stand.TheVariants.{Vacant};
ghost use Rattle.sm_settings.specs.SettingsLine.{values_of};
ghost use Rattle.sm_settings.specs.SettingsRules.{KeepsRules};
ghost use Rattle.sm_session.specs.Beginning.{settings_desk};

use sm_desk::Desk;
use sm_place::{Books, BooksFault};
use sm_service::CounterText;
use sm_settings::settings::Settings;
use sm_tasks::Tasks;
use sm_tasks::laws::all_up_meets_caps;
use std::alloc::{AllocError, Global};

/// Makes the desk of the settings' rows. All servers are up, and all shards are vacant.
pub fn desk_of(alloc: Global, settings: &Settings) -> Result<Desk, AllocError>
    requires { KeepsRules (values_of settings.now) }
    ensures desk { IfOk result (λ desk. desk ≡ settings_desk (values_of settings.now)) }
    ensures vacant { IfOk result (λ desk. stands_of desk ≡ replicate (length (values_of settings.now).bounds) Vacant) }
    ensures all_vacant { IfOk result (λ desk. All (λ shard. shard.stand ≡ Vacant) desk.books.shards) }
{
    let books = match Books::new(
        alloc,
        &settings.servers,
        &settings.groups,
        &settings.shards,
        &settings.domains,
    ) {
        Ok(books) => books,
        Err(fault) => return Err(want_of_memory(fault)),
    };
    all_up_meets_caps();
    Ok(Desk::new(books, Tasks::new(settings.ops)))
}

/// Returns the reason why there are no books. It must be lack of memory, because the settings were checked by the rules
/// of books.
fn want_of_memory(fault: BooksFault) -> AllocError
    requires { fault ≡ BooksFault.NoMemory }
{
    match fault {
        BooksFault::NoMemory => AllocError,
        BooksFault::BadServers
        | BooksFault::BadGroups
        | BooksFault::BadShards
        | BooksFault::BadDomains => unreachable!(),
    }
}

/// Makes a body without requests for each shard.
pub fn empty_bodies(
    alloc: Global,
    count: usize,
    limit: usize,
) -> Result<Vec<CounterText>, AllocError>
    ensures { IfOk result (λ bodies. bodies.items
        ≡ replicate count (record { base = []; before = 0; requests = []; limit = limit })) }
{
    let mut bodies = Vec::with_capacity(alloc, count)?;
    for _shard in 0..count {
        bodies.push(CounterText::new(alloc, limit))?;
    }
    Ok(bodies)
}
