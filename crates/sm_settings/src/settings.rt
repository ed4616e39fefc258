ghost use Rattle.std.specs.Prelude.{◌≡◌, ◌≢◌, ◌<◌, ◌≤◌, [], length, if◌then◌else◌, IfOk, IfErr, option_map};
ghost use Rattle.std.specs.List.{list_all};
ghost use Rattle.serde_json.specs.Find.{get};
ghost use Rattle.serde_json.specs.View.{view};
ghost use Rattle.sm_settings.specs.Members.{holds_of, number_at, when};
ghost use Rattle.sm_settings.specs.SettingsRows.{rule_of_domains};
ghost use Rattle.sm_rows.specs.Rows.{is_within};
ghost use Rattle.sm_settings.specs.SettingsLine.{base_verdict, has_domains, has_version, is_settings_object};
ghost use Rattle.sm_settings.specs.SettingsLine.{settings_members, verdict_of, values_in, values_of, settings_of};
ghost use Rattle.sm_settings.specs.SettingsRules.{KeepsRules};

use crate::bounds::{has_texts, layout_from};
use crate::members::{has_number, has_size, items, number, number_within};
use crate::rows::{Row, has_rows, rows_from};
use crate::settings_fault::SettingsFault;
use crate::settings_fault::SettingsFault::BadCeiling;
use serde_json::Value;
use sm_ranges::layout::Layout;
use sm_rows::limits::MAX_DOMAIN_DOWN;
use sm_rows::{DomainRow, GroupRow, ServerRow, ShardRow, equal_domains};
use std::alloc::{AllocError, Global};

/// The greatest length of a settings line in bytes, without its line feed.
pub const MAX_SETTINGS: usize = 1 << 20;

/// The greatest `ops`.
pub const MAX_OPS: u64 = 4_095;

/// The greatest number of requests that a shard may keep.
pub const MAX_KEPT: u64 = 1_048_576;

/// The least ceiling. It is 3 because an assignment, an admission and its end take three generations.
pub const MIN_CEILING: u64 = 3;

/// The greatest ceiling, which is the greatest number of 36 bits.
pub const MAX_CEILING: u64 = (1 << 36) - 1;

/// The greatest number of workers of a server.
pub const MAX_WORKERS: u64 = 8;

/// The contents of a settings line: how the keys are cut into shards, the servers, groups and shards, and the limits of
/// a run.
#[derive(Drop)]
pub struct Settings {
    pub layout: Layout,
    pub servers: Vec<ServerRow>,
    pub groups: Vec<GroupRow>,
    /// A row for each shard of the layout.
    pub shards: Vec<ShardRow>,
    /// How many servers may be approved to restart, stopped or failed, including the one whose restart is approved: 0
    /// to 4,095.
    pub ops: u16,
    /// The greatest number of requests that a shard keeps: 1 to 1,048,576.
    pub kept: u32,
    /// The greatest generation of a shard: 3 to 2^36 - 1.
    pub ceiling: u64,
    /// How many workers a server has: 1 to 8.
    pub workers: u8,
    /// A row for each domain of the servers. Settings of version 1 have none, and let all servers of a domain be down.
    pub domains: Vec<DomainRow>,
}

impl Settings {
    /// Returns the settings in a line, or the fault of the first rule that it breaks.
    ///
    /// The line must be one JSON object, without its line feed. If two members have the same name, the last one counts.
    /// `NoMemory` means that memory was refused, which no clause can predict. It doesn't say whether the line breaks a
    /// rule, only that it isn't too long.
    #[tactic(auto, using(crate::proofs::Lines::settings_of_decides, crate::proofs::Lines::settings_of_nothing))]
    pub fn read(alloc: Global, line: &[u8]) -> Result<Settings, SettingsFault>
        ensures ok { IfOk result (λ settings. settings_of line.now ≡ Ok (values_of settings)) }
        ensures err { IfErr result (λ fault. fault ≢ SettingsFault.NoMemory → settings_of line.now ≡ Err fault) }
        ensures rules { IfOk result (λ settings. KeepsRules (values_of settings)) }
        // The meaning of a line is never `NoMemory`.
        ensures decided { settings_of line.now ≢ Err SettingsFault.NoMemory }
        // An empty line, as if there were no line, is no JSON.
        ensures empty { settings_of [] ≡ Err SettingsFault.BadJson }
        ensures too_long { MAX_SETTINGS < length line.now → result ≡ Err SettingsFault.TooLong }
    {
        if line.len() > MAX_SETTINGS {
            return Err(SettingsFault::TooLong);
        }
        match Value::from_slice(alloc, line) {
            Ok(value) => judge(alloc, &value),
            Err(error) if error.is_memory() => Err(SettingsFault::NoMemory),
            Err(_) => Err(SettingsFault::BadJson),
        }
    }
}

// Returns the settings of a JSON value, or the fault of the first rule that it breaks.
fn judge(alloc: Global, value: &Value) -> Result<Settings, SettingsFault>
    ensures ok { IfOk result (λ settings. verdict_of (Some (view value.now)) ≡ Ok (values_of settings)) }
    ensures err { IfErr result
        (λ fault. fault ≢ SettingsFault.NoMemory → verdict_of (Some (view value.now)) ≡ Err fault) }
{
    let settings = judge_base(alloc, value)?;
    add_domains(alloc, value, settings)
}

// Returns the settings with the rows of domains of the value, if these keep their rules.
fn add_domains(alloc: Global, value: &Value, settings: Settings) -> Result<Settings, SettingsFault>
    requires { base_verdict (view value.now) ≡ Ok (values_of settings) }
    ensures ok { IfOk result (λ settings. verdict_of (Some (view value.now)) ≡ Ok (values_of settings)) }
    ensures err { IfErr result
        (λ fault. fault ≢ SettingsFault.NoMemory → verdict_of (Some (view value.now)) ≡ Err fault) }
{
    let mut whole = settings;
    match domains_from(alloc, value, &whole.servers)? {
        Some(domains) => whole.domains = domains,
        None => return Err(SettingsFault::BadDomains),
    }
    Ok(whole)
}

// Returns the settings of a JSON value without rows of domains, or the fault of the first rule that it breaks.
fn judge_base(alloc: Global, value: &Value) -> Result<Settings, SettingsFault>
    ensures ok { IfOk result (λ settings. base_verdict (view value.now) ≡ Ok (values_of settings)) }
    ensures err { IfErr result (λ fault. fault ≢ SettingsFault.NoMemory → base_verdict (view value.now) ≡ Err fault) }
{
    if !has_version(value) {
        return Err(SettingsFault::BadVersion);
    }
    if !has_shape(value) {
        return Err(SettingsFault::BadShape);
    }
    let Some(layout) = layout_from(alloc, items(value, "bounds"))? else {
        return Err(SettingsFault::BadLayout);
    };
    let Some(servers) = rows_from::<ServerRow>(alloc, items(value, "servers"), 0, 0, &[])? else {
        return Err(SettingsFault::BadServers);
    };
    let Some(groups) = rows_from::<GroupRow>(alloc, items(value, "groups"), 0, 0, &[])? else {
        return Err(SettingsFault::BadGroups);
    };
    let (bounds, group_count) = (layout.count(), groups.len() as u16);
    let rows = items(value, "shards");
    let Some(shards) = rows_from::<ShardRow>(alloc, rows, bounds, group_count, &[])? else {
        return Err(SettingsFault::BadShards);
    };
    let ops = limit(value, "ops", 0, MAX_OPS, SettingsFault::BadOps)?;
    let kept = limit(value, "kept", 1, MAX_KEPT, SettingsFault::BadKept)?;
    let ceiling = limit(value, "ceiling", MIN_CEILING, MAX_CEILING, BadCeiling)?;
    let workers = limit(value, "workers", 1, MAX_WORKERS, SettingsFault::BadWorkers)?;
    Ok(Settings {
        layout,
        servers,
        groups,
        shards,
        ops: ops as u16,
        kept: kept as u32,
        ceiling,
        workers: workers as u8,
        domains: Vec::new(alloc),
    })
}

// Returns the number at a member, or the fault if it is not from `low` to `high`.
fn limit(
    value: &Value,
    name: &str,
    low: u64,
    high: u64,
    fault: SettingsFault,
) -> Result<u64, SettingsFault>
    ensures exact { let number = number_at name.now (view value.now) in
        result ≡ (if is_within low high number then Ok number else Err fault) }
    ensures high { IfOk result (λ number. number ≤ high) }
{
    match number_within(value, name, low, high) {
        Some(number) => Ok(number),
        None => Err(fault),
    }
}

// Returns the rows of domains of the value, if these are its servers and the rows keep their rules.
#[tactic(auto, unfolding(crate::specs::SettingsLine::domains_in))]
fn domains_from(
    alloc: Global,
    value: &Value,
    servers: &[ServerRow],
) -> Result<Option<Vec<DomainRow>>, AllocError>
    requires { servers.now ≡ (values_in (view value.now)).servers }
    ensures { let v = values_in (view value.now) in
        IfOk result
        (λ found. option_map (λ list. list.items) found ≡ when (rule_of_domains v.servers v.domains) v.domains) }
{
    if has_domains(value) {
        return rows_from::<DomainRow>(alloc, items(value, "domains"), 0, 0, servers);
    }
    let rows = equal_domains(alloc, servers, MAX_DOMAIN_DOWN)?;
    if DomainRow::keep_rule(&rows, 0, 0, servers) {
        Ok(Some(rows))
    } else {
        Ok(None)
    }
}

// Returns whether the settings have a version that exists.
#[tactic(auto, unfolding(crate::specs::SettingsLine::has_version))]
fn has_version(value: &Value) -> bool
    ensures { result ≡ has_version (view value.now) }
{
    number(value, "version") == 1 || has_domains(value)
}

// Returns whether the settings are of version 2.
fn has_domains(value: &Value) -> bool
    ensures { result ≡ has_domains (view value.now) }
{
    number(value, "version") == 2
}

// Returns whether the value has exactly the members of settings of its version, each of its type.
#[tactic(auto, unfolding(crate::specs::SettingsLine::is_settings_object))]
fn has_shape(value: &Value) -> bool
    ensures { result ≡ is_settings_object (view value.now) }
{
    if has_domains(value) {
        has_size(value, 10) && has_rows::<DomainRow>(value, "domains") && has_members(value)
    } else {
        has_size(value, 9) && has_members(value)
    }
}

// Returns whether the value has the members of settings of both versions, each of its type.
fn has_members(value: &Value) -> bool
    ensures { result ≡ list_all (λ m. holds_of m.1 (get m.0 (view value.now))) settings_members }
{
    has_number(value, "version")
        && has_texts(value, "bounds")
        && has_rows::<ServerRow>(value, "servers")
        && has_rows::<GroupRow>(value, "groups")
        && has_rows::<ShardRow>(value, "shards")
        && has_number(value, "ops")
        && has_number(value, "kept")
        && has_number(value, "ceiling")
        && has_number(value, "workers")
}
