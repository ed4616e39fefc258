ghost use Rattle.std.specs.Prelude.{◌≡◌, ◌≤◌, map, vec_len, IfOk, IfSome, option_map};
ghost use Rattle.std.specs.List.{list_all};
ghost use Rattle.serde_json.specs.Find.{get};
ghost use Rattle.serde_json.specs.View.{view};
ghost use Rattle.sm_settings.specs.Members.{holds_of, is_array_of, when};

use crate::members::{array, has_numbers, number_within};
use serde_json::Value;
use sm_ranges::limits::{MAX_SERVER, MAX_SHARDS};
use sm_ranges::server_id::ServerId;
use sm_rows::limits::{MAX_CAP, MAX_DOMAIN, MAX_DOMAIN_DOWN, MAX_LIMIT};
use sm_rows::{
    DomainRow, GroupRow, ServerRow, ShardRow, are_domains, are_groups, are_servers, are_shards,
};
use std::alloc::{AllocError, Global};

/// A row, which the settings write as an object of numbers.
pub(crate) trait Row: Copy + Drop {
    ghost use Rattle.std.specs.Prelude.{◌≡◌, ◌≤◌, ℕ, Bool, false, true, List, length};
    ghost use Rattle.std.specs.List.{list_all};
    ghost use Rattle.serde_json.specs.Data.{Data};
    ghost use Rattle.serde_json.specs.View.{view};
    ghost use Rattle.sm_ranges.specs.declared.limits.TheConstants.{MAX_SHARDS as MOST_ROWS};
    ghost use Rattle.sm_rows.specs.declared.server_row.ServerRow.{ServerRow as Server};
    ghost use Rattle.sm_settings.specs.Members.{when};

    /// Whether data is an object with exactly the row's members.
    ghost is_object: { Data → Bool };

    /// The row of an object.
    ghost row_of: { Data → Self };

    /// Whether each number of a row is in its range, if there are this many groups.
    ghost is_row: { ℕ → Self → Bool };

    /// Whether rows keep their rules, if there are this many bounds and groups, and these servers.
    ghost rule: { ℕ → ℕ → List Server → List Self → Bool };

    /// Returns whether the value has exactly the members of a row, each a number.
    fn has_shape(value: &Value) -> bool
        ensures { result ≡ is_object (view value.now) };

    /// Returns the row of the value's members, if each number is in its range. There are this many groups.
    fn from_value(value: &Value, groups: u16) -> Option<Self>
        ensures { result ≡ when (is_row groups (row_of (view value.now))) (row_of (view value.now)) };

    /// Returns whether the rows keep their rules, if there are this many bounds and groups, and these servers.
    fn keep_rule(rows: &[Self], bounds: usize, groups: u16, servers: &[ServerRow]) -> bool
        ensures { result ≡ rule bounds groups servers.now rows.now };

    // If a number is out of its range, it breaks the rule.
    ghost refused: { (bounds groups : ℕ) (servers : List Server) (rows : List Self)
        → list_all (is_row groups) rows ≡ false → rule bounds groups servers rows ≡ false };

    // No kind has more rows than there may be shards.
    ghost few: { (bounds groups : ℕ) (servers : List Server) (rows : List Self)
        → rule bounds groups servers rows ≡ true → length rows ≤ MOST_ROWS };
}

impl Row for ServerRow {
    ghost use Rattle.sm_rows.specs.Rows.{is_server_row};
    ghost use Rattle.sm_settings.specs.SettingsRows.{is_server_object, server_row_of, rule_of_servers};
    ghost use Rattle.sm_settings.specs.lemmas.RuledRows.{servers_few, servers_refused};

    ghost is_object = { is_server_object };

    ghost row_of = { server_row_of };

    ghost is_row = { λ _ row. is_server_row row };

    ghost rule = { λ _ _ _ rows. rule_of_servers rows };

    ghost refused = { λ _ _ _ rows out. servers_refused rows out };

    ghost few = { λ _ _ _ rows kept. servers_few rows kept };

    fn has_shape(value: &Value) -> bool {
        has_numbers(value, &["id", "domain", "capacity"])
    }

    fn from_value(value: &Value, _groups: u16) -> Option<ServerRow> {
        let id = number_within(value, "id", 1, u64::from(MAX_SERVER))?;
        let id = ServerId::new(id as u16)?;
        let domain = number_within(value, "domain", 0, u64::from(MAX_DOMAIN))?;
        let capacity = number_within(value, "capacity", 0, u64::from(u32::MAX))?;
        Some(ServerRow {
            id,
            domain: domain as u16,
            capacity: capacity as u32,
        })
    }

    #[tactic(auto, unfolding(crate::specs::SettingsRows::rule_of_servers))]
    fn keep_rule(rows: &[ServerRow], _bounds: usize, _groups: u16, _servers: &[ServerRow]) -> bool {
        are_servers(rows)
    }
}

impl Row for GroupRow {
    ghost use Rattle.sm_rows.specs.Rows.{is_group_row};
    ghost use Rattle.sm_settings.specs.SettingsRows.{is_group_object, group_row_of, rule_of_groups};
    ghost use Rattle.sm_settings.specs.lemmas.RuledRows.{groups_few, groups_refused};

    ghost is_object = { is_group_object };

    ghost row_of = { group_row_of };

    ghost is_row = { λ _ row. is_group_row row };

    ghost rule = { λ _ _ _ rows. rule_of_groups rows };

    ghost refused = { λ _ _ _ rows out. groups_refused rows out };

    ghost few = { λ _ _ _ rows kept. groups_few rows kept };

    fn has_shape(value: &Value) -> bool {
        has_numbers(value, &["limit", "down"])
    }

    fn from_value(value: &Value, _groups: u16) -> Option<GroupRow> {
        let limit = number_within(value, "limit", 0, u64::from(MAX_LIMIT))?;
        let down = number_within(value, "down", 0, u64::from(MAX_LIMIT))?;
        Some(GroupRow {
            limit: limit as u16,
            down: down as u16,
        })
    }

    #[tactic(auto, unfolding(crate::specs::SettingsRows::rule_of_groups))]
    fn keep_rule(rows: &[GroupRow], _bounds: usize, _groups: u16, _servers: &[ServerRow]) -> bool {
        are_groups(rows)
    }
}

impl Row for ShardRow {
    ghost use Rattle.sm_rows.specs.Rows.{is_shard_row};
    ghost use Rattle.sm_settings.specs.SettingsRows.{is_shard_object, shard_row_of, rule_of_shards};
    ghost use Rattle.sm_settings.specs.lemmas.RuledRows.{shards_few, shards_refused};

    ghost is_object = { is_shard_object };

    ghost row_of = { shard_row_of };

    ghost is_row = { is_shard_row };

    ghost rule = { λ bounds groups _ rows. rule_of_shards bounds groups rows };

    ghost refused = { λ bounds groups _ rows out. shards_refused bounds groups rows out };

    ghost few = { λ bounds groups _ rows kept. shards_few bounds groups rows kept };

    fn has_shape(value: &Value) -> bool {
        has_numbers(value, &["group", "load", "cap"])
    }

    fn from_value(value: &Value, groups: u16) -> Option<ShardRow> {
        let last_group = u64::from(groups).checked_sub(1)?;
        let group = number_within(value, "group", 0, last_group)?;
        let load = number_within(value, "load", 0, u64::from(u32::MAX))?;
        let cap = number_within(value, "cap", 0, u64::from(MAX_CAP))?;
        Some(ShardRow {
            group: group as u16,
            load: load as u32,
            cap: cap as u8,
        })
    }

    #[tactic(auto, unfolding(crate::specs::SettingsRows::rule_of_shards))]
    fn keep_rule(rows: &[ShardRow], bounds: usize, groups: u16, _servers: &[ServerRow]) -> bool {
        rows.len() == bounds && are_shards(usize::from(groups), rows)
    }
}

impl Row for DomainRow {
    ghost use Rattle.sm_rows.specs.Domains.{is_domain_row};
    ghost use Rattle.sm_settings.specs.SettingsRows.{is_domain_object, domain_row_of, rule_of_domains};
    ghost use Rattle.sm_settings.specs.lemmas.RuledRows.{domains_few, domains_refused};

    ghost is_object = { is_domain_object };

    ghost row_of = { domain_row_of };

    ghost is_row = { λ _ row. is_domain_row row };

    ghost rule = { λ _ _ servers rows. rule_of_domains servers rows };

    ghost refused = { λ _ _ servers rows out. domains_refused servers rows out };

    ghost few = { λ _ _ servers rows kept. domains_few servers rows kept };

    fn has_shape(value: &Value) -> bool {
        has_numbers(value, &["domain", "down"])
    }

    fn from_value(value: &Value, _groups: u16) -> Option<DomainRow> {
        let domain = number_within(value, "domain", 0, u64::from(MAX_DOMAIN))?;
        let down = number_within(value, "down", 0, u64::from(MAX_DOMAIN_DOWN))?;
        Some(DomainRow {
            domain: domain as u16,
            down: down as u16,
        })
    }

    #[tactic(auto, unfolding(crate::specs::SettingsRows::rule_of_domains))]
    fn keep_rule(rows: &[DomainRow], _bounds: usize, _groups: u16, servers: &[ServerRow]) -> bool {
        are_domains(servers, rows)
    }
}

/// Returns whether there is an array at the member, and each of its items has the members of a row.
#[tactic(auto, using(crate::proofs::Viewed::holds_of_array))]
pub(crate) fn has_rows<T: Row>(value: &Value, name: &str) -> bool
    ensures { result ≡ holds_of (is_array_of T.is_object) (get name.now (view value.now)) }
{
    match array(value, name) {
        Some(values) => have_shape::<T>(values),
        None => false,
    }
}

/// Returns whether each value has the members of a row.
fn have_shape<T: Row>(values: &[Value]) -> bool
    ensures { result ≡ list_all (λ value. T.is_object (view value)) values.now }
{
    values.iter().all(|value| T::has_shape(value))
}

/// Returns the rows of the values, if each number is in its range. There are this many groups.
fn rows_of<T: Row>(
    alloc: Global,
    values: &[Value],
    groups: u16,
) -> Result<Option<Vec<T>>, AllocError>
    ensures { let rows = map T.row_of (map view values.now) in
        IfOk result (λ found. option_map (λ list. list.items) found ≡ when (list_all (T.is_row groups) rows) rows) }
{
    let mut rows = Vec::with_capacity(alloc, values.len())?;
    for value in values {
        match T::from_value(value, groups) {
            Some(row) => rows.push(row)?,
            None => return Ok(None),
        }
    }
    Ok(Some(rows))
}

/// Returns the rows of the values, if they keep their rules for this many bounds and groups, and these servers.
pub(crate) fn rows_from<T: Row>(
    alloc: Global,
    values: &[Value],
    bounds: usize,
    groups: u16,
    servers: &[ServerRow],
) -> Result<Option<Vec<T>>, AllocError>
    ensures rows { let rows = map T.row_of (map view values.now) in
        IfOk result
        (λ found. option_map (λ list. list.items) found ≡ when (T.rule bounds groups servers.now rows) rows) }
    ensures few { IfOk result (λ found. IfSome found (λ list. vec_len list ≤ MAX_SHARDS)) }
{
    let Some(rows) = rows_of::<T>(alloc, values, groups)? else {
        return Ok(None);
    };
    if T::keep_rule(&rows, bounds, groups, servers) {
        Ok(Some(rows))
    } else {
        Ok(None)
    }
}
