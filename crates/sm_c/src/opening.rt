//! Boards that a line of settings describes.
ghost use Rattle.std.specs.Prelude.{◌≡◌, ◌≢◌, ◌≤◌, ◌<◌, ◌⊎◌, length};
ghost use Rattle.sm_foreign.specs.declared.fence.TheConstants.{MAX_AFTER};
ghost use Rattle.sm_handle.specs.Opening.{OpensBoard, OpensNoBoard, OpensNoService, OpensService};
ghost use Rattle.sm_handle.specs.declared.settings_open_fault.SettingsOpenFault.{SettingsOpenFault as FaultValue};
ghost use Rattle.sm_c.specs.Opening.{HasFault, settings_code, settings_open_code};

use crate::codes::{BAD_AFTER, NO_MEMORY, code_of_open};
use sm_foreign::Fence;
use sm_handle::{Handle, SettingsOpenFault};
use sm_settings::SettingsFault;
use std::alloc::Global;

/// Opens a board of the sample service by the line of settings with which a script begins, without its line feed: its
/// layout, servers, groups, shards, domains and limits, except for its workers. The chief's handle keeps the control,
/// and the layout's handle the layout, in place of their earlier states, and `shards` is how many there are.
#[unsafe(no_mangle)]
pub extern "C" fn durkenzo_open_settings(
    alloc: Global,
    chief: &mut Handle,
    layout: &mut Handle,
    line: &[u8],
    shards: &mut usize,
) -> u32
    ensures made { result ≡ 0
        → OpensService line.now chief.new.owned.state layout.new.owned.state shards.new }
    ensures fault { 70 ≤ result → HasFault line.now result }
    ensures refused { result ≢ 0
        → (fault : FaultValue) × OpensNoService line.now fault × (result ≡ settings_open_code fault) }
    ensures kept { result ≢ 0 → chief.new.owned.state ≡ chief.old.owned.state }
    ensures unwritten { result ≢ 0
        → (layout.new.owned.state ≡ layout.old.owned.state) × (shards.new ≡ shards.old) }
{
    match chief.open_by(alloc, layout, line) {
        Ok(count) => {
            *shards = count;
            0
        }
        Err(SettingsOpenFault::Settings(fault)) => code_of_settings(fault),
        Err(SettingsOpenFault::Open(fault)) => code_of_open(fault),
    }
}

/// Opens a board with a body for each number as the line of settings says, but for how many requests a shard keeps: the
/// bodies are as many as its shards. The rest as `durkenzo_open_settings`.
#[unsafe(no_mangle)]
pub extern "C" fn durkenzo_open_bodies(
    alloc: Global,
    chief: &mut Handle,
    layout: &mut Handle,
    line: &[u8],
    numbers: &[u64],
) -> u32
    ensures made { result ≡ 0
        → OpensBoard line.now numbers.now 0 chief.new.owned.state layout.new.owned.state }
    ensures fault { 70 ≤ result → HasFault line.now result }
    ensures refused { result ≢ 0 → (fault : FaultValue) × OpensNoBoard line.now (length numbers.now) fault
        × (result ≡ settings_open_code fault) }
    ensures kept { result ≢ 0 → chief.new.owned.state ≡ chief.old.owned.state }
    ensures unwritten { result ≢ 0 → layout.new.owned.state ≡ layout.old.owned.state }
{
    open_fenced(alloc, chief, layout, line, numbers, Fence::first())
}

/// Opens a board as `durkenzo_open_bodies` does, whose fencing tokens are all above this number.
#[unsafe(no_mangle)]
pub extern "C" fn durkenzo_open_bodies_after(
    alloc: Global,
    chief: &mut Handle,
    layout: &mut Handle,
    line: &[u8],
    numbers: &[u64],
    after: u64,
) -> u32
    ensures made { result ≡ 0
        → OpensBoard line.now numbers.now after chief.new.owned.state layout.new.owned.state }
    ensures fault { 70 ≤ result → HasFault line.now result }
    ensures refused { result ≢ 0 → ((result ≡ BAD_AFTER) × (MAX_AFTER < after)) ⊎ ((fault : FaultValue)
        × OpensNoBoard line.now (length numbers.now) fault × (result ≡ settings_open_code fault)) }
    ensures kept { result ≢ 0 → chief.new.owned.state ≡ chief.old.owned.state }
    ensures unwritten { result ≢ 0 → layout.new.owned.state ≡ layout.old.owned.state }
{
    match Fence::new(after) {
        Some(fence) => open_fenced(alloc, chief, layout, line, numbers, fence),
        None => BAD_AFTER,
    }
}

// Opens a board with a body for each number as the line of settings says, with this fence.
fn open_fenced(
    alloc: Global,
    chief: &mut Handle,
    layout: &mut Handle,
    line: &[u8],
    numbers: &[u64],
    fence: Fence,
) -> u32
    ensures made { result ≡ 0
        → OpensBoard line.now numbers.now fence.after chief.new.owned.state layout.new.owned.state }
    ensures fault { 70 ≤ result → HasFault line.now result }
    ensures refused { result ≢ 0 → (fault : FaultValue) × OpensNoBoard line.now (length numbers.now) fault
        × (result ≡ settings_open_code fault) }
    ensures kept { result ≢ 0 → chief.new.owned.state ≡ chief.old.owned.state }
    ensures unwritten { result ≢ 0 → layout.new.owned.state ≡ layout.old.owned.state }
{
    match chief.open_bodies_by(alloc, layout, line, numbers, fence) {
        Ok(()) => 0,
        Err(SettingsOpenFault::Settings(fault)) => code_of_settings(fault),
        Err(SettingsOpenFault::Open(fault)) => code_of_open(fault),
    }
}

/// Returns the code of the rule that a line of settings breaks.
fn code_of_settings(fault: SettingsFault) -> u32
    ensures code { result ≡ settings_code fault }
    ensures refused { result ≢ 0 }
{
    match fault {
        SettingsFault::TooLong => 70,
        SettingsFault::BadJson => 71,
        SettingsFault::BadVersion => 72,
        SettingsFault::BadShape => 73,
        SettingsFault::BadLayout => 74,
        SettingsFault::BadServers => 75,
        SettingsFault::BadGroups => 76,
        SettingsFault::BadShards => 77,
        SettingsFault::BadOps => 78,
        SettingsFault::BadKept => 79,
        SettingsFault::BadCeiling => 80,
        SettingsFault::BadWorkers => 81,
        SettingsFault::BadDomains => 82,
        SettingsFault::TooManyWorkers => 83,
        SettingsFault::NoMemory => NO_MEMORY,
    }
}
