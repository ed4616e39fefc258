//! Boards that a line of settings describes.
ghost use Rattle.std.specs.Prelude.{ℕ, ◌≡◌, IfErr, IfOk, OnOk, Ok, Some, length, replicate};
ghost use Rattle.sm_settings.specs.SettingsLine.{settings_of, values_of};
ghost use Rattle.sm_settings.specs.SettingsRules.{KeepsRules};
ghost use Rattle.sm_foreign.specs.Chiefs.{IsControlBy};
ghost use Rattle.sm_foreign.specs.Refusals.{OpensNothingBy};
ghost use Rattle.sm_handle.specs.Opening.{KeepsLayout, OpensBoard, OpensNoBoard, OpensNoService, OpensService};
ghost use Rattle.sm_handle.specs.Opening.{foreign_limits};

use crate::handle::Handle;
use crate::serving::empty_bodies;
use crate::settings_open_fault::SettingsOpenFault;
use sm_foreign::{Chief, Fence, Foreign, ForeignChief, OpenFault};
use sm_handle_state::HandleState;
use sm_ranges::layout::Layout;
use sm_service::CounterText;
use sm_settings::Settings;
use std::alloc::Global;

impl Handle {
    /// Keeps the control of a new board of the sample service, by the line of settings, in place of the earlier state;
    /// the other handle keeps the layout. Returns the number of its shards; or the fault, and then both are as they
    /// were.
    pub fn open_by(
        &mut self,
        alloc: Global,
        layout: &mut Handle,
        line: &[u8],
    ) -> Result<usize, SettingsOpenFault>
        ensures made { IfOk result (OpensService line.now self.new.owned.state layout.new.owned.state) }
        ensures refused { IfErr result (OpensNoService line.now) }
        ensures kept { IfErr result (λ fault. self.new.owned.state ≡ self.old.owned.state) }
        ensures unwritten { IfErr result (λ fault. layout.new.owned.state ≡ layout.old.owned.state) }
    {
        let settings = read(alloc, line)?;
        let chief = match service_by(alloc, &settings) {
            Ok(chief) => chief,
            Err(fault) => return Err(SettingsOpenFault::Open(fault)),
        };
        let count = settings.shards.len();
        self.keep_both(
            alloc,
            HandleState::TextChief(chief),
            layout,
            settings.layout,
        )?;
        Ok(count)
    }

    /// Keeps the control of a new board with a body for each number, by the line of settings and with this fence, in
    /// place of the earlier state; the other handle keeps the layout. If there is a fault, returns it, and both are as
    /// they were.
    pub fn open_bodies_by(
        &mut self,
        alloc: Global,
        layout: &mut Handle,
        line: &[u8],
        numbers: &[u64],
        fence: Fence,
    ) -> Result<(), SettingsOpenFault>
        ensures made { OnOk result
            (OpensBoard line.now numbers.now fence.after self.new.owned.state layout.new.owned.state) }
        ensures refused { IfErr result (OpensNoBoard line.now (length numbers.now)) }
        ensures kept { IfErr result (λ fault. self.new.owned.state ≡ self.old.owned.state) }
        ensures unwritten { IfErr result (λ fault. layout.new.owned.state ≡ layout.old.owned.state) }
    {
        let settings = read(alloc, line)?;
        let held = match board_by(alloc, &settings, numbers) {
            Ok(held) => held,
            Err(fault) => return Err(SettingsOpenFault::Open(fault)),
        };
        let chief = ForeignChief { held, fence };
        self.keep_both(alloc, HandleState::Chief(chief), layout, settings.layout)
    }

    // Keeps the state, and in the other handle the layout, in place of their earlier states. Fails if memory is
    // refused, and then both are as they were.
    fn keep_both(
        &mut self,
        alloc: Global,
        state: HandleState,
        other: &mut Handle,
        layout: Layout,
    ) -> Result<(), SettingsOpenFault>
        ensures state { OnOk result (self.new.owned.state ≡ Some state) }
        ensures layout { OnOk result (KeepsLayout other.new.owned.state layout) }
        ensures fault { IfErr result (λ fault. fault ≡ SettingsOpenFault.Open OpenFault.NoMemory) }
        ensures kept { IfErr result (λ fault. self.new.owned.state ≡ self.old.owned.state) }
        ensures unwritten { IfErr result (λ fault. other.new.owned.state ≡ other.old.owned.state) }
    {
        // The layout's place first, so that nothing is refused once the state is kept.
        let Ok(place) = Box::new(alloc, HandleState::Layout(layout)) else {
            return Err(SettingsOpenFault::Open(OpenFault::NoMemory));
        };
        if self.keep(alloc, state).is_err() {
            return Err(SettingsOpenFault::Open(OpenFault::NoMemory));
        }
        other.close(alloc);
        other.put(place);
        Ok(())
    }
}

// The settings of the line.
fn read(alloc: Global, line: &[u8]) -> Result<Settings, SettingsOpenFault>
    ensures ok { IfOk result (λ settings. settings_of line.now ≡ Ok (values_of settings)) }
    ensures rules { IfOk result (λ settings. KeepsRules (values_of settings)) }
    ensures service { IfErr result (OpensNoService line.now) }
    ensures board { (count : ℕ) → IfErr result (OpensNoBoard line.now count) }
{
    match Settings::read(alloc, line) {
        Ok(settings) => Ok(settings),
        Err(fault) => Err(SettingsOpenFault::Settings(fault)),
    }
}

// The control of a board of the sample service as settings say.
fn service_by(alloc: Global, settings: &Settings) -> Result<Box<Chief<CounterText>>, OpenFault>
    requires { KeepsRules (values_of settings.now) }
    ensures made { IfOk result (λ chief. IsControlBy chief.value
        (replicate (length settings.now.shards.items) settings.now.kept) (values_of settings.now)) }
    ensures refused { IfErr result
        (OpensNothingBy (length settings.now.shards.items) (values_of settings.now)) }
{
    let Ok(bodies) = empty_bodies(alloc, settings.shards.len(), settings.kept as usize) else {
        return Err(OpenFault::NoMemory);
    };
    Chief::by_settings(alloc, bodies, settings)
}

// The control of a board with a body for each number as settings say.
fn board_by(
    alloc: Global,
    settings: &Settings,
    numbers: &[u64],
) -> Result<Box<Chief<Foreign>>, OpenFault>
    requires { KeepsRules (values_of settings.now) }
    ensures made { IfOk result
        (λ chief. IsControlBy chief.value (foreign_limits numbers.now) (values_of settings.now)) }
    ensures refused { IfErr result (OpensNothingBy (length numbers.now) (values_of settings.now)) }
{
    let Ok(bodies) = Foreign::all(alloc, numbers) else {
        return Err(OpenFault::NoMemory);
    };
    Chief::by_settings(alloc, bodies, settings)
}
