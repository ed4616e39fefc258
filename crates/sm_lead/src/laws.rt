//! Laws of controls and the store together.

ghost use Rattle.std.specs.Prelude.{◌≡◌, ℕ, Bool, List, None, Option, Some, true};
ghost use Rattle.sm_place.specs.Sound.{AreSound};
ghost use Rattle.sm_tasks.specs.Caps.{MeetsCaps};
ghost use Rattle.sm_desk.specs.declared.command.Command.{Command};
ghost use Rattle.sm_desk.specs.Desk.{DeskView};
ghost use Rattle.sm_store.specs.declared.item.Item.{Item};
ghost use Rattle.sm_store.specs.declared.server_run.ServerRun.{ServerRun};
ghost use Rattle.sm_store.specs.Settings.{ControlSettings};
ghost use Rattle.sm_store.specs.Store.{Transaction};
ghost use Rattle.sm_store.specs.Deeds.{AreRight, Charter, MaySend};
ghost use Rattle.sm_store.specs.Linear.{AsksFor};
ghost use Rattle.sm_store.specs.System.{Ask};
ghost use Rattle.sm_lead.specs.declared.ack_read.AckRead.{AckRead};
ghost use Rattle.sm_lead.specs.declared.command_write.CommandWrite.{CommandWrite};
ghost use Rattle.sm_lead.specs.declared.leadership.Leadership.{Leadership};
ghost use Rattle.sm_lead.specs.declared.record_read.RecordRead.{RecordRead};
ghost use Rattle.sm_lead.specs.declared.store_control.StoreControl.{StoreControl};
ghost use Rattle.sm_lead.specs.Commands.{IsAfter, command_fault, may_name, write_of};
ghost use Rattle.sm_lead.specs.Controls.{CommandWasMade, GoesByStore, IsLoaded, IsReadBy, IsReadOf, KnowsStore};
ghost use Rattle.sm_lead.specs.Controls.{written_desk, settings_held};
ghost use Rattle.sm_lead.specs.Placements.{AreKeptBy, HasRowsOf, SettingsReading, charter_of};
ghost use Rattle.sm_lead.specs.Resettlings.{resettle_fault, resettling};
ghost use Rattle.sm_lead.specs.Sendings.{command_transaction, compares_of, sending_of};
ghost use Rattle.sm_lead.specs.Waits.{AreAcksMade, has_waited};

use sm_desk::laws::{commands_keep_caps, commands_keep_soundness};
use sm_ownership::laws::change_refused_exactly;
use sm_tasks::laws::all_up_meets_caps;

/// If everything was read at one moment, the control made from the readings has true knowledge. It uses the settings
/// that were read then, if these were in force.
pub fn reading_is_known<Q, P>()
    ensures knows { (log : List (Transaction Q P)) (desk : DeskView) (lead : Leadership) (ceiling : ℕ)
        (waits : Bool) (reads : List RecordRead) (runs : List ServerRun) (placed : ℕ) (control : StoreControl)
        → AreSound control.desk.books → IsLoaded desk lead ceiling waits reads runs placed control
        → IsReadOf log desk lead reads runs placed
        → KnowsStore log control }
    ensures goes_by { (reading : List ℕ → Option ControlSettings) (log : List (Transaction Q P))
        (settings : ControlSettings) (lead : Leadership) (waits : Bool) (reads : List RecordRead)
        (runs : List ServerRun) (placed : ℕ) (control : StoreControl)
        → AreSound control.desk.books
        → IsLoaded (written_desk settings) lead settings.ceiling waits reads runs placed control
        → IsReadBy reading log settings lead reads runs placed
        → GoesByStore reading log control }
    ensures held { (settings : ControlSettings) (lead : Leadership) (waits : Bool) (reads : List RecordRead)
        (runs : List ServerRun) (placed : ℕ) (control : StoreControl)
        → IsLoaded (written_desk settings) lead settings.ceiling waits reads runs placed control
        → settings_held control ≡ settings }
{}

/// A command that the control doesn't refuse may be sent, once the awaited servers have acked, by acks that were made,
/// and the process that it names may be named then. If a control doesn't wait, it sends by a charter whose commands
/// don't wait.
pub fn commands_may_be_sent<Q, P>()
    ensures { (reading : SettingsReading) (parts : List (Item Q) → List P) (log : List (Transaction Q P))
        (control : StoreControl) (acks : List AckRead) (process : ℕ) (command : Command)
        → AreSound control.desk.books → GoesByStore reading.settings log control
        → AreAcksMade log acks → command_fault control command ≡ None → has_waited control acks command ≡ true
        → may_name control (write_of control process command) ≡ true
        → MaySend (charter_of reading control.waits parts) log
        (command_transaction (sending_of control (write_of control process command))) }
{
    change_refused_exactly();
}

/// The settings of another control may be sent in place of those in force, by which this one goes, if it doesn't refuse
/// them: the other one knows the same records and states, so that these keep to its settings.
pub fn settings_may_be_sent<Q, P>()
    ensures { (reading : SettingsReading) (parts : List (Item Q) → List P) (log : List (Transaction Q P))
        (control other : StoreControl) (settings : List ℕ)
        → AreRight (charter_of reading control.waits parts) log
        → AreSound control.desk.books → GoesByStore reading.settings log control
        → AreSound other.desk.books → MeetsCaps other.desk.caps other.desk.books → KnowsStore log other
        → reading.settings settings ≡ Some (settings_held other) → resettle_fault control other ≡ None
        → MaySend (charter_of reading control.waits parts) log (resettling control settings) }
{}

/// The numbers of a command's transaction determine all its compares.
pub fn sendings_say_compares<Q, P>()
    ensures { (control : StoreControl) (process : ℕ) (command : Command) (txn : Transaction Q P)
        → let sending = sending_of control (write_of control process command) in
        txn ≡ command_transaction sending → txn.compares ≡ compares_of sending }
{}

/// A command makes no request, nor do settings, so a control never asks for one on its own.
pub fn commands_ask_for_nothing<Q, P>()
    ensures settings { (asked : List (Ask Q)) (control : StoreControl) (settings : List ℕ)
        → AsksFor {P = P} asked (resettling control settings) }
    ensures commands { (asked : List (Ask Q)) (control : StoreControl) (process : ℕ) (command : Command)
        (txn : Transaction Q P)
        → txn ≡ command_transaction (sending_of control (write_of control process command)) → AsksFor asked txn }
{}

/// The state of the control after its command was made is true in the store. It then knows all records and states
/// there, and uses the settings in force as before.
pub fn outcomes_are_known<Q, P>()
    ensures goes_by { (charter : Charter Q P) (log : List (Transaction Q P)) (control new : StoreControl) (process : ℕ)
        (command : Command) (revision : ℕ) → AreRight charter log → AreSound control.desk.books
        → GoesByStore charter.settings log control → command_fault control command ≡ None
        → CommandWasMade log (command_transaction (sending_of control (write_of control process command))) revision
        → IsAfter control command (write_of control process command) revision new
        → GoesByStore charter.settings log new }
    ensures knows { (charter : Charter Q P) (log : List (Transaction Q P)) (control new : StoreControl) (process : ℕ)
        (command : Command) (revision : ℕ) → AreRight charter log → AreSound control.desk.books
        → KnowsStore log control → command_fault control command ≡ None
        → CommandWasMade log (command_transaction (sending_of control (write_of control process command))) revision
        → IsAfter control command (write_of control process command) revision new → KnowsStore log new }
{}

/// A command leaves the rows of the settings, and the caps by which restarts are approved.
pub fn commands_keep_rows()
    ensures { (control new : StoreControl) (command : Command) (write : CommandWrite) (revision : ℕ)
        → IsAfter control command write revision new → HasRowsOf control.desk new.desk }
{}

/// For the records and states in the store, the caps of approved restarts hold at each moment, and there is room, by
/// the settings in force then, whoever led and whatever was sent late, twice or never. This requires that each
/// transaction was right for the store before it, which is the law of the store in every run.
pub fn controls_keep_caps<Q, P>()
    ensures { (reading : SettingsReading) (waits : Bool) (parts : List (Item Q) → List P) (log : List (Transaction Q P))
        → AreRight (charter_of reading waits parts) log → AreKeptBy reading log }
{
    all_up_meets_caps();
    commands_keep_caps();
    commands_keep_soundness();
}
