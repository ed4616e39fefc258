//! What stays true after a command that the desk doesn't refuse.

ghost use Rattle.std.specs.Prelude.{◌≡◌, None};
ghost use Rattle.sm_place.specs.Sound.{AreSound};
ghost use Rattle.sm_tasks.specs.Caps.{MeetsCaps};
ghost use Rattle.sm_desk.specs.declared.command.Command.{Command};
ghost use Rattle.sm_desk.specs.Desk.{DeskView, books_commanded, commanded, desk_fault};

use sm_place::laws::{fewer_names_leave_room, fit_leaves_room};
use sm_tasks::laws::{stands_keep_caps, steps_keep_caps};

/// If the desk doesn't refuse a command, the command keeps the caps of approved restarts.
pub fn commands_keep_caps()
    ensures { (desk : DeskView) (command : Command) → AreSound desk.books → MeetsCaps desk.caps desk.books
        → desk_fault desk command ≡ None → MeetsCaps desk.caps (books_commanded desk.books command) }
{
    fit_leaves_room();
    stands_keep_caps();
    steps_keep_caps();
}

/// If the desk doesn't refuse a command, the command keeps the books sound: there is room, and each server that a shard
/// names has a row.
pub fn commands_keep_soundness()
    ensures { (desk : DeskView) (command : Command) → AreSound desk.books → desk_fault desk command ≡ None
        → AreSound (commanded desk command).books }
{
    fit_leaves_room();
    fewer_names_leave_room();
}
