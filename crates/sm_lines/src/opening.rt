ghost use Rattle.std.specs.Prelude.{◌≡◌, ◌≢◌, IfOk, IfErr, OnOk, Ok};
ghost use Rattle.sm_settings.specs.SettingsLine.{settings_of, values_of};
ghost use Rattle.sm_settings.specs.SettingsRules.{KeepsRules};
ghost use Rattle.sm_lines.specs.Reading.{ReaderStopped, TookPart};
ghost use Rattle.sm_lines.specs.Writing.{Wrote, WroteShort};
ghost use Rattle.sm_lines.specs.Openings.{HasNone, IsOpening, RefusesLine, settings_line};

use crate::{BeginFault, Dialogue, Next, ReadFault, RunFault, Status};
use sm_settings::{MAX_SETTINGS, Settings, SettingsFault};
use std::alloc::{AllocError, Global};
use std::io::{Read, Write};

/// The first line of the input.
#[derive(Drop)]
pub enum Opening {
    /// A line that isn't too long for settings, and is kept.
    Kept,
    /// There is no line that settings could be in, for this reason.
    Refused(SettingsFault),
}

/// Reads the first line. Input without a line has no settings either.
pub(crate) fn open<R: Read + Drop, W: Write + Drop>(
    dialogue: &mut Dialogue<R, W>,
) -> Result<Opening, RunFault>
    ensures opening { IfOk result (IsOpening dialogue.old.reading dialogue.new.reading) }
    ensures read { result ≡ Err RunFault.Read → ReaderStopped dialogue.old.reading dialogue.new.reading }
    ensures no_memory { result ≡ Err RunFault.NoMemory
        → TookPart dialogue.old.reading dialogue.new.reading dialogue.new.reading.ended }
    ensures write { result ≢ Err RunFault.Write }
    ensures no_thread { result ≢ Err RunFault.NoThread }
    ensures unfailed { result ≢ Err RunFault.Read → dialogue.new.reading.failed ≡ dialogue.old.reading.failed }
    ensures unwritten { dialogue.new.writing ≡ dialogue.old.writing }
{
    match dialogue.next_line(MAX_SETTINGS) {
        Ok(Next::Line) => Ok(Opening::Kept),
        Ok(Next::LongLine) => Ok(Opening::Refused(SettingsFault::TooLong)),
        Ok(Next::End) => Ok(Opening::Refused(SettingsFault::BadJson)),
        Err(ReadFault::Read) => Err(RunFault::Read),
        Err(ReadFault::NoMemory) => Err(RunFault::NoMemory),
    }
}

/// Returns the settings of a script's first line, or why no engine begins a session with it.
pub fn read_settings(alloc: Global, first: &[u8]) -> Result<Settings, BeginFault>
    ensures ok { IfOk result (λ settings. settings_of first.now ≡ Ok (values_of settings)) }
    ensures rules { IfOk result (λ settings. KeepsRules (values_of settings)) }
    ensures err { IfErr result (RefusesLine HasNone first.now) }
{
    match Settings::read(alloc, first) {
        Ok(settings) => Ok(settings),
        Err(SettingsFault::NoMemory) => Err(BeginFault::NoMemory),
        Err(fault) => Err(BeginFault::Settings(fault)),
    }
}

/// Writes why the settings in front are refused.
pub(crate) fn refuse<R: Read + Drop, W: Write + Drop>(
    alloc: Global,
    dialogue: &mut Dialogue<R, W>,
    fault: SettingsFault,
) -> Result<Status, RunFault>
    ensures wrote { OnOk result (Wrote dialogue.old.writing dialogue.new.writing (settings_line fault)) }
    ensures status { IfOk result (λ status. status ≡ Status.BadSettings) }
    ensures write { result ≡ Err RunFault.Write
        → WroteShort dialogue.old.writing dialogue.new.writing (settings_line fault) }
    ensures no_memory { result ≡ Err RunFault.NoMemory → dialogue.new.writing ≡ dialogue.old.writing }
    ensures read { result ≢ Err RunFault.Read }
    ensures no_thread { result ≢ Err RunFault.NoThread }
    ensures unread { dialogue.new.reading ≡ dialogue.old.reading }
{
    match settings_text(alloc, fault) {
        Ok(text) => match dialogue.write_now(&text) {
            Ok(()) => Ok(Status::BadSettings),
            Err(_) => Err(RunFault::Write),
        },
        Err(_) => Err(RunFault::NoMemory),
    }
}

/// Returns the line that answers settings with this fault.
fn settings_text(alloc: Global, fault: SettingsFault) -> Result<Vec<u8>, AllocError>
    ensures { IfOk result (λ text. text.items ≡ settings_line fault) }
{
    let mut text = Vec::new(alloc);
    text.extend_from_slice(b"settings ")?;
    text.extend_from_slice(fault.as_str().as_bytes())?;
    text.push(b'\n')?;
    Ok(text)
}
