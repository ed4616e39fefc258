//! The program sm_cli: runs a script of the shard manager, one command at a time.
#![tactic(auto)]

ghost use Rattle.std.specs.Prelude.{◌≡◌, OnOk, Ok};
ghost use Rattle.std.specs.Io.KnownBytes.{IsAtEnd};
ghost use Rattle.sm_lines.specs.Runs.{RanScript};
ghost use Rattle.sm_model.specs.Runs.{WroteScript};
ghost use Rattle.sm_threads.specs.Runs.{WritesAnswers};

mod counts_table;
mod help;

use crate::counts_table::CountsTable;
use crate::help::{line_tables, script_help};
use clap::error::ErrorKind;
use clap::{Arg, ArgAction, ArgMatches, Command};
use sm_cluster::Open;
use sm_explain::{Beginning, Console};
use sm_lines::{Dialogue, RunFault, Status};
use sm_model::{run_model, run_model_explained};
use sm_threads::{run_threads, run_threads_explained};
use std::alloc::Global;
use std::io::{Read, Write};
use std::process::ExitCode;
use std::rt::Runtime;
use std::sync::Wait;
use std::thread::Threads;
use std::{env, io};

/// The text that `--version` prints after the program's name: the line of the file VERSION.
const VERSION: &str = "0.1.0";

/// The exit status if the command line isn't accepted, even if that can't be told.
const REFUSED: u8 = 2;

/// The exit status of an explained run in which a line was answered by `error`.
const WITH_ERRORS: u8 = 3;

/// The engine that runs the script.
#[derive(Clone, Copy, PartialEq, Eq, Drop)]
enum Runner {
    /// The model, on one thread.
    Model,
    /// A cluster, whose servers are threads.
    Threads,
}

/// The request of the command line: a script on this runner, and whether sentences about refused lines go to standard
/// error.
#[derive(Clone, Copy, Drop)]
struct Choice {
    runner: Runner,
    explains: bool,
}

/// The task of the program.
#[derive(Clone, Copy, Drop)]
enum Task {
    /// To run the script on standard input.
    Run(Choice),
    /// To print the forms of scripts' lines.
    Lines,
}

/// Returns the words of the command line, the program's name first; an error is a word that is not UTF-8, or want of
/// memory.
fn command_line(rt: &HostRuntime) -> io::Result<Vec<String>> {
    let words = env::args(rt)?.collect(rt.alloc())?;
    Ok(words)
}

/// Returns a subcommand that runs the script of standard input.
fn runner_command<'a>(
    alloc: Global,
    name: &'a str,
    about: &'a str,
    help: &'a str,
) -> Result<Command<'a>, clap::Error> {
    let explain = Arg::new(alloc, "explain")
        .long("explain")
        .action(ArgAction::SetTrue)
        .help(
            "Tells on standard error why a line is answered by error or refused; the exit status is 3 where one is by error",
        );
    Ok(
        Command::new(alloc, name)
            .about(about)
            .after_help(help)
            .arg(explain)?,
    )
}

/// Returns whether the subcommand with this name explains, if it was chosen.
fn explains(matches: &ArgMatches, name: &str) -> Option<bool> {
    match matches.subcommand_matches(name) {
        Some(chosen) => Some(chosen.get_flag("explain")),
        None => None,
    }
}

/// Returns the task that the words name, if this is the help on scripts. An error is a refusal, help that was asked
/// for, or a lack of memory.
fn choose(alloc: Global, words: &[String], help: &str) -> Result<Task, clap::Error> {
    let model = runner_command(
        alloc,
        "model",
        "Runs the script of standard input on the model, on one thread: each answer is what docs/SCRIPT.md says",
        help,
    )?;
    let threads = runner_command(
        alloc,
        "threads",
        "Runs it on a cluster whose servers are threads, a command at a time; load has clients in threads of their own",
        help,
    )?;
    let lines = Command::new(alloc, "lines").about(
        "Prints how the lines of scripts are written, as docs/SCRIPT.md has them",
    );
    let command = Command::new(alloc, "sm_cli")
        .about("Runs a script of a shard manager")
        .version(VERSION)
        .after_help(help)
        .subcommand_required(true)
        .subcommand(model)?
        .subcommand(threads)?
        .subcommand(lines)?;
    let matches = command.try_get_matches_from(words)?;
    Ok(task_of(&matches))
}

/// Returns the task of a command line that is accepted.
fn task_of(matches: &ArgMatches) -> Task {
    if matches.subcommand_matches("lines").is_some() {
        return Task::Lines;
    }
    match explains(matches, "threads") {
        Some(explains) => Task::Run(Choice {
            runner: Runner::Threads,
            explains,
        }),
        None => Task::Run(Choice {
            runner: Runner::Model,
            explains: explains(matches, "model") == Some(true),
        }),
    }
}

/// Writes on standard error why the program ends early.
fn end_early<R: Runtime>(rt: &R, fault: RunFault) -> anyhow::Result<ExitCode> {
    eprintln!(rt; "fault {fault}")?;
    Ok(ExitCode::FAILURE)
}

/// Returns the exit status of a run that ended so, without explanations.
fn end_plain<R: Runtime>(rt: &R, ended: Result<Status, RunFault>) -> anyhow::Result<ExitCode> {
    match ended {
        Ok(Status::Ran) => Ok(ExitCode::SUCCESS),
        Ok(Status::BadSettings) => Ok(ExitCode::FAILURE),
        Err(fault) => end_early(rt, fault),
    }
}

/// Runs the script of the dialogue's reader, and writes its answers, on any streams. If the streams tell their bytes,
/// as a buffer in memory does, the written bytes are those in the runner's definition. Standard input and output, which
/// `main` passes, tell none.
fn run_on<
    I: Read + Drop,
    W: Write + Drop,
    R: Threads + Wait + Clone + Send + Sync + Drop + 'static,
>(rt: &R, alloc: Global, runner: Runner, dialogue: &mut Dialogue<I, W>) -> Result<Status, RunFault>
    ensures model { runner ≡ Runner.Model → OnOk result (WroteScript dialogue.old dialogue.new) }
    ensures threads { runner ≡ Runner.Threads → result ≡ Ok Status.Ran
        → RanScript WritesAnswers dialogue.old dialogue.new }
    ensures read_all { result ≡ Ok Status.Ran → IsAtEnd dialogue.new.reading.left }
{
    match runner {
        Runner::Model => run_model(alloc, dialogue),
        Runner::Threads => run_threads(rt, alloc, dialogue, &Open),
    }
}

/// Runs the script as `run_on` does, and tells the console why lines are refused, and the counts of a cluster.
fn run_explained_on<
    I: Read + Drop,
    W: Write + Drop,
    R: Runtime + Threads + Wait + Send + Sync + 'static,
>(
    rt: &R,
    alloc: Global,
    runner: Runner,
    dialogue: &mut Dialogue<I, W>,
    console: &Console<R>,
) -> Result<Status, RunFault>
    ensures model { runner ≡ Runner.Model → OnOk result (WroteScript dialogue.old dialogue.new) }
    ensures threads { runner ≡ Runner.Threads → result ≡ Ok Status.Ran
        → RanScript WritesAnswers dialogue.old dialogue.new }
    ensures read_all { result ≡ Ok Status.Ran → IsAtEnd dialogue.new.reading.left }
{
    match runner {
        Runner::Model => run_model_explained(alloc, dialogue, console),
        Runner::Threads => {
            let table = CountsTable::new(rt);
            run_threads_explained(rt, alloc, dialogue, &Open, console, table)
        }
    }
}

/// Runs the script of standard input.
fn run_plain<R: Runtime + Threads + Wait + Send + Sync + 'static>(
    rt: &R,
    alloc: Global,
    runner: Runner,
) -> anyhow::Result<ExitCode> {
    match Dialogue::new(alloc, rt.reader(), io::writer(rt)) {
        Ok(mut dialogue) => end_plain(rt, run_on(rt, alloc, runner, &mut dialogue)),
        Err(_) => end_early(rt, RunFault::NoMemory),
    }
}

/// Runs the script on standard input. Writes on standard error why lines or settings are refused, and a cluster's
/// counts.
fn run_explained<R: Runtime + Threads + Wait + Send + Sync + 'static>(
    rt: &R,
    alloc: Global,
    runner: Runner,
) -> anyhow::Result<ExitCode> {
    let console = Console::new(rt);
    let mut output = Beginning::new(alloc, io::writer(rt));
    let ended = match Dialogue::new(alloc, rt.reader(), &mut output) {
        Ok(mut dialogue) => run_explained_on(rt, alloc, runner, &mut dialogue, &console),
        Err(_) => Err(RunFault::NoMemory),
    };
    match ended {
        Ok(Status::Ran) if console.has_heard_error() => Ok(ExitCode::from(WITH_ERRORS)),
        Ok(Status::BadSettings) => {
            if let Some(name) = output.settings_fault() {
                console.tell_settings(name);
            }
            Ok(ExitCode::FAILURE)
        }
        ended => end_plain(rt, ended),
    }
}

/// Prints how the lines of scripts are written.
fn print_lines<R: Runtime>(rt: &R, alloc: Global) -> anyhow::Result<ExitCode> {
    match line_tables(alloc) {
        Ok(text) => {
            print!(rt; "{text}")?;
            Ok(ExitCode::SUCCESS)
        }
        Err(_) => end_early(rt, RunFault::NoMemory),
    }
}

/// Runs a script as the command line asks for.
fn run_choice<R: Runtime + Threads + Wait + Send + Sync + 'static>(
    rt: &R,
    alloc: Global,
    choice: Choice,
) -> anyhow::Result<ExitCode> {
    if choice.explains {
        run_explained(rt, alloc, choice.runner)
    } else {
        run_plain(rt, alloc, choice.runner)
    }
}

fn main(rt: HostRuntime) -> anyhow::Result<ExitCode> {
    let words = match command_line(&rt) {
        Ok(words) => words,
        Err(error) if error.kind() == io::ErrorKind::OutOfMemory => {
            return end_early(&rt, RunFault::NoMemory);
        }
        Err(_) => {
            let _told = eprintln!(rt; "error: an argument is not UTF-8").is_ok();
            return Ok(ExitCode::from(REFUSED));
        }
    };
    let Ok(help) = script_help(rt.alloc()) else {
        return end_early(&rt, RunFault::NoMemory);
    };
    match choose(rt.alloc(), &words, &help) {
        Ok(Task::Run(choice)) => run_choice(&rt, rt.alloc(), choice),
        Ok(Task::Lines) => print_lines(&rt, rt.alloc()),
        Err(error) if error.kind() == ErrorKind::OutOfMemory => {
            end_early(&rt, RunFault::NoMemory)
        }
        Err(error) if error.exit_code() == 0 => {
            error.print(&rt)?;
            Ok(ExitCode::SUCCESS)
        }
        Err(error) => {
            let _told = error.print(&rt).is_ok();
            Ok(ExitCode::from(REFUSED))
        }
    }
}
