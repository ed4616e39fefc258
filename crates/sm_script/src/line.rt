ghost use Rattle.std.specs.Prelude.{◌≡◌, ◌<◌, ℕ, List, [], ◌∷◌, ◌++◌, length, IfOk, IfErr, IfNone, IsTrue};
ghost use Rattle.sm_script.specs.Forms.{row_of_form};
ghost use Rattle.sm_script.specs.Grammar.{takes_word, arguments_fault};
ghost use Rattle.sm_script.specs.Lines.{shard_call, server_call, call_with};
ghost use Rattle.sm_script.specs.Lines.{at_server, at_call, client_call, request_call, plain_call, call_as};
ghost use Rattle.sm_script.specs.Lines.{call_of_words};
ghost use Rattle.sm_script.specs.Lines.{has_no_answer, call_of_line, IsFaultIn, IsFaultOf, meaning_if_long};
ghost use Rattle.sm_script.specs.declared.call.Call.TheVariants.{Request, RequestByRoute};
ghost use Rattle.sm_script.specs.declared.shape.Shape.TheVariants.{Shard, Server, Key, Clients, Each};

use crate::argument::{clients, key, server, shard};
use crate::call::Call;
use crate::fault::{LineFault, ParseFault};
use crate::form::{Form, form_of, request_form_of};
use crate::number::number_between;
use crate::request::request_with;
use crate::shape::{MAX_EACH, Shape, arguments_fault, first_fault, takes_as_many};
use crate::topic::Topic;
use crate::word::Word;
use crate::words::Words;
use sm_desk::command::Command;
use sm_ownership::change::Change;
use sm_ranges::server_id::ServerId;
use sm_ranges::shard_id::ShardId;
use std::alloc::Global;

/// The most bytes that a line may have without its line feed; a comment may have more.
pub const MAX_LINE: usize = 70_000;

// Returns the call of a word with no word after it.
fn bare_call(word: Word) -> Result<Call, LineFault>
    ensures { result ≡ call_with [] word [] }
{
    match word {
        Word::Place => Ok(Call::Place),
        _ => Err(LineFault::NotHere),
    }
}

// Returns the call of a shard.
fn shard_call(word: Word, shard: ShardId) -> Result<Call, LineFault>
    ensures { result ≡ shard_call word shard }
{
    match word {
        Word::PrepareDrop => Ok(Call::change(shard, Change::PrepareDropShard)),
        Word::Add => Ok(Call::change(shard, Change::AddShard)),
        Word::Drop => Ok(Call::change(shard, Change::DropShard)),
        Word::Cancel => Ok(Call::change(shard, Change::Cancel)),
        Word::Pause => Ok(Call::change(shard, Change::Pause)),
        Word::Resume => Ok(Call::change(shard, Change::Resume)),
        Word::Free => Ok(Call::Free(shard)),
        Word::Publish => Ok(Call::Publish(shard)),
        Word::Look => Ok(Call::Look(shard)),
        _ => Err(LineFault::NotHere),
    }
}

// Returns the call of a server.
fn server_call(word: Word, server: ServerId) -> Result<Call, LineFault>
    ensures { result ≡ server_call word server }
{
    match word {
        Word::Ask => Ok(Call::Control(Command::Ask(server))),
        Word::Approve => Ok(Call::Control(Command::Approve(server))),
        Word::Stopped => Ok(Call::Control(Command::Stopped(server))),
        Word::Back => Ok(Call::Control(Command::Back(server))),
        Word::Fail => Ok(Call::Control(Command::Fail(server))),
        Word::Drain => Ok(Call::Drain(server)),
        _ => Err(LineFault::NotHere),
    }
}

// Returns the call of a shard and a server.
fn shard_and_server_call(word: Word, mut words: Words) -> Result<Call, LineFault>
    requires { arguments_fault (Shard ∷ Server ∷ []) words ≡ None }
    ensures { result ≡ call_with (Shard ∷ Server ∷ []) word words.entry }
{
    let shard = shard(words.next().unwrap());
    let server = server(words.next().unwrap());
    match word {
        Word::Assign => Ok(Call::change(shard, Change::Assign(server))),
        Word::PrepareAdd => Ok(Call::change(shard, Change::PrepareAddShard(server))),
        Word::Reassign => Ok(Call::change(shard, Change::Reassign(server))),
        Word::Hold => Ok(Call::Hold(shard, server)),
        Word::Checkpoint => Ok(Call::Checkpoint(shard, server)),
        _ => Err(LineFault::NotHere),
    }
}

// Returns the call of a key.
fn key_call(alloc: Global, word: Word, mut words: Words) -> Result<Call, ParseFault>
    requires { arguments_fault (Key ∷ []) words ≡ None }
    ensures ok { IfOk result (λ call. call_with (Key ∷ []) word words.entry ≡ Ok call) }
    ensures err { IfErr result (λ fault. IsFaultIn fault (call_with (Key ∷ []) word words.entry)) }
{
    let name = words.next().unwrap();
    match word {
        Word::Route => Ok(Call::Route(key(alloc, name)?)),
        _ => Err(ParseFault::Line(LineFault::NotHere)),
    }
}

// Returns the call of a key, a number of clients and the number of requests that each makes.
fn load_call(alloc: Global, word: Word, mut words: Words) -> Result<Call, ParseFault>
    requires { arguments_fault (Key ∷ Clients ∷ Each ∷ []) words ≡ None }
    ensures ok { IfOk result (λ call.
        call_with (Key ∷ Clients ∷ Each ∷ []) word words.entry ≡ Ok call) }
    ensures err { IfErr result (λ fault.
        IsFaultIn fault (call_with (Key ∷ Clients ∷ Each ∷ []) word words.entry)) }
{
    let name = words.next().unwrap();
    let clients = clients(words.next().unwrap());
    let each = number_between(words.next().unwrap(), 1, MAX_EACH).unwrap() as u16;
    match word {
        Word::Load => {
            let key = key(alloc, name)?;
            Ok(Call::Load { key, clients, each })
        }
        _ => Err(ParseFault::Line(LineFault::NotHere)),
    }
}

// Returns the call of a word that isn't a request's, and of the words after it, which must be of these shapes.
fn call_with(
    alloc: Global,
    shapes: &[Shape],
    word: Word,
    mut words: Words,
) -> Result<Call, ParseFault>
    requires { arguments_fault shapes.now words ≡ None }
    ensures ok { IfOk result (λ call. call_with shapes.now word words.entry ≡ Ok call) }
    ensures err { IfErr result (λ fault. IsFaultIn fault (call_with shapes.now word words.entry)) }
{
    match shapes {
        [] => Ok(bare_call(word)?),
        [Shape::Shard] => Ok(shard_call(word, shard(words.next().unwrap()))?),
        [Shape::Server] => Ok(server_call(word, server(words.next().unwrap()))?),
        [Shape::Shard, Shape::Server] => Ok(shard_and_server_call(word, words)?),
        [Shape::Key] => key_call(alloc, word, words),
        [Shape::Key, Shape::Clients, Shape::Each] => load_call(alloc, word, words),
        _ => Err(ParseFault::Line(LineFault::NotHere)),
    }
}

// Returns the fault in a server and in the words after a request's, which must be of these shapes. Returns nothing if
// there is no fault.
fn at_fault(server: &[u8], shapes: &[Shape], words: &Words) -> Option<LineFault>
    ensures fault { result ≡ arguments_fault (Server ∷ shapes.now) (server.now ∷ words.now) }
    ensures right { IfNone result (IsTrue (takes_word Server server.now)
        × (arguments_fault shapes.now words.now ≡ None)) }
{
    if !takes_as_many(shapes, words.again()) {
        return Some(LineFault::BadLine);
    }
    match Shape::Server.fault(server) {
        Some(fault) => Some(fault),
        None => first_fault(shapes, words.again()),
    }
}

// Returns a request to a server.
fn at_server(alloc: Global, to: &[u8], form: Form, words: Words) -> Result<Call, ParseFault>
    ensures ok { IfOk result (λ call. at_server to.now (row_of_form form.entry) words.entry ≡ Ok call) }
    ensures err { IfErr result (λ fault.
        IsFaultIn fault (at_server to.now (row_of_form form.entry) words.entry)) }
{
    if let Some(fault) = at_fault(to, form.shapes, &words) {
        return Err(ParseFault::Line(fault));
    }
    let server = server(to);
    Ok(Call::RequestAt(server, request_with(alloc, form.shapes, form.word, words)?))
}

// Returns the call of the words after `at`.
fn at_call(alloc: Global, mut words: Words) -> Result<Call, ParseFault>
    ensures ok { IfOk result (λ call. at_call words.entry ≡ Ok call) }
    ensures err { IfErr result (λ fault. IsFaultIn fault (at_call words.entry)) }
{
    let (Some(server), Some(request)) = (words.next(), words.next()) else {
        return Err(ParseFault::Line(LineFault::BadLine));
    };
    match request_form_of(request) {
        None => Err(ParseFault::Line(LineFault::UnknownWord)),
        Some(form) => at_server(alloc, server, form, words),
    }
}

// Returns a request by the published route.
fn client_request(alloc: Global, form: Form, words: Words) -> Result<Call, ParseFault>
    ensures ok { IfOk result (λ call.
        request_call RequestByRoute (row_of_form form.entry) words.entry ≡ Ok call) }
    ensures err { IfErr result (λ fault.
        IsFaultIn fault (request_call RequestByRoute (row_of_form form.entry) words.entry)) }
{
    match arguments_fault(form.shapes, &words) {
        Some(fault) => Err(ParseFault::Line(fault)),
        None => match request_with(alloc, form.shapes, form.word, words) {
            Ok(request) => Ok(Call::RequestByRoute(request)),
            Err(fault) => Err(fault),
        },
    }
}

// Returns the call of the words after `client`.
fn client_call(alloc: Global, mut words: Words) -> Result<Call, ParseFault>
    ensures ok { IfOk result (λ call. client_call words.entry ≡ Ok call) }
    ensures err { IfErr result (λ fault. IsFaultIn fault (client_call words.entry)) }
{
    let Some(name) = words.next() else {
        return Err(ParseFault::Line(LineFault::BadLine));
    };
    match request_form_of(name) {
        None => Err(ParseFault::Line(LineFault::UnknownWord)),
        Some(form) => client_request(alloc, form, words),
    }
}

// Returns a request to the owner.
fn owner_request(alloc: Global, form: Form, words: Words) -> Result<Call, ParseFault>
    ensures ok { IfOk result (λ call. request_call Request (row_of_form form.entry) words.entry ≡ Ok call) }
    ensures err { IfErr result (λ fault.
        IsFaultIn fault (request_call Request (row_of_form form.entry) words.entry)) }
{
    match arguments_fault(form.shapes, &words) {
        Some(fault) => Err(ParseFault::Line(fault)),
        None => match request_with(alloc, form.shapes, form.word, words) {
            Ok(request) => Ok(Call::Request(request)),
            Err(fault) => Err(fault),
        },
    }
}

// Returns the call of a line that begins with neither `at` nor `client`.
fn plain_call(alloc: Global, form: Form, words: Words) -> Result<Call, ParseFault>
    ensures ok { IfOk result (λ call. plain_call (row_of_form form.entry) words.entry ≡ Ok call) }
    ensures err { IfErr result (λ fault.
        IsFaultIn fault (plain_call (row_of_form form.entry) words.entry)) }
{
    if form.topic == Topic::Requests {
        return owner_request(alloc, form, words);
    }
    match arguments_fault(form.shapes, &words) {
        Some(fault) => Err(ParseFault::Line(fault)),
        None => call_with(alloc, form.shapes, form.word, words),
    }
}

// Returns the call of a form and the words after its own.
fn call_as(alloc: Global, form: Form, words: Words) -> Result<Call, ParseFault>
    ensures ok { IfOk result (λ call. call_as form.entry.word (row_of_form form.entry) words.entry ≡ Ok call) }
    ensures err { IfErr result (λ fault.
        IsFaultIn fault (call_as form.entry.word (row_of_form form.entry) words.entry)) }
{
    match form.word {
        Word::At => at_call(alloc, words),
        Word::Client => client_call(alloc, words),
        _ => plain_call(alloc, form, words),
    }
}

// Returns the call of a line's words.
fn call_of(alloc: Global, mut words: Words) -> Result<Call, ParseFault>
    ensures ok { IfOk result (λ call. call_of_words words.entry ≡ Ok call) }
    ensures err { IfErr result (λ fault. IsFaultIn fault (call_of_words words.entry)) }
{
    let Some(first) = words.next() else {
        return Err(ParseFault::Line(LineFault::UnknownWord));
    };
    match form_of(first) {
        None => Err(ParseFault::Line(LineFault::UnknownWord)),
        Some(form) => call_as(alloc, form, words),
    }
}

// Returns whether a line has no answer, because it is empty or begins with `#`.
fn has_no_answer(line: &[u8]) -> bool
    ensures { result ≡ has_no_answer line.now }
{
    match line {
        [] => true,
        [first, ..] => *first == b'#',
    }
}

/// Returns the call that a line asks for. The line has no line feed. An empty line, and a line of any length that
/// begins with `#`, ask for nothing and have no answer.
///
/// # Errors
///
/// `Line` with the first fault of the line, as `LineFault` orders them; `NoMemory` if memory for a request was refused.
#[tactic(auto, unfolding(crate::specs::Lines::call_of_line))]
pub fn parse(alloc: Global, line: &[u8]) -> Result<Option<Call>, ParseFault>
    ensures call { IfOk result (λ call. call_of_line line.now ≡ Ok call) }
    ensures fault { IfErr result (λ fault. IsFaultOf fault (call_of_line line.now)) }
{
    if has_no_answer(line) {
        return Ok(None);
    }
    if line.len() > MAX_LINE {
        return Err(ParseFault::Line(LineFault::LineTooLong));
    }
    match call_of(alloc, Words::new(line)) {
        Ok(call) => Ok(Some(call)),
        Err(fault) => Err(fault),
    }
}

/// Returns the fault of a line of more than `MAX_LINE` bytes, by some bytes with which it begins, or nothing if it has
/// no answer. So the caller need not keep such a line.
#[tactic(auto, unfolding(crate::specs::Lines::call_of_line))]
pub fn long_line_fault(start: &[u8]) -> Option<LineFault>
    requires { 0 < length start.now }
    ensures { (rest : List ℕ) → MAX_LINE < length (start.now ++ rest)
        → call_of_line (start.now ++ rest) ≡ meaning_if_long result }
{
    if has_no_answer(start) {
        None
    } else {
        Some(LineFault::LineTooLong)
    }
}
