use crate::sentence::Sentence;
use sm_script::{Form, Word, form_of};

/// A name, and the sentence about it.
type Entry = (&'static str, &'static str);

/// Why a line is answered by these names.
const REFUSALS: [Entry; 38] = [
    ("LineTooLong", "a line has at most 70,000 bytes"),
    (
        "UnknownWord",
        "no command begins with this word (docs/SCRIPT.md has them all), or the word after at A or client isn't a request's",
    ),
    (
        "BadNumber",
        "a number is out of its range, or isn't in plain digits: K is 0 to 4095, A and B are 1 to 4095, N of inc is a signed 64-bit number, MAX is 0 to 4294967295",
    ),
    ("BadKey", "a key has 1 to 255 bytes"),
    ("NotHere", "the line is right, and isn't run here"),
    ("UnknownShard", "the settings have no shard of this number"),
    (
        "UnknownServer",
        "the settings have no server of this number",
    ),
    (
        "WrongPhase",
        "the change doesn't begin from the shard's stand, which look K tells; a vacant shard has no route to publish",
    ),
    ("SameServer", "the new server is the shard's owner already"),
    (
        "Spent",
        "the shard's generation is at the ceiling of the settings, or too near to it",
    ),
    (
        "Busy",
        "a server is admitted to the shard, as by hold, which free K ends",
    ),
    ("NotHeld", "no server holds the shard without a request"),
    (
        "TooManyHops",
        "it was forwarded four times, and came to a server that forwards",
    ),
    (
        "KeptFull",
        "the shard keeps as many requests as kept of the settings allows",
    ),
    (
        "Vacant",
        "the shard has no owner, which assign K A gives it",
    ),
    (
        "Paused",
        "the shard is paused, which resume K or reassign K B ends",
    ),
    (
        "NotExecutor",
        "this server doesn't execute the shard's requests",
    ),
    (
        "NotYet",
        "so far the next server executes only what the owner forwards, until add K",
    ),
    ("Admitted", "a server is admitted to the shard already"),
    ("Unreachable", "the server is stopped or has failed"),
    (
        "Leaving",
        "the server is approved to restart, stopped or failed",
    ),
    (
        "NoCapacity",
        "the server's capacity that is left is less than the shard's load",
    ),
    (
        "DomainLimit",
        "the server's domain has as many shards of the group as its limit allows",
    ),
    ("NotUp", "the server isn't up"),
    ("NotAsked", "no restart of the server is asked for"),
    (
        "GlobalCap",
        "as many servers are approved, stopped or failed as ops of the settings allows",
    ),
    (
        "ShardCap",
        "the shard of this number may not be down, and the server serves it",
    ),
    (
        "GroupCap",
        "more shards of the group of this number would be down than its down allows",
    ),
    (
        "DomainCap",
        "more servers of the domain would be approved, stopped or failed than its down allows",
    ),
    ("NotApproved", "the server's restart isn't approved"),
    (
        "StillServing",
        "the server still serves the shard of this number",
    ),
    ("AlreadyUp", "the server is up already"),
    ("AlreadyFailed", "the server has failed already"),
    ("NoRoute", "no route of the shard is published"),
    ("OldRoute", "the shard's published route is as new"),
    (
        "WrongShard",
        "the request came to a shard that isn't its key's",
    ),
    ("Raced", "another thread changed the shard's record first"),
    ("Closed", "the request was dropped without a reply"),
];

/// Why settings are answered by these names.
const SETTINGS: [Entry; 14] = [
    ("TooLong", "the line has more than 1,048,576 bytes"),
    (
        "BadJson",
        "the line isn't JSON in UTF-8, nests deeper than 127, or holds a number too large for a float; or there is no line",
    ),
    (
        "BadVersion",
        "the line isn't an object with a member version that is the number 1 or 2",
    ),
    (
        "BadShape",
        "a member is missing, unknown or of another type, here or in a row: ./sm check tells which",
    ),
    (
        "BadLayout",
        "the first of bounds is empty, each next one is greater, none has more than 255 bytes, and there are 1 to 4,096",
    ),
    (
        "BadServers",
        "servers has 1 to 4,095 rows: id 1 to 4,095 and rising, domain 0 to 4,095, capacity 0 to 4,294,967,295",
    ),
    (
        "BadGroups",
        "groups has 1 to 4,096 rows: limit and down 0 to 4,096",
    ),
    (
        "BadShards",
        "shards has a row for each bound: group a place in groups, load 0 to 4,294,967,295, cap 0 or 1",
    ),
    ("BadOps", "ops is 0 to 4,095"),
    ("BadKept", "kept is 1 to 1,048,576"),
    ("BadCeiling", "ceiling is 3 to 68,719,476,735"),
    ("BadWorkers", "workers is 1 to 8"),
    (
        "TooManyWorkers",
        "the servers have more workers together than this engine runs",
    ),
    (
        "BadDomains",
        "domains has a row for each domain of the servers, by rising numbers, with down 0 to 4,095",
    ),
];

/// The sentence about a name that is in no table.
const UNTOLD: &str = "docs/SCRIPT.md tells when";

/// Returns the table's sentence about this word.
fn entry(table: &'static [Entry], word: &[u8]) -> Option<&'static str> {
    let (_, said) = table.iter().find(|(name, _)| name.as_bytes() == word)?;
    Some(*said)
}

/// Returns the name of a refusal, with `error` or `refused` before it, if the answer is one.
pub(crate) fn refusal_of(answer: &[u8]) -> Option<&str> {
    if !answer.starts_with(b"error ") && !answer.starts_with(b"refused ") {
        return None;
    }
    match str::from_utf8(answer) {
        Ok(text) => text.strip_suffix("\n"),
        Err(_) => None,
    }
}

/// Returns why a line was refused so.
pub(crate) fn sentence_of(refusal: &str, line: &[u8]) -> Sentence {
    match refusal.as_bytes().split(|byte| *byte == b' ').nth(1) {
        Some(b"BadLine") => match form_in(line) {
            Some(form) => Sentence::Written(form),
            None => Sentence::Text(UNTOLD),
        },
        Some(name) => Sentence::Text(entry(&REFUSALS, name).unwrap_or(UNTOLD)),
        None => Sentence::Text(UNTOLD),
    }
}

/// Returns the right form of this line: of the request in a line of `at` or `client`, if it has one.
fn form_in(line: &[u8]) -> Option<Form> {
    let mut words = line.split(|byte| *byte == b' ');
    let form = form_of(words.next()?)?;
    let request = match form.word {
        Word::At => words.nth(1),
        Word::Client => words.next(),
        _ => None,
    };
    match request {
        Some(word) => form_of(word).or(Some(form)),
        None => Some(form),
    }
}

/// Returns why settings were refused by this name.
pub(crate) fn settings_sentence(name: &str) -> &'static str {
    entry(&SETTINGS, name.as_bytes()).unwrap_or(UNTOLD)
}
