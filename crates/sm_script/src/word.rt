use crate::form::{Form, FormOf};
use crate::shape::Shape;
use crate::topic::Topic;

/// The kind of call that a line becomes if it begins with a word, or the request that follows `at A` or `client`.
#[derive(Clone, Copy, PartialEq, Eq, Drop)]
pub enum Word {
    /// The value of the key.
    Get,
    /// A text for the key.
    Put,
    /// The text, appended to the key's text.
    Append,
    /// The number added to the key's count.
    Inc,
    /// The key loses its value.
    Del,
    /// The pairs of the shard from one key up to another.
    Scan,
    /// A request to the server.
    At,
    /// A request by the published route of its key's shard.
    Client,
    /// The shard's record.
    Look,
    /// The first owner of the shard.
    Assign,
    /// A migration of the shard to the server begins.
    PrepareAdd,
    /// The owner forwards to the next owner.
    PrepareDrop,
    /// The next owner becomes the owner.
    Add,
    /// The previous owner drops the shard.
    Drop,
    /// The migration is given up.
    Cancel,
    /// No server executes the shard's requests.
    Pause,
    /// The owner of the paused shard executes again.
    Resume,
    /// Another owner for the paused shard.
    Reassign,
    /// A restart of the server is asked for.
    Ask,
    /// The restart of the server is approved.
    Approve,
    /// The server was stopped for its restart.
    Stopped,
    /// The server is back.
    Back,
    /// The server has failed.
    Fail,
    /// A plan for the shards without an owner.
    Place,
    /// A plan for the server's shards.
    Drain,
    /// The shard's owner becomes its published route.
    Publish,
    /// The published route of the key's shard.
    Route,
    /// An admission without a request.
    Hold,
    /// The end of such an admission.
    Free,
    /// The shard's present state becomes its base.
    Checkpoint,
    /// Clients that add to one count at the same time.
    Load,
}

/// The forms of all lines, and the calls that they become. The spelling of a word is only here.
pub const FORMS: [Form; 31] = [
    FormOf {
        word: Word::Get,
        name: "get",
        arguments: "KEY",
        shapes: &[Shape::Key],
        topic: Topic::Requests,
        help: "reads the key: it holds nothing, a text or a count",
        example: "get m",
    },
    FormOf {
        word: Word::Put,
        name: "put",
        arguments: "KEY TEXT",
        shapes: &[Shape::Key, Shape::Text],
        topic: Topic::Requests,
        help: "the key holds the text",
        example: "put m hello",
    },
    FormOf {
        word: Word::Append,
        name: "append",
        arguments: "KEY TEXT",
        shapes: &[Shape::Key, Shape::Text],
        topic: Topic::Requests,
        help: "adds TEXT after the text that the key holds, or does as put if it holds nothing",
        example: "append m , world",
    },
    FormOf {
        word: Word::Inc,
        name: "inc",
        arguments: "KEY N",
        shapes: &[Shape::Key, Shape::Increment],
        topic: Topic::Requests,
        help: "adds N to the count that the key holds, from 0 if it holds nothing",
        example: "inc a -7",
    },
    FormOf {
        word: Word::Del,
        name: "del",
        arguments: "KEY",
        shapes: &[Shape::Key],
        topic: Topic::Requests,
        help: "the key holds nothing",
        example: "del m",
    },
    FormOf {
        word: Word::Scan,
        name: "scan",
        arguments: "LOW HIGH MAX",
        shapes: &[Shape::Key, Shape::Key, Shape::Limit],
        topic: Topic::Requests,
        help: "the pairs of LOW's shard only, with keys from LOW on and below HIGH: the first MAX, at most 100; \
none if LOW isn't below HIGH",
        example: "scan a m 10",
    },
    FormOf {
        word: Word::At,
        name: "at",
        arguments: "A REQUEST",
        shapes: &[Shape::Server],
        topic: Topic::Sending,
        help: "sends a request to server A",
        example: "at 1 get m",
    },
    FormOf {
        word: Word::Client,
        name: "client",
        arguments: "REQUEST",
        shapes: &[],
        topic: Topic::Sending,
        help: "sends a request by the published route of its key's shard, which may be old",
        example: "client get m",
    },
    FormOf {
        word: Word::Look,
        name: "look",
        arguments: "K",
        shapes: &[Shape::Shard],
        topic: Topic::Records,
        help: "reads the record of shard K",
        example: "look 0",
    },
    FormOf {
        word: Word::Assign,
        name: "assign",
        arguments: "K A",
        shapes: &[Shape::Shard, Shape::Server],
        topic: Topic::Migrations,
        help: "the vacant shard K gets the owner A",
        example: "assign 0 1",
    },
    FormOf {
        word: Word::PrepareAdd,
        name: "prepare_add",
        arguments: "K B",
        shapes: &[Shape::Shard, Shape::Server],
        topic: Topic::Migrations,
        help: "a migration of shard K from its owner to server B begins",
        example: "prepare_add 0 2",
    },
    FormOf {
        word: Word::PrepareDrop,
        name: "prepare_drop",
        arguments: "K",
        shapes: &[Shape::Shard],
        topic: Topic::Migrations,
        help: "the owner stops executing, and forwards requests to B, which executes only these",
        example: "prepare_drop 0",
    },
    FormOf {
        word: Word::Add,
        name: "add",
        arguments: "K",
        shapes: &[Shape::Shard],
        topic: Topic::Migrations,
        help: "B becomes the owner, and also executes requests that come directly; the previous owner still forwards",
        example: "add 0",
    },
    FormOf {
        word: Word::Drop,
        name: "drop",
        arguments: "K",
        shapes: &[Shape::Shard],
        topic: Topic::Migrations,
        help: "the previous owner drops the shard: the migration has ended",
        example: "drop 0",
    },
    FormOf {
        word: Word::Cancel,
        name: "cancel",
        arguments: "K",
        shapes: &[Shape::Shard],
        topic: Topic::Migrations,
        help: "before add: the migration is given up, and the changes by B stay",
        example: "cancel 0",
    },
    FormOf {
        word: Word::Pause,
        name: "pause",
        arguments: "K",
        shapes: &[Shape::Shard],
        topic: Topic::Migrations,
        help: "nobody executes on shard K",
        example: "pause 0",
    },
    FormOf {
        word: Word::Resume,
        name: "resume",
        arguments: "K",
        shapes: &[Shape::Shard],
        topic: Topic::Migrations,
        help: "the owner of the paused shard K executes again",
        example: "resume 0",
    },
    FormOf {
        word: Word::Reassign,
        name: "reassign",
        arguments: "K B",
        shapes: &[Shape::Shard, Shape::Server],
        topic: Topic::Migrations,
        help: "the paused shard K gets the owner B",
        example: "reassign 0 2",
    },
    FormOf {
        word: Word::Hold,
        name: "hold",
        arguments: "K A",
        shapes: &[Shape::Shard, Shape::Server],
        topic: Topic::Records,
        help: "server A is admitted to shard K without a request, as if it were slow",
        example: "hold 0 1",
    },
    FormOf {
        word: Word::Free,
        name: "free",
        arguments: "K",
        shapes: &[Shape::Shard],
        topic: Topic::Records,
        help: "that admission ends",
        example: "free 0",
    },
    FormOf {
        word: Word::Checkpoint,
        name: "checkpoint",
        arguments: "K A",
        shapes: &[Shape::Shard, Shape::Server],
        topic: Topic::Records,
        help: "server A makes the present state of shard K its base: the shard keeps no request then, and has room \
for them again",
        example: "checkpoint 0 1",
    },
    FormOf {
        word: Word::Publish,
        name: "publish",
        arguments: "K",
        shapes: &[Shape::Shard],
        topic: Topic::Records,
        help: "the owner of shard K at its generation becomes the shard's published route",
        example: "publish 0",
    },
    FormOf {
        word: Word::Route,
        name: "route",
        arguments: "KEY",
        shapes: &[Shape::Key],
        topic: Topic::Records,
        help: "reads the published route of the key's shard",
        example: "route m",
    },
    FormOf {
        word: Word::Ask,
        name: "ask",
        arguments: "A",
        shapes: &[Shape::Server],
        topic: Topic::Restarts,
        help: "a restart of server A, which is up, is asked for",
        example: "ask 1",
    },
    FormOf {
        word: Word::Approve,
        name: "approve",
        arguments: "A",
        shapes: &[Shape::Server],
        topic: Topic::Restarts,
        help: "it is approved, if the caps allow it: A takes no further shards",
        example: "approve 1",
    },
    FormOf {
        word: Word::Stopped,
        name: "stopped",
        arguments: "A",
        shapes: &[Shape::Server],
        topic: Topic::Restarts,
        help: "A was stopped: each shard that names it is paused, and no request reaches it",
        example: "stopped 1",
    },
    FormOf {
        word: Word::Back,
        name: "back",
        arguments: "A",
        shapes: &[Shape::Server],
        topic: Topic::Restarts,
        help: "A is up again",
        example: "back 1",
    },
    FormOf {
        word: Word::Fail,
        name: "fail",
        arguments: "A",
        shapes: &[Shape::Server],
        topic: Topic::Restarts,
        help: "A has failed, and no request reaches it",
        example: "fail 1",
    },
    FormOf {
        word: Word::Place,
        name: "place",
        arguments: "",
        shapes: &[],
        topic: Topic::Restarts,
        help: "a plan for the vacant shards",
        example: "place",
    },
    FormOf {
        word: Word::Drain,
        name: "drain",
        arguments: "A",
        shapes: &[Shape::Server],
        topic: Topic::Restarts,
        help: "a plan for the shards whose stand is Serving at A, over the other servers",
        example: "drain 1",
    },
    FormOf {
        word: Word::Load,
        name: "load",
        arguments: "KEY C N",
        shapes: &[Shape::Key, Shape::Clients, Shape::Each],
        topic: Topic::Load,
        help: "under threads only: C clients, each in a thread of its own, add 1 to the count of KEY N times each",
        example: "load a 4 25",
    },
];
