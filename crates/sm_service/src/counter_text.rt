ghost use Rattle.std.specs.Prelude.{◌≡◌, IfOk, IfErr, OnOk, OnErr, length, nat_le, not, option_map};
ghost use Rattle.sm_map.specs.KeyMap.{held_at};
ghost use Rattle.sm_map.specs.Val.{held_of};
ghost use Rattle.sm_service.specs.LentRequest.{request_lent};
ghost use Rattle.sm_service.specs.Service.{key_of_request, reply, after, sum_of};

use crate::bytes::Bytes;
use crate::lent_request::LentRequest;
use crate::pair_list::PairList;
use crate::reply::Reply;
use crate::request::Request;
use sm_body::logged::Logged;
use sm_body::machine::Machine;
use sm_map::arena_map::ArenaMap;
use sm_map::val::Val;
use std::alloc::{AllocError, Global};
use std::marker::Model;

/// The greatest length of a key's text in bytes.
pub const MAX_TEXT: usize = 65_535;

/// The greatest number of pairs in the reply to a scan.
pub const MAX_SCANNED: usize = 100;

/// If more bytes than this are dead, and more than are live, a request that may place bytes (`put`, `append`, `inc`)
/// first moves the map into fresh memory, unless that is refused. No clause says so.
pub const MAX_DEAD: u128 = 65_536;

// If a request owns a text of at least this many bytes, the map keeps its memory. A shorter one is copied, because
// memory of its own takes more than a copy beside others. A text whose memory is more than twice as long is copied too,
// because the spare room would be held until the map moves, and isn't counted as dead.
const LEAST_JOINED_BYTES: usize = 4_096;

/// The sample service: texts and counts by key.
pub type CounterText = Logged<KeyMachine>;

/// The state of the sample service: a map from keys to texts and counts.
#[derive(Drop)]
pub struct KeyMachine {
    map: ArenaMap,
}

impl Model for KeyMachine {
    ghost use Rattle.std.specs.Prelude.{List};
    ghost use Rattle.sm_map.specs.KeyMap.{KeyPair};

    ghost Value = { List KeyPair };

    ghost view = { λ machine. machine.map.pairs };
}

impl Machine for KeyMachine {
    ghost use Rattle.std.specs.Prelude.{[]};

    type Request = Request;

    type Reply = Reply;

    ghost start = { [] };

    ghost after = { after };

    ghost reply = { reply };

    ghost key_of = { key_of_request };

    fn new(alloc: Global) -> KeyMachine {
        KeyMachine {
            map: ArenaMap::new(alloc),
        }
    }

    fn key(request: &Request) -> &[u8] {
        match request {
            Request::Get(key)
            | Request::Put(key, _)
            | Request::Inc(key, _)
            | Request::Append(key, _)
            | Request::Del(key)
            | Request::Scan(key, _, _) => key.as_bytes(),
        }
    }

    fn answer(&mut self, alloc: Global, request: &Request) -> Result<Reply, AllocError> {
        self.answer_lent(alloc, request.lend())
    }

    // A long text of a `put` stays in its own memory.
    fn answer_owned(
        &mut self,
        alloc: Global,
        request: Request,
    ) -> Result<Reply, (Request, AllocError)> {
        match request {
            Request::Put(key, text) => {
                self.drop_the_dead(alloc);
                match put_owned(&mut self.map, key.as_bytes(), Vec::from(text)) {
                    Ok(made) => Ok(made),
                    Err((text, refused)) => Err((Request::Put(key, Bytes::from(text)), refused)),
                }
            }
            request => match self.answer(alloc, &request) {
                Ok(made) => Ok(made),
                Err(refused) => Err((request, refused)),
            },
        }
    }

    fn rebuild(&mut self, _: Global) -> Result<(), AllocError> {
        self.map = self.map.copy()?;
        Ok(())
    }
}

impl KeyMachine {
    /// Answers the request whose parts are lent. If memory is refused, it changes nothing.
    pub fn answer_lent(
        &mut self,
        alloc: Global,
        request: LentRequest<'_>,
    ) -> Result<Reply, AllocError>
        ensures reply { IfOk result (λ made. made ≡ reply self.old (request_lent request.entry)) }
        ensures after { OnOk result (self.new ≡ after self.old (request_lent request.entry)) }
        ensures err { OnErr result (self.new ≡ self.old) }
    {
        match request {
            LentRequest::Get(key) => get(alloc, &self.map, key),
            LentRequest::Put(key, text) => {
                self.drop_the_dead(alloc);
                put(&mut self.map, key, text)
            }
            LentRequest::Append(key, tail) => {
                self.drop_the_dead(alloc);
                append(&mut self.map, key, tail)
            }
            LentRequest::Inc(key, amount) => {
                self.drop_the_dead(alloc);
                inc(&mut self.map, key, amount)
            }
            LentRequest::Del(key) => Ok(del(&mut self.map, key)),
            LentRequest::Scan(low, high, most) => scan(alloc, &self.map, low, high, most),
        }
    }

    /// Returns the key's value without a copy.
    pub fn held(&self, key: &[u8]) -> Option<Val<'_>>
        ensures { option_map held_of result ≡ held_at self.now key.now }
    {
        self.map.get(key)
    }

    /// Returns how many keys have a value.
    pub fn len(&self) -> u128
        ensures { result ≡ length self.now }
    {
        self.map.len()
    }

    /// Returns how many bytes of the map are dead, as `ArenaMap::dead` counts them. It has no clause of its own.
    pub fn dead(&self) -> u128 {
        self.map.dead()
    }

    // Moves the map into fresh memory if much of the old memory is dead. If that is refused, the map stays.
    fn drop_the_dead(&mut self, alloc: Global)
        ensures { self.new ≡ self.old }
    {
        if self.dead() > MAX_DEAD && self.dead() > self.map.bytes() {
            let _ = self.rebuild(alloc);
        }
    }
}

fn get(alloc: Global, map: &ArenaMap, key: &[u8]) -> Result<Reply, AllocError>
    ensures { IfOk result (λ made. made ≡ reply map.now.pairs (Request.Get key.now)) }
{
    match map.get(key) {
        None => Ok(Reply::Nothing),
        Some(Val::Text(text)) => Ok(Reply::Text(Bytes::new(alloc, text)?)),
        Some(Val::Count(count)) => Ok(Reply::Count(count)),
    }
}

fn put(map: &mut ArenaMap, key: &[u8], text: &[u8]) -> Result<Reply, AllocError>
    ensures reply { IfOk result (λ made. made ≡ reply map.old.pairs (Request.Put key.now text.now)) }
    ensures after { OnOk result (map.new.pairs ≡ after map.old.pairs (Request.Put key.now text.now)) }
    ensures err { OnErr result (map.new ≡ map.old) }
{
    let position = map.locate(key);
    if let Some(Val::Count(_)) = map.get_at(position) {
        return Ok(Reply::WrongKind);
    }
    if is_too_long(text.len()) {
        return Ok(Reply::TooLong);
    }
    map.put_at(position, Val::Text(text))?;
    Ok(Reply::Done)
}

// Does the same as `put`. A long text stays in its own memory, and a refused text comes back.
fn put_owned(map: &mut ArenaMap, key: &[u8], text: Vec<u8>) -> Result<Reply, (Vec<u8>, AllocError)>
    ensures reply { IfOk result (λ made. made ≡ reply map.old.pairs (Request.Put key.now text.items)) }
    ensures after { OnOk result (map.new.pairs ≡ after map.old.pairs (Request.Put key.now text.items)) }
    ensures handed_back { IfErr result (λ back. back.0.items ≡ text.items) }
    ensures err { OnErr result (map.new ≡ map.old) }
{
    let position = map.locate(key);
    if let Some(Val::Count(_)) = map.get_at(position) {
        return Ok(Reply::WrongKind);
    }
    if is_too_long(text.len()) {
        return Ok(Reply::TooLong);
    }
    if text.len() >= LEAST_JOINED_BYTES && text.capacity() <= 2 * text.len() {
        map.put_owned_at(position, text)?;
        return Ok(Reply::Done);
    }
    match map.put_at(position, Val::Text(&text)) {
        Ok(()) => Ok(Reply::Done),
        Err(refused) => Err((text, refused)),
    }
}

fn inc(map: &mut ArenaMap, key: &[u8], amount: i64) -> Result<Reply, AllocError>
    ensures reply { IfOk result (λ made. made ≡ reply map.old.pairs (Request.Inc key.now amount)) }
    ensures after { OnOk result (map.new.pairs ≡ after map.old.pairs (Request.Inc key.now amount)) }
    ensures err { OnErr result (map.new ≡ map.old) }
{
    let position = map.locate(key);
    let sum = match map.get_at(position) {
        None => amount,
        Some(Val::Text(_)) => return Ok(Reply::WrongKind),
        Some(Val::Count(count)) => match sum_of(count, amount) {
            None => return Ok(Reply::Overflow),
            Some(sum) => sum,
        },
    };
    map.put_at(position, Val::Count(sum))?;
    Ok(Reply::Count(sum))
}

fn append(map: &mut ArenaMap, key: &[u8], tail: &[u8]) -> Result<Reply, AllocError>
    ensures reply { IfOk result (λ made. made ≡ reply map.old.pairs (Request.Append key.now tail.now)) }
    ensures after { OnOk result (map.new.pairs ≡ after map.old.pairs (Request.Append key.now tail.now)) }
    ensures err { OnErr result (map.new ≡ map.old) }
{
    let position = map.locate(key);
    let length = match map.get_at(position) {
        None => return put(map, key, tail),
        Some(Val::Count(_)) => return Ok(Reply::WrongKind),
        Some(Val::Text(text)) => text.len(),
    };
    if is_too_long(length + tail.len()) {
        return Ok(Reply::TooLong);
    }
    map.append_at(position, tail)?;
    Ok(Reply::Done)
}

fn del(map: &mut ArenaMap, key: &[u8]) -> Reply
    ensures reply { result ≡ reply map.old.pairs (Request.Del key.now) }
    ensures after { map.new.pairs ≡ after map.old.pairs (Request.Del key.now) }
{
    if map.remove(key) {
        Reply::Done
    } else {
        Reply::Nothing
    }
}

fn scan(
    alloc: Global,
    map: &ArenaMap,
    low: &[u8],
    high: &[u8],
    most: u32,
) -> Result<Reply, AllocError>
    ensures { IfOk result (λ made. made ≡ reply map.now.pairs (Request.Scan low.now high.now most)) }
{
    let count = (most as usize).min(MAX_SCANNED);
    let rows = map.scan(low, high, count)?;
    Ok(Reply::Pairs(PairList::new(alloc, &rows)?))
}

// Returns whether a text of this many bytes is too long for a key.
fn is_too_long(count: usize) -> bool
    ensures { result ≡ not (nat_le count MAX_TEXT) }
{
    count > MAX_TEXT
}

// Returns the sum, if it has 64 bits.
fn sum_of(count: i64, amount: i64) -> Option<i64>
    ensures { result ≡ sum_of count amount }
{
    count.checked_add(amount)
}
