ghost use Rattle.std.specs.Prelude.{◌≡◌, IfOk, IsTrue};
ghost use Rattle.sm_script.specs.Grammar.{takes_word};
ghost use Rattle.sm_script.specs.Numbers.{number};
ghost use Rattle.sm_script.specs.declared.shape.Shape.TheVariants.{Shard, Server, Clients, Key as KeyShape};

use crate::load_clients::LoadClients;
use crate::number::number_between;
use crate::shape::MAX_CLIENTS;
use sm_ranges::key::Key;
use sm_ranges::limits::{MAX_SERVER, MAX_SHARD};
use sm_ranges::server_id::ServerId;
use sm_ranges::shard_id::ShardId;
use std::alloc::{AllocError, Global};

/// Returns the shard that the word names.
pub(crate) fn shard(word: &[u8]) -> ShardId
    requires { IsTrue (takes_word Shard word.now) }
    ensures { result ≡ number word.now }
{
    ShardId::new(number_between(word, 0, u64::from(MAX_SHARD)).unwrap() as u16).unwrap()
}

/// Returns the server that the word names.
pub(crate) fn server(word: &[u8]) -> ServerId
    requires { IsTrue (takes_word Server word.now) }
    ensures { result ≡ number word.now }
{
    ServerId::new(number_between(word, 1, u64::from(MAX_SERVER)).unwrap() as u16).unwrap()
}

/// Returns how many clients the word says that a load has.
pub(crate) fn clients(word: &[u8]) -> LoadClients
    requires { IsTrue (takes_word Clients word.now) }
    ensures { result ≡ number word.now }
{
    LoadClients::new(number_between(word, 1, MAX_CLIENTS).unwrap() as u8).unwrap()
}

/// Returns the key with the word's bytes.
pub(crate) fn key(alloc: Global, word: &[u8]) -> Result<Key, AllocError>
    requires { IsTrue (takes_word KeyShape word.now) }
    ensures { IfOk result (λ key. key ≡ word.now) }
{
    Key::of(alloc, word)
}
