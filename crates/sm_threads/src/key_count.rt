use sm_load::Counting;
use sm_ranges::key::Key;
use sm_service::reply::Reply;
use sm_service::request::Request;
use std::alloc::{AllocError, Global};

/// The count at a key, as the requests of a load.
#[derive(Drop)]
pub struct KeyCount {
    pub alloc: Global,
    pub key: Key,
}

impl Counting<Request, Reply> for KeyCount {
    ghost use Rattle.std.specs.Prelude.{pos};
    ghost use Rattle.sm_service.specs.declared.request.Request.TheVariants.{Get, Inc};
    ghost use Rattle.sm_threads.specs.Loads.{count_replied};

    ghost asks = { λ count. Get count.key };

    ghost adds = { λ count. Inc count.key (pos 1) };

    ghost tells = { λ _ reply. count_replied reply };

    fn get(&self) -> Result<Request, AllocError> {
        Ok(Request::Get(self.key.try_clone(self.alloc)?))
    }

    fn inc(&self) -> Result<Request, AllocError> {
        Ok(Request::Inc(self.key.try_clone(self.alloc)?, 1))
    }

    fn count(&self, reply: &Reply) -> Option<i64> {
        match reply {
            Reply::Count(count) => Some(*count),
            _ => None,
        }
    }
}
