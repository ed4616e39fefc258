//! Laws of the places that the machine replies.
ghost use Rattle.std.specs.Prelude.{◌≡◌, ◌≤◌, ◌^◌, ℕ, List, length};
ghost use Rattle.std.specs.List.{AllByRecursion};
ghost use Rattle.std.specs.Global.{Vec};
ghost use Rattle.sm_store.specs.declared.item.Item.{Item};
ghost use Rattle.sm_store.specs.Clients.{reply_in};
ghost use Rattle.sm_shard.specs.Replicas.{replies_of};
ghost use Rattle.sm_opaque.specs.Opaque.{opaque_service};
ghost use Rattle.sm_opaque.specs.Places.{IsCounted, place_among, placed_from};

/// The replies to a shard's requests are their places: 0 for the first, and one more for each of the others. So no two
/// requests have the same place. The reply to a client's request of some number is the place of that request. Requests
/// that only read aren't among them, and there are at most 2^64.
pub fn replies_are_places()
    ensures made { (items : List (Item (Vec ℕ))) → AllByRecursion IsCounted items → length items ≤ 2 ^ 64
        → replies_of opaque_service opaque_service.start items ≡ placed_from 0 items }
    ensures known { (items : List (Item (Vec ℕ))) (client number : ℕ) → AllByRecursion IsCounted items
        → length items ≤ 2 ^ 64
        → reply_in opaque_service opaque_service.start items client number ≡ place_among client number items }
{}
