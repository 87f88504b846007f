//! What hosts remember of senders (`host_names`).

ghost use Rattle.std.specs.Prelude.{◌≤◌, All, IfOk, ℕ};

use host_names::cache::Cache;
use host_names::choice::Choice;
use std::test::Fail;

// Returns a cache after packets from these senders, all at tick 0 from address 17.
fn heard_from(rt: &HostRuntime, uids: &[u64]) -> Result<Cache, Fail>
    ensures { IfOk result (λ cache. (now : ℕ) → All (λ arrival. arrival.tick ≤ now) cache) }
{
    let mut cache = Cache::new(rt.alloc())?;
    'uids: for uid in uids {
        cache.arrived(*uid, 17, 0);
    }
    Ok(cache)
}

#[test]
fn the_seventeenth_sender_takes_the_place_of_the_first(rt: HostRuntime) -> Result<(), Fail> {
    let uids = [1, 2, 3, 4, 5, 6, 7, 8, 9, 10, 11, 12, 13, 14, 15, 16, 17];
    let cache = heard_from(&rt, &uids)?;
    assert_eq!(rt; cache.choose(1, 0), Choice::Broadcast);
    assert_eq!(rt; cache.choose(2, 63), Choice::Known { address: 17 });
    assert_eq!(rt; cache.choose(2, 64), Choice::Broadcast);
    Ok(())
}
