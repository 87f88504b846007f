//! Theorems about what a cache keeps after any arrivals. No function here has code.

ghost use Rattle.std.specs.Prelude.{◌≡◌, ◌≢◌, ◌⊎◌, ◌≤◌, ℕ};
ghost use Rattle.std.specs.Prelude.{List, ◌∷◌, Some, AllPairs, Contains, find, length};
ghost use Rattle.host_names.specs.Caches.{after_arrivals, ArrivalOf, is_from, kept_of, with_arrival};
ghost use Rattle.host_names.specs.declared.cache.TheConstants.{PLACES};

/// Whatever arrives, a cache that was new keeps the last arrivals of the 16 senders that were heard last.
pub fn the_last_senders_are_kept()
    ensures { (arrivals : List ArrivalOf) → after_arrivals arrivals ≡ kept_of arrivals }
{}

/// What is kept after one more arrival depends only on that arrival and on what was kept before it.
pub fn one_more_arrival()
    ensures { (arrival : ArrivalOf) (arrivals : List ArrivalOf)
        → kept_of (arrival ∷ arrivals) ≡ with_arrival arrival (kept_of arrivals) }
{}

/// No sender is kept twice, and at most 16 are kept.
pub fn senders_are_kept_once()
    ensures apart { (arrivals : List ArrivalOf) → AllPairs (λ a b. a.uid ≢ b.uid) (kept_of arrivals) }
    ensures most { (arrivals : List ArrivalOf) → length (kept_of arrivals) ≤ PLACES }
{}

/// The arrival that is kept of a sender is its last one. A sender that was heard is missing only if 16 others are
/// kept.
pub fn the_last_arrival_is_kept()
    ensures last { (arrivals : List ArrivalOf) (arrival : ArrivalOf) → Contains (kept_of arrivals) arrival
        → find (is_from arrival.uid) arrivals ≡ Some arrival }
    ensures all { (arrivals : List ArrivalOf) (uid : ℕ)
        → (find (is_from uid) (kept_of arrivals) ≡ find (is_from uid) arrivals)
        ⊎ (length (kept_of arrivals) ≡ PLACES) }
{}
