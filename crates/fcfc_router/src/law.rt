//! Theorems about the grants of a router, for all requests. No function here has code.

ghost use Rattle.std.specs.Prelude.{◌≡◌, ◌≢◌, ◌+◌, ◌≤◌, ℕ, List, [], ◌∷◌, ◌++◌, Option, Some};
ghost use Rattle.fcfc_router.specs.declared.router.Grant.{Grant};
ghost use Rattle.fcfc_router.specs.Router.{RequestOf, CanGo, Gets, IsGranted};
ghost use Rattle.fcfc_router.specs.Calls.{Call, Leads, WaitsSince, asked, granted, waits};
ghost use Rattle.fcfc_router.specs.Calls.Call.{Ask, Grants};

/// States that no packet is overtaken: if a packet asked and has not been granted since, and a packet that
/// asked after it is granted, then no port that the first packet named is free at that call.
pub fn nobody_is_passed_over()
    ensures { (most free : ℕ) (before between : List Call) (request : RequestOf) (grant : Grant)
        (end : List RequestOf)
        → Leads most [] (before ++ (Ask request ∷ (between ++ (Grants free (Some grant) ∷ [])))) end
        → granted request.packet between ≡ 0 → grant.packet ≢ request.packet → 1 ≤ asked grant.packet between
        → CanGo free request → ⊥ }
{}

/// States that a packet is granted as often as it asked, or once less if it still waits.
pub fn granted_as_often_as_asked()
    ensures { (most packet : ℕ) (calls : List Call) (end : List RequestOf) → Leads most [] calls end
        → (asked packet calls ≡ granted packet calls + waits packet end) × (waits packet end ≤ 1) }
{}

/// States that a packet that is granted asked and was not granted since, and that it gets the lowest port
/// that it named and that is free at that call.
pub fn granted_what_it_asked_for()
    ensures { (most free : ℕ) (calls : List Call) (grant : Grant) (end : List RequestOf)
        → Leads most [] (calls ++ (Grants free (Some grant) ∷ [])) end
        → (request : RequestOf) × WaitsSince calls request × Gets free request grant }
{}

/// States that a grant is determined by the free ports and the waiting requests.
pub fn one_grant()
    ensures { (free : ℕ) (old new other : List RequestOf) (answer instead : Option Grant)
        → IsGranted free old new answer → IsGranted free old other instead
        → (answer ≡ instead) × (new ≡ other) }
{}
