//! Theorems about rows that pass, and the rows that always do. No function here has code.

ghost use Rattle.std.specs.Prelude.{◌≡◌, ◌⊎◌, ◌≤◌, ℕ, suc, List, Option, Some, Bool, length};
ghost use Rattle.an_base.specs.Values.{EntryOf};
ghost use Rattle.an_base.specs.Rows.{RowOf};
ghost use Rattle.an_base.specs.Numbers.{AreNumbers};
ghost use Rattle.topo_graph.specs.Topology.{IsGraph, IsTree};
ghost use Rattle.dep_check.specs.Channels.{far_at, HasExit, LeadsTo};
ghost use Rattle.common_graph.specs.Cycles.{HasNoCycle, Walk};
ghost use Rattle.dep_check.specs.Packets.{AllAreJoined, GoesOn};
ghost use Rattle.dep_check.specs.Illegal.{AllAreLegal};
ghost use Rattle.dep_check.specs.Laws.{AreTables, GoesBetween};
ghost use Rattle.dep_check.specs.Answer.{IsRefusal, Passes};
ghost use Rattle.dep_check.specs.Tables.{rank_at};
ghost use Rattle.dep_check.specs.declared.channel.Channel.{Channel};
ghost use Rattle.dep_check.specs.declared.refusal.CheckRefusal.{CheckRefusal};
ghost use Rattle.dep_check.specs.declared.refusal.CheckRefusal.TheVariants.{OutOfMemory};

/// States that `check` never rejects the rows of the tables of all members, if the positions are the tree
/// of the links, for all distinct numbers, whether packets take all legal routes or only shortest ones.
pub fn tables_are_never_refused()
    ensures no_cycle { (entries : List EntryOf) (numbers : List ℕ) (any : Bool) (rows : List RowOf)
        → IsGraph entries
        → AreNumbers numbers → length numbers ≡ length entries → AreTables entries numbers any rows
        → HasNoCycle (LeadsTo (far_at entries numbers) rows) }
    ensures joined { (entries : List EntryOf) (numbers : List ℕ) (any : Bool) (rows : List RowOf)
        → IsGraph entries → IsTree entries
        → AreNumbers numbers → length numbers ≡ length entries → AreTables entries numbers any rows
        → AllAreJoined (far_at entries numbers) numbers rows }
    ensures legal { (entries : List EntryOf) (numbers : List ℕ) (any : Bool) (rows : List RowOf)
        → IsGraph entries
        → AreNumbers numbers → length numbers ≡ length entries → AreTables entries numbers any rows
        → AllAreLegal entries numbers rows }
{}

/// States that rows have one result, except for `OutOfMemory`: rows that pass are not rejected, there is only
/// one reason to reject them, and the ranks are determined.
pub fn one_answer()
    ensures passed { (entries : List EntryOf) (numbers : List ℕ) (rows : List RowOf) (ranks : List (Option ℕ))
        (refusal : CheckRefusal)
        → Passes entries numbers rows ranks → IsRefusal entries numbers rows refusal → refusal ≡ OutOfMemory }
    ensures refused { (entries : List EntryOf) (numbers : List ℕ) (rows : List RowOf)
        (one other : CheckRefusal)
        → IsRefusal entries numbers rows one → IsRefusal entries numbers rows other
        → (one ≡ other) ⊎ (one ≡ OutOfMemory) ⊎ (other ≡ OutOfMemory) }
    ensures ranked { (entries : List EntryOf) (numbers : List ℕ) (rows : List RowOf)
        (ranks others : List (Option ℕ)) (channel : Channel)
        → Passes entries numbers rows ranks → Passes entries numbers rows others
        → rank_at ranks channel ≡ rank_at others channel }
{}

/// States that rows that pass bring every packet from one switch to another to its target, wherever it is.
///
/// If packets follow the rows over more than `links` links, the first row has an exit whose channel has at
/// least the rank `links`; so following the rows always ends. A packet from one switch to another that
/// cannot continue is at its target; and from wherever it is, it can continue to the target.
pub fn packets_reach_their_targets()
    ensures bounded { (entries : List EntryOf) (numbers : List ℕ) (rows : List RowOf)
        (ranks : List (Option ℕ)) (to links : ℕ) (start end : Channel)
        → Passes entries numbers rows ranks
        → Walk (GoesOn (far_at entries numbers) rows to) (suc links) start end
        → (exit rank : ℕ) × HasExit rows start.at start.port to exit
        × (rank_at ranks (record { at = start.at; port = exit }) ≡ Some rank) × (links ≤ rank) }
    ensures ended { (entries : List EntryOf) (numbers : List ℕ) (rows : List RowOf) (ranks : List (Option ℕ))
        (from to links : ℕ) (end : Channel)
        → Passes entries numbers rows ranks → GoesBetween numbers from to
        → Walk (GoesOn (far_at entries numbers) rows to) links (record { at = from; port = 0 }) end
        → ((next : Channel) → ¬ GoesOn (far_at entries numbers) rows to end next) → end.at ≡ to }
    ensures reached { (entries : List EntryOf) (numbers : List ℕ) (rows : List RowOf)
        (ranks : List (Option ℕ)) (from to links : ℕ) (there : Channel)
        → Passes entries numbers rows ranks → GoesBetween numbers from to
        → Walk (GoesOn (far_at entries numbers) rows to) links (record { at = from; port = 0 }) there
        → (more : ℕ) × (end : Channel) × Walk (GoesOn (far_at entries numbers) rows to) more there end
        × (end.at ≡ to) }
{}
