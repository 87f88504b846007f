//! Theorems about the tables, and about packets that follow them. No function here has code.

ghost use Rattle.std.specs.Prelude.{◌≡◌, ◌≢◌, ◌+◌, ◌-◌, ◌*◌, ◌<◌, ◌≤◌, ◌++◌, ℕ, suc, List, [], Bool, true};
ghost use Rattle.std.specs.Prelude.{false, Some, Any, length, slice_index};
ghost use Rattle.an_base.specs.Values.{EntryOf, LifeId, TopoOf};
ghost use Rattle.an_base.specs.Numbers.{AreNumbers};
ghost use Rattle.topo_graph.specs.Topology.{far_of, IsGraph, IsTree};
ghost use Rattle.updown.specs.Routes.{HasLegal, LegalRoute};
ghost use Rattle.table_build.specs.Exits.{AreExits, Begins, IsEntry, LeadsTo, may_go_up};
ghost use Rattle.table_build.specs.Laws.{ChannelWalk, Follows, IsShortest};
ghost use Rattle.table_build.specs.Tables.{exits_of, IsTable, IsTableOf, TableOf};
ghost use Rattle.table_build.specs.Made.{table_of};

/// States that a legal route joins every two members, if the positions are the tree of the links.
pub fn members_are_joined()
    ensures { (es : List EntryOf) (x y : ℕ) → IsGraph es → IsTree es → x < length es → y < length es
        → (n : ℕ) × HasLegal es x y n }
{}

/// States that the shortest path to another member, if there is one, begins at an exit.
pub fn a_shortest_way_has_an_exit()
    ensures { (es : List EntryOf) (any up : Bool) (x y n : ℕ) → x ≢ y → IsShortest es up x y n
        → (p : ℕ) × Begins es any up x y p }
{}

/// States that every exit of a shortest path leads one link nearer to the target.
pub fn exits_are_nearer()
    ensures { (es : List EntryOf) (up : Bool) (x y p z q n : ℕ) → IsGraph es → Begins es false up x y p
        → far_of es x p ≡ Some (z, q) → IsShortest es up x y n
        → (m : ℕ) × (n ≡ m + 1) × IsShortest es (may_go_up es z q) z y m }
{}

/// States that packets that came down leave only downward.
pub fn down_stays_down()
    ensures { (es : List EntryOf) (any : Bool) (x y p z q : ℕ) → IsGraph es → Begins es any false x y p
        → far_of es x p ≡ Some (z, q) → may_go_up es z q ≡ false }
{}

/// States that packets that follow exits take a path, and from port 0 a legal route.
pub fn following_is_a_way()
    ensures { (es : List EntryOf) (any : Bool) (y x entry z out : ℕ) (ps : List ℕ) → IsGraph es
        → Follows es any y x entry ps z out → LeadsTo es (may_go_up es x entry) x ps z }
{}

/// States that packets that follow the exits of shortest paths come nearer to the target with each link.
pub fn following_comes_nearer()
    ensures { (es : List EntryOf) (y x entry z out n : ℕ) (ps : List ℕ) → IsGraph es
        → Follows es false y x entry ps z out → IsShortest es (may_go_up es x entry) x y n
        → (m : ℕ) × (n ≡ length ps + m) × IsShortest es (may_go_up es z out) z y m }
{}

/// States that following exits ends after at most 2 (n - 1) links, from every one of n members and by
/// every choice of exits.
pub fn following_ends()
    ensures { (es : List EntryOf) (any : Bool) (y x entry z out : ℕ) (ps : List ℕ) → IsGraph es
        → x < length es → Follows es any y x entry ps z out → length ps ≤ 2 * (length es - 1) }
{}

/// States that packets that follow exits from port 0 of a member towards another one have an exit
/// wherever they are before they reach it, if the positions are the tree of the links. Because following
/// exits ends, they reach it.
pub fn following_goes_on()
    ensures { (es : List EntryOf) (any : Bool) (y x z out : ℕ) (ps : List ℕ) → IsGraph es → IsTree es
        → x < length es → y < length es → Follows es any y x 0 ps z out → z ≢ y
        → (p : ℕ) × Begins es any (may_go_up es z out) z y p }
{}

/// States that packets that follow exits from port 0 of a member towards another one reach it, if the
/// positions are the tree of the links.
///
/// Wherever they are, they can continue to it, and if they have no exit, they have reached it. They take a
/// legal route of at most 2 (n - 1) links; if exits begin shortest routes, they take a shortest one.
pub fn following_reaches()
    ensures reached { (es : List EntryOf) (any : Bool) (y x z out : ℕ) (ps : List ℕ) → IsGraph es → IsTree es
        → x < length es → y < length es → Follows es any y x 0 ps z out
        → (qs : List ℕ) × (last : ℕ) × Follows es any y x 0 (ps ++ qs) y last }
    ensures ended { (es : List EntryOf) (any : Bool) (y x z out : ℕ) (ps : List ℕ) → IsGraph es → IsTree es
        → x < length es → y < length es → Follows es any y x 0 ps z out
        → ((p : ℕ) → ¬ Begins es any (may_go_up es z out) z y p) → z ≡ y }
    ensures legal { (es : List EntryOf) (any : Bool) (y x out : ℕ) (ps : List ℕ) → IsGraph es → x < length es
        → Follows es any y x 0 ps y out → LegalRoute es x ps y × (length ps ≤ 2 * (length es - 1)) }
    ensures shortest { (es : List EntryOf) (y x out : ℕ) (ps : List ℕ) → IsGraph es → IsTree es
        → x < length es → y < length es → Follows es false y x 0 ps y out
        → IsShortest es true x y (length ps) }
{}

/// States that no channel leads back to itself, over whatever members and numbers, whether packets take
/// all legal routes or only shortest ones.
pub fn no_channel_cycle()
    ensures { (es : List EntryOf) (any : Bool) (n : ℕ) (a : ℕ × ℕ) → IsGraph es
        → ¬ ChannelWalk es any (suc n) a a }
{}

/// States that a shortest legal route joins every two members, and that every member has exits to every
/// other one for packets that start there, if the positions are the tree of the links.
pub fn members_have_exits()
    ensures shortest { (es : List EntryOf) (x y : ℕ) → IsGraph es → IsTree es → x < length es → y < length es
        → (n : ℕ) × IsShortest es true x y n }
    ensures exits { (es : List EntryOf) (any : Bool) (x y : ℕ) → IsGraph es → IsTree es
        → x < length es → y < length es → x ≢ y → (p : ℕ) × Begins es any true x y p }
{}

/// States that a table has the ports that begin a path, for each ingress port and the number of each
/// other member.
pub fn exits_begin_ways()
    ensures { (es : List EntryOf) (numbers : List ℕ) (any : Bool) (x entry y : ℕ) (t : TableOf)
        → AreNumbers numbers
        → length numbers ≡ length es → IsTable es numbers any x t → IsEntry es x entry → y < length es → y ≢ x
        → AreExits es any (may_go_up es x entry) x y (exits_of t entry (slice_index numbers y)) }
{}

/// States that a table has no exits for a port where no packets arrive, and none for a number that no
/// other member has.
pub fn other_exits_are_none()
    ensures entry { (es : List EntryOf) (numbers : List ℕ) (any : Bool) (x entry n : ℕ) (t : TableOf)
        → IsTable es numbers any x t → ¬ IsEntry es x entry → exits_of t entry n ≡ [] }
    ensures number { (es : List EntryOf) (numbers : List ℕ) (any : Bool) (x entry n : ℕ) (t : TableOf)
        → IsTable es numbers any x t
        → ((y : ℕ) → y < length es → y ≢ x → n ≢ slice_index numbers y) → exits_of t entry n ≡ [] }
{}

/// States that the computed table of a member (`table_of`) is its routing table, and the only one, if the
/// topology has one number for each entry.
pub fn what_is_made_is_the_table()
    ensures made { (topo : TopoOf) (any : Bool) (life : LifeId) → IsGraph topo.entries
        → AreNumbers topo.numbers
        → length topo.numbers ≡ length topo.entries → Any (λ e. e.life ≡ life) topo.entries
        → IsTableOf topo.entries topo.numbers any life (table_of topo any life) }
    ensures only { (topo : TopoOf) (any : Bool) (life : LifeId) (table : TableOf) → IsGraph topo.entries
        → AreNumbers topo.numbers
        → length topo.numbers ≡ length topo.entries → IsTableOf topo.entries topo.numbers any life table
        → table ≡ table_of topo any life }
{}
