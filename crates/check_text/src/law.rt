//! Theorems about judgements, and about the judgement of the tables that `expect` prints.

ghost use Rattle.std.specs.Prelude.{◌≡◌, ◌≤◌, ◌*◌, [], ◌∷◌, ◌++◌, Bool, Contains, length, List, ℕ, false};
ghost use Rattle.an_base.specs.Numbers.{AreNumbers};
ghost use Rattle.net_script.specs.Scripts.{IsScript, ScriptOf};
ghost use Rattle.table_script.specs.Tables.{TablesOf};
ghost use Rattle.table_script.specs.TableTexts.{IsTextWith};
ghost use Rattle.net_script.specs.Texts.{IsText};
ghost use Rattle.topo_graph.specs.Topology.{IsGraph, IsTree};
ghost use Rattle.switch_numbering.specs.Numbering.{numbering};
ghost use Rattle.dep_check.specs.Answer.{Passes};
ghost use Rattle.dep_check.specs.Channels.{far_at, LeadsTo};
ghost use Rattle.common_graph.specs.Cycles.{HasNoCycle, Walk};
ghost use Rattle.dep_check.specs.Illegal.{AllAreLegal};
ghost use Rattle.dep_check.specs.Laws.{GoesBetween};
ghost use Rattle.dep_check.specs.Packets.{AllAreJoined, GoesOn};
ghost use Rattle.dep_check.specs.declared.channel.Channel.{Channel};
ghost use Rattle.check_text.specs.Check.{AllPass, IsJudged, numbers_of, Ranked, rows_of};
ghost use Rattle.expect_text.specs.Expect.{all_rows, IsExpectOf, Part};

/// What is expected of a script has these properties in each of its components.
///
/// The entries are a graph, with each member at its place in the tree of shortest walks to the least
/// life, and the numbers of the members are different ones from 1 to 126. The rows of all tables of the
/// component have no cycle of channels and no illegal exit. Whoever follows them from entry 0 of one
/// member towards another, by whatever exits, meets no place on the way where they have no exit, or one
/// without a link. It takes at most 12 links for each member; so it arrives, and from wherever it is
/// then, some way of following the rows leads on to its target.
pub fn what_is_expected_joins()
    ensures tree { (s : ScriptOf) (text : List ℕ) (is : IsExpectOf s text) (p : Part) → IsScript s
        → Contains is.parts p → IsGraph p.entries × IsTree p.entries }
    ensures numbers { (s : ScriptOf) (text : List ℕ) (is : IsExpectOf s text) (p : Part) → IsScript s
        → Contains is.parts p → AreNumbers (numbering p.entries) }
    ensures no_cycle { (s : ScriptOf) (text : List ℕ) (is : IsExpectOf s text) (p : Part) → IsScript s
        → Contains is.parts p → HasNoCycle (LeadsTo (far_at p.entries (numbering p.entries)) (all_rows p)) }
    ensures joined { (s : ScriptOf) (text : List ℕ) (is : IsExpectOf s text) (p : Part) → IsScript s
        → Contains is.parts p
        → AllAreJoined (far_at p.entries (numbering p.entries)) (numbering p.entries) (all_rows p) }
    ensures legal { (s : ScriptOf) (text : List ℕ) (is : IsExpectOf s text) (p : Part) → IsScript s
        → Contains is.parts p → AllAreLegal p.entries (numbering p.entries) (all_rows p) }
    ensures ends { (s : ScriptOf) (text : List ℕ) (is : IsExpectOf s text) (p : Part) (to links : ℕ)
        (here there : Channel) → IsScript s → Contains is.parts p
        → Walk (GoesOn (far_at p.entries (numbering p.entries)) (all_rows p) to) links here there
        → links ≤ 12 * length p.entries }
    ensures arrives { (s : ScriptOf) (text : List ℕ) (is : IsExpectOf s text) (p : Part) (from to links : ℕ)
        (there : Channel) → IsScript s → Contains is.parts p → GoesBetween (numbering p.entries) from to
        → Walk (GoesOn (far_at p.entries (numbering p.entries)) (all_rows p) to) links
        (record { at = from; port = 0 }) there
        → (more : ℕ) × (end : Channel)
        × Walk (GoesOn (far_at p.entries (numbering p.entries)) (all_rows p) to) more there end
        × (end.at ≡ to) }
{}

/// A script's text ended by a line feed (10), followed by what is expected of the script, is the text
/// of that script with tables, and these tables are never rejected.
pub fn what_is_expected_passes()
    ensures { (bytes : List ℕ) (s : ScriptOf) (text : List ℕ) → IsText (bytes ++ 10 ∷ []) s
        → IsExpectOf s text
        → (t : TablesOf) × IsTextWith (bytes ++ 10 ∷ text) s t × ((out : List ℕ) → ¬ IsJudged s t false out) }
{}

/// Tables have only one judgement: whether they pass, and the text.
pub fn one_judgement()
    ensures { (s : ScriptOf) (t : TablesOf) (passed other : Bool) (text out : List ℕ) → IsScript s
        → IsJudged s t passed text → IsJudged s t other out → (passed ≡ other) × (text ≡ out) }
{}

/// Tables that pass are those of a topology.
///
/// A text with tables gives a script. If all its tables pass, each component is a graph, with each member at its
/// place in the tree of shortest walks to the least life. The tables give each member its own number from 1 to
/// 126, and over these numbers its rows pass. So the theorems about rows that pass hold for them, for example that
/// packets in finite channels never deadlock.
pub fn what_passes_is_a_topology()
    ensures script { (bytes : List ℕ) (s : ScriptOf) (t : TablesOf) → IsTextWith bytes s t → IsScript s }
    ensures tree { (bytes : List ℕ) (s : ScriptOf) (t : TablesOf) (text : List ℕ) (is : AllPass s t text)
        (part : Ranked) → IsTextWith bytes s t → Contains is.parts part
        → IsGraph part.entries × IsTree part.entries }
    ensures numbers { (bytes : List ℕ) (s : ScriptOf) (t : TablesOf) (text : List ℕ) (is : AllPass s t text)
        (part : Ranked) → IsTextWith bytes s t → Contains is.parts part
        → AreNumbers (numbers_of s.wires.switches t part.entries)
        × (length (numbers_of s.wires.switches t part.entries) ≡ length part.entries) }
    ensures passes { (s : ScriptOf) (t : TablesOf) (text : List ℕ) (is : AllPass s t text) (part : Ranked)
        → Contains is.parts part
        → Passes part.entries (numbers_of s.wires.switches t part.entries)
        (rows_of s.wires.switches t part.entries) part.ranks }
{}
