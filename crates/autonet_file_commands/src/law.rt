//! Theorems about the calls of these commands for a source whose bytes are known.

ghost use Rattle.std.specs.Prelude.{◌≡◌, ◌≤◌, ◌++◌, ◌∷◌, [], ℕ, length, List, Some};
ghost use Rattle.net_script.specs.Scripts.{ScriptOf};
ghost use Rattle.net_script.specs.Texts.{IsText};
ghost use Rattle.table_script.specs.Tables.{TablesOf};
ghost use Rattle.table_script.specs.TableTexts.{IsTextWith};
ghost use Rattle.autonet_call.specs.Answer.{input_limit, refuses_nothing, IsAnswer, Streams};
ghost use Rattle.autonet_file_commands.specs.Check.{gives_passing};
ghost use Rattle.autonet_file_commands.specs.Complete.{gives_expected_of, gives_flooded_of, gives_flow_of, gives_judged_of};
ghost use Rattle.autonet_call.specs.Expect.{IsExpectedOf};
ghost use Rattle.autonet_file_commands.specs.Answers.{IsCheckAnswer, IsFloodAnswer, IsFlowAnswer};
ghost use Rattle.autonet_call.specs.Expect.{IsExpectAnswer};

/// `check` accepts what `expect` prints. Suppose that a source whose bytes are known has a network file whose last
/// line ends with a line feed (10), and after it all that is expected of the network, both together within the
/// limit. Then `check` rejects neither the script nor its tables: `out` gains the text of tables that pass, a
/// prefix of it if `out` fails, or nothing if the source fails or memory runs out. The theorem says nothing of a
/// source whose bytes are not known, such as standard input.
pub fn what_is_expected_passes_check()
    ensures { (answer : ℕ) (bytes text : List ℕ) (old new : Streams) → IsExpectedOf text (bytes ++ 10 ∷ [])
        → old.source.told ≡ Some (bytes ++ 10 ∷ text) → length (bytes ++ 10 ∷ text) ≤ input_limit
        → IsCheckAnswer old new answer → IsAnswer input_limit gives_passing refuses_nothing old new answer }
{}

/// Suppose that a source whose bytes are known has the text of a script, for `check` with tables, within the limit.
/// Then the command does not reject it: `out` gains the text that the definition gives for it, a prefix of it if
/// `out` fails, or nothing if the source fails or memory runs out; and with the text comes its own status.
pub fn a_text_is_answered()
    ensures expect { (answer : ℕ) (bytes : List ℕ) (script : ScriptOf) (old new : Streams)
        → IsText bytes script → old.source.told ≡ Some bytes → length bytes ≤ input_limit
        → IsExpectAnswer old new answer
        → IsAnswer input_limit (gives_expected_of script) refuses_nothing old new answer }
    ensures flood { (answer : ℕ) (bytes : List ℕ) (script : ScriptOf) (old new : Streams)
        → IsText bytes script → old.source.told ≡ Some bytes → length bytes ≤ input_limit
        → IsFloodAnswer old new answer
        → IsAnswer input_limit (gives_flooded_of script) refuses_nothing old new answer }
    ensures flow { (answer room : ℕ) (bytes : List ℕ) (script : ScriptOf) (old new : Streams)
        → IsText bytes script → old.source.told ≡ Some bytes → length bytes ≤ input_limit
        → IsFlowAnswer room old new answer
        → IsAnswer input_limit (gives_flow_of script room) refuses_nothing old new answer }
    ensures check { (answer : ℕ) (bytes : List ℕ) (script : ScriptOf) (tables : TablesOf) (old new : Streams)
        → IsTextWith bytes script tables → old.source.told ≡ Some bytes → length bytes ≤ input_limit
        → IsCheckAnswer old new answer
        → IsAnswer input_limit (gives_judged_of script tables) refuses_nothing old new answer }
{}
