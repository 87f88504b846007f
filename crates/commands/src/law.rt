//! Theorems about the calls of commands for a source whose bytes are known.

ghost use Rattle.std.specs.Prelude.{◌≡◌, ◌≤◌, ◌++◌, ◌∷◌, [], ℕ, length, List, Some};
ghost use Rattle.an_base.specs.declared.event.Event.{Event};
ghost use Rattle.net_script.specs.Scripts.{ScriptOf};
ghost use Rattle.net_script.specs.Texts.{IsText};
ghost use Rattle.journal.specs.Texts.{IsJournal};
ghost use Rattle.net_state.specs.declared.ending.Ending.{Ending};
ghost use Rattle.net_world.specs.Histories.{IsLegal};
ghost use Rattle.autonet_call.specs.Answer.{input_limit, refuses_nothing, IsAnswer, Streams};
ghost use Rattle.commands.specs.Complete.{gives_names_of, gives_report_of, gives_text};
ghost use Rattle.commands.specs.InTime.{IsUnsettledAnswer, gives_late_replay, gives_late_run};
ghost use Rattle.commands.specs.Replay.{IsScriptWith};
ghost use Rattle.commands.specs.Run.{IsRun, gives_run_of};
ghost use Rattle.autonet_call.specs.declared.status.Status.{Status};
ghost use Rattle.commands.specs.Words.{IsNamesAnswer, IsReplayAnswer, IsRunAnswer};

/// Suppose that a source whose bytes are known has the text of a script, within the limit. Then `run`, if it
/// returns, does not reject the script: `out` gains the text of a run of its network, a prefix of it if `out`
/// fails, or nothing if the source fails or memory runs out.
pub fn a_script_is_run()
    ensures { (answer : ℕ) (bytes : List ℕ) (script : ScriptOf) (old new : Streams) → IsText bytes script
        → old.source.told ≡ Some bytes → length bytes ≤ input_limit
        → IsRunAnswer old new answer → IsAnswer input_limit (gives_run_of script) refuses_nothing old new answer }
{}

/// Suppose that a source whose bytes are known has the text of a script with a legal journal after it, within the
/// limit. Then `replay` and `names` do not reject it: `out` gains the text that the definition gives for it, a
/// prefix of it if `out` fails, or nothing if the source fails or memory runs out. With the text comes its own
/// status, for `replay` that of the journal's end.
pub fn a_journal_is_answered()
    ensures replay { (answer : ℕ) (bytes after : List ℕ) (script : ScriptOf) (journal : List Event)
        (end : Ending) (old new : Streams) → IsScriptWith bytes script after
        → IsJournal script after journal → IsLegal script journal end
        → old.source.told ≡ Some bytes → length bytes ≤ input_limit → IsReplayAnswer old new answer
        → IsAnswer input_limit (gives_report_of script journal) refuses_nothing old new answer }
    ensures names { (answer : ℕ) (bytes after : List ℕ) (script : ScriptOf) (journal : List Event)
        (end : Ending) (old new : Streams) → IsScriptWith bytes script after
        → IsJournal script after journal → IsLegal script journal end
        → old.source.told ≡ Some bytes → length bytes ≤ input_limit → IsNamesAnswer old new answer
        → IsAnswer input_limit (gives_names_of script journal) refuses_nothing old new answer }
{}

/// `replay` accepts what `run` prints. Suppose that a source whose bytes are known has a network file whose last
/// line ends with a line feed (10), and after it the output of a run of its network, both together within the
/// limit. Then `replay` rejects neither: `out` gains the report in that output, a prefix of it if `out` fails, or
/// nothing if the source fails or memory runs out; and with the report comes the status of the run.
pub fn a_run_is_replayed()
    ensures { (answer : ℕ) (bytes text : List ℕ) (script : ScriptOf) (status : Status) (old new : Streams)
        (run : IsRun script status text) → IsText (bytes ++ 10 ∷ []) script
        → old.source.told ≡ Some (bytes ++ 10 ∷ text) → length (bytes ++ 10 ∷ text) ≤ input_limit
        → IsReplayAnswer old new answer
        → IsAnswer input_limit (gives_text status run.report) refuses_nothing old new answer }
{}

/// If `run` or `replay` returns 1, the journal of the report that `out` gained had no time to settle: the script
/// has a pace, or a frame or a copy was lost because space ran out, or the limit on ticks is less than 1,024 above
/// the time of a command or of the last commanded loss.
pub fn none_with_time_is_answered_with_1()
    ensures run { (old new : Streams) → IsRunAnswer old new 1 → IsUnsettledAnswer gives_late_run old new }
    ensures replay { (old new : Streams) → IsReplayAnswer old new 1
        → IsUnsettledAnswer gives_late_replay old new }
{}
