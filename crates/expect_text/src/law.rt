//! A theorem about the output of `expect`.

ghost use Rattle.std.specs.Prelude.{◌≡◌, List, ℕ};
ghost use Rattle.net_script.specs.Scripts.{IsScript, ScriptOf};
ghost use Rattle.expect_text.specs.Expect.{IsExpectOf};

/// A script has only one text of what is expected.
pub fn one_expect_text()
    ensures { (s : ScriptOf) (text other : List ℕ) → IsScript s → IsExpectOf s text
        → IsExpectOf s other → text ≡ other }
{}
