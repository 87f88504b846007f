//! What a value must promise so that callers can take turns at it.

ghost use Rattle.std.specs.Prelude.{◌≡◌, ℕ, List, ◌++◌};
ghost use Rattle.fabric_turn.specs.History.{AppendsAtMostOne, NoneOf};

/// A value that callers take turns at. It represents a history: a list of entries, each of which
/// belongs to one caller. It need not store the list.
pub trait Staged: Drop {
    /// What a caller can ask of the value.
    type Ask;

    /// What the value replies.
    type Reply;

    /// One entry of the history.
    type Entry;

    /// What the value was started with.
    type Start;

    /// What the value was started with. No call of `act` changes it.
    ghost start: { Self → Self.Start };

    /// The history that the value represents.
    ghost history: { Self → List Self.Entry };

    /// The number of the caller to which an entry belongs.
    ghost owner: { Self.Entry → ℕ };

    /// Which asks are permitted, given the start, the history, the caller's number and the ask.
    ghost fit: { Self.Start → List Self.Entry → ℕ → Self.Ask → Type 0 };

    /// What `act` promises of its reply, given the start, the history, the caller's number, the
    /// ask, the reply and the history afterwards.
    ghost answers: { Self.Start → List Self.Entry → ℕ → Self.Ask → Self.Reply → List Self.Entry → Type 0 };

    /// Does what the caller asks, and returns the reply, which `answers` describes.
    ///
    /// The caller must make an ask that is fit. At most one entry is appended to the history, and
    /// it belongs to `caller`; the start does not change.
    fn act(&mut self, caller: u32, ask: Self::Ask) -> Self::Reply
        requires { fit (start self.old) (history self.old) caller ask }
        ensures start { start self.new ≡ start self.old }
        ensures appends { AppendsAtMostOne owner caller (history self.old) (history self.new) }
        ensures answers { answers (start self.old) (history self.old) caller ask result (history self.new) };

    /// An ask that is fit stays fit when entries of other callers are appended.
    ghost stays_fit: { (start : Self.Start) (history : List Self.Entry) (caller : ℕ) (ask : Self.Ask)
        (more : List Self.Entry) → fit start history caller ask → NoneOf owner caller more
        → fit start (history ++ more) caller ask };
}
