//! What C calls return.

ghost use Rattle.std.specs.Prelude.{◌≡◌};
ghost use Rattle.switch_c.specs.Codes.{code_of};

/// The return code of a call.
#[derive(Clone, Copy)]
pub enum Status {
    /// The call was done.
    Done,
    /// A number is out of its range. Nothing was done.
    Argument,
    /// An allocation failed. A load or a start has changed nothing; after a clock or a frame the life of the switch
    /// is over.
    OutOfMemory,
    /// The clock was taken, a change is due, and no epoch is left for it: the life of the switch is over.
    Spent,
    /// The life of the switch is over. Nothing was done.
    Over,
    /// No table is due. Nothing was done.
    NotDue,
    /// The handle holds no switch. Nothing was done.
    NotStarted,
    /// The handle holds a switch already. Nothing was done.
    Started,
    /// There is no such frame, row or member, or no more. Nothing was done.
    NoMore,
    /// The frame is longer than the space for it. Its length was set; it is still the next one.
    Room,
}

impl Status {
    /// Returns the number of the return code in C.
    pub fn code(self) -> u32
        ensures { result ≡ code_of self }
    {
        match self {
            Status::Done => 0,
            Status::Argument => 1,
            Status::OutOfMemory => 2,
            Status::Spent => 3,
            Status::Over => 4,
            Status::NotDue => 5,
            Status::NotStarted => 6,
            Status::Started => 7,
            Status::NoMore => 8,
            Status::Room => 9,
        }
    }
}
