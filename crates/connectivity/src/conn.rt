//! What is known of a far end. How it became known is kept in `far`.

use an_base::life::End;

/// What is known of the switch at the far end of a link.
#[derive(Clone, Copy, PartialEq, Eq)]
pub enum Conn {
    /// The switch is not known.
    Who,
    /// It is this switch itself, at this end of its own.
    Loop(End),
    /// It is another switch, at this end of that switch.
    Good(End),
}
