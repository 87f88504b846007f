//! The requests that callers make of the journal store (the book), and its replies.
//!
//! Everything large is in a box that travels with the request and its reply, so few bytes are moved, and the store
//! allocates nothing for a request. A letter, a parcel and a slip return with the reply, and can be used again; a
//! sheet is made for each table.

use an_base::place::Place;
use an_base::port::Note;
use frame_region::buffer::FrameBuf;
use net_state::line::{Line, PlacedLine};
use net_state::work::{Drive, Work};
use switch_core::out::Frames;
use switch_core::switch::TableFor;

/// The result of handling what a switch held.
#[derive(Drop)]
pub struct Done {
    /// The frames that go out.
    pub frames: Frames,
    /// Whether the bytes that came in are no frame.
    pub noframe: bool,
    /// What the switch shows of itself now.
    pub note: Note,
    /// Whether its epochs are spent.
    pub spent: bool,
}

/// The request and reply in which a worker learns its next work.
#[derive(Drop)]
pub struct Letter {
    /// The buffer for the bytes of a frame.
    pub buffer: FrameBuf,
    /// The work.
    pub work: Work,
    /// The line that reports the event of the work, if there is one.
    pub told: Option<PlacedLine>,
}

/// The request and reply in which a worker delivers the result of handling what its switch held.
#[derive(Drop)]
pub struct Parcel {
    /// The result.
    pub done: Done,
    /// For each frame, the line that reports its loss, if it was lost.
    pub puts: Vec<Option<Line>>,
    /// The position of the event in the history, from 1, once there is one.
    pub event: u32,
}

/// The request in which a worker delivers a table that its switch is to use.
#[derive(Drop)]
pub struct Sheet {
    /// The table.
    pub table: TableFor,
    /// What the switch then shows of itself.
    pub note: Note,
}

/// The request and reply in which the driver learns what it did.
#[derive(Drop)]
pub struct Slip {
    /// What was done.
    pub drive: Drive,
    /// The line that reports its event, if there is one.
    pub told: Option<PlacedLine>,
}

/// A request.
#[derive(Drop)]
pub enum Ask {
    /// Asks for the next work of a switch.
    Take {
        /// The switch.
        s: Place,
        /// Receives the work.
        letter: Box<Letter>,
    },
    /// Delivers the result of handling what a switch held.
    Put {
        /// The switch.
        s: Place,
        /// The result.
        parcel: Box<Parcel>,
    },
    /// Asks to put a table into use.
    Load {
        /// The switch.
        s: Place,
        /// The table.
        sheet: Box<Sheet>,
    },
    /// Asks to do the next thing that belongs to no switch.
    Drive {
        /// Receives what was done.
        slip: Box<Slip>,
    },
}

/// A reply.
#[derive(Drop)]
pub enum Reply {
    /// The reply to `Take`.
    Take {
        /// The work.
        letter: Box<Letter>,
    },
    /// The reply to `Put`.
    Put {
        /// The parcel of the request, with the lines for its frames.
        parcel: Box<Parcel>,
    },
    /// The reply to `Load` if the table is in use.
    Loaded {
        /// The line that reports it.
        told: PlacedLine,
    },
    /// The reply to `Load` if the table is returned unused.
    NotNow {
        /// The table.
        sheet: Box<Sheet>,
    },
    /// The reply to `Drive`.
    Drive {
        /// What was done.
        slip: Box<Slip>,
    },
}
