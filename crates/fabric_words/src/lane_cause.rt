//! Why a text of lanes or service levels is rejected.

ghost use Rattle.std.specs.Prelude.{◌≡◌};
ghost use Rattle.fabric_words.specs.LaneCauses.{cause_text};

use crate::text_cause::TextCause;
use common_lines::stop::Stop;

/// The error in a line of lanes or service levels.
#[derive(Clone, Copy)]
pub enum LaneCause {
    /// The line has more than 4,096 bytes.
    LineTooLong,
    /// The line has none of the known forms.
    UnknownLine,
    /// A field of the row is not a number, or is too high: a port above 255, a lane or a level above 15.
    BadRow,
    /// The LID of the row is above 0xbfff: a multicast LID.
    LidRange,
    /// The line names a switch that the topology does not have.
    UnknownSwitch,
    /// The line names an end port that the topology does not have.
    UnknownEnd,
    /// A port of the row is above those of the switch.
    NoSuchPort,
    /// The line has a known form that is not allowed here, for example a row before the head of its part.
    OutOfPlace,
    /// A part ends without its last line, because the text was cut off; or the text has no part.
    NoEnd,
    /// An earlier row has other lanes for these ports.
    LanesDiffer,
    /// The text has more than 2^62 bytes.
    TooMany,
}

/// Why a line is rejected.
pub type LaneStop = Stop<LaneCause>;

impl LaneCause {
    /// Returns the words for the reason in messages.
    pub fn text(self) -> &'static str
        ensures { result.now ≡ cause_text self }
    {
        match self {
            LaneCause::LineTooLong => "line too long",
            LaneCause::UnknownLine => "unknown line",
            LaneCause::BadRow => "bad row",
            LaneCause::LidRange => "lid range",
            LaneCause::UnknownSwitch => "unknown switch",
            LaneCause::UnknownEnd => "unknown end",
            LaneCause::NoSuchPort => "no such port",
            LaneCause::OutOfPlace => "out of place",
            LaneCause::NoEnd => "no end",
            LaneCause::LanesDiffer => "lanes differ",
            LaneCause::TooMany => "too many",
        }
    }
}

impl TextCause for LaneCause {
    ghost use Rattle.fabric_words.specs.declared.lane_cause.LaneCause.TheVariants.{LineTooLong, NoEnd, TooMany};

    ghost too_long = { LineTooLong };

    ghost no_end = { NoEnd };

    ghost too_many = { TooMany };

    fn too_long() -> LaneCause {
        LaneCause::LineTooLong
    }

    fn no_end() -> LaneCause {
        LaneCause::NoEnd
    }

    fn too_many() -> LaneCause {
        LaneCause::TooMany
    }
}
