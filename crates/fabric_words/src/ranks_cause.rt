//! Why a text of ranks is rejected.

ghost use Rattle.std.specs.Prelude.{◌≡◌};
ghost use Rattle.fabric_words.specs.RanksCauses.{cause_text};

/// The error in a line of ranks.
#[derive(Clone, Copy)]
pub enum RanksCause {
    /// It has more than 200 bytes.
    LineTooLong,
    /// It is not a line of ranks.
    UnknownLine,
    /// The GUID is not `0x` with 1 to 16 hexadecimal digits.
    BadGuid,
    /// The port is not a number of at most 255.
    BadPort,
    /// The rank is not a number below 2^32.
    BadRank,
    /// The head occurs again, or a rank comes before it.
    OutOfPlace,
    /// No switch of the fabric has this GUID.
    UnknownSwitch,
    /// The port does not lead to a switch.
    NoChannel,
    /// An earlier line has a rank for this channel.
    RankTold,
    /// There is no head.
    NoHead,
}

impl RanksCause {
    /// Returns the words for the reason in messages.
    pub fn text(self) -> &'static str
        ensures { result.now ≡ cause_text self }
    {
        match self {
            RanksCause::LineTooLong => "line too long",
            RanksCause::UnknownLine => "unknown line",
            RanksCause::BadGuid => "bad guid",
            RanksCause::BadPort => "bad port",
            RanksCause::BadRank => "bad rank",
            RanksCause::OutOfPlace => "out of place",
            RanksCause::UnknownSwitch => "unknown switch",
            RanksCause::NoChannel => "no channel",
            RanksCause::RankTold => "rank told",
            RanksCause::NoHead => "no head",
        }
    }
}
