//! Why a text is no text of tables.

ghost use Rattle.std.specs.Prelude.{◌≡◌};
ghost use Rattle.fabric_read_tables.specs.Causes.{cause_text};

use fabric_words::text_cause::TextCause;

/// What is wrong with a line of tables.
#[derive(Clone, Copy)]
pub enum TablesCause {
    /// The line has more than 4,096 bytes.
    LineTooLong,
    /// The line has none of the known forms.
    UnknownLine,
    /// The line begins as a row, and is none.
    BadRow,
    /// The line is to have a GUID, and has none that is well formed.
    BadGuid,
    /// A row's LID is above 0xbfff: a multicast LID.
    LidRange,
    /// A row's port is above 255.
    PortRange,
    /// A head names a switch that the topology has not.
    UnknownSwitch,
    /// The line has a known form that may not stand here, as a row before the head of a table.
    OutOfPlace,
    /// A table ends without its last line: it was cut off.
    NoEnd,
    /// A switch has another port for the LID in an earlier row.
    PortDiffers,
    /// The text has more than 2^62 bytes.
    TooMany,
}

impl TablesCause {
    /// The words for it in messages.
    pub fn text(self) -> &'static str
        ensures { result.now ≡ cause_text self }
    {
        match self {
            TablesCause::LineTooLong => "line too long",
            TablesCause::UnknownLine => "unknown line",
            TablesCause::BadRow => "bad row",
            TablesCause::BadGuid => "bad guid",
            TablesCause::LidRange => "lid range",
            TablesCause::PortRange => "port range",
            TablesCause::UnknownSwitch => "unknown switch",
            TablesCause::OutOfPlace => "out of place",
            TablesCause::NoEnd => "no end",
            TablesCause::PortDiffers => "port differs",
            TablesCause::TooMany => "too many",
        }
    }
}

impl TextCause for TablesCause {
    ghost use Rattle.fabric_read_tables.specs.declared.cause.TablesCause.TheVariants.{LineTooLong, NoEnd, TooMany};

    ghost too_long = { LineTooLong };

    ghost no_end = { NoEnd };

    ghost too_many = { TooMany };

    fn too_long() -> TablesCause {
        TablesCause::LineTooLong
    }

    fn no_end() -> TablesCause {
        TablesCause::NoEnd
    }

    fn too_many() -> TablesCause {
        TablesCause::TooMany
    }
}
