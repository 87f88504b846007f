//! The input of a command.

ghost use Rattle.std.specs.Prelude.{◌≡◌};
ghost use Rattle.autonet_call.specs.Answer.{refused_as, unread_as};

use crate::status::Status;
use common_call::input::Unread;
use net_script::cause::ScriptCause;
use net_script::reader::ReadRefusal;

/// The most bytes of an input.
pub const INPUT_LIMIT: usize = 1 << 28;

impl From<Unread> for Status {
    ghost from_gives = { λ why result. result ≡ unread_as why };

    fn from(why: Unread) -> Self {
        match why {
            Unread::Fault => Status::ReadFault,
            Unread::TooLong { line } => Status::ScriptRefused {
                line,
                cause: ScriptCause::TooMany,
            },
            Unread::OutOfMemory => Status::OutOfMemory,
        }
    }
}

impl From<ReadRefusal> for Status {
    ghost from_gives = { λ refusal result. result ≡ refused_as refusal };

    fn from(refusal: ReadRefusal) -> Self {
        match refusal {
            ReadRefusal::Fault { line, cause } => Status::ScriptRefused { line, cause },
            ReadRefusal::OutOfMemory => Status::OutOfMemory,
        }
    }
}
