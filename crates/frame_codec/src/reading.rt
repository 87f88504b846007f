//! Decodes bytes that are exactly one frame, or says why they are not.

ghost use Rattle.std.specs.Prelude.{◌≡◌, IfOk, Err};
ghost use Rattle.frame_codec.specs.Spelling.{spelling};
ghost use Rattle.frame_codec.specs.Frames.{IsFrame, IsNoFrame};
ghost use Rattle.frame_codec.specs.Reading.{Reads, GivesFrame, frame_at, frame_of};
ghost use Rattle.frame_codec.specs.declared.reading.DecodeRefusal.TheVariants.{NotAFrame, OutOfMemory};

use crate::reader::Reader;
use an_base::frame::Frame;
use std::alloc::{AllocError, AllocFailed, Global};

/// The reason why bytes were not decoded.
#[derive(Clone, Copy, Debug, PartialEq, Eq)]
pub enum DecodeRefusal {
    /// No frame has this encoding.
    NotAFrame,
    /// An allocation failed.
    OutOfMemory,
}

impl From<AllocError> for DecodeRefusal {
    ghost from_gives = { λ _ e. e ≡ OutOfMemory };

    fn from(_error: AllocError) -> DecodeRefusal {
        DecodeRefusal::OutOfMemory
    }
}

impl<T: Drop> From<AllocFailed<T>> for DecodeRefusal {
    ghost from_gives = { λ _ e. e ≡ OutOfMemory };

    fn from(_error: AllocFailed<T>) -> DecodeRefusal {
        DecodeRefusal::OutOfMemory
    }
}

// The frame that the bytes encode, read from the left.
#[tactic(auto, unfolding(crate::specs::Reading::frame_of))]
fn read(alloc: Global, bytes: &[u8]) -> Result<Frame, DecodeRefusal>
    ensures { GivesFrame bytes.now result }
{
    let mut reader = Reader::new(bytes);
    let frame = reader.frame(alloc)?;
    if !reader.is_empty() {
        return Err(DecodeRefusal::NotAFrame);
    }
    Ok(frame)
}

/// Returns the frame that `bytes` encode.
///
/// # Errors
/// `NotAFrame` if no frame has this encoding; or `OutOfMemory`, which says nothing about the bytes.
pub fn decode(alloc: Global, bytes: &[u8]) -> Result<Frame, DecodeRefusal>
    ensures found { IfOk result (λ f. IsFrame f × (bytes.now ≡ spelling f)) }
    ensures refused { result ≡ Err NotAFrame → IsNoFrame bytes.now }
{
    read(alloc, bytes)
}
