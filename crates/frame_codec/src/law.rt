//! Theorems about encodings: each belongs to one frame, and decodes to it. No function here has code.

ghost use Rattle.std.specs.Prelude.{◌≡◌, ◌<◌, ◌≤◌, ◌++◌, List, ℕ, All, Some, length, []};
ghost use Rattle.an_base.specs.declared.frame.Frame.{Frame};
ghost use Rattle.frame_region.specs.declared.buffer.TheConstants.{MOST_FRAME};
ghost use Rattle.frame_codec.specs.Frames.{IsFrame};
ghost use Rattle.frame_codec.specs.Reading.{frame_of};
ghost use Rattle.frame_codec.specs.Spelling.{spelling};

/// No two frames have the same encoding.
pub fn a_spelling_is_of_one_frame()
    ensures { (one other : Frame)
        → IsFrame one → IsFrame other → spelling one ≡ spelling other → one ≡ other }
{}

/// No encoding is a proper prefix of another.
pub fn no_spelling_begins_another()
    ensures { (one other : Frame) (more : List ℕ)
        → IsFrame one → IsFrame other → spelling one ++ more ≡ spelling other → more ≡ [] }
{}

/// No encoding is longer than 22,591 bytes.
pub fn a_spelling_has_at_most_22591_bytes()
    ensures { (frame : Frame) → IsFrame frame → length (spelling frame) ≤ MOST_FRAME }
{}

/// The encoding of a frame decodes to that frame.
pub fn a_frame_is_read_from_its_spelling()
    ensures { (frame : Frame) → IsFrame frame → frame_of (spelling frame) ≡ Some frame }
{}

/// Bytes that decode to a frame are the encoding of that frame.
pub fn what_is_read_is_spelled()
    ensures { (bytes : List ℕ) (frame : Frame) → All (λ byte. byte < 256) bytes
        → frame_of bytes ≡ Some frame → IsFrame frame × (bytes ≡ spelling frame) }
{}
