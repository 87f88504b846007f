//! The result of a clock event or a frame.

ghost use Rattle.std.specs.Prelude.{◌≡◌, [], ◌∷◌, ◌++◌, ◌+◌, ◌<◌, ◌≤◌, false, take, length, All, OnErr, OnOk, IfOk};
ghost use Rattle.switch_core.specs.Bytes.{IsFrameOut};

use common_values::memory::OutOfMemory;
use std::alloc::Global;
use std::marker::Model;

/// The bytes of a frame, and the port on which it goes out.
#[derive(Drop)]
pub struct FrameOut {
    port: u8,
    bytes: Vec<u8>,
}

impl Model for FrameOut {
    ghost use Rattle.switch_core.specs.Bytes.{BytesOut};

    ghost Value = { BytesOut };

    ghost view = { λ f. record { port = f.port; bytes = f.bytes.items } };
}

impl FrameOut {
    // A copy of these bytes.
    fn of(alloc: Global, port: u8, bytes: &[u8]) -> Result<FrameOut, OutOfMemory>
        ensures { IfOk result (λ f. f ≡ record { port = port; bytes = bytes.now }) }
    {
        Ok(FrameOut {
            port,
            bytes: Vec::from_slice(alloc, bytes)?,
        })
    }

    /// Returns the port on which the frame goes out, 1 to 12.
    pub fn port(&self) -> u8
        ensures { result ≡ self.now.port }
    {
        self.port
    }

    /// Returns the bytes of the frame.
    pub fn bytes(&self) -> &[u8]
        ensures { result.now ≡ self.now.bytes }
    {
        &self.bytes
    }

    // Becomes a copy of these bytes.
    fn set(&mut self, port: u8, bytes: &[u8]) -> Result<(), OutOfMemory>
        ensures { OnOk result (self.new ≡ record { port = port; bytes = bytes.now }) }
    {
        self.port = port;
        self.bytes.clear();
        self.bytes.extend_from_slice(bytes)?;
        Ok(())
    }
}

/// The frames that go out, in order; contracts see them as a list.
///
/// Each has the bytes of a frame and a port from 1 to 12. An emptied list keeps its memory for later
/// frames.
#[derive(Drop)]
pub struct Frames {
    alloc: Global,
    items: Vec<FrameOut>,
    len: usize,
}

impl Model for Frames {
    ghost use Rattle.std.specs.Prelude.{List, All, take, length, ◌≤◌};
    ghost use Rattle.switch_core.specs.Bytes.{BytesOut, IsFrameOut};

    ghost Value = { List BytesOut };

    ghost view = { λ f. take f.len f.items.items };

    ghost invariant = { λ f. (f.len ≤ length f.items.items) × All IsFrameOut (take f.len f.items.items) };
}

impl Frames {
    /// Creates an empty list, without allocating. It keeps `alloc` for the frames that are added.
    pub fn new(alloc: Global) -> Self
        ensures { result ≡ [] }
    {
        Frames {
            alloc,
            items: Vec::new(alloc),
            len: 0,
        }
    }

    /// Returns the frames in the order in which they go out.
    pub fn as_slice(&self) -> &[FrameOut]
        ensures all { result.now ≡ self.now }
        ensures frames { All IsFrameOut self.now }
    {
        &self.items[..self.len]
    }

    // Removes all frames.
    fn clear(&mut self)
        ensures { self.new ≡ [] }
    {
        self.len = 0;
    }

    // Appends a frame. If the allocation fails, none is appended.
    pub(crate) fn push(&mut self, port: u8, bytes: &[u8]) -> Result<(), OutOfMemory>
        requires { IsFrameOut (record { port = port; bytes = bytes.now }) }
        ensures ok { OnOk result (self.new ≡ self.old ++ record { port = port; bytes = bytes.now } ∷ []) }
    {
        put_at(self.alloc, &mut self.items, self.len, port, bytes)?;
        self.len += 1;
        Ok(())
    }
}

// Writes a frame at index `place` of the list, over an old one or at the end. Those before it stay.
fn put_at(
    alloc: Global,
    items: &mut Vec<FrameOut>,
    place: usize,
    port: u8,
    bytes: &[u8],
) -> Result<(), OutOfMemory>
    requires { place ≤ length items.old.items }
    ensures ok { OnOk result (take (place + 1) items.new.items ≡ take place items.old.items ++ record { port = port; bytes = bytes.now } ∷ []) }
    ensures within { OnOk result (place < length items.new.items) }
    ensures err { OnErr result (take place items.new.items ≡ take place items.old.items) }
    ensures still { OnErr result (place ≤ length items.new.items) }
{
    if place < items.len() {
        items[place].set(port, bytes)
    } else {
        Ok(items.push(FrameOut::of(alloc, port, bytes)?)?)
    }
}

/// The result of a clock event or a frame.
#[derive(Drop)]
pub struct Out {
    /// The frames that go out, in order.
    pub frames: Frames,
    /// Whether the bytes that came in are no frame.
    pub noframe: bool,
}

impl Model for Out {
    ghost use Rattle.switch_core.specs.Bytes.{OutOf};

    ghost Value = { OutOf };

    ghost view = { λ o. record { frames = o.frames; noframe = o.noframe } };
}

impl Out {
    /// Creates an empty result, without allocating. It keeps `alloc` for the frames that come.
    pub fn new(alloc: Global) -> Self
        ensures { result ≡ record { frames = []; noframe = false } }
    {
        Out {
            frames: Frames::new(alloc),
            noframe: false,
        }
    }

    // Becomes empty again.
    pub(crate) fn clear(&mut self)
        ensures { self.new ≡ record { frames = []; noframe = false } }
    {
        self.frames.clear();
        self.noframe = false;
    }
}
