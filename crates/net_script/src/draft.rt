//! What the lines of a text say so far.

ghost use Rattle.std.specs.Prelude.{◌≡◌};
ghost use Rattle.net_script.specs.Drafts.{start};

use crate::script::Script;
use crate::setting::Came;
use std::alloc::Global;

/// What the lines that have been read say.
#[derive(Drop)]
pub struct Draft {
    /// The script so far.
    pub script: Script,
    /// The settings that were read.
    pub came: Came,
    /// The part of the text that the next line belongs to.
    pub part: Part,
}

/// A part of a text.
#[derive(Clone, Copy, PartialEq, Eq)]
pub enum Part {
    /// Up to the first line.
    Header,
    /// The lines between the first and the last.
    Items,
    /// After the last line.
    After,
}

impl Draft {
    /// Creates the draft before the first line.
    pub fn new(alloc: Global) -> Self
        ensures { result ≡ start }
    {
        let came = Came {
            ticks: false,
            events: false,
            blocks: false,
            epoch: false,
            pace: false,
            routes: false,
        };
        Draft {
            script: Script::new(alloc),
            came,
            part: Part::Header,
        }
    }
}
