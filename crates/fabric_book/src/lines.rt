//! The lines that report one or several events.

ghost use Rattle.std.specs.Prelude.{◌≡◌, ◌++◌, ◌∷◌, [], option_to_list, OnOk, OnErr};
ghost use Rattle.std.specs.List.{flat_map};
ghost use Rattle.fabric_book.specs.Told.{line_if};

use common_values::memory::OutOfMemory;
use net_state::line::Line;
use std::alloc::Global;
use std::marker::Model;

/// The lines that report one or several events, in order. Contracts see them as a list.
#[derive(Drop)]
pub struct Lines {
    lines: Vec<Line>,
}

impl Model for Lines {
    ghost use Rattle.std.specs.Prelude.{List};
    ghost use Rattle.net_state.specs.declared.line.Line.{Line};

    ghost Value = { List Line };

    ghost view = { λ l. l.lines.items };
}

impl Lines {
    /// Creates an empty list without allocating. `alloc` is kept for later lines.
    pub fn new(alloc: Global) -> Self
        ensures { result ≡ [] }
    {
        Lines {
            lines: Vec::new(alloc),
        }
    }

    /// Returns the lines in their order.
    pub fn as_slice(&self) -> &[Line]
        ensures { result.now ≡ self.now }
    {
        &self.lines
    }

    /// Removes all lines, and keeps their memory.
    pub fn clear(&mut self)
        ensures { self.new ≡ [] }
    {
        self.lines.clear();
    }

    /// Adds `line` at the end.
    ///
    /// # Errors
    /// `OutOfMemory`. The lines are then unchanged.
    pub fn push(&mut self, line: Line) -> Result<(), OutOfMemory>
        ensures ok { OnOk result (self.new ≡ self.old ++ line ∷ []) }
        ensures err { OnErr result (self.new ≡ self.old) }
    {
        // As a slice of one, since rattle has no borrow checker's part for `push_reserved` at this type.
        self.lines.extend_from_slice(&[line])?;
        Ok(())
    }

    // Adds a line at the end, if there is one.
    pub(crate) fn push_some(&mut self, line: Option<Line>) -> Result<(), OutOfMemory>
        ensures { OnOk result (self.new ≡ self.old ++ option_to_list line) }
    {
        match line {
            Some(line) => self.push(line),
            None => Ok(()),
        }
    }

    /// Adds those lines of `told` that exist at the end.
    ///
    /// # Errors
    /// `OutOfMemory`. Which lines there are then is unspecified.
    pub fn push_all(&mut self, told: &[Option<Line>]) -> Result<(), OutOfMemory>
        ensures { OnOk result (self.new ≡ self.old ++ flat_map option_to_list told.now) }
    {
        'lines: for line in told {
            self.push_some(*line)?;
        }
        Ok(())
    }

    // Adds `line` at the end if `so` is true.
    pub(crate) fn push_if(&mut self, so: bool, line: Line) -> Result<(), OutOfMemory>
        ensures { OnOk result (self.new ≡ self.old ++ line_if so line) }
    {
        if so { self.push(line) } else { Ok(()) }
    }
}
