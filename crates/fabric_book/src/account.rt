//! What a caller reports of its events.

ghost use Rattle.std.specs.Prelude.{◌≡◌, ◌∷◌, [], option_to_list};
ghost use Rattle.net_world.specs.Accounts.{AccountOf, placed};
ghost use Rattle.fabric_book.specs.Accounts.{IsAccount, with_lines, with_load};

use crate::lines::Lines;
use an_base::row::Row;
use net_state::line::PlacedLine;
use std::alloc::Global;

/// What a caller reports of its events, and the rows of each table that it loaded, in order. After a failed
/// allocation (`failed`) it says nothing.
#[derive(Drop)]
pub struct Account {
    /// The lines, each with the place of its event.
    pub lines: Vec<PlacedLine>,
    /// The rows of each table.
    pub rows: Vec<Vec<Row>>,
    /// Whether an allocation failed.
    pub failed: bool,
}

impl Account {
    /// Creates an empty account without allocating. `alloc` is kept for later lines.
    pub fn new(alloc: Global) -> Account
        ensures { IsAccount (record { lines = []; rows = [] }) result }
    {
        Account {
            lines: Vec::new(alloc),
            rows: Vec::new(alloc),
            failed: false,
        }
    }

    // Adds a line at the end.
    fn push(&mut self, line: PlacedLine)
        ensures { (told : AccountOf) → IsAccount told self.old → IsAccount (with_lines (line ∷ []) told) self.new }
    {
        // As a slice of one, as in `Lines::push`.
        if self.lines.extend_from_slice(&[line]).is_err() {
            self.failed = true;
        }
    }

    /// Adds `line` at the end, if there is one.
    pub fn tell(&mut self, line: Option<PlacedLine>)
        ensures { (told : AccountOf) → IsAccount told self.old → IsAccount (with_lines (option_to_list line) told) self.new }
    {
        if let Some(line) = line {
            self.push(line);
        }
    }

    /// Adds the lines of the event at the place `event`.
    pub fn tell_lines(&mut self, event: u32, lines: &Lines)
        ensures { (told : AccountOf) → IsAccount told self.old
            → IsAccount (with_lines (placed event lines.now) told) self.new }
    {
        'lines: for line in lines.as_slice() {
            self.push(PlacedLine { event, line: *line });
        }
    }

    /// Adds the line of a load, and the rows of its table.
    pub fn tell_load(&mut self, line: PlacedLine, rows: Vec<Row>)
        ensures { (told : AccountOf) → IsAccount told self.old → IsAccount (with_load line rows.items told) self.new }
    {
        self.push(line);
        match self.rows.push(rows) {
            Ok(()) => {}
            Err(_rows) => self.failed = true,
        }
    }
}
