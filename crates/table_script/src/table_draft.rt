//! The content of the lines of tables that were read so far.

ghost use Rattle.std.specs.Prelude.{◌≡◌, ◌<◌, ◌++◌, [], ◌∷◌, true, false, All, length, OnOk};
ghost use Rattle.table_script.specs.TableDrafts.{height_of, no_tables};
ghost use Rattle.table_script.specs.TableRules.{is_numbered, is_labelled, is_entered, number_of};

use an_base::place::Place;
use an_base::port::Port;
use an_base::row::Row;
use common_values::memory::OutOfMemory;
use std::alloc::Global;
use std::marker::Model;

/// The number of a switch.
#[derive(Clone, Copy, PartialEq, Eq)]
pub struct NumberAt {
    /// The switch.
    pub s: Place,
    /// Its number, 1 to 126.
    pub number: u8,
}

/// An entry of a switch: an ingress port, or 0 for packets that start there.
#[derive(Clone, Copy, PartialEq, Eq)]
pub struct EntryAt {
    /// The switch.
    pub s: Place,
    /// The entry, 0 to 12.
    pub entry: Port,
}

/// The content of the lines of tables that were read so far.
#[derive(Drop)]
pub struct TableDraft {
    numbers: Vec<NumberAt>,
    entries: Vec<EntryAt>,
    // Above the height of each of these entries.
    top: u32,
    rows: Vec<Row>,
    ended: bool,
}

// The height of an entry of a switch: entries are ordered by switch, then by entry.
fn height_of(at: &EntryAt) -> u32
    ensures height { result ≡ height_of at.now }
    ensures low { result < 65536 }
{
    u32::from(at.s.as_u8()) * 256 + u32::from(at.entry.as_u8())
}

impl Model for TableDraft {
    ghost use Rattle.table_script.specs.TableDrafts.{AreEntriesBelow, TableDraftOf};

    ghost Value = { TableDraftOf };

    ghost view = { λ d. record {
      numbers = d.numbers.items;
      entries = d.entries.items;
      rows = d.rows.items;
      ended = d.ended;
    } };

    ghost invariant = { λ d. AreEntriesBelow d.top d.entries.items };
}

impl TableDraft {
    /// Creates the draft of no lines.
    pub fn new(alloc: Global) -> Self
        ensures { result ≡ no_tables }
    {
        TableDraft {
            numbers: Vec::new(alloc),
            entries: Vec::new(alloc),
            top: 0,
            rows: Vec::new(alloc),
            ended: false,
        }
    }

    /// Reports whether the last line was read.
    pub fn is_ended(&self) -> bool
        ensures { result ≡ self.now.ended }
    {
        self.ended
    }

    /// Reports whether a line gave switch `s` its number.
    #[tactic(auto, unfolding(crate::specs::TableRules::is_numbered))]
    pub fn is_numbered(&self, s: Place) -> bool
        ensures { result ≡ is_numbered self.now s }
    {
        self.numbers.iter().any(|x| x.s == s)
    }

    /// Reports whether a switch with the label of `s` has `number`.
    ///
    /// The caller must pass a label for `s` and for each numbered switch.
    #[tactic(auto, unfolding(crate::specs::TableRules::is_labelled))]
    pub fn is_number_taken(&self, labels: &[u8], s: Place, number: u8) -> bool
        requires all { All (λ x. x.s < length labels.now) self.now.numbers }
        requires within { s < length labels.now }
        ensures { result ≡ is_labelled labels.now self.now s number }
    {
        let label = labels[usize::from(s)];
        self.numbers.iter().any(|x| x.number == number && labels[usize::from(x.s)] == label)
    }

    // Reports whether an entry of a switch lies above all that had their lines.
    fn is_next(&self, s: Place, entry: Port) -> bool
        ensures { result ≡ true → is_entered self.now s entry ≡ false }
    {
        let height = height_of(&EntryAt { s, entry });
        if height < self.top {
            return false;
        }
        true
    }

    /// Reports whether `entry` of switch `s` had its line.
    ///
    /// If the lines come in ascending order of switch and entry, no earlier line is searched.
    #[tactic(auto, unfolding(crate::specs::TableRules::is_entered))]
    pub fn is_entered(&self, s: Place, entry: Port) -> bool
        ensures { result ≡ is_entered self.now s entry }
    {
        if self.is_next(s, entry) {
            return false;
        }
        self.entries.iter().any(|x| x.s == s && x.entry == entry)
    }

    /// Returns the number of switch `s`, 0 if no line gave one.
    #[tactic(auto, unfolding(crate::specs::TableRules::number_of))]
    pub fn number_of(&self, s: Place) -> u8
        ensures { result ≡ number_of self.now s }
    {
        self.numbers
            .iter()
            .find(|x| x.s == s)
            .map_or(0, |x| x.number)
    }

    /// Adds the number of a switch.
    ///
    /// # Errors
    /// `OutOfMemory` if the allocation fails; the draft is then unspecified.
    pub fn push_number(&mut self, number: NumberAt) -> Result<(), OutOfMemory>
        ensures { OnOk result (self.new ≡ record self.old { numbers = self.old.numbers ++ number ∷ [] }) }
    {
        self.numbers.push(number)?;
        Ok(())
    }

    /// Adds an entry of a switch.
    ///
    /// # Errors
    /// `OutOfMemory` if the allocation fails; the draft is then unspecified.
    pub fn push_entry(&mut self, entry: EntryAt) -> Result<(), OutOfMemory>
        ensures { OnOk result (self.new ≡ record self.old { entries = self.old.entries ++ entry ∷ [] }) }
    {
        let next = height_of(&entry) + 1;
        self.entries.push(entry)?;
        if self.top < next {
            self.top = next;
        }
        Ok(())
    }

    /// Adds a row.
    ///
    /// # Errors
    /// `OutOfMemory` if the allocation fails; the draft is then unspecified.
    pub fn push_row(&mut self, row: Row) -> Result<(), OutOfMemory>
        ensures { OnOk result (self.new ≡ record self.old { rows = self.old.rows ++ row ∷ [] }) }
    {
        self.rows.push(row)?;
        Ok(())
    }

    /// Marks the tables as ended.
    pub fn end(&mut self)
        ensures { self.new ≡ record self.old { ended = true } }
    {
        self.ended = true;
    }

    /// Returns the rows, without allocating.
    pub fn into_rows(self) -> Vec<Row>
        ensures { result.items ≡ self.rows }
    {
        self.rows
    }
}
