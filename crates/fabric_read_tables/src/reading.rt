//! What the lines of tables say so far.

ghost use Rattle.std.specs.Prelude.{◌≡◌, ◌+◌, ◌*◌, ◌<◌, ◌≤◌, ◌^◌, ◌-◌, ℕ, IfOk, OnOk, None, Some, Ok, MatchResult};
ghost use Rattle.fabric_words.specs.Says.{and_then, LedTo, LedToOrWant};
ghost use Rattle.fabric_model.specs.Fabric.{switch_count, switch_with};
ghost use Rattle.fabric_tables.specs.Cells.{tables_of};
ghost use Rattle.fabric_read_tables.specs.declared.cause.TablesCause.TheVariants.{UnknownSwitch};
ghost use Rattle.fabric_read_tables.specs.declared.reading.Part.TheVariants.{Between, Dumped, Listed, Plain, PlainOf};
ghost use Rattle.fabric_read_tables.specs.Tables.{is_dump, is_list, is_plain, may_begin, may_end, none_told, told_with, Told};
ghost use Rattle.fabric_read_tables.specs.Tables.{at_part, begins_told, if_open, is_void, row_told, rows_of};
ghost use Rattle.fabric_read_tables.specs.Tables.{switch_dumped, switch_listed, switch_plain, unowned_with, Step};
ghost use Rattle.fabric_read_tables.specs.Readings.{switch_in, told_of, IsFit, IsUnicast, KeepsRows};

use crate::cause::TablesCause;
use crate::first::first_row;
use crate::line::{TableLine, TablesStop, table_line};
use common_lines::stop::Stop;
use common_values::memory::OutOfMemory;
use fabric_model::fabric::Fabric;
use fabric_read_lines::takes::TakesLines;
use fabric_tables::cells::Cells;
use std::alloc::Global;

/// The part of a text in which the next line stands.
#[derive(Clone, Copy)]
pub enum Part {
    /// No part began.
    Start,
    /// The last part ended.
    Between,
    /// The table of this switch in a dump.
    Dumped(usize),
    /// A plain text that has named no switch.
    Plain,
    /// The rows of this switch in a plain text.
    PlainOf(usize),
    /// The table of this switch in a list, which ends with the next head or the text.
    Listed(usize),
}

impl Part {
    // Whether none is open, so that one may begin; else the cause why not.
    fn may_begin(self) -> Result<(), TablesCause>
        ensures { result ≡ may_begin self }
    {
        if self.is_dump() {
            return Err(TablesCause::NoEnd);
        }
        if self.is_plain() {
            return Err(TablesCause::OutOfPlace);
        }
        Ok(())
    }

    // Whether it is a table of a dump.
    fn is_dump(self) -> bool
        ensures { result ≡ is_dump self }
    {
        match self {
            Part::Dumped(_) => true,
            Part::Start | Part::Between | Part::Plain | Part::PlainOf(_) | Part::Listed(_) => false,
        }
    }

    // Whether it is a table of a list.
    fn is_list(self) -> bool
        ensures { result ≡ is_list self }
    {
        match self {
            Part::Listed(_) => true,
            Part::Start | Part::Between | Part::Dumped(_) | Part::Plain | Part::PlainOf(_) => false,
        }
    }

    // Whether the text may end in it.
    fn may_end(self) -> bool
        ensures { result ≡ may_end self }
    {
        match self {
            Part::Between | Part::Listed(_) => true,
            Part::Start | Part::Dumped(_) | Part::Plain | Part::PlainOf(_) => false,
        }
    }

    // Whether it is one of a plain text.
    fn is_plain(self) -> bool
        ensures { result ≡ is_plain self }
    {
        match self {
            Part::Plain | Part::PlainOf(_) => true,
            Part::Start | Part::Between | Part::Dumped(_) | Part::Listed(_) => false,
        }
    }

    // The switch to which a row of a dump belongs; else the cause why it may not stand here.
    #[inline]
    fn switch_dumped(self) -> Result<usize, TablesCause>
        ensures switch { result ≡ switch_dumped self }
        ensures here { IfOk result (λ switch. switch_in self ≡ Some switch) }
    {
        match self {
            Part::Dumped(switch) => Ok(switch),
            Part::Plain | Part::PlainOf(_) | Part::Listed(_) => Err(TablesCause::UnknownLine),
            Part::Start | Part::Between => Err(TablesCause::OutOfPlace),
        }
    }

    // The same of a row of a list.
    fn switch_listed(self) -> Result<usize, TablesCause>
        ensures switch { result ≡ switch_listed self }
        ensures here { IfOk result (λ switch. switch_in self ≡ Some switch) }
    {
        match self {
            Part::Listed(switch) => Ok(switch),
            Part::Plain | Part::PlainOf(_) | Part::Dumped(_) => Err(TablesCause::UnknownLine),
            Part::Start | Part::Between => Err(TablesCause::OutOfPlace),
        }
    }

    // The same of a row in plain words.
    fn switch_plain(self) -> Result<usize, TablesCause>
        ensures switch { result ≡ switch_plain self }
        ensures here { IfOk result (λ switch. switch_in self ≡ Some switch) }
    {
        match self {
            Part::PlainOf(switch) => Ok(switch),
            Part::Dumped(_) | Part::Listed(_) => Err(TablesCause::UnknownLine),
            Part::Start | Part::Between | Part::Plain => Err(TablesCause::OutOfPlace),
        }
    }
}

/// What so many lines say.
#[derive(Drop)]
pub struct Reading {
    /// The part in which the next line stands.
    part: Part,
    /// The ports of the LIDs, whoever owns them, but for LID 0.
    pub cells: Cells,
    /// How many rows named a port, but for LID 0.
    pub rows: u64,
    /// How many of these are for LIDs that nobody owns.
    pub unowned: u64,
}

// The place of the switch with this GUID.
fn known(fabric: &Fabric, guid: u64) -> Result<usize, TablesCause>
    ensures place { MatchResult result (λ switch. switch_with fabric.now guid ≡ Some switch)
        (λ cause. (switch_with fabric.now guid ≡ None) × (cause ≡ UnknownSwitch)) }
    ensures range { IfOk result (λ switch. switch < switch_count fabric.now) }
{
    match fabric.switch_with(guid) {
        Some(switch) => Ok(switch as usize),
        None => Err(TablesCause::UnknownSwitch),
    }
}

// Whether a row says nothing: 255 is no port, and LID 0 is reserved.
#[inline]
fn is_void(lid: u16, port: u8) -> bool
    ensures { result ≡ is_void lid port }
{
    port == 255 || lid == 0
}

// What was done, with a cause as the reason to stop.
fn or_stop(done: Result<(), TablesCause>) -> Result<(), TablesStop>
    ensures step { (after : Told) (step : Step) → LedTo done after step → LedToOrWant result after step }
    ensures done { OnOk result (done ≡ Ok tt) }
{
    match done {
        Ok(()) => Ok(()),
        Err(cause) => Err(Stop::Fault(cause)),
    }
}

impl TakesLines<TablesCause> for Reading {
    ghost use Rattle.fabric_read_tables.specs.Tables.{AddsTo, IsEnded, IsFaultyAfter, long_line};
    ghost use Rattle.fabric_read_tables.specs.Readings.{IsFit, told_of};

    ghost is_fit = { IsFit };

    ghost count = { λ reading. reading.rows };

    ghost adds = { λ fabric old line new. AddsTo fabric (told_of old) line (told_of new) };

    ghost is_faulty = { λ fabric old line cause. IsFaultyAfter fabric (told_of old) line cause };

    ghost is_ended = { λ reading. IsEnded (told_of reading) };

    ghost long = { λ fabric told line. long_line fabric (told_of told) line };

    #[inline(never)]
    fn take(&mut self, alloc: Global, fabric: &Fabric, line: &[u8]) -> Result<(), TablesStop> {
        let said = table_line(alloc, line)?;
        self.add(fabric, said)
    }

    // Nearly all lines are rows, so a row is looked for first.
    #[inline]
    fn take_in_place(
        &mut self,
        fabric: &Fabric,
        bytes: &[u8],
    ) -> Result<Option<usize>, TablesStop> {
        let Some(row) = first_row(bytes) else {
            return Ok(None);
        };
        self.add_row(fabric, self.part.switch_dumped(), row.lid, row.port)?;
        Ok(Some(row.end))
    }

    fn may_end(&self) -> bool {
        self.part.may_end()
    }
}

impl Reading {
    /// What no lines of tables of the fabric say.
    pub fn new(alloc: Global, fabric: &Fabric) -> Result<Reading, OutOfMemory>
        ensures none { IfOk result (λ reading. told_of reading ≡ none_told) }
        ensures fit { IfOk result (IsFit fabric.now) }
    {
        Ok(Reading {
            part: Part::Start,
            cells: Cells::new(alloc, fabric.switches(), fabric.lids())?,
            rows: 0,
            unowned: 0,
        })
    }

    // Adds what a line says.
    fn add(&mut self, fabric: &Fabric, said: TableLine) -> Result<(), TablesStop>
        requires fit { IsFit fabric.now self.old }
        requires unicast { IsUnicast said }
        requires few { self.old.rows < 2 ^ 64 - 1 }
        ensures step { LedToOrWant result (told_of self.new) (told_with fabric.now (told_of self.old) said) }
        ensures fit { OnOk result (IsFit fabric.now self.new) }
        ensures rows { OnOk result (self.new.rows ≤ self.old.rows + 1) }
    {
        match said {
            TableLine::Nothing => Ok(()),
            TableLine::Row(lid, port) => self.add_row(fabric, self.part.switch_dumped(), lid, port),
            TableLine::ListedRow(lid, port) => self.add_row(
                fabric,
                self.part.switch_listed(),
                lid,
                port,
            ),
            TableLine::PlainRow(lid, port) => self.add_row(
                fabric,
                self.part.switch_plain(),
                lid,
                port,
            ),
            TableLine::Head(guid) => or_stop(self.begin_dump(fabric, guid)),
            TableLine::ListedHead(guid) => or_stop(self.begin_list(fabric, guid)),
            TableLine::End => or_stop(self.end_dump()),
            TableLine::PlainHead => or_stop(self.begin_plain()),
            TableLine::PlainSwitch(guid) => or_stop(self.begin_rows(fabric, guid)),
            TableLine::PlainEnd => or_stop(self.end_plain()),
        }
    }

    // Adds what a row says that belongs to this switch, if it may stand here.
    #[inline]
    fn add_row(
        &mut self,
        fabric: &Fabric,
        switch: Result<usize, TablesCause>,
        lid: u16,
        port: u8,
    ) -> Result<(), TablesStop>
        requires fit { IsFit fabric.now self.old }
        requires unicast { lid ≤ 0xbfff }
        requires few { self.old.rows < 2 ^ 64 - 1 }
        requires here { IfOk switch (λ switch. switch_in self.old.part ≡ Some switch) }
        ensures step { LedToOrWant result (told_of self.new)
            (and_then switch (row_told fabric.now (told_of self.old) lid port)) }
        ensures fit { OnOk result (IsFit fabric.now self.new) }
        ensures rows { OnOk result (self.new.rows ≤ self.old.rows + 1) }
    {
        let switch = match switch {
            Ok(switch) => switch,
            Err(cause) => return Err(Stop::Fault(cause)),
        };
        if is_void(lid, port) {
            return Ok(());
        }
        let lid = usize::from(lid);
        self.make_room(lid)?;
        if !self.cells.put(switch, lid, port) {
            return Err(Stop::Fault(TablesCause::PortDiffers));
        }
        self.rows += 1;
        self.unowned += u64::from(fabric.owner(lid).is_none());
        Ok(())
    }

    // Makes room for a LID, if there is none.
    #[inline]
    fn make_room(&mut self, lid: usize) -> Result<(), OutOfMemory>
        requires unicast { lid ≤ 0xbfff }
        requires most { 64 * self.old.cells.blocks ≤ 0xC000 }
        ensures room { OnOk result (lid < 64 * self.new.cells.blocks) }
        ensures most { OnOk result (64 * self.new.cells.blocks ≤ 0xC000) }
        ensures less { self.old.cells.blocks ≤ self.new.cells.blocks }
        ensures switches { self.new.cells.switches ≡ self.old.cells.switches }
        ensures same { (switch lid : ℕ) → tables_of self.new.cells switch lid ≡ tables_of self.old.cells switch lid }
        ensures part { self.new.part ≡ self.old.part }
        ensures rows { self.new.rows ≡ self.old.rows }
        ensures unowned { self.new.unowned ≡ self.old.unowned }
    {
        if lid < 64 * self.cells.blocks() {
            return Ok(());
        }
        self.cells.widen(lid + 1)
    }

    // Begins the table of a switch in a dump.
    fn begin_dump(&mut self, fabric: &Fabric, guid: u64) -> Result<(), TablesCause>
        requires fit { IsFit fabric.now self.old }
        ensures step { LedTo result (told_of self.new)
            (begins_told (told_of self.old) (rows_of (told_of self.old) Dumped (switch_with fabric.now guid))) }
        ensures fit { OnOk result (IsFit fabric.now self.new) }
        ensures rows { KeepsRows self.old self.new }
    {
        self.part.may_begin()?;
        self.part = Part::Dumped(known(fabric, guid)?);
        Ok(())
    }

    // Begins the table of a switch in a list.
    fn begin_list(&mut self, fabric: &Fabric, guid: u64) -> Result<(), TablesCause>
        requires fit { IsFit fabric.now self.old }
        ensures step { LedTo result (told_of self.new)
            (begins_told (told_of self.old) (rows_of (told_of self.old) Listed (switch_with fabric.now guid))) }
        ensures fit { OnOk result (IsFit fabric.now self.new) }
        ensures rows { KeepsRows self.old self.new }
    {
        self.part.may_begin()?;
        self.part = Part::Listed(known(fabric, guid)?);
        Ok(())
    }

    // Ends the table of a switch in a dump.
    fn end_dump(&mut self) -> Result<(), TablesCause>
        ensures step { LedTo result (told_of self.new)
            (if_open (is_dump self.old.part) (Ok (at_part (told_of self.old) Between))) }
        ensures part { OnOk result (self.new.part ≡ Between) }
        ensures rows { KeepsRows self.old self.new }
    {
        if !self.part.is_dump() {
            return Err(TablesCause::OutOfPlace);
        }
        self.part = Part::Between;
        Ok(())
    }

    // Begins a plain text.
    fn begin_plain(&mut self) -> Result<(), TablesCause>
        ensures step { LedTo result (told_of self.new)
            (begins_told (told_of self.old) (Ok (at_part (told_of self.old) Plain))) }
        ensures part { OnOk result (self.new.part ≡ Plain) }
        ensures rows { KeepsRows self.old self.new }
    {
        self.part.may_begin()?;
        self.part = Part::Plain;
        Ok(())
    }

    // Begins the rows of a switch in a plain text.
    fn begin_rows(&mut self, fabric: &Fabric, guid: u64) -> Result<(), TablesCause>
        requires fit { IsFit fabric.now self.old }
        ensures step { LedTo result (told_of self.new)
            (if_open (is_plain self.old.part) (rows_of (told_of self.old) PlainOf (switch_with fabric.now guid))) }
        ensures fit { OnOk result (IsFit fabric.now self.new) }
        ensures rows { KeepsRows self.old self.new }
    {
        if !self.part.is_plain() {
            return Err(TablesCause::OutOfPlace);
        }
        self.part = Part::PlainOf(known(fabric, guid)?);
        Ok(())
    }

    // Ends a plain text.
    fn end_plain(&mut self) -> Result<(), TablesCause>
        ensures step { LedTo result (told_of self.new)
            (if_open (is_plain self.old.part) (Ok (at_part (told_of self.old) Between))) }
        ensures part { OnOk result (self.new.part ≡ Between) }
        ensures rows { KeepsRows self.old self.new }
    {
        if !self.part.is_plain() {
            return Err(TablesCause::OutOfPlace);
        }
        self.part = Part::Between;
        Ok(())
    }
}
