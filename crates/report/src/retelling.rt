//! The report of a run, of whose events each caller has reported its own.

ghost use Rattle.std.specs.Prelude.{◌≡◌, ◌∷◌, ◌++◌, [], List, IfOk, IfSome, IsNone, OnOk, codes, map};
ghost use Rattle.an_base.specs.Rows.{RowOf};
ghost use Rattle.an_base.specs.declared.event.Event.{Event};
ghost use Rattle.net_state.specs.declared.line.Line.{Line};
ghost use Rattle.net_state.specs.declared.line.PlacedLine.{PlacedLine};
ghost use Rattle.net_world.specs.Accounts.{loaded_rows, placed};
ghost use Rattle.net_world.specs.Lines.{rows_after};
ghost use Rattle.net_world.specs.Histories.{IsLegal, owner_of};
ghost use Rattle.net_world.specs.World.{WorldOf, step, world_after};
ghost use Rattle.net_settling.specs.Claims.{HoldsAndSettles};
ghost use Rattle.fabric_book.specs.Accounts.{AreAccounts};
ghost use Rattle.report.specs.Events.{IsReport, all_told, course_after, report_text};
ghost use Rattle.report.specs.Retellings.{HasCome, IsNotNext, IsRetelling, told_in};

use crate::reporter::Report;
use crate::telling::{Telling, first_line};
use an_base::event::{Event, Journal};
use an_base::row::Row;
use common_values::memory::OutOfMemory;
use fabric_book::account::Account;
use net_script::script::Script;
use net_state::ending::Ending;
use net_state::line::{Line, PlacedLine};
use std::alloc::Global;
use std::marker::Model;

// Returns to whom an event belongs: the worker of a switch, from 1, or the driver, 0.
fn owner_of(event: &Event) -> usize
    ensures { result ≡ owner_of event.now }
{
    match *event {
        Event::Clock { s }
        | Event::Take { s, port: _ }
        | Event::Handle { s }
        | Event::Load { s }
        | Event::Restart { s } => usize::from(s.as_u8()) + 1,
        _ => 0,
    }
}

// What is left of an account that is being printed.
#[derive(Drop)]
struct Left<'a> {
    lines: &'a [PlacedLine],
    rows: &'a [Vec<Row>],
}

impl<'a> Model for Left<'a> {
    ghost use Rattle.std.specs.Prelude.{map};
    ghost use Rattle.net_world.specs.Accounts.{AccountOf};

    ghost Value = { AccountOf };

    ghost view = { λ l. record { lines = l.lines.now; rows = map (λ rows. rows.items) l.rows.now } };
}

impl<'a> Left<'a> {
    // Returns all of an account.
    fn all(account: &'a Account) -> Self
        ensures { result ≡ told_in account.now }
    {
        Left {
            lines: &account.lines,
            rows: &account.rows,
        }
    }

    // Returns the rows after an event: those of the next table after a load, and none after others.
    fn rows_after(&mut self, event: &Event) -> &'a [Row]
        ensures { (world : WorldOf) (more : List (List RowOf)) → self.old.rows ≡ loaded_rows world event.now ++ more
            → (result.now ≡ rows_after (step world event.now).fabric event.now)
            × (self.new ≡ record self.old { rows = more }) }
    {
        if !matches!(event, Event::Load { .. }) {
            return &[];
        }
        let Some((rows, more)) = self.rows.split_first() else {
            return &[];
        };
        self.rows = more;
        rows
    }

    // Returns the next line, if it belongs to the event at this position.
    fn next_line(&mut self, event: u32) -> Option<&'a Line>
        ensures line { IfSome result (λ line. self.old ≡ record self.new {
          lines = record { event = event; line = line.now } ∷ self.new.lines;
        }) }
        ensures rows { self.new.rows ≡ self.old.rows }
        ensures none { IsNone result → (self.new ≡ self.old) × IsNotNext event self.old.lines }
    {
        let (told, more) = self.lines.split_first()?;
        if told.event != event {
            return None;
        }
        self.lines = more;
        Some(&told.line)
    }

    // Prints the lines of the last event, with the rows after it.
    fn tell(
        &mut self,
        telling: &Telling,
        rows: &[Row],
        text: &mut Vec<u8>,
    ) -> Result<(), OutOfMemory>
        ensures left { (lines : List Line) (more : List PlacedLine)
            → self.old.lines ≡ placed telling.now.course.events lines ++ more
            → IsNotNext telling.now.course.events more
            → OnOk result (self.new ≡ record self.old { lines = more }) }
        ensures told { (lines : List Line) (more : List PlacedLine)
            → self.old.lines ≡ placed telling.now.course.events lines ++ more
            → IsNotNext telling.now.course.events more
            → OnOk result (text.new.items
            ≡ text.old.items ++ all_told telling.now.script.now telling.now.course rows.now lines) }
    {
        'lines: while let Some(line) = self.next_line(telling.course().events()) {
            telling.push_line(text, line, rows)?;
        }
        Ok(())
    }
}

// A journal whose report is made from what each caller has reported.
#[derive(Drop)]
struct Retelling<'a> {
    telling: Telling<'a>,
    left: Vec<Left<'a>>,
    text: Vec<u8>,
}

// Returns all that each caller has reported.
fn all_left(alloc: Global, accounts: &[Account]) -> Result<Vec<Left<'_>>, OutOfMemory>
    ensures { IfOk result (λ left. left.items ≡ map told_in accounts.now) }
{
    let mut left = Vec::with_capacity(alloc, accounts.len())?;
    'accounts: for account in accounts {
        left.push(Left::all(account))?;
    }
    Ok(left)
}

impl<'a> Retelling<'a> {
    // Starts the report with its first line.
    fn begin(
        alloc: Global,
        script: &'a Script,
        accounts: &'a [Account],
    ) -> Result<Self, OutOfMemory>
        ensures script { IfOk result (λ retelling. retelling.telling.script.now ≡ script.now) }
        ensures come { IfOk result (λ retelling.
            HasCome retelling.telling.script.now retelling.telling.course script.now []) }
        ensures left { IfOk result (λ retelling. retelling.left.items ≡ map told_in accounts.now) }
        ensures text { IfOk result (λ retelling. retelling.text.items ≡ codes "report 1\n") }
    {
        Ok(Retelling {
            telling: Telling::begin(alloc, script)?,
            left: all_left(alloc, accounts)?,
            text: first_line(alloc)?,
        })
    }

    // Prints the next event, with its lines.
    fn step(&mut self, event: &Event) -> Result<(), OutOfMemory>
        requires { (before events : List Event) × IsRetelling self.old.telling.script.now before (event.now ∷ events)
            self.old.telling.course self.old.left.items self.old.text.items }
        ensures script { self.new.telling.script.now ≡ self.old.telling.script.now }
        ensures told { (before events : List Event) → IsRetelling self.old.telling.script.now before (event.now ∷ events)
            self.old.telling.course self.old.left.items self.old.text.items
            → OnOk result (IsRetelling self.old.telling.script.now (before ++ event.now ∷ []) events
            self.new.telling.course self.new.left.items self.new.text.items) }
    {
        self.telling.follow(event);
        let left = &mut self.left[owner_of(event)];
        let rows = left.rows_after(event);
        left.tell(&self.telling, rows, &mut self.text)
    }

    // Prints the events of a journal, and this end.
    fn tell(&mut self, journal: &Journal, end: &Ending) -> Result<(), OutOfMemory>
        requires legal { IsLegal self.old.telling.script.now journal.now end.now }
        requires first { IsRetelling self.old.telling.script.now [] journal.now
            self.old.telling.course self.old.left.items self.old.text.items }
        ensures text { OnOk result (self.new.text.items ≡ report_text self.old.telling.script.now journal.now) }
        ensures course { OnOk result (self.new.telling.course ≡ course_after self.old.telling.script.now journal.now) }
    {
        let events = journal.as_slice();
        'events: for event in events {
            self.step(event)?;
        }
        self.telling.push_end_line(&mut self.text, end)
    }
}

/// Returns the report of a legal journal with the end `end`, made from what each caller has reported of its own
/// events: the driver, and the worker of each switch in the order of the script.
///
/// The caller must pass a journal of which all holds that is claimed of a lawful history, and the accounts of all
/// its callers.
///
/// # Errors
/// `OutOfMemory` if an allocation fails.
pub fn retold(
    alloc: Global,
    script: &Script,
    journal: &Journal,
    end: Ending,
    accounts: &[Account],
) -> Result<Report, OutOfMemory>
    requires legal { IsLegal script.now journal.now end }
    requires claims { HoldsAndSettles script.now journal.now }
    requires accounts { AreAccounts script.now journal.now accounts.now }
    ensures report { IfOk result (λ report. IsReport script.now journal.now report.end report.text.items) }
    ensures tick { IfOk result (λ report. report.tick ≡ (world_after script.now journal.now).fabric.tick) }
{
    let mut retelling = Retelling::begin(alloc, script, accounts)?;
    retelling.tell(journal, &end)?;
    Ok(Report {
        end,
        tick: retelling.telling.course().tick(),
        text: retelling.text,
    })
}
