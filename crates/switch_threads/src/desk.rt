//! What a worker works with.

ghost use Rattle.std.specs.Prelude.{◌≡◌, ◌++◌, ◌<◌, List, [], length, option_to_list, false, IfOk, OnOk};
ghost use Rattle.std.specs.List.{flat_map};
ghost use Rattle.an_base.specs.declared.event.Event.{Event};
ghost use Rattle.net_script.specs.Scripts.{ScriptOf};
ghost use Rattle.switch_core.specs.Kept.{StandsFor};
ghost use Rattle.switch_core.specs.Switch.{SwitchOf, note_of};
ghost use Rattle.net_state.specs.declared.work.Work.TheVariants.{Restart};
ghost use Rattle.fabric_turn.specs.Names.{turnstile_id};
ghost use Rattle.net_world.specs.Accounts.{AccountOf, placed};
ghost use Rattle.fabric_book.specs.Accounts.{IsAccount, with_lines, with_load};
ghost use Rattle.switch_threads.specs.declared.desk.Desk.{Desk as DeskOf};
ghost use Rattle.switch_threads.specs.declared.desk.Next.TheVariants as next;
ghost use Rattle.switch_threads.specs.declared.desk.Papers.{Papers as PapersOf};
ghost use Rattle.switch_threads.specs.declared.desk.Pending.TheVariants as pending;
ghost use Rattle.switch_threads.specs.Runs.{HasCalled};
ghost use Rattle.switch_threads.specs.Workers.{IsAsking, IsInStep, IsNext, IsToDo, IsToHandle, IsUpTo, done_with};

use an_base::life::Life;
use an_base::place::Place;
use an_base::port::Note;
use an_base::row::Row;
use common_values::memory::OutOfMemory;
use fabric_book::account::Account;
use fabric_book::book::Book;
use fabric_book::handling::handle;
use fabric_book::lines::Lines;
use fabric_book::power::PowerOn;
use fabric_turn::{Seat, Turnstile};
use frame_region::buffer::FrameBuf;
use net_script::script::Script;
use net_state::hand::Hand;
use net_state::line::PlacedLine;
use net_state::station::write_note;
use net_state::work::{Why, Work};
use net_world::ask::{Ask, Done, Letter, Parcel, Reply, Sheet};
use std::alloc::Global;
use std::mem::{replace, swap};
use std::sync::Wait;
use switch_core::out::{FrameOut, Frames, Out};
use switch_core::switch::Switch;

/// What a worker must ask for next.
#[derive(Drop)]
pub(crate) enum Pending {
    /// Work.
    Work,
    /// Putting what came of what the worker had in hand, which is in its papers.
    Put,
    /// The load of a table.
    Load(Box<Sheet>),
}

/// What a worker does next.
#[derive(Clone, Copy)]
pub(crate) enum Next {
    /// Asks for what is pending.
    Ask,
    /// Asks for it once the worker is woken.
    Later,
    /// Does the work that it took, which is in its papers.
    Do,
}

impl Next {
    /// Returns what the worker does at a turn, given whether it was woken before it.
    pub fn once_roused(self, is_roused: bool) -> Next
        ensures { (script : ScriptOf) (history : List Event) (desk : DeskOf) (papers : PapersOf)
            → IsNext script history desk papers self → IsNext script history desk papers result }
    {
        match self {
            Next::Later if is_roused => Next::Ask,
            next => next,
        }
    }

    /// Reports whether the worker has something to do at a turn, given whether it was woken before it.
    pub fn is_due(&self, is_roused: bool) -> bool {
        is_roused || !matches!(self, Next::Later)
    }

    /// Reports whether the worker asks for something.
    pub fn is_ask(&self) -> bool {
        matches!(self, Next::Ask)
    }
}

/// What a worker reports.
#[derive(Drop)]
pub(crate) struct Tale {
    /// The lines that report what its switch handled last.
    pub lines: Lines,
    /// The rows of the table that is to be loaded.
    pub rows: Vec<Row>,
    /// The lines of all its events.
    pub account: Account,
}

impl Tale {
    // Creates an empty report.
    fn new(alloc: Global) -> Tale
        ensures { IsAccount (record { lines = []; rows = [] }) result.account }
    {
        Tale {
            lines: Lines::new(alloc),
            rows: Vec::new(alloc),
            account: Account::new(alloc),
        }
    }

    // Adds the lines of what a switch handled, by its event, and of its lost frames.
    fn tell_handled(&mut self, parcel: &Parcel)
        ensures { (told : AccountOf) → IsAccount told self.old.account → IsAccount (with_lines
            (placed parcel.now.event (self.old.lines ++ flat_map option_to_list parcel.now.puts.items)) told)
            self.new.account }
    {
        match self.lines.push_all(&parcel.puts) {
            Ok(()) => self.account.tell_lines(parcel.event, &self.lines),
            Err(OutOfMemory) => self.account.failed = true,
        }
    }

    // Adds the line of the load of a table, with the rows that were copied from it.
    fn tell_load(&mut self, alloc: Global, line: PlacedLine)
        ensures { (told : AccountOf) → IsAccount told self.old.account → IsAccount
            (with_load line self.old.rows.items told) self.new.account }
    {
        let rows = replace(&mut self.rows, Vec::new(alloc));
        self.account.tell_load(line, rows);
    }
}

/// What a worker passes on when it asks, and gets back, and space for a note.
#[derive(Drop)]
pub(crate) struct Papers {
    /// The letter, on which the book writes the next work of the worker.
    pub letter: Box<Letter>,
    /// What the worker puts, until it has something else to put. The note in it is what the switch shows.
    pub parcel: Box<Parcel>,
    /// Space for another note.
    pub note: Box<Note>,
}

impl Papers {
    /// Returns the frames that were put last, until others replace them.
    pub fn sent(&self) -> &[FrameOut] {
        self.parcel.done.frames.as_slice()
    }

    // Creates papers with what the switch shows.
    fn new(alloc: Global, switch: &Switch) -> Result<Papers, OutOfMemory>
        ensures { (x : SwitchOf) → StandsFor switch.now x
            → IfOk result (λ papers. papers.parcel.value.done.note ≡ note_of x) }
    {
        let letter = Letter {
            buffer: FrameBuf::new(alloc)?,
            work: Work::Nothing { why: Why::Idle },
            told: None,
        };
        let note = Box::new(alloc, switch.note())?;
        let done = Done {
            frames: Frames::new(alloc),
            noframe: false,
            note: note.copy(),
            spent: false,
        };
        let parcel = Parcel {
            done,
            puts: Vec::new(alloc),
            event: 0,
        };
        Ok(Papers {
            letter: Box::new(alloc, letter)?,
            parcel: Box::new(alloc, parcel)?,
            note,
        })
    }

    // Returns what to do after work was taken. If there was no work, it is asked for once the worker is woken.
    fn after_take(&self) -> Next
        ensures { (script : ScriptOf) (history : List Event) (desk : DeskOf)
            → IsToDo script history desk self.now self.now.letter.value.work
            → IsNext script history desk self.now result }
    {
        match self.letter.work {
            Work::Nothing { why: _ } => Next::Later,
            _ => Next::Do,
        }
    }
}

/// What a worker works with, except for its papers.
#[derive(Drop)]
pub(crate) struct Desk {
    /// The allocator of what the worker makes.
    pub alloc: Global,
    /// The index of its switch.
    pub s: Place,
    /// What the switch is started with in each of its lives.
    pub power_on: PowerOn,
    /// The switch, which stays in place when the desk is moved.
    pub switch: Box<Switch>,
    /// Where the frames that the switch sends go.
    pub out: Out,
    /// What is to be asked for next.
    pub pending: Pending,
    /// What the worker reports.
    pub tale: Tale,
}

// Writes what came of what a switch had in hand into `parcel`, next to the note of what it then shows, with space
// for the fate of each frame. The memory of the previous frames is reused.
fn lay(switch: &Switch, out: &mut Out, parcel: &mut Parcel) -> Result<(), OutOfMemory>
    ensures laid { (x : SwitchOf) → StandsFor switch.now x → parcel.old.done.note ≡ note_of x
        → OnOk result (parcel.new.done ≡ done_with out.old x) }
    ensures room { OnOk result (length parcel.new.puts.items ≡ length parcel.new.done.frames) }
{
    parcel.puts.resize(out.frames.as_slice().len(), None)?;
    swap(&mut out.frames, &mut parcel.done.frames);
    parcel.done.noframe = out.noframe;
    parcel.done.spent = switch.is_spent();
    Ok(())
}

// Returns a copy of the rows: the table itself goes to the book, which uses it when the report is made.
fn copied(alloc: Global, rows: &[Row]) -> Result<Vec<Row>, OutOfMemory>
    ensures { IfOk result (λ copy. copy.items ≡ rows.now) }
{
    let mut copy = Vec::with_capacity(alloc, rows.len())?;
    'rows: for row in rows {
        copy.push(Row {
            at: row.at,
            entry: row.entry,
            to: row.to,
            exits: row.exits.copy(),
        })?;
    }
    Ok(copy)
}

impl Desk {
    /// Creates the desk and the papers of the switch `s`, which must be one of the script's, in its first life.
    ///
    /// # Errors
    /// `OutOfMemory` if an allocation fails.
    pub fn new(alloc: Global, script: &Script, s: Place) -> Result<(Desk, Papers), OutOfMemory>
        requires { s < length script.now.wires.switches }
        ensures place { IfOk result (λ r. r.0.s ≡ s) }
        ensures up { IfOk result (λ r. IsUpTo script.now [] r.0 r.1 r.0.pending) }
        ensures told { IfOk result (λ r. IsAccount (record { lines = []; rows = [] }) r.0.tale.account) }
    {
        let power_on = PowerOn::of(script, s);
        let life = script.wiring().life(s);
        let started = power_on.start(alloc, life)?;
        let papers = Papers::new(alloc, &started)?;
        let switch = Box::new(alloc, started)?;
        let desk = Desk {
            alloc,
            s,
            power_on,
            switch,
            out: Out::new(alloc),
            pending: Pending::Work,
            tale: Tale::new(alloc),
        };
        Ok((desk, papers))
    }

    /// Reports whether the worker is to put what came of what it had in hand.
    pub fn is_putting(&self) -> bool {
        matches!(self.pending, Pending::Put)
    }

    // Makes the load of a table pending, if one is due and nothing else is.
    fn due(&mut self, papers: &mut Papers) -> Result<(), OutOfMemory>
        ensures place { self.new.s ≡ self.old.s }
        ensures told { self.new.tale.account ≡ self.old.tale.account }
        ensures up { (script : ScriptOf) (history : List Event)
            → IsUpTo script history self.old papers.old self.old.pending
            → OnOk result (IsUpTo script history self.new papers.new self.new.pending) }
    {
        match self.pending {
            Pending::Work if self.switch.load_due() => {
                let table = self.switch.load()?;
                self.tale.rows = copied(self.alloc, table.table.as_slice())?;
                self.switch.show(&mut papers.parcel.done.note);
                let note = papers.parcel.done.note.copy();
                self.pending = Pending::Load(Box::new(self.alloc, Sheet { table, note })?);
                Ok(())
            }
            _ => Ok(()),
        }
    }

    /// Does what is due before there is something to ask for: the work that was taken, and a table that is due.
    /// Returns what to do then.
    ///
    /// # Errors
    /// `OutOfMemory` if an allocation fails. The worker can then no longer continue.
    pub fn ready(&mut self, papers: &mut Papers, next: Next) -> Result<Next, OutOfMemory>
        requires { (script : ScriptOf) × (history : List Event) × IsNext script history self.old papers.old next }
        ensures place { self.new.s ≡ self.old.s }
        ensures told { self.new.tale.account ≡ self.old.tale.account }
        ensures up { (script : ScriptOf) (history : List Event) → IsNext script history self.old papers.old next
            → IfOk result (IsNext script history self.new papers.new) }
    {
        match next {
            Next::Ask => {
                self.due(papers)?;
                Ok(Next::Ask)
            }
            Next::Later => Ok(Next::Later),
            Next::Do => {
                let work = papers.letter.work;
                self.work(papers, &work)?;
                self.due(papers)?;
                Ok(Next::Ask)
            }
        }
    }

    /// Makes the pending ask, by one call of the turnstile. Returns the papers, and what to do next.
    pub fn ask<R: Wait>(
        &mut self,
        rt: &R,
        turnstile: &Turnstile<Book>,
        seat: &mut Seat<Book>,
        papers: Papers,
    ) -> (Papers, Next)
        requires turnstile { seat.old.0 ≡ turnstile_id turnstile.now }
        requires step { IsInStep seat.old.1 self.old papers next.Ask }
        ensures called { HasCalled seat.old seat.new }
        ensures step { IsInStep seat.new.1 self.new result.0 result.1 }
    {
        match replace(&mut self.pending, Pending::Work) {
            Pending::Work => self.take(rt, turnstile, seat, papers),
            Pending::Put => (self.put(rt, turnstile, seat, papers), Next::Ask),
            Pending::Load(sheet) => self.load(rt, turnstile, seat, papers, sheet),
        }
    }

    // Asks for work.
    fn take<R: Wait>(
        &mut self,
        rt: &R,
        turnstile: &Turnstile<Book>,
        seat: &mut Seat<Book>,
        papers: Papers,
    ) -> (Papers, Next)
        requires turnstile { seat.old.0 ≡ turnstile_id turnstile.now }
        requires pending { self.old.pending ≡ pending.Work }
        requires step { IsAsking seat.old.1 self.old papers pending.Work }
        ensures called { HasCalled seat.old seat.new }
        ensures step { IsInStep seat.new.1 self.new result.0 result.1 }
    {
        let ask = Ask::Take {
            s: self.s,
            letter: papers.letter,
        };
        let Reply::Take { letter } = turnstile.call(rt, seat, ask) else {
            unreachable!()
        };
        self.tale.account.tell(letter.told);
        let papers = Papers { letter, ..papers };
        let next = papers.after_take();
        (papers, next)
    }

    // Does the work that the worker took.
    fn work(&mut self, papers: &mut Papers, job: &Work) -> Result<(), OutOfMemory>
        requires { (script : ScriptOf) × (history : List Event) × IsToDo script history self.old papers.old job.now }
        ensures place { self.new.s ≡ self.old.s }
        ensures told { self.new.tale.account ≡ self.old.tale.account }
        ensures done { (script : ScriptOf) (history : List Event) → IsToDo script history self.old papers.old job.now
            → OnOk result (IsUpTo script history self.new papers.new self.new.pending) }
    {
        match *job {
            Work::Restart { life } => self.restart(papers, life),
            Work::Clock { now, samples } => self.handle(papers, Hand::Clock { now, samples }),
            Work::Frame { port } => self.handle(papers, Hand::Frame { port: port.as_u8() }),
            Work::Nothing { why: _ } => Ok(()),
        }
    }

    // Begins a life of the switch. It is apart from `work`, which would otherwise clear the space for a new switch
    // at each call, though a restart is rare.
    #[cold]
    #[inline(never)]
    fn restart(&mut self, papers: &mut Papers, life: Life) -> Result<(), OutOfMemory>
        requires { (script : ScriptOf) × (history : List Event)
            × IsToDo script history self.old papers.old (Restart life) }
        ensures place { self.new.s ≡ self.old.s }
        ensures told { self.new.tale.account ≡ self.old.tale.account }
        ensures done { (script : ScriptOf) (history : List Event)
            → IsToDo script history self.old papers.old (Restart life)
            → OnOk result (IsUpTo script history self.new papers.new self.new.pending) }
    {
        *self.switch = self.power_on.start(self.alloc, life)?;
        self.switch.show(&mut papers.parcel.done.note);
        self.pending = Pending::Work;
        Ok(())
    }

    // Makes the switch handle what it has in hand; what came of it is then to be put.
    fn handle(&mut self, papers: &mut Papers, hand: Hand) -> Result<(), OutOfMemory>
        requires { (script : ScriptOf) × (history : List Event) × IsToHandle script history self.old papers.old hand }
        ensures place { self.new.s ≡ self.old.s }
        ensures told { self.new.tale.account ≡ self.old.tale.account }
        ensures done { (script : ScriptOf) (history : List Event) → IsToHandle script history self.old papers.old hand
            → OnOk result (IsUpTo script history self.new papers.new self.new.pending) }
    {
        self.tale.lines.clear();
        handle(
            &mut self.switch,
            self.s,
            hand,
            papers.letter.buffer.bytes(),
            &mut self.out,
            &mut papers.parcel.done.note,
            &mut papers.note,
            &mut self.tale.lines,
        )?;
        lay(&self.switch, &mut self.out, &mut papers.parcel)?;
        self.pending = Pending::Put;
        Ok(())
    }

    // Puts what came of what the worker had in hand.
    fn put<R: Wait>(
        &mut self,
        rt: &R,
        turnstile: &Turnstile<Book>,
        seat: &mut Seat<Book>,
        papers: Papers,
    ) -> Papers
        requires turnstile { seat.old.0 ≡ turnstile_id turnstile.now }
        requires step { IsAsking seat.old.1 self.old papers pending.Put }
        ensures called { HasCalled seat.old seat.new }
        ensures pending { self.new.pending ≡ self.old.pending }
        ensures step { IsAsking seat.new.1 self.new result pending.Work }
    {
        let ask = Ask::Put {
            s: self.s,
            parcel: papers.parcel,
        };
        let Reply::Put { parcel } = turnstile.call(rt, seat, ask) else {
            unreachable!()
        };
        self.tale.tell_handled(&parcel);
        Papers { parcel, ..papers }
    }

    // Asks to use a table.
    fn load<R: Wait>(
        &mut self,
        rt: &R,
        turnstile: &Turnstile<Book>,
        seat: &mut Seat<Book>,
        papers: Papers,
        sheet: Box<Sheet>,
    ) -> (Papers, Next)
        requires turnstile { seat.old.0 ≡ turnstile_id turnstile.now }
        requires pending { self.old.pending ≡ pending.Work }
        requires step { IsAsking seat.old.1 self.old papers (pending.Load sheet) }
        ensures called { HasCalled seat.old seat.new }
        ensures step { IsInStep seat.new.1 self.new result.0 result.1 }
    {
        let mut sheet = sheet;
        write_note(&mut sheet.note, &papers.parcel.done.note);
        match turnstile.call(rt, seat, Ask::Load { s: self.s, sheet }) {
            Reply::Loaded { told } => {
                self.tale.tell_load(self.alloc, told);
                (papers, Next::Ask)
            }
            Reply::NotNow { sheet } => {
                self.pending = Pending::Load(sheet);
                (papers, Next::Later)
            }
            _ => unreachable!(),
        }
    }

    /// Returns the lines of the worker's events.
    ///
    /// # Errors
    /// `OutOfMemory` if an allocation of the report failed.
    pub fn into_account(self) -> Result<Account, OutOfMemory>
        ensures { IfOk result (λ account. (account ≡ self.tale.account) × (account.failed ≡ false)) }
    {
        let Desk { tale, .. } = self;
        let Tale { account, .. } = tale;
        if account.failed {
            return Err(OutOfMemory);
        }
        Ok(account)
    }
}
