//! How a call ended.

ghost use Rattle.std.specs.Prelude.{◌≡◌};
ghost use Rattle.fabric_call.specs.declared.status.Status.TheVariants as ended;
ghost use Rattle.fabric_call.specs.Answer.{fabric_refused, tables_refused};
ghost use Rattle.fabric_call.specs.Line.{text_of};
ghost use Rattle.fabric_call.specs.Status.{IsToldOf, code_of, line_of, refusal_line};

use common_call::end::tell;
use common_lines::stop::Refusal;
use common_values::memory::OutOfMemory;
use fabric_read_lines::reader::TextRefusal;
use fabric_read_tables::cause::TablesCause;
use fabric_read_tables::reader::TablesRefusal;
use fabric_read_topology::cause::FabricCause;
use fabric_words::lane_cause::LaneCause;
use fabric_words::ranks_cause::RanksCause;
use itoa::Buffer;
use outside::sink::Sink;

/// How a call ended.
#[derive(Clone, Copy)]
pub enum Status {
    /// Nothing is wrong: there is no cycle and, but for `between`, all routes of the traffic arrive. If rows
    /// are set by `repair` or `repaired`, this is said of the tables in which they are set.
    Ok,
    /// The words are those of no call.
    Usage,
    /// The first bytes are no topology.
    TopologyRefused {
        /// The first faulty line, from 1.
        line: u32,
        /// The first cause in that line.
        cause: FabricCause,
    },
    /// The topology has more bytes than the limit.
    TopologyTooLong {
        /// The line of the first byte too many, from 1.
        line: u32,
    },
    /// The other bytes are no tables of the fabric.
    TablesRefused {
        /// The first faulty line, from 1.
        line: u64,
        /// The first cause in that line.
        cause: TablesCause,
    },
    /// The bytes of lanes are no text of lanes of the fabric.
    LanesRefused {
        /// The first faulty line, from 1.
        line: u64,
        /// The first cause in that line.
        cause: LaneCause,
    },
    /// The bytes of service levels are no text of levels of the fabric.
    LevelsRefused {
        /// The first faulty line, from 1.
        line: u64,
        /// The first cause in that line.
        cause: LaneCause,
    },
    /// The bytes of ranks are no text of ranks for the fabric.
    RanksRefused {
        /// The first faulty line, from 1.
        line: u32,
        /// The first cause in that line.
        cause: RanksCause,
    },
    /// The ranks have more bytes than the limit.
    RanksTooLong {
        /// The line of the first byte too many, from 1.
        line: u32,
    },
    /// The bytes that are to be new tables are no tables of the fabric.
    NewTablesRefused {
        /// The first faulty line, from 1.
        line: u64,
        /// The first cause in that line.
        cause: TablesCause,
    },
    /// A source failed.
    ReadFault,
    /// A sink failed.
    WriteFault,
    /// There is no cycle and each route that is judged arrives, but some end port sends to a LID with a service level
    /// that nobody told, and this route is not judged.
    Undecided,
    /// There is no cycle, but a route does not arrive.
    RoutesLost,
    /// There is a cycle, whether or not routes are lost.
    Cycle,
    /// Ranks do not fall along some dependency.
    RanksRise,
    /// No memory was found.
    OutOfMemory,
}

impl From<OutOfMemory> for Status {
    ghost from_gives = { λ _ result. result ≡ ended.OutOfMemory };

    fn from(_value: OutOfMemory) -> Self {
        Status::OutOfMemory
    }
}

impl From<Refusal<FabricCause>> for Status {
    ghost from_gives = { λ refusal result. result ≡ fabric_refused refusal };

    fn from(refusal: Refusal<FabricCause>) -> Self {
        match refusal {
            Refusal::Fault { line, cause } => Status::TopologyRefused { line, cause },
            Refusal::OutOfMemory => Status::OutOfMemory,
        }
    }
}

impl From<TablesRefusal> for Status {
    ghost from_gives = { λ refusal result. result ≡ tables_refused refusal };

    fn from(refusal: TablesRefusal) -> Self {
        match refusal {
            TextRefusal::Fault { line, cause } => Status::TablesRefused { line, cause },
            TextRefusal::ReadFault => Status::ReadFault,
            TextRefusal::OutOfMemory => Status::OutOfMemory,
        }
    }
}

impl Status {
    /// The number with which the program ends.
    pub fn code(self) -> u8
        ensures { result ≡ code_of self }
    {
        match self {
            Status::Ok => 0,
            Status::Usage => 2,
            Status::TopologyRefused { line: _, cause: _ } => 3,
            Status::TopologyTooLong { line: _ } => 3,
            Status::TablesRefused { line: _, cause: _ } => 3,
            Status::LanesRefused { line: _, cause: _ } => 3,
            Status::LevelsRefused { line: _, cause: _ } => 3,
            Status::RanksRefused { line: _, cause: _ } => 3,
            Status::RanksTooLong { line: _ } => 3,
            Status::NewTablesRefused { line: _, cause: _ } => 3,
            Status::ReadFault => 4,
            Status::WriteFault => 5,
            Status::Undecided => 6,
            Status::RoutesLost => 7,
            Status::Cycle => 8,
            Status::RanksRise => 8,
            Status::OutOfMemory => 9,
        }
    }
}

// The line of a status.
#[derive(Clone, Copy)]
enum Line {
    // These words.
    Plain(&'static str),
    // What is said of a fault of a file.
    Fault {
        // What the file is called.
        file: &'static str,
        // The faulty line, from 1.
        line: u64,
        // The cause.
        cause: &'static str,
    },
}

// The lines of the calls, for words that are none.
const USAGE: &str = "usage: fabric judge TOPOLOGY TABLES [TRAFFIC]
       fabric ranks TOPOLOGY TABLES [TRAFFIC]
       fabric verify TOPOLOGY TABLES RANKS [TRAFFIC]
       fabric dot TOPOLOGY TABLES [TRAFFIC]
       fabric dot TOPOLOGY TABLES SL2VL LEVELS|any|LEVEL [REPLIES] [SILENT] [TRAFFIC]
       fabric route TOPOLOGY [TRAFFIC]
       fabric repair TOPOLOGY TABLES [TRAFFIC]
       fabric repaired TOPOLOGY TABLES [TRAFFIC]
       fabric lanes TOPOLOGY TABLES SL2VL LEVELS|any|LEVEL [REPLIES] [SILENT] [TRAFFIC]
       fabric between TOPOLOGY OLD NEW
TRAFFIC: hosts|lids|managed|all|rows as last word; or -t TRAFFIC, --traffic TRAFFIC after the command
REPLIES: --replies yes|no after the command; SILENT: --silent LEVEL after the command
";

// The fault of a file.
fn fault(file: &'static str, line: u64, cause: &'static str) -> Line
    ensures { text_of result ≡ refusal_line file.now line cause.now }
{
    Line::Fault { file, line, cause }
}

// The line of a status.
fn line_of(status: Status) -> Line
    ensures { text_of result ≡ line_of status }
{
    match status {
        Status::Ok => Line::Plain(""),
        Status::Usage => Line::Plain(USAGE),
        Status::TopologyRefused { line, cause } => {
            fault("topology", u64::from(line), cause.text())
        }
        Status::TopologyTooLong { line } => fault("topology", u64::from(line), "too many"),
        Status::TablesRefused { line, cause } => fault("tables", line, cause.text()),
        Status::LanesRefused { line, cause } => fault("lanes", line, cause.text()),
        Status::LevelsRefused { line, cause } => fault("levels", line, cause.text()),
        Status::RanksRefused { line, cause } => fault("ranks", u64::from(line), cause.text()),
        Status::RanksTooLong { line } => fault("ranks", u64::from(line), "too many"),
        Status::NewTablesRefused { line, cause } => fault("new tables", line, cause.text()),
        Status::ReadFault => Line::Plain("fabric: read fault\n"),
        Status::WriteFault => Line::Plain("fabric: write fault\n"),
        Status::Undecided => Line::Plain("fabric: not decided\n"),
        Status::RoutesLost => Line::Plain("fabric: routes lost\n"),
        Status::Cycle => Line::Plain("fabric: cycle\n"),
        Status::RanksRise => Line::Plain("fabric: ranks rise\n"),
        Status::OutOfMemory => Line::Plain("fabric: out of memory\n"),
    }
}

/// Writes the line of a status to err, and answers the status' number, or that of a write fault if err did
/// not take the whole line.
pub fn finish<E: Sink>(err: &mut E, status: Status) -> u8
    ensures { IsToldOf (E.seen err.old) (E.seen err.new) status result }
{
    match line_of(status) {
        Line::Plain(text) => tell(err, status.code(), &[text.as_bytes()]),
        Line::Fault { file, line, cause } => {
            let mut digits = Buffer::new();
            let line = digits.format(line).as_bytes();
            tell(
                err,
                status.code(),
                &[
                    b"fabric: ",
                    file.as_bytes(),
                    b" line ",
                    line,
                    b": ",
                    cause.as_bytes(),
                    b"\n",
                ],
            )
        }
    }
}
