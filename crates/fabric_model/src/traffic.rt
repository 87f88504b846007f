//! The set of routes to judge.

/// Who sends to whom. An end port of an adapter or router sends and receives only if it is cabled to a switch. No end
/// port sends to itself. Each variant contains all routes of the variant before it.
#[derive(Clone, Copy)]
pub enum Traffic {
    /// The end ports of adapters and routers send to one another.
    Hosts,
    /// They also send to switches.
    Lids,
    /// Switches also send, but not to one another.
    Managed,
    /// All end ports and switches send to all others.
    All,
    /// They also send to each LID that nobody owns and for which at least one switch has a port.
    Rows,
}
