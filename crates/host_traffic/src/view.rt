//! The part of a network that a hop reads.

ghost use Rattle.std.specs.Prelude.{◌≡◌, ℕ, Option, option_copied};
ghost use Rattle.table_build.specs.Tables.{TableOf};

use an_base::place::Place;
use an_base::port::Port;
use table_build::table::Table;

/// The part of a network that a hop reads. Switches are known by their index in the script, from 0.
///
/// Each function returns a value for all arguments.
pub trait HopView {
    /// The table in use at each switch.
    ghost table_at: { Self → ℕ → Option TableOf };

    /// The host that each port of a switch reaches, by its index and identifier.
    ghost host_at: { Self → ℕ → ℕ → Option (ℕ × ℕ) };

    /// The switch and port at the far end of the link of each port, if it is up.
    ghost next_at: { Self → ℕ → ℕ → Option (ℕ × ℕ) };

    /// Returns the table in use at switch `s`.
    fn table(&self, s: Place) -> Option<&Table>
        ensures { option_copied result ≡ table_at self.now s };

    /// Returns the index and the identifier of the host at a port; `None` if the port does not show a host or
    /// its link is down.
    fn host(&self, s: Place, port: Port) -> Option<(u16, u64)>
        ensures { result ≡ host_at self.now s port };

    /// Returns the far switch and port; `None` if the port has no link of two switch ports or its link is down.
    fn next(&self, s: Place, port: Port) -> Option<(Place, Port)>
        ensures { result ≡ next_at self.now s port };
}
