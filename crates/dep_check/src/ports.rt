//! Tests and unions of sets of ports, in addition to `an_base::port_set`. Port 0, the switch itself, can be in a set.

ghost use Rattle.std.specs.Prelude.{◌≡◌, ◌<◌, ◌⊎◌, ◌↔◌, ℕ};
ghost use Rattle.std.specs.Int.{bit_at};
ghost use Rattle.dep_check.specs.Ports.{HasOnlyPorts};
ghost use Rattle.dep_check.specs.Tables.{has_port};

/// Returns the union of `set` and `others`. A set has port `p` if and only if its bit `p` is set.
pub fn with(set: u16, others: u16) -> u16
    ensures { (port : ℕ)
        → ((bit_at result port ≡ 1) ↔ ((bit_at set port ≡ 1) ⊎ (bit_at others port ≡ 1))) }
{
    set | others
}

/// Reports whether `set` has `port`, 0 to 12.
#[tactic(auto, unfolding(crate::specs::Tables::has_port))]
pub fn has(set: u16, port: u8) -> bool
    requires { port < 13 }
    ensures { result ≡ has_port set port }
{
    set >> port & 1 == 1
}

/// Returns the ports, 0 to 12, of `set`, without its other bits.
pub fn only_ports(set: u16) -> u16
    ensures ports { HasOnlyPorts result }
    ensures same { (port : ℕ) → port < 13 → has_port result port ≡ has_port set port }
{
    // The bits 0 to 12.
    set & 8191
}
