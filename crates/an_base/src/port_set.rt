//! Iterates over a set of ports in a word by removing the lowest until none is left.

ghost use Rattle.std.specs.Prelude.{◌≡◌, ◌≢◌, ◌<◌, ◌≤◌, ℕ};
ghost use Rattle.std.specs.Int.{bit_at};
ghost use Rattle.an_base.specs.Rows.{IsWithout};

/// Returns the lowest port of `set`, which has port `p` if and only if its bit `p` is set.
///
/// The caller must pass a set that is not empty.
pub fn lowest(set: u16) -> u8
    requires { set ≢ 0 }
    ensures has { bit_at set result ≡ 1 }
    ensures lowest { (port : ℕ) → bit_at set port ≡ 1 → result ≤ port }
    ensures below { result < 16 }
{
    set.trailing_zeros() as u8
}

/// Returns `set` without `port`. The caller must pass a port of the set.
pub fn without(set: u16, port: u8) -> u16
    requires below { port < 16 }
    requires has { bit_at set port ≡ 1 }
    ensures ports { IsWithout set port result }
    ensures less { result < set }
{
    set & !(1u16 << port)
}
