//! The ports of one switch by number, the links at the good ones, and the replies to probes.

ghost use Rattle.std.specs.Prelude.{◌≡◌, ◌-◌, ◌<◌, ◌≤◌, ◌^◌, ℕ, [], ◌∷◌, ◌++◌, Some, slice_get, length, All};
ghost use Rattle.an_base.specs.declared.limits.TheConstants.{LAST_PORT};
ghost use Rattle.port_monitor.specs.Ports.{link_to, links_from, peer_of, probe_of, reply_to, state_of};
ghost use Rattle.port_monitor.specs.Histories.{History, IsAfter, Replied, Sampled, links_after, port_after, with_happening};

use crate::port::Port;
use an_base::frame::Frame;
use an_base::life::{End, Life};
use an_base::links::{Links, PortLink};
use an_base::port::{PortState, Sample};

/// The twelve ports of a switch, numbered 1 to 12.
#[derive(Drop)]
pub struct Monitor {
    life: Life,
    ports: [Port; 12],
}

// A port of this life, at the start.
fn unsampled(life: Life, port: u8) -> Port
    requires least { 1 ≤ port }
    requires most { port ≤ LAST_PORT }
    ensures { result ≡ port_after (record { life = life; port = port }) [] }
{
    Port::new(End::new(life, port))
}

impl Monitor {
    /// Creates the ports of a switch in this life; all are dead.
    pub fn new(life: Life) -> Self
        ensures life { result.life ≡ life }
        ensures after { IsAfter result (λ port. []) }
    {
        Monitor {
            life,
            ports: [
                unsampled(life, 1),
                unsampled(life, 2),
                unsampled(life, 3),
                unsampled(life, 4),
                unsampled(life, 5),
                unsampled(life, 6),
                unsampled(life, 7),
                unsampled(life, 8),
                unsampled(life, 9),
                unsampled(life, 10),
                unsampled(life, 11),
                unsampled(life, 12),
            ],
        }
    }

    /// Processes a clock event with `sample` at `port`, 1 to 12, and returns the number of the probe that
    /// goes out, if one does.
    ///
    /// Fewer than 2^63 probes must have gone out there before.
    pub fn sample(&mut self, port: u8, sample: Sample) -> Option<u64>
        requires least { 1 ≤ port }
        requires most { port ≤ LAST_PORT }
        requires few { (p : Port) → slice_get self.old.ports (port - 1) ≡ Some p → p.far.nonce < 2 ^ 63 }
        ensures life { self.new.life ≡ self.old.life }
        ensures after { (histories : ℕ → History) → IsAfter self.old histories → IsAfter self.new (with_happening port (Sampled sample) histories) }
        ensures probe { (histories : ℕ → History) → IsAfter self.old histories → result ≡ probe_of (port_after (record { life = self.old.life; port = port }) (Sampled sample ∷ histories port)) }
    {
        self.ports[usize::from(port - 1)].sample(sample)
    }

    /// Returns the reply to probe `nonce` by end `from` at `port`, 1 to 12.
    ///
    /// Returns `None` if and only if the port is dead, checking or a host's. Changes nothing.
    pub fn on_probe(&self, port: u8, from: End, nonce: u64) -> Option<Frame>
        requires least { 1 ≤ port }
        requires most { port ≤ LAST_PORT }
        ensures { (histories : ℕ → History) → IsAfter self.now histories → result ≡ reply_to (record { life = self.now.life; port = port }) from nonce (port_after (record { life = self.now.life; port = port }) (histories port)) }
    {
        if self.ports[usize::from(port - 1)].speaks() {
            let me = End::new(self.life, port);
            Some(Frame::Reply {
                from: me,
                to: from,
                nonce,
            })
        } else {
            None
        }
    }

    /// Records a reply by end `from` to probe `nonce` of `port`, 1 to 12.
    ///
    /// It counts if it is the first reply to the last probe.
    pub fn on_reply(&mut self, port: u8, from: End, nonce: u64)
        requires least { 1 ≤ port }
        requires most { port ≤ LAST_PORT }
        ensures life { self.new.life ≡ self.old.life }
        ensures after { (histories : ℕ → History) → IsAfter self.old histories → IsAfter self.new (with_happening port (Replied from nonce) histories) }
    {
        self.ports[usize::from(port - 1)].on_reply(from, nonce);
    }

    /// Returns the number of probes sent out at `port`, 1 to 12.
    pub fn probes(&self, port: u8) -> u64
        requires least { 1 ≤ port }
        requires most { port ≤ LAST_PORT }
        ensures { (p : Port) → slice_get self.now.ports (port - 1) ≡ Some p → result ≡ p.far.nonce }
    {
        self.ports[usize::from(port - 1)].far.nonce()
    }

    /// Returns the state of `port`, 1 to 12.
    pub fn state(&self, port: u8) -> PortState
        requires least { 1 ≤ port }
        requires most { port ≤ LAST_PORT }
        ensures { (histories : ℕ → History) → IsAfter self.now histories → result ≡ state_of (port_after (record { life = self.now.life; port = port }) (histories port)) }
    {
        self.ports[usize::from(port - 1)].state()
    }

    /// Returns the far end of `port`, 1 to 12.
    ///
    /// Returns `None` if and only if the state is neither that of a loop nor that of a good link.
    pub fn peer(&self, port: u8) -> Option<End>
        requires least { 1 ≤ port }
        requires most { port ≤ LAST_PORT }
        ensures { (histories : ℕ → History) → IsAfter self.now histories → result ≡ peer_of (port_after (record { life = self.now.life; port = port }) (histories port)) }
    {
        self.ports[usize::from(port - 1)].peer()
    }

    /// Returns the good links, in ascending order of port.
    pub fn good_links(&self) -> Links
        ensures { (histories : ℕ → History) → IsAfter self.now histories → result ≡ links_after self.now.life histories }
    {
        links_of(&self.ports)
    }
}

// The links at the good ports; the first of `ports` is port 1.
fn links_of(ports: &[Port; 12]) -> Links
    ensures links { result ≡ links_from 1 ports.now }
    ensures twelve { length ports.now ≡ 12 }
{
    let mut links = Links::new();
    'ports: for i in 0..ports.len() {
        push_link(&mut links, i as u8 + 1, ports[i].good_peer());
    }
    links
}

// Adds the link at a port, if it has a peer.
fn push_link(links: &mut Links, port: u8, peer: Option<End>)
    requires least { 1 ≤ port }
    requires most { port ≤ LAST_PORT }
    requires room { length links.old < port }
    requires rising { All (λ l. l.port < port) links.old }
    ensures { links.new ≡ links.old ++ link_to port peer }
{
    if let Some(peer) = peer {
        links.push(PortLink::new(port, peer));
    }
}
