// The hub's ports, by value: the first `count` of an array of seven, numbered from 1.
#![tactic(auto)]

ghost use Rattle.std.specs.Prelude.{◌≡◌, ◌&&◌, ◌≤◌, leb};
ghost use Rattle.bools.specs.Bit.{bit};
ghost use Rattle.port.specs.Status.{has_change};
ghost use Rattle.ports.specs.Ports.{new_ports, port_at, with_port};
ghost use Rattle.ports.specs.Sweep.{swept_by, swept};
ghost use Rattle.ports.specs.Bitmap.{bitmap_of};
ghost use Rattle.ports.specs.Claims.{PortsClaims};

use port::{Port, PortCount, PortNumber};

// What is done to every port.
#[derive(Clone, Copy, PartialEq, Eq)]
pub enum Sweep {
    Tick,
    Configure,
    Unconfigure,
}

// The ports of a new hub.
pub fn new_ports() -> [Port; 7]
    ensures { result ≡ new_ports }
{
    [Port::new(); 7]
}

// Port n; a number outside 1 to 7 reads as the new port.
#[tactic(auto, unfolding(crate::specs::Ports::port_at))]
pub fn port_at(ports: [Port; 7], n: PortNumber) -> Port
    ensures { result ≡ port_at ports n }
{
    if (1..=7).contains(&n.0) {
        ports[n.0 as usize - 1]
    } else {
        Port::new()
    }
}

// With port n anew; a number outside 1 to 7 changes nothing.
#[tactic(auto, unfolding(crate::specs::Ports::with_port))]
pub fn with_port(ports: [Port; 7], n: PortNumber, port: Port) -> [Port; 7]
    ensures { result ≡ with_port ports n port }
{
    let mut next = ports;
    if (1..=7).contains(&n.0) {
        next[n.0 as usize - 1] = port;
    }
    next
}

// A sweep over the first `count` ports.
#[tactic(auto, unfolding(crate::specs::Sweep::front, crate::specs::Sweep::swept))]
pub fn sweep_first(ports: [Port; 7], count: PortCount, what: Sweep) -> [Port; 7]
    ensures { result ≡ swept what count.0 ports }
{
    let mut next = ports;
    for i in 0..count.0.min(7) as usize {
        next[i] = step(next[i], what);
    }
    next
}

// A sweep's step at one port.
fn step(port: Port, what: Sweep) -> Port
    ensures { result ≡ swept_by what port }
{
    match what {
        Sweep::Tick => port.tick(),
        Sweep::Configure => port.configure(),
        Sweep::Unconfigure => port.unconfigure(),
    }
}

// The status change bitmap over the first `count` ports: bit p for port p, bit 0 zero.
#[tactic(auto, unfolding(crate::specs::Bitmap::bitmap_of, crate::specs::Ports::port_at))]
pub fn bitmap(ports: [Port; 7], count: PortCount) -> u8
    ensures { result ≡ bitmap_of count.0 ports }
{
    2 * flag(ports[0], PortNumber(1), count)
        + 4 * flag(ports[1], PortNumber(2), count)
        + 8 * flag(ports[2], PortNumber(3), count)
        + 16 * flag(ports[3], PortNumber(4), count)
        + 32 * flag(ports[4], PortNumber(5), count)
        + 64 * flag(ports[5], PortNumber(6), count)
        + 128 * flag(ports[6], PortNumber(7), count)
}

// 1 where this port, port n, is one of the first `count` and has a change bit set, else 0.
fn flag(port: Port, n: PortNumber, count: PortCount) -> u8
    ensures { (result ≡ bit (leb n.0 count.0 && has_change port.changes)) × (result ≤ 1) }
{
    bools::bit_of((n.0 <= count.0 as u32) & port.changed())
}

// What holds of the ports' rules; the function does nothing.
fn ports_claims()
    ensures { PortsClaims }
{}
