// The explaining entries: why a call would be answered as it is. The area is only read, and the call is not made.
#![tactic(auto)]

ghost use Rattle.std.specs.Prelude.{◌≡◌};
ghost use Rattle.hub.specs.Call.Call.{Control, Poll, Start, Complete, Launch, Deliver, Event, Tick, BusReset};
ghost use Rattle.hub.specs.declared.Refusal.TheVariants.{Outside};
ghost use Rattle.hub.specs.Checks.{refusal_number};
ghost use Rattle.why.specs.declared.Reason.TheVariants.{Number};
ghost use Rattle.why.specs.Bytes.{bytes_of};
ghost use Rattle.grimholdi_why.specs.Explained.{entry_reason, EntryReasons};

use hub::Refusal;
use why::{Reason, ReasonBytes};

// Of an area that isn't the written form of a valid hub.
fn refused() -> Reason
    ensures { result ≡ Number (refusal_number Outside) }
{
    Reason::Number(Refusal::Outside.number())
}

#[tactic(auto, unfolding(crate::specs::Explained::entry_reason))]
#[unsafe(no_mangle)]
pub extern "C" fn grimholdi_why_control(
    area: &[u8],
    lane: u32,
    setup: &[u8],
    room: usize,
) -> ReasonBytes
    ensures { result ≡ bytes_of (entry_reason area.now (Control lane setup.now room)) }
{
    why::bytes_of(area::read_area(area).map_or(
        refused(),
        |hub| why::explain_control(hub, lane, setup, room),
    ))
}

#[tactic(auto, unfolding(crate::specs::Explained::entry_reason))]
#[unsafe(no_mangle)]
pub extern "C" fn grimholdi_why_poll(area: &[u8], lane: u32, room: usize) -> ReasonBytes
    ensures { result ≡ bytes_of (entry_reason area.now (Poll lane room)) }
{
    why::bytes_of(area::read_area(area).map_or(refused(), |hub| why::explain_poll(hub, lane, room)))
}

#[tactic(auto, unfolding(crate::specs::Explained::entry_reason))]
#[unsafe(no_mangle)]
pub extern "C" fn grimholdi_why_start_split(
    area: &[u8],
    lane: u32,
    pid: u32,
    transfer: u32,
    lowspeed: u32,
    toggle: u32,
    address: u32,
    endpoint: u32,
    payload: &[u8],
) -> ReasonBytes
    ensures { result ≡ bytes_of (entry_reason area.now (Start lane pid transfer lowspeed toggle address endpoint payload.now)) }
{
    why::bytes_of(area::read_area(area).map_or(
        refused(),
        |hub| why::explain_start_split(
            hub, lane, pid, transfer, lowspeed, toggle, address, endpoint, payload,
        ),
    ))
}

#[tactic(auto, unfolding(crate::specs::Explained::entry_reason))]
#[unsafe(no_mangle)]
pub extern "C" fn grimholdi_why_complete_split(
    area: &[u8],
    lane: u32,
    address: u32,
    endpoint: u32,
    direction: u32,
    room: usize,
) -> ReasonBytes
    ensures { result ≡ bytes_of (entry_reason area.now (Complete lane address endpoint direction room)) }
{
    why::bytes_of(area::read_area(area).map_or(
        refused(),
        |hub| why::explain_complete_split(hub, lane, address, endpoint, direction, room),
    ))
}

#[tactic(auto, unfolding(crate::specs::Explained::entry_reason))]
#[unsafe(no_mangle)]
pub extern "C" fn grimholdi_why_launch(area: &[u8], room: usize) -> ReasonBytes
    ensures { result ≡ bytes_of (entry_reason area.now (Launch room)) }
{
    why::bytes_of(area::read_area(area).map_or(refused(), |hub| why::explain_launch(hub, room)))
}

#[tactic(auto, unfolding(crate::specs::Explained::entry_reason))]
#[unsafe(no_mangle)]
pub extern "C" fn grimholdi_why_deliver(area: &[u8], res: u32, payload: &[u8]) -> ReasonBytes
    ensures { result ≡ bytes_of (entry_reason area.now (Deliver res payload.now)) }
{
    why::bytes_of(area::read_area(area).map_or(
        refused(),
        |hub| why::explain_deliver(hub, res, payload),
    ))
}

#[tactic(auto, unfolding(crate::specs::Explained::entry_reason))]
#[unsafe(no_mangle)]
pub extern "C" fn grimholdi_why_line_event(area: &[u8], event: u32, port: u32) -> ReasonBytes
    ensures { result ≡ bytes_of (entry_reason area.now (Event event port)) }
{
    why::bytes_of(area::read_area(area).map_or(
        refused(),
        |hub| why::explain_line_event(hub, event, port),
    ))
}

#[tactic(auto, unfolding(crate::specs::Explained::entry_reason))]
#[unsafe(no_mangle)]
pub extern "C" fn grimholdi_why_tick(area: &[u8]) -> ReasonBytes
    ensures { result ≡ bytes_of (entry_reason area.now Tick) }
{
    why::bytes_of(area::read_area(area).map_or(refused(), |hub| why::explain_tick(hub)))
}

#[tactic(auto, unfolding(crate::specs::Explained::entry_reason))]
#[unsafe(no_mangle)]
pub extern "C" fn grimholdi_why_bus_reset(area: &[u8]) -> ReasonBytes
    ensures { result ≡ bytes_of (entry_reason area.now BusReset) }
{
    why::bytes_of(area::read_area(area).map_or(refused(), |hub| why::explain_bus_reset(hub)))
}

// What holds of every explaining entry, and of every run of entries in which some calls are explained.
fn entry_reasons()
    ensures { EntryReasons }
{}
