// Why a call would be answered as it is: the hub and the call by value in, the reason out; the call is not made.
#![tactic(auto)]

ghost use Rattle.std.specs.Prelude.{◌≡◌};
ghost use Rattle.hub.specs.Call.Call.{Control, Poll, Start, Complete, Launch, Deliver, Event, Tick, BusReset};
ghost use Rattle.hub.specs.Step.{step};
ghost use Rattle.why.specs.Said.{served_unconfigured, place};
ghost use Rattle.why.specs.Bytes.{plain_bytes, bytes_of, ReasonsApart};
ghost use Rattle.why.specs.Why.{numbered, start_reason, changes_by_port, poll_reason, as_request_fault, request_reason, why_of};
ghost use Rattle.why.specs.Claims.{WhyClaims};
ghost use Rattle.why.specs.ExplainedRuns.{Demand3WithReasons, explaining};
ghost use Rattle.why.specs.Cases.{WhyCases};
ghost use Rattle.why.specs.Mistakes.{WhyMistakesShutOut};

use buffer::BufferNumber;
use hub::{Hub, Refusal};
use port::{Changes, Port};
use request::{Fault, Kind, Setup};
use translator::{Choice, Outside};

// What can be wrong with a control request, in the order in which it is looked at: the request's own faults, and a hub that is unconfigured.
#[derive(Clone, Copy)]
pub enum RequestFault {
    TypeOrCode,
    Unconfigured,
    Value,
    Index,
    Length,
}

// Change bits by port. Fields and no array: the claims are about every reason, and in a claim an array is a list of any length.
#[derive(Clone, Copy)]
pub struct PortChanges {
    pub port1: Changes,
    pub port2: Changes,
    pub port3: Changes,
    pub port4: Changes,
    pub port5: Changes,
    pub port6: Changes,
    pub port7: Changes,
}

#[derive(Clone, Copy)]
pub enum Reason {
    // other answers get no reason
    Nothing,
    // 5 to 8
    Number(u8),
    // a start-split
    HeldBy(BufferNumber),
    Reused(BufferNumber),
    TookFree(BufferNumber),
    // of its lane; named before no room
    LimitReached,
    NoRoom,
    // a poll answered 1: the change bits that made a bit one
    Changed(PortChanges),
    // a control request answered 2: the first thing that is wrong
    Wrong(RequestFault),
}

// ---- the parts of a reason

// The number, where it is one of 5 to 8.
#[tactic(auto, unfolding(crate::specs::Why::numbered))]
fn number_first(number: u8, rest: Reason) -> Reason
    ensures { result ≡ numbered number rest }
{
    if (5 <= number) & (number <= 8) {
        Reason::Number(number)
    } else {
        rest
    }
}

fn start_reason(answer: Result<Choice, Outside>) -> Reason
    ensures { result ≡ start_reason answer }
{
    match answer {
        Err(Outside) => Reason::Nothing,
        Ok(Choice::NoRoom) => Reason::NoRoom,
        Ok(Choice::LimitReached) => Reason::LimitReached,
        Ok(Choice::Held(n)) => Reason::HeldBy(n),
        Ok(Choice::Reused(n)) => Reason::Reused(n),
        Ok(Choice::Took(n)) => Reason::TookFree(n),
    }
}

#[tactic(auto, unfolding(crate::specs::Why::changes_by_port))]
fn changes_by_port(ports: [Port; 7]) -> PortChanges
    ensures { result ≡ changes_by_port ports }
{
    PortChanges {
        port1: ports[0].changes,
        port2: ports[1].changes,
        port3: ports[2].changes,
        port4: ports[3].changes,
        port5: ports[4].changes,
        port6: ports[5].changes,
        port7: ports[6].changes,
    }
}

#[tactic(auto, unfolding(crate::specs::Why::poll_reason))]
fn poll_reason(number: u8, changes: PortChanges) -> Reason
    ensures { result ≡ poll_reason number changes }
{
    if number == 1 {
        Reason::Changed(changes)
    } else {
        Reason::Nothing
    }
}

impl From<Fault> for RequestFault {
    ghost from_gives = { λ fault own. own ≡ as_request_fault fault };

    fn from(fault: Fault) -> RequestFault {
        match fault {
            Fault::TypeOrCode => RequestFault::TypeOrCode,
            Fault::Value => RequestFault::Value,
            Fault::Index => RequestFault::Index,
            Fault::Length => RequestFault::Length,
        }
    }
}

// Unconfigured, only the first three are served.
fn served_unconfigured(kind: Kind) -> bool
    ensures { result ≡ served_unconfigured kind }
{
    matches!(
        kind,
        Kind::SetConfiguration | Kind::GetConfiguration | Kind::GetHubDescriptor
    )
}

// ---- the calls

pub fn explain_control(hub: Hub, lane: u32, setup: &[u8], room: usize) -> Reason
    ensures { result ≡ why_of hub (Control lane setup.now room) }
{
    let Ok(bytes) = <[u8; 8]>::try_from(setup) else {
        return Reason::Number(Refusal::Outside.number());
    };
    let o = hub.control(lane, setup, room);
    number_first(o.reply.number, request_reason(hub, bytes))
}

// The hub's configuration is looked at behind type and code, before the other fields.
#[tactic(auto, unfolding(crate::specs::Why::request_reason))]
fn request_reason(hub: Hub, bytes: [u8; 8]) -> Reason
    ensures { result ≡ request_reason hub bytes }
{
    let s = Setup::from(bytes);
    let Some(kind) = request::kind_of(s.requesttype, s.code) else {
        return Reason::Wrong(RequestFault::TypeOrCode);
    };
    if !(hub.configured | served_unconfigured(kind)) {
        return Reason::Wrong(RequestFault::Unconfigured);
    }
    match request::read(bytes, hub.port_count()) {
        Ok(_) => Reason::Nothing,
        Err(fault) => Reason::Wrong(RequestFault::from(fault)),
    }
}

pub fn explain_poll(hub: Hub, lane: u32, room: usize) -> Reason
    ensures { result ≡ why_of hub (Poll lane room) }
{
    let o = hub.poll(lane, room);
    let number = o.reply.number;
    number_first(number, poll_reason(number, changes_by_port(hub.ports)))
}

pub fn explain_start_split(
    hub: Hub,
    lane: u32,
    pid: u32,
    transfer: u32,
    lowspeed: u32,
    toggle: u32,
    address: u32,
    endpoint: u32,
    payload: &[u8],
) -> Reason
    ensures { result ≡ why_of hub (Start lane pid transfer lowspeed toggle address endpoint payload.now) }
{
    let split = numbers::split_of(lane, pid, transfer, lowspeed, toggle, address, endpoint);
    let o = hub.start_split(
        lane, pid, transfer, lowspeed, toggle, address, endpoint, payload,
    );
    let started = hub.translator.start_split(split, payload);
    number_first(o.reply.number, start_reason(started.answer))
}

#[tactic(auto, unfolding(crate::specs::Why::rule_reason, crate::specs::Why::why_of))]
pub fn explain_complete_split(
    hub: Hub,
    lane: u32,
    address: u32,
    endpoint: u32,
    direction: u32,
    room: usize,
) -> Reason
    ensures { result ≡ why_of hub (Complete lane address endpoint direction room) }
{
    let o = hub.complete_split(lane, address, endpoint, direction, room);
    number_first(o.reply.number, Reason::Nothing)
}

#[tactic(auto, unfolding(crate::specs::Why::rule_reason, crate::specs::Why::why_of))]
pub fn explain_launch(hub: Hub, room: usize) -> Reason
    ensures { result ≡ why_of hub (Launch room) }
{
    let o = hub.launch(room);
    number_first(o.reply.number, Reason::Nothing)
}

#[tactic(auto, unfolding(crate::specs::Why::rule_reason, crate::specs::Why::why_of))]
pub fn explain_deliver(hub: Hub, res: u32, payload: &[u8]) -> Reason
    ensures { result ≡ why_of hub (Deliver res payload.now) }
{
    let o = hub.deliver(res, payload);
    number_first(o.reply.number, Reason::Nothing)
}

#[tactic(auto, unfolding(crate::specs::Why::rule_reason, crate::specs::Why::why_of))]
pub fn explain_line_event(hub: Hub, event: u32, port: u32) -> Reason
    ensures { result ≡ why_of hub (Event event port) }
{
    let o = hub.line_event(event, port);
    number_first(o.reply.number, Reason::Nothing)
}

#[tactic(auto, unfolding(crate::specs::Why::rule_reason, crate::specs::Why::why_of))]
pub fn explain_tick(hub: Hub) -> Reason
    ensures { result ≡ why_of hub Tick }
{
    let o = hub.tick();
    number_first(o.reply.number, Reason::Nothing)
}

#[tactic(auto, unfolding(crate::specs::Why::rule_reason, crate::specs::Why::why_of))]
pub fn explain_bus_reset(hub: Hub) -> Reason
    ensures { result ≡ why_of hub BusReset }
{
    let o = hub.bus_reset();
    number_first(o.reply.number, Reason::Nothing)
}

// ---- a reason as C gets it

// Its kind, a number, and a byte of change bits for each port. The header's grimholdi_reason.
#[repr(C)]
#[derive(Clone, Copy)]
pub struct ReasonBytes {
    pub kind: u8,
    pub value: u8,
    pub changes: [u8; 7],
}

fn plain_bytes(kind: u8, value: u8) -> ReasonBytes
    ensures { result ≡ plain_bytes kind value }
{
    ReasonBytes {
        kind,
        value,
        changes: [0; 7],
    }
}

fn changes_bytes(c: PortChanges) -> ReasonBytes
    ensures { result ≡ bytes_of (Reason.Changed c) }
{
    let changes = [
        c.port1.byte(),
        c.port2.byte(),
        c.port3.byte(),
        c.port4.byte(),
        c.port5.byte(),
        c.port6.byte(),
        c.port7.byte(),
    ];
    ReasonBytes {
        kind: 7,
        value: 0,
        changes,
    }
}

fn place_of(fault: RequestFault) -> u8
    ensures { result ≡ place fault }
{
    fault as u8
}

pub fn bytes_of(reason: Reason) -> ReasonBytes
    ensures { result ≡ bytes_of reason }
{
    match reason {
        Reason::Nothing => plain_bytes(0, 0),
        Reason::Number(n) => plain_bytes(1, n),
        Reason::HeldBy(b) => plain_bytes(2, b.0),
        Reason::Reused(b) => plain_bytes(3, b.0),
        Reason::TookFree(b) => plain_bytes(4, b.0),
        Reason::LimitReached => plain_bytes(5, 0),
        Reason::NoRoom => plain_bytes(6, 0),
        Reason::Changed(c) => changes_bytes(c),
        Reason::Wrong(fault) => plain_bytes(8, place_of(fault)),
    }
}

// ---- what is claimed; nothing runs here

// No two reasons have the same numbers.
fn reasons_apart()
    ensures { ReasonsApart }
{}

fn why_claims()
    ensures { WhyClaims step why_of }
{}

fn demand_3_with_reasons()
    ensures { Demand3WithReasons explaining }
{}

// Reasons from literal calls.
fn why_cases()
    ensures { WhyCases }
{}

// Tools with a mistake break the claims.
fn why_mistakes_shut_out()
    ensures { WhyMistakesShutOut }
{}
