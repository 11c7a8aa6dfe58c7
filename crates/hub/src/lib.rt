// The hub by value: identity, configuration, ports and translator; every call as a method that takes the hub and returns the next one
// with its answer.
#![tactic(auto)]

ghost use Rattle.std.specs.Prelude.{◌≡◌, ◌+◌, ◌≤◌, ◌^◌, min, take, Ok};
ghost use Rattle.payload.specs.Payload.{content};
ghost use Rattle.port.specs.Method.{answered};
ghost use Rattle.port.specs.Status.{status_bytes};
ghost use Rattle.ports.specs.Ports.{port_at};
ghost use Rattle.ports.specs.Sweep.{swept};
ghost use Rattle.hub.specs.Hub.{new_fits, hub_of, new_hub, with_ports, with_translator, with_port_at, configuration_sweep, configured_as};
ghost use Rattle.hub.specs.Method.{outcome_of};
ghost use Rattle.hub.specs.Call.{plain, refuse, done, stall, gives, gives_nothing, pid_answer};
ghost use Rattle.hub.specs.Call.Call.{Control, Poll, Start, Complete, Launch, Deliver, Event, Tick, BusReset};
ghost use Rattle.hub.specs.Requests.{descriptor, keyed, set_feature, clear_feature, by_request, served_always, requested};
ghost use Rattle.hub.specs.Rules.{completed_as, launched_as, stepped_at};
ghost use Rattle.hub.specs.Checks.{refusal_number, checked_as, first_refusal};
ghost use Rattle.hub.specs.Step.{step};
ghost use Rattle.hub.specs.Claims.{HubClaims};
ghost use Rattle.hub.specs.Cases.{BenchCases};

use buffer::{BufferCount, Key, Lane};
use payload::Payload;
use port::{ClearableFeature, NotInThisState, Port, PortCount, PortNumber, SettableFeature};
use ports::Sweep;
use request::{Fault, Pipe, Request};
use translator::{Completed, Launched, NotDelivered, NotLaunched, Translator};

// What a hub is made from, but for the number of buffers, which its translator has.
#[derive(Clone, Copy)]
pub struct Identity {
    pub ports: u8,
    pub powergood: u8,
    pub current: u8,
    pub removable: u8,
}

// The first `identity.ports` ports are in use; the others are new ports at all times.
#[derive(Clone, Copy)]
pub struct Hub {
    pub identity: Identity,
    pub configured: bool,
    pub ports: [Port; 7],
    pub translator: Translator,
}

// Why a call is refused.
#[derive(Clone, Copy, PartialEq, Eq)]
pub enum Refusal {
    // a number or length outside the rules
    Outside,
    // a reply space under 64 bytes
    NoSpace,
    // silent: the hub is unconfigured
    Unconfigured,
    NotInThisState,
}

// What a call answers; numbers that don't apply are 0.
#[derive(Clone, Copy)]
pub struct Reply {
    pub number: u8,
    pub pid: u8,
    pub transfer: u8,
    pub lane: u8,
    pub address: u8,
    pub endpoint: u8,
    pub direction: u8,
    pub lowspeed: u8,
    pub toggle: u8,
}

// The next hub, the answer, and the bytes for the reply space.
#[derive(Clone, Copy)]
pub struct Stepped {
    pub hub: Hub,
    pub reply: Reply,
    pub payload: Payload,
}

// ---- answers

// A number alone.
fn answer(hub: Hub, number: u8) -> Stepped
    ensures { outcome_of result ≡ plain hub number }
{
    reply_pid(hub, number, 0, Payload::none())
}

// Refused: nothing changed.
fn refuse(hub: Hub, refusal: Refusal) -> Stepped
    ensures { outcome_of result ≡ refuse (refusal_number refusal) hub }
{
    answer(hub, refusal.number())
}

// 0: done.
fn done(hub: Hub) -> Stepped
    ensures { outcome_of result ≡ done hub }
{
    answer(hub, 0)
}

// 2: STALL.
fn stall(hub: Hub) -> Stepped
    ensures { outcome_of result ≡ stall hub }
{
    answer(hub, 2)
}

// 3: nothing to give.
fn give_nothing(hub: Hub) -> Stepped
    ensures { outcome_of result ≡ gives_nothing hub }
{
    answer(hub, 3)
}

// A number with a PID and bytes.
fn reply_pid(hub: Hub, number: u8, pid: u8, payload: Payload) -> Stepped
    ensures { outcome_of result ≡ record { next = hub; answer = pid_answer number pid (content payload) } }
{
    Stepped {
        hub,
        reply: Reply {
            number,
            pid,
            transfer: 0,
            lane: 0,
            address: 0,
            endpoint: 0,
            direction: 0,
            lowspeed: 0,
            toggle: 0,
        },
        payload,
    }
}

// 1: data.
fn give_data(hub: Hub, payload: Payload) -> Stepped
    ensures { outcome_of result ≡ gives hub (content payload) }
{
    reply_pid(hub, 1, 0, payload)
}

impl Refusal {
    // The number of document 01.
    pub fn number(self) -> u8
        ensures { result ≡ refusal_number self }
    {
        match self {
            Refusal::Outside => 6,
            Refusal::NoSpace => 7,
            Refusal::Unconfigured => 5,
            Refusal::NotInThisState => 8,
        }
    }
}

// The order of checks: 6, 7, 5, 8, then the rest.
pub fn first_refusal(
    within: bool,
    space: bool,
    configured: bool,
    fitting: bool,
) -> Result<(), Refusal>
    ensures { checked_as result ≡ first_refusal within space configured fitting }
{
    if !within {
        return Err(Refusal::Outside);
    }
    if !space {
        return Err(Refusal::NoSpace);
    }
    if !configured {
        return Err(Refusal::Unconfigured);
    }
    if !fitting {
        return Err(Refusal::NotInThisState);
    }
    Ok(())
}

// ---- the state

// The first power of two above the bits of ports 0 to n.
fn above_port(n: u32) -> u32
    ensures { n ≤ 7 → result ≡ 2 ^ (n + 1) }
{
    match n {
        0 => 2,
        1 => 4,
        2 => 8,
        3 => 16,
        4 => 32,
        5 => 64,
        6 => 128,
        _ => 256,
    }
}

// Whether a hub can be made from these numbers.
fn can_be_made(ports: u32, buffers: u32, powergood: u32, current: u32, removable: u32) -> bool
    ensures { result ≡ new_fits ports buffers powergood current removable }
{
    ((1 <= ports) & (ports <= 7) & ((2 <= buffers) & (buffers <= 4)))
        & ((powergood < 256)
            & (current < 256)
            & ((removable % 2 == 0) & (removable < above_port(ports))))
}

impl Hub {
    // A new hub from its five numbers.
    #[tactic(auto, unfolding(crate::specs::Hub::new_hub))]
    pub fn new(
        ports: u32,
        buffers: u32,
        powergood: u32,
        current: u32,
        removable: u32,
    ) -> Result<Hub, Refusal>
        ensures { result ≡ new_hub ports buffers powergood current removable }
    {
        if !can_be_made(ports, buffers, powergood, current, removable) {
            return Err(Refusal::Outside);
        }
        Ok(hub_of(
            PortCount((ports % 256) as u8),
            BufferCount((buffers % 256) as u8),
            (powergood % 256) as u8,
            (current % 256) as u8,
            (removable % 256) as u8,
        ))
    }

    fn with_ports(self, ports: [Port; 7]) -> Hub
        ensures { result ≡ with_ports self ports }
    {
        Hub { ports, ..self }
    }

    fn with_translator(self, translator: Translator) -> Hub
        ensures { result ≡ with_translator self translator }
    {
        Hub { translator, ..self }
    }

    pub fn port_count(self) -> PortCount
        ensures { result ≡ record { 0 = self.identity.ports } }
    {
        PortCount(self.identity.ports)
    }

    fn port(self, n: PortNumber) -> Port
        ensures { result ≡ port_at self.ports n }
    {
        ports::port_at(self.ports, n)
    }

    fn with_port(self, n: PortNumber, port: Port) -> Hub
        ensures { result ≡ with_port_at self n port }
    {
        self.with_ports(ports::with_port(self.ports, n, port))
    }

    // What a line event at port n leaves and answers.
    fn with_event(self, n: PortNumber, after: Result<Port, NotInThisState>) -> Stepped
        ensures { outcome_of result ≡ stepped_at self n (answered (port_at self.ports n) after) }
    {
        match after {
            Ok(port) => done(self.with_port(n, port)),
            Err(NotInThisState) => refuse(self, Refusal::NotInThisState),
        }
    }

    fn sweep(self, what: Sweep) -> [Port; 7]
        ensures { result ≡ swept what self.identity.ports self.ports }
    {
        ports::sweep_first(self.ports, self.port_count(), what)
    }

    // SetConfiguration.
    #[tactic(auto, unfolding(crate::specs::Hub::configured_as))]
    fn configure(self, on: bool) -> Hub
        ensures { result ≡ configured_as on self }
    {
        Hub {
            configured: on,
            ports: self.sweep(configuration_sweep(on)),
            translator: self.translator.empty(),
            ..self
        }
    }
}

fn hub_of(ports: PortCount, buffers: BufferCount, powergood: u8, current: u8, removable: u8) -> Hub
    ensures { result ≡ hub_of ports.0 buffers.0 powergood current removable }
{
    Hub {
        identity: Identity {
            ports: ports.0,
            powergood,
            current,
            removable,
        },
        configured: false,
        ports: ports::new_ports(),
        translator: Translator::new(buffers),
    }
}

fn configuration_sweep(on: bool) -> Sweep
    ensures { result ≡ configuration_sweep on }
{
    if on {
        Sweep::Configure
    } else {
        Sweep::Unconfigure
    }
}

// ---- control requests

fn is_served_always(request: Request) -> bool
    ensures { result ≡ served_always (Ok request) }
{
    matches!(
        request,
        Request::SetConfiguration(_) | Request::GetConfiguration | Request::GetHubDescriptor(_)
    )
}

// A key of the lane that asks.
fn keyed(lane: Lane, pipe: Pipe) -> Key
    ensures { result ≡ keyed lane pipe }
{
    Key::new(lane, pipe.address, pipe.endpoint, pipe.direction)
}

fn cut(n: u16) -> usize
    ensures { result ≡ min n 9 }
{
    usize::from(n.min(9))
}

impl Hub {
    fn get_descriptor(self, length: u16) -> Stepped
        ensures { outcome_of result ≡ gives self (take length (descriptor self.identity)) }
    {
        let identity = self.identity;
        let bytes = [
            0x09,
            0x29,
            identity.ports,
            0x09,
            0x00,
            identity.powergood,
            identity.current,
            identity.removable,
            0xFF,
        ];
        let n = cut(length);
        give_data(self, Payload::of(&bytes[..n]))
    }

    #[tactic(auto, unfolding(payload::specs::Payload::padded, payload::specs::Payload::payload_of))]
    fn get_port_status(self, n: PortNumber) -> Stepped
        ensures { outcome_of result ≡ gives self (status_bytes (port_at self.ports n)) }
    {
        let status = self.port(n).status();
        give_data(self, Payload::of(&status))
    }

    // Four requests, and line events, are kept apart: inlined, the frames add up (docs/SPEED.md).
    #[inline(never)]
    fn clear_feature(self, n: PortNumber, feature: ClearableFeature) -> Stepped
        ensures { outcome_of result ≡ done (clear_feature self n feature) }
    {
        done(self.with_port(n, self.port(n).clear_feature(feature)))
    }

    #[inline(never)]
    fn set_feature(self, n: PortNumber, feature: SettableFeature) -> Stepped
        ensures { outcome_of result ≡ done (set_feature self n feature) }
    {
        done(self.with_port(n, self.port(n).set_feature(feature)))
    }

    #[inline(never)]
    fn clear_buffer(self, lane: Lane, pipe: Pipe) -> Stepped
        ensures { outcome_of result ≡ by_request self lane (Ok (Request.ClearTTBuffer pipe)) }
    {
        done(self.with_translator(self.translator.clear_buffer(keyed(lane, pipe))))
    }

    #[inline(never)]
    fn reset_lane(self, lane: Lane) -> Stepped
        ensures { outcome_of result ≡ by_request self lane (Ok Request.ResetTT) }
    {
        done(self.with_translator(self.translator.reset_lane(lane)))
    }

    #[tactic(auto, unfolding(payload::specs::Payload::padded, payload::specs::Payload::payload_of))]
    fn by_request(self, lane: Lane, request: Request) -> Stepped
        ensures { outcome_of result ≡ by_request self lane (Ok request) }
    {
        match request {
            Request::SetConfiguration(on) => done(self.configure(on)),
            Request::GetConfiguration => give_data(
                self,
                Payload::of(&[numbers::flag_number(self.configured)]),
            ),
            Request::GetHubDescriptor(length) => self.get_descriptor(length),
            Request::GetHubStatus => give_data(self, Payload::of(&[0, 0, 0, 0])),
            Request::GetPortStatus(n) => self.get_port_status(n),
            Request::ClearHubFeature => done(self),
            Request::ClearPortFeature(n, feature) => self.clear_feature(n, feature),
            Request::SetPortFeature(n, feature) => self.set_feature(n, feature),
            Request::ClearTTBuffer(pipe) => self.clear_buffer(lane, pipe),
            Request::ResetTT => self.reset_lane(lane),
        }
    }

    #[tactic(auto, unfolding(crate::specs::Requests::requested))]
    fn serve(self, lane: Lane, asked: Result<Request, Fault>) -> Stepped
        ensures { outcome_of result ≡ requested self lane asked }
    {
        let Ok(request) = asked else {
            return stall(self);
        };
        if self.configured || is_served_always(request) {
            return self.by_request(lane, request);
        }
        stall(self)
    }
}

// ---- the calls

impl Hub {
    #[tactic(auto, unfolding(crate::specs::Checks::within, crate::specs::Checks::has_space, crate::specs::Checks::not_silent, crate::specs::Checks::fitting, crate::specs::Step::served))]
    pub fn control(self, lane: u32, setup: &[u8], room: usize) -> Stepped
        ensures { outcome_of result ≡ step self (Control lane setup.now room) }
    {
        let Ok(bytes) = <[u8; 8]>::try_from(setup) else {
            return refuse(self, Refusal::Outside);
        };
        if let Err(refusal) = first_refusal(numbers::is_lane(lane), 64 <= room, true, true) {
            return refuse(self, refusal);
        }
        self.serve(
            numbers::lane_of(lane),
            request::read(bytes, self.port_count()),
        )
    }

    #[tactic(auto, unfolding(crate::specs::Checks::within, crate::specs::Checks::has_space, crate::specs::Checks::not_silent, crate::specs::Checks::fitting, crate::specs::Step::served))]
    pub fn poll(self, lane: u32, room: usize) -> Stepped
        ensures { outcome_of result ≡ step self (Poll lane room) }
    {
        if let Err(refusal) = first_refusal(
            numbers::is_lane(lane),
            64 <= room,
            self.configured,
            true,
        ) {
            return refuse(self, refusal);
        }
        let bitmap = ports::bitmap(self.ports, self.port_count());
        if bitmap == 0 {
            return give_nothing(self);
        }
        give_data(self, Payload::of(&[bitmap]))
    }

    #[tactic(auto, unfolding(crate::specs::Checks::within, crate::specs::Checks::has_space, crate::specs::Checks::not_silent, crate::specs::Checks::fitting, crate::specs::Step::served))]
    pub fn start_split(
        self,
        lane: u32,
        pid: u32,
        transfer: u32,
        lowspeed: u32,
        toggle: u32,
        address: u32,
        endpoint: u32,
        payload: &[u8],
    ) -> Stepped
        ensures { outcome_of result ≡ step self (Start lane pid transfer lowspeed toggle address endpoint payload.now) }
    {
        let split = numbers::split_of(lane, pid, transfer, lowspeed, toggle, address, endpoint);
        let named = numbers::split_named(lane, pid, transfer, lowspeed, toggle, address, endpoint);
        let within = named & split.fits(payload.len());
        if let Err(refusal) = first_refusal(within, true, self.configured, true) {
            return refuse(self, refusal);
        }
        let o = self.translator.start_split(split, payload);
        answer(
            self.with_translator(o.next),
            numbers::start_answer(o.answer),
        )
    }

    #[tactic(auto, unfolding(crate::specs::Checks::within, crate::specs::Checks::has_space, crate::specs::Checks::not_silent, crate::specs::Checks::fitting, crate::specs::Step::served))]
    pub fn complete_split(
        self,
        lane: u32,
        address: u32,
        endpoint: u32,
        direction: u32,
        room: usize,
    ) -> Stepped
        ensures { outcome_of result ≡ step self (Complete lane address endpoint direction room) }
    {
        let named = numbers::key_named(lane, address, endpoint, direction);
        if let Err(refusal) = first_refusal(named, 64 <= room, self.configured, true) {
            return refuse(self, refusal);
        }
        self.completed(
            self.translator
                .complete_split(numbers::key_of(lane, address, endpoint, direction)),
        )
    }

    fn completed(self, o: Completed) -> Stepped
        ensures { outcome_of result ≡ completed_as self o }
    {
        let number = numbers::complete_answer(o.answer);
        let mut s = answer(self.with_translator(o.next), number);
        if let Ok(result) = o.answer {
            s.reply.pid = numbers::complete_pid(result);
            s.payload = o.payload;
        }
        s
    }

    #[tactic(auto, unfolding(crate::specs::Checks::within, crate::specs::Checks::has_space, crate::specs::Checks::not_silent, crate::specs::Checks::fitting, crate::specs::Step::served))]
    pub fn launch(self, room: usize) -> Stepped
        ensures { outcome_of result ≡ step self (Launch room) }
    {
        let o = self.translator.launch();
        let fits = o.answer != Err(NotLaunched::Occupied);
        if let Err(refusal) = first_refusal(true, 64 <= room, self.configured, fits) {
            return refuse(self, refusal);
        }
        self.launched(o)
    }

    fn launched(self, o: Launched) -> Stepped
        ensures { outcome_of result ≡ launched_as self o }
    {
        let number = numbers::launch_answer(o.answer);
        let mut s = answer(self.with_translator(o.next), number);
        if let Ok(split) = o.answer {
            s.reply.pid = numbers::pid_number(split.pid);
            s.reply.transfer = numbers::type_number(split.transfer);
            s.reply.lane = numbers::lane_number(split.lane);
            s.reply.address = split.address.0;
            s.reply.endpoint = split.endpoint;
            s.reply.direction = numbers::direction_number(split.pid.direction());
            s.reply.lowspeed = numbers::flag_number(split.lowspeed);
            s.reply.toggle = numbers::flag_number(split.toggle);
            s.payload = o.payload;
        }
        s
    }

    #[tactic(auto, unfolding(crate::specs::Checks::within, crate::specs::Checks::has_space, crate::specs::Checks::not_silent, crate::specs::Checks::fitting, crate::specs::Step::served))]
    pub fn deliver(self, res: u32, payload: &[u8]) -> Stepped
        ensures { outcome_of result ≡ step self (Deliver res payload.now) }
    {
        let kind = numbers::result_of(res);
        let within = numbers::is_result(res) & kind.carries(payload.len());
        let o = self.translator.deliver(kind, payload);
        let fits = o.answer != Err(NotDelivered::NotInThisState);
        if let Err(refusal) = first_refusal(within, true, self.configured, fits) {
            return refuse(self, refusal);
        }
        let number = numbers::deliver_answer(o.answer);
        answer(self.with_translator(o.next), number)
    }

    #[tactic(auto, unfolding(crate::specs::Checks::within))]
    #[inline(never)]
    pub fn line_event(self, event: u32, port: u32) -> Stepped
        ensures { outcome_of result ≡ step self (Event event port) }
    {
        let within = numbers::is_event(event) & numbers::port_named(self.port_count(), port);
        if let Err(refusal) = first_refusal(within, true, true, self.configured) {
            return refuse(self, refusal);
        }
        let n = PortNumber(port);
        self.with_event(n, self.port(n).line_event(numbers::event_of(event)))
    }

    #[tactic(auto, unfolding(crate::specs::Checks::within, crate::specs::Checks::has_space, crate::specs::Checks::not_silent, crate::specs::Checks::fitting, crate::specs::Step::served, crate::specs::Step::step, crate::specs::Hub::ticked_hub))]
    pub fn tick(self) -> Stepped
        ensures { outcome_of result ≡ step self Tick }
    {
        if self.configured {
            return done(self.with_ports(self.sweep(Sweep::Tick)));
        }
        done(self)
    }

    #[tactic(auto, unfolding(crate::specs::Checks::within, crate::specs::Checks::has_space, crate::specs::Checks::not_silent, crate::specs::Checks::fitting, crate::specs::Step::served, crate::specs::Step::step, crate::specs::Hub::reset_hub))]
    pub fn bus_reset(self) -> Stepped
        ensures { outcome_of result ≡ step self BusReset }
    {
        done(Hub {
            configured: false,
            ports: ports::new_ports(),
            translator: self.translator.empty(),
            ..self
        })
    }
}

// What holds of every call.
fn hub_claims()
    ensures { HubClaims }
{}

// P1 to P13, and the cases of C-12.
#[tactic(auto, unfolding(payload::specs::Payload::padded, payload::specs::Payload::payload_of, ports::specs::Ports::port_at, ports::specs::Ports::with_port, ports::specs::Sweep::front, ports::specs::Sweep::swept, ports::specs::Bitmap::bitmap_of, buffer::specs::Same::same_key, buffer::specs::Lengths::numbers_fit, buffer::specs::Lengths::start_fits, buffer::specs::Lengths::result_length, translator::specs::Search::find, translator::specs::Search::chosen, translator::specs::Limit::permitted, translator::specs::Order::pass, translator::specs::Translator::tally, translator::specs::Order::ranked, translator::specs::Order::earliest, translator::specs::StartSplit::stored, translator::specs::StartSplit::start_split, translator::specs::CompleteSplit::complete_split, translator::specs::Launch::launch, translator::specs::Deliver::deliver, translator::specs::Clear::clear_buffer, translator::specs::ResetLane::reset_lane, request::specs::Table::kind_of, request::specs::Request::checked, request::specs::Request::request_of, numbers::specs::Split::split_named, numbers::specs::Split::split_from, numbers::specs::Split::key_named, numbers::specs::Split::key_from, crate::specs::Hub::new_fits, crate::specs::Hub::new_hub, crate::specs::Hub::configured_as, crate::specs::Hub::ticked_hub, crate::specs::Hub::reset_hub, crate::specs::Requests::requested, crate::specs::Rules::polled, crate::specs::Checks::within, crate::specs::Checks::has_space, crate::specs::Checks::not_silent, crate::specs::Checks::fitting, crate::specs::Step::served, crate::specs::Step::step))]
fn bench_cases()
    ensures { BenchCases }
{}
