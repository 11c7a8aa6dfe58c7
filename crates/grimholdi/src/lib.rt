// What the C entries do; crate grimholdi_c exports them. Port calls read the lent area, call the hub by value and write the area; the translator's
// calls read the slots of its buffers, decide by them, and write only what changes.
#![tactic(auto)]

ghost use Rattle.std.specs.Prelude.{◌≡◌, Err};
ghost use Rattle.payload.specs.Payload.{content, payload_of, written as written_bytes};
ghost use Rattle.buffer.specs.declared.Slot.TheVariants.{Ready, Old};
ghost use Rattle.translator.specs.declared.LowSide.TheVariants.{Idle};
ghost use Rattle.translator.specs.Answers.{choice_number, complete_number, launch_number, deliver_number};
ghost use Rattle.translator.specs.CompleteSplit.{given};
ghost use Rattle.area.specs.Written.{area_length, written_over};
ghost use Rattle.hub.specs.Method.{outcome_of};
ghost use Rattle.hub.specs.Checks.{refusal_number};
ghost use Rattle.hub.specs.Rules.{launch_answer};
ghost use Rattle.area_parts.specs.Parts.{low_over, buffer_over};
ghost use Rattle.grimholdi.specs.Outcome.{plain_struct};
ghost use Rattle.grimholdi.specs.Entry.{struct_of, result_struct, new_entry};
ghost use Rattle.grimholdi.specs.Asked.{gives};
ghost use Rattle.grimholdi.specs.Asked.Asked.{control, poll, start_split, complete_split, launch, deliver, line_event, tick, bus_reset};
ghost use Rattle.grimholdi.specs.Version.{version};
ghost use Rattle.grimholdi.specs.Claims.{EntryClaims};
ghost use Rattle.grimholdi.specs.Mistakes.{EntryMistakesShutOut};
ghost use Rattle.grimholdi.specs.Cases.{EntryCases};

use buffer::{Buffer, BufferNumber, DeviceResult, Slot, StartSplit};
use hub::{Hub, Refusal, Stepped};
use payload::Payload;
use port::PortCount;
use translator::{Choice, LowSide, NoResult, NotDelivered, NotLaunched};

// What a call answers; fields that don't apply are 0. The header's grimholdi_answer.
#[repr(C)]
#[derive(Clone, Copy)]
pub struct Answer {
    pub number: u8,
    pub length: u8,
    pub pid: u8,
    pub transfer: u8,
    pub lane: u8,
    pub address: u8,
    pub endpoint: u8,
    pub direction: u8,
    pub lowspeed: u8,
    pub toggle: u8,
}

// A number alone.
fn plain_answer(number: u8) -> Answer
    ensures { result ≡ plain_struct number }
{
    Answer {
        number,
        length: 0,
        pid: 0,
        transfer: 0,
        lane: 0,
        address: 0,
        endpoint: 0,
        direction: 0,
        lowspeed: 0,
        toggle: 0,
    }
}

fn refused(refusal: Refusal) -> Answer
    ensures { result ≡ plain_struct (refusal_number refusal) }
{
    plain_answer(refusal.number())
}

// A launch that gives nothing.
fn unlaunched(why: NotLaunched) -> Answer
    ensures { result ≡ plain_struct (launch_number (Err why)) }
{
    plain_answer(numbers::launch_answer(Err(why)))
}

fn delivered(answer: Result<(), NotDelivered>) -> Answer
    ensures { result ≡ plain_struct (deliver_number answer) }
{
    plain_answer(numbers::deliver_answer(answer))
}

// A complete-split that gives no result.
fn uncompleted(why: NoResult) -> Answer
    ensures { result ≡ plain_struct (complete_number (Err why)) }
{
    plain_answer(numbers::complete_answer(Err(why)))
}

fn started(choice: Choice) -> Answer
    ensures { result ≡ plain_struct (choice_number choice) }
{
    plain_answer(numbers::start_answer(Ok(choice)))
}

// What a call of the hub answers, as C sees it.
fn answer_of(o: Stepped) -> Answer
    ensures { result ≡ struct_of (outcome_of o).answer }
{
    Answer {
        number: o.reply.number,
        length: o.payload.size(),
        pid: o.reply.pid,
        transfer: o.reply.transfer,
        lane: o.reply.lane,
        address: o.reply.address,
        endpoint: o.reply.endpoint,
        direction: o.reply.direction,
        lowspeed: o.reply.lowspeed,
        toggle: o.reply.toggle,
    }
}

// The next hub into the area.
fn settle(o: Stepped, area: &mut [u8]) -> Answer
    ensures value { result ≡ struct_of (outcome_of o).answer }
    ensures area { area.new ≡ written_over o.hub area.old }
{
    area::write_area(o.hub, area);
    answer_of(o)
}

// The bytes into the reply space.
fn give_reply(o: Stepped, reply: &mut [u8]) -> Answer
    ensures value { result ≡ struct_of (outcome_of o).answer }
    ensures reply { reply.new ≡ written_bytes (content o.payload) reply.old }
{
    o.payload.give(reply);
    answer_of(o)
}

// The next hub into the area, and the bytes into the reply space.
fn settle_reply(o: Stepped, area: &mut [u8], reply: &mut [u8]) -> Answer
    ensures value { result ≡ struct_of (outcome_of o).answer }
    ensures area { area.new ≡ written_over o.hub area.old }
    ensures reply { reply.new ≡ written_bytes (content o.payload) reply.old }
{
    area::write_area(o.hub, area);
    give_reply(o, reply)
}

// ---- what the translator's calls give and write: the slots decide, and only what changes is written

// A launched transaction.
fn launch_answer(split: StartSplit, payload: Payload) -> Answer
    ensures { result ≡ struct_of (launch_answer split (content payload)) }
{
    Answer {
        number: numbers::launch_answer(Ok(split)),
        length: payload.size(),
        pid: numbers::pid_number(split.pid),
        transfer: numbers::type_number(split.transfer),
        lane: numbers::lane_number(split.lane),
        address: split.address.0,
        endpoint: split.endpoint,
        direction: numbers::direction_number(split.pid.direction()),
        lowspeed: numbers::flag_number(split.lowspeed),
        toggle: numbers::flag_number(split.toggle),
    }
}

// The result in buffer n, which is ready then, and an idle low side.
fn put_result(
    ports: PortCount,
    n: BufferNumber,
    split: StartSplit,
    res: DeviceResult,
    payload: &[u8],
    area: &mut [u8],
)
    ensures { area.new ≡ buffer_over ports.0 n (record { slot = Ready split res; payload = payload_of payload.now }) (low_over Idle area.old) }
{
    area_parts::write_low(LowSide::Idle, area);
    let ready = Buffer {
        slot: Slot::Ready(split, res),
        payload: Payload::of(payload),
    };
    area_parts::write_buffer(ports, n, ready, area);
}

// A result, with the bytes of data.
fn give_result(res: DeviceResult, payload: Payload, reply: &mut [u8]) -> Answer
    ensures value { result ≡ result_struct res (content (given res payload)) }
    ensures reply { reply.new ≡ written_bytes (content (given res payload)) reply.old }
{
    let data = translator::give(res, payload);
    data.give(reply);
    Answer {
        length: data.size(),
        pid: numbers::complete_pid(res),
        ..plain_answer(numbers::complete_answer(Ok(res)))
    }
}

// The result in buffer n was given: the buffer is old.
fn put_old(
    ports: PortCount,
    n: BufferNumber,
    split: StartSplit,
    res: DeviceResult,
    payload: Payload,
    area: &mut [u8],
)
    ensures { area.new ≡ buffer_over ports.0 n (record { slot = Old split res; payload = payload }) area.old }
{
    let old = Buffer {
        slot: Slot::Old(split, res),
        payload,
    };
    area_parts::write_buffer(ports, n, old, area);
}

// ---- the entries

pub fn grimholdi_version() -> u32
    ensures { result ≡ version }
{
    500
}

// The length of the area of a hub; 0 where a number is outside the rules.
pub fn grimholdi_area_length(ports: u32, buffers: u32) -> usize
    ensures { result ≡ area_length ports buffers }
{
    area::area_length(ports, buffers)
}

pub fn grimholdi_new(
    area: &mut [u8],
    ports: u32,
    buffers: u32,
    powergood: u32,
    current: u32,
    removable: u32,
) -> Answer
    ensures value { result ≡ (new_entry area.old ports buffers powergood current removable).answer }
    ensures area { area.new ≡ (new_entry area.old ports buffers powergood current removable).area }
{
    let Ok(hub) = Hub::new(ports, buffers, powergood, current, removable) else {
        return refused(Refusal::Outside);
    };
    if area.len() != area::area_length(ports, buffers) {
        return refused(Refusal::Outside);
    }
    area::write_area(hub, area);
    plain_answer(0)
}

pub fn grimholdi_control(area: &mut [u8], lane: u32, setup: &[u8], reply: &mut [u8]) -> Answer
    ensures value { result ≡ (gives area.old (control lane setup.now reply.old)).answer }
    ensures area { area.new ≡ (gives area.old (control lane setup.now reply.old)).area }
    ensures reply { reply.new ≡ (gives area.old (control lane setup.now reply.old)).reply }
{
    let Some(hub) = area::read_area(area) else {
        return refused(Refusal::Outside);
    };
    settle_reply(hub.control(lane, setup, reply.len()), area, reply)
}

// A poll changes no hub: the area is lent to be read, and stays as `gives` leaves it.
pub fn grimholdi_poll(area: &[u8], lane: u32, reply: &mut [u8]) -> Answer
    ensures value { result ≡ (gives area.now (poll lane reply.old)).answer }
    ensures area { area.now ≡ (gives area.now (poll lane reply.old)).area }
    ensures reply { reply.new ≡ (gives area.now (poll lane reply.old)).reply }
{
    let Some(hub) = area::read_area(area) else {
        return refused(Refusal::Outside);
    };
    give_reply(hub.poll(lane, reply.len()), reply)
}

pub fn grimholdi_start_split(
    area: &mut [u8],
    lane: u32,
    pid: u32,
    transfer: u32,
    lowspeed: u32,
    toggle: u32,
    address: u32,
    endpoint: u32,
    payload: &[u8],
) -> Answer
    ensures value { result ≡ (gives area.old (start_split lane pid transfer lowspeed toggle address endpoint payload.now)).answer }
    ensures area { area.new ≡ (gives area.old (start_split lane pid transfer lowspeed toggle address endpoint payload.now)).area }
{
    if !area_check::is_area(area) {
        return refused(Refusal::Outside);
    }
    let split = numbers::split_of(lane, pid, transfer, lowspeed, toggle, address, endpoint);
    let named = numbers::split_named(lane, pid, transfer, lowspeed, toggle, address, endpoint);
    let within = named & split.fits(payload.len());
    let head = area_parts::head_at(area);
    if let Err(refusal) = hub::first_refusal(within, true, head.configured, true) {
        return refused(refusal);
    }
    let slots = area_parts::slots_at(area, head.ports);
    let choice = translator::choose(slots, head.count, split.key());
    if let Choice::Reused(n) | Choice::Took(n) = choice {
        area_parts::store(slots, head.ports, n, split, payload, area);
    }
    started(choice)
}

pub fn grimholdi_complete_split(
    area: &mut [u8],
    lane: u32,
    address: u32,
    endpoint: u32,
    direction: u32,
    reply: &mut [u8],
) -> Answer
    ensures value { result ≡ (gives area.old (complete_split lane address endpoint direction reply.old)).answer }
    ensures area { area.new ≡ (gives area.old (complete_split lane address endpoint direction reply.old)).area }
    ensures reply { reply.new ≡ (gives area.old (complete_split lane address endpoint direction reply.old)).reply }
{
    if !area_check::is_area(area) {
        return refused(Refusal::Outside);
    }
    let named = numbers::key_named(lane, address, endpoint, direction);
    let head = area_parts::head_at(area);
    if let Err(refusal) = hub::first_refusal(named, 64 <= reply.len(), head.configured, true) {
        return refused(refusal);
    }
    let slots = area_parts::slots_at(area, head.ports);
    let key = numbers::key_of(lane, address, endpoint, direction);
    let Some(n) = translator::holder(slots, head.count, key) else {
        return uncompleted(NoResult::NoMatch);
    };
    let b = area_parts::buffer_at(area, head.ports, n);
    match b.slot {
        Slot::Empty => uncompleted(NoResult::NoMatch),
        Slot::Pending(_, _) => uncompleted(NoResult::NotYet),
        Slot::Ready(split, result) => {
            put_old(head.ports, n, split, result, b.payload, area);
            give_result(result, b.payload, reply)
        }
        Slot::Old(_, result) => give_result(result, b.payload, reply),
    }
}

pub fn grimholdi_launch(area: &mut [u8], reply: &mut [u8]) -> Answer
    ensures value { result ≡ (gives area.old (launch reply.old)).answer }
    ensures area { area.new ≡ (gives area.old (launch reply.old)).area }
    ensures reply { reply.new ≡ (gives area.old (launch reply.old)).reply }
{
    if !area_check::is_area(area) {
        return refused(Refusal::Outside);
    }
    let head = area_parts::head_at(area);
    if let Err(refusal) = hub::first_refusal(true, 64 <= reply.len(), head.configured, true) {
        return refused(refusal);
    }
    match head.low {
        LowSide::Idle => {}
        LowSide::Running(_) | LowSide::Abandoned => return unlaunched(NotLaunched::Occupied),
    }
    let slots = area_parts::slots_at(area, head.ports);
    let Some((n, _)) = translator::earliest_of(slots, head.count) else {
        return unlaunched(NotLaunched::NothingPending);
    };
    let b = area_parts::buffer_at(area, head.ports, n);
    let Slot::Pending(split, _) = b.slot else {
        return unlaunched(NotLaunched::NothingPending);
    };
    area_parts::write_low(LowSide::Running(n), area);
    b.payload.give(reply);
    launch_answer(split, b.payload)
}

pub fn grimholdi_deliver(area: &mut [u8], res: u32, payload: &[u8]) -> Answer
    ensures value { result ≡ (gives area.old (deliver res payload.now)).answer }
    ensures area { area.new ≡ (gives area.old (deliver res payload.now)).area }
{
    if !area_check::is_area(area) {
        return refused(Refusal::Outside);
    }
    let kind = numbers::result_of(res);
    let within = numbers::is_result(res) & kind.carries(payload.len());
    let head = area_parts::head_at(area);
    if let Err(refusal) = hub::first_refusal(within, true, head.configured, true) {
        return refused(refusal);
    }
    match head.low {
        LowSide::Idle => delivered(Err(NotDelivered::NotInThisState)),
        LowSide::Running(n) => match area_parts::slot_at(area, head.ports, n) {
            Slot::Pending(split, _) => {
                if !kind.suits(split.pid) {
                    return delivered(Err(NotDelivered::NotInThisState));
                }
                put_result(head.ports, n, split, kind, payload, area);
                delivered(Ok(()))
            }
            Slot::Empty | Slot::Ready(_, _) | Slot::Old(_, _) => {
                delivered(Err(NotDelivered::NotInThisState))
            }
        },
        LowSide::Abandoned => {
            area_parts::write_low(LowSide::Idle, area);
            delivered(Ok(()))
        }
    }
}

pub fn grimholdi_line_event(area: &mut [u8], event: u32, port: u32) -> Answer
    ensures value { result ≡ (gives area.old (line_event event port)).answer }
    ensures area { area.new ≡ (gives area.old (line_event event port)).area }
{
    let Some(hub) = area::read_area(area) else {
        return refused(Refusal::Outside);
    };
    settle(hub.line_event(event, port), area)
}

pub fn grimholdi_tick(area: &mut [u8]) -> Answer
    ensures value { result ≡ (gives area.old tick).answer }
    ensures area { area.new ≡ (gives area.old tick).area }
{
    let Some(hub) = area::read_area(area) else {
        return refused(Refusal::Outside);
    };
    settle(hub.tick(), area)
}

pub fn grimholdi_bus_reset(area: &mut [u8]) -> Answer
    ensures value { result ≡ (gives area.old bus_reset).answer }
    ensures area { area.new ≡ (gives area.old bus_reset).area }
{
    let Some(hub) = area::read_area(area) else {
        return refused(Refusal::Outside);
    };
    settle(hub.bus_reset(), area)
}

// What holds of every entry and of every run of entries.
fn entry_claims()
    ensures { EntryClaims }
{}

// Entries with one mistake break the claims.
fn entry_mistakes_shut_out()
    ensures { EntryMistakesShutOut }
{}

// Areas that no new hub comes to.
fn entry_cases()
    ensures { EntryCases }
{}
