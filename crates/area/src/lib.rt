// The written form of a hub in a lent byte area: its length, reading and writing.
#![tactic(auto)]

ghost use Rattle.std.specs.Prelude.{◌≡◌, [], ◌∷◌, ◌++◌, ◌+◌, ◌*◌, ◌<◌, ◌≤◌, length, get_or, map, take, drop, MatchOption};
ghost use Rattle.bools.specs.Bit.{bit};
ghost use Rattle.port.specs.Status.{byte_of};
ghost use Rattle.numbers.specs.Named.{result_from};
ghost use Rattle.payload.specs.Bytes.{flat};
ghost use Rattle.area.specs.Written.{marks_byte, port_bytes, held_bytes, slot_bytes, buffer_bytes, low_byte, running_byte, head_bytes, buffer_put, area_length, written_over};
ghost use Rattle.area_check.specs.Read.{marked_port, port_of, held_split, slot_of, buffer_of, low_of, no_ports, no_buffers, decoded};
ghost use Rattle.area.specs.Read.{buffer_from, read_of};
ghost use Rattle.area.specs.Claims.{AreaExact};
ghost use Rattle.area.specs.Cases.{ValidCases};

use buffer::{Buffer, BufferNumber, DeviceAddress, DeviceResult, Lane, Slot, StartSplit};
use hub::{Hub, Identity};
use payload::Payload;
use port::{Changes, Port, PortState};
use translator::{LowSide, Translator};

// ---- one port, 4 bytes

#[tactic(auto, unfolding(area_check::specs::Read::marked_port))]
fn marked_port(state: PortState, m: u8) -> Port
    ensures { result ≡ marked_port state m }
{
    Port {
        state,
        overcurrent: m / 2 / 2 / 2 / 2 / 2 % 2 == 1,
        changes: Changes {
            connection: m % 2 == 1,
            enable: m / 2 % 2 == 1,
            suspend: m / 2 / 2 % 2 == 1,
            overcurrent: m / 2 / 2 / 2 % 2 == 1,
            reset: m / 2 / 2 / 2 / 2 % 2 == 1,
        },
    }
}

#[tactic(auto, unfolding(area_check::specs::Read::port_of))]
fn port_of(b: &[u8; 4]) -> Port
    ensures { result ≡ port_of b.now }
{
    let state = port::state_of(b[0], port::speed_of(b[1]), b[2]);
    marked_port(state, b[3])
}

fn marks_byte(p: Port) -> u8
    ensures { result ≡ marks_byte p }
{
    p.changes.byte() + 32 * bools::bit_of(p.overcurrent)
}

#[tactic(auto, unfolding(crate::specs::Written::port_bytes))]
fn port_bytes(p: Port) -> [u8; 4]
    ensures { result ≡ port_bytes p }
{
    let s = p.state;
    [s.number(), s.speed(), s.ticks(), marks_byte(p)]
}

// ---- one buffer, 72 bytes

#[tactic(auto, unfolding(area_check::specs::Read::held_split))]
fn held_split(b: &[u8; 72]) -> StartSplit
    ensures { result ≡ held_split b.now }
{
    StartSplit {
        lane: area_check::lane_in(b[3]),
        pid: numbers::pid_of(b[1].into()),
        transfer: numbers::type_of(b[2].into()),
        lowspeed: b[3] % 2 == 1,
        toggle: b[3] / 2 % 2 == 1,
        address: DeviceAddress(b[4]),
        endpoint: b[5],
    }
}

fn result_of(n: u8) -> DeviceResult
    ensures { result ≡ result_from n }
{
    numbers::result_of(n.into())
}

#[tactic(auto, unfolding(area_check::specs::Read::slot_of))]
fn slot_of(b: &[u8; 72]) -> Slot
    ensures { result ≡ slot_of b.now }
{
    let split = held_split(b);
    let last = b[6];
    match b[0] {
        1 => Slot::Pending(split, last),
        2 => Slot::Ready(split, result_of(last)),
        3 => Slot::Old(split, result_of(last)),
        _ => Slot::Empty,
    }
}

#[tactic(auto, unfolding(area_check::specs::Read::buffer_of))]
fn buffer_of(b: &[u8; 72]) -> Buffer
    ensures { result ≡ buffer_of b.now }
{
    let mut bytes = [0u8; 64];
    bytes.copy_from_slice(&b[8..]);
    Buffer {
        slot: slot_of(b),
        payload: Payload { len: b[7], bytes },
    }
}

fn flags_byte(lowspeed: bool, toggle: bool, one: bool) -> u8
    ensures { result ≡ byte_of (lowspeed ∷ toggle ∷ one ∷ []) }
{
    bools::bit_of(lowspeed) + 2 * (bools::bit_of(toggle) + 2 * bools::bit_of(one))
}

fn held_bytes(status: u8, split: StartSplit, last: u8, len: u8) -> [u8; 8]
    ensures { result ≡ held_bytes status split last len }
{
    [
        status,
        numbers::pid_number(split.pid),
        numbers::type_number(split.transfer),
        flags_byte(split.lowspeed, split.toggle, split.lane == Lane::One),
        split.address.0,
        split.endpoint,
        last,
        len,
    ]
}

fn slot_bytes(slot: Slot, len: u8) -> [u8; 8]
    ensures { result ≡ slot_bytes slot len }
{
    match slot {
        Slot::Empty => [0, 0, 0, 0, 0, 0, 0, len],
        Slot::Pending(split, place) => held_bytes(1, split, place, len),
        Slot::Ready(split, result) => held_bytes(2, split, numbers::result_number(result), len),
        Slot::Old(split, result) => held_bytes(3, split, numbers::result_number(result), len),
    }
}

fn put_buffer(out: &mut [u8], b: &Buffer)
    requires { length out.old ≡ 72 }
    ensures { out.new ≡ buffer_bytes b.now }
{
    out[..8].copy_from_slice(&slot_bytes(b.slot, b.payload.len));
    out[8..].copy_from_slice(&b.payload.bytes);
}

// ---- one buffer in an area, its 72 bytes from `at` on

// Those bytes, where the area has them.
fn row_at(area: &[u8], at: u16) -> Option<&[u8; 72]>
    ensures { MatchOption result (length area.now < at + 72) (λ b. (at + 72 ≤ length area.now) × (b.now ≡ take 72 (drop at area.now))) }
{
    let start = at as usize;
    area.get(start..start + 72)?.as_array()
}

// Its slot; empty where the area doesn't have the bytes.
pub fn slot_at(area: &[u8], at: u16) -> Slot
    ensures { result ≡ (buffer_from at area.now).slot }
{
    let Some(b) = row_at(area, at) else {
        return Slot::Empty;
    };
    slot_of(b)
}

// The whole of it; an empty one where the area doesn't have the bytes.
pub fn buffer_at(area: &[u8], at: u16) -> Buffer
    ensures { result ≡ buffer_from at area.now }
{
    let Some(b) = row_at(area, at) else {
        return Buffer::vacant();
    };
    buffer_of(b)
}

// The buffer over those bytes, where the area has them.
pub fn put_buffer_at(buffer: Buffer, area: &mut [u8], at: u16)
    ensures { area.new ≡ buffer_put at buffer area.old }
{
    let start = at as usize;
    let end = start + 72;
    if end <= area.len() {
        put_buffer(&mut area[start..end], &buffer);
    }
}

// ---- rows of ports and buffers

#[tactic(auto, unfolding(area_check::specs::Read::no_ports))]
fn get_ports(rows: &[[u8; 4]]) -> [Port; 7]
    requires { length rows.now ≤ 7 }
    ensures { result ≡ map port_of rows.now ++ drop (length rows.now) no_ports }
{
    let mut ports = [Port::new(); 7];
    for (i, row) in rows.iter().enumerate() {
        ports[i] = port_of(row);
    }
    ports
}

#[tactic(auto, unfolding(area_check::specs::Read::no_buffers))]
fn get_buffers(rows: &[[u8; 72]]) -> [Buffer; 4]
    requires { length rows.now ≤ 4 }
    ensures { result ≡ map buffer_of rows.now ++ drop (length rows.now) no_buffers }
{
    let mut buffers = [Buffer::vacant(); 4];
    for (i, row) in rows.iter().enumerate() {
        buffers[i] = buffer_of(row);
    }
    buffers
}

fn put_ports(out: &mut [u8], ports: &[Port])
    requires { (length ports.now ≤ 7) × (length out.old ≡ length ports.now * 4) }
    ensures { out.new ≡ flat port_bytes ports.now }
{
    for (i, port) in ports.iter().enumerate() {
        out[i * 4..i * 4 + 4].copy_from_slice(&port_bytes(*port));
    }
}

fn put_buffers(out: &mut [u8], buffers: &[Buffer])
    requires { (length buffers.now ≤ 4) × (length out.old ≡ length buffers.now * 72) }
    ensures { out.new ≡ flat buffer_bytes buffers.now }
{
    for (i, buffer) in buffers.iter().enumerate() {
        put_buffer(&mut out[i * 72..i * 72 + 72], buffer);
    }
}

// ---- the hub

pub fn low_of(k: u8, n: u8) -> LowSide
    ensures { result ≡ low_of k n }
{
    match k {
        1 => LowSide::Running(BufferNumber(n)),
        2 => LowSide::Abandoned,
        _ => LowSide::Idle,
    }
}

pub fn low_byte(low: LowSide) -> u8
    ensures { result ≡ low_byte low }
{
    match low {
        LowSide::Idle => 0,
        LowSide::Running(_) => 1,
        LowSide::Abandoned => 2,
    }
}

pub fn running_byte(low: LowSide) -> u8
    ensures { result ≡ running_byte low }
{
    match low {
        LowSide::Running(n) => n.0,
        LowSide::Idle | LowSide::Abandoned => 0,
    }
}

#[tactic(auto, unfolding(crate::specs::Written::head_bytes))]
fn head_bytes(hub: &Hub) -> [u8; 8]
    ensures { result ≡ head_bytes hub.now.identity hub.now.configured hub.now.translator.count hub.now.translator.low }
{
    [
        hub.identity.ports,
        hub.translator.count,
        hub.identity.powergood,
        hub.identity.current,
        hub.identity.removable,
        bools::bit_of(hub.configured),
        low_byte(hub.translator.low),
        running_byte(hub.translator.low),
    ]
}

// The length of the area of a hub with these numbers of ports and buffers; 0 where a number is outside the rules.
#[tactic(auto, unfolding(crate::specs::Written::area_length))]
pub fn area_length(ports: u32, buffers: u32) -> usize
    ensures { result ≡ area_length ports buffers }
{
    match (ports, buffers) {
        (1..=7, 2..=4) => 8 + ports as usize * 4 + buffers as usize * 72,
        _ => 0,
    }
}

fn decode(area: &[u8]) -> Hub
    requires { (8 ≤ length area.now) × (get_or area.now 0 0 ≤ 7) × (get_or area.now 1 0 ≤ 4) × (length area.now ≡ 8 + get_or area.now 0 0 * 4 + get_or area.now 1 0 * 72) }
    ensures { result ≡ decoded area.now }
{
    let mid = 8 + area[0] as usize * 4;
    let (ports, _) = area[8..mid].as_chunks::<4>();
    let (buffers, _) = area[mid..].as_chunks::<72>();
    Hub {
        identity: Identity {
            ports: area[0],
            powergood: area[2],
            current: area[3],
            removable: area[4],
        },
        configured: area[5] == 1,
        ports: get_ports(ports),
        translator: Translator {
            buffers: get_buffers(buffers),
            count: area[1],
            low: low_of(area[6], area[7]),
        },
    }
}

// The hub whose written form the area is, if of a valid one. Kept apart: inlined, the frames add up (docs/SPEED.md).
#[inline(never)]
pub fn read_area(area: &[u8]) -> Option<Hub>
    ensures { result ≡ read_of area.now }
{
    if !area_check::is_area(area) {
        return None;
    }
    Some(decode(area))
}

// The hub's written form over the area, where the area has its length; else the area is kept.
pub fn write_area(hub: Hub, area: &mut [u8])
    ensures { area.new ≡ written_over hub area.old }
{
    let n = (hub.identity.ports as usize).min(7);
    let m = (hub.translator.count as usize).min(4);
    let mid = 8 + n * 4;
    let end = mid + m * 72;
    if area.len() != end {
        return;
    }
    area[0..8].copy_from_slice(&head_bytes(&hub));
    put_ports(&mut area[8..mid], &hub.ports[..n]);
    put_buffers(&mut area[mid..end], &hub.translator.buffers[..m]);
}

// Acceptance is exact; the function does nothing.
fn area_exact()
    ensures { AreaExact }
{}

// What is valid and what isn't, clause by clause; the function does nothing.
fn valid_cases()
    ensures { ValidCases }
{}
