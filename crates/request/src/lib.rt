// The requests of the hub: the eight bytes of a setup packet to what they ask for, or to the first field that is wrong.
#![tactic(auto)]

ghost use Rattle.std.specs.Prelude.{◌≡◌};
ghost use Rattle.request.specs.Setup.{word_of, setup_of};
ghost use Rattle.request.specs.Values.{
  is_settable,
  settable_of,
  is_clearable,
  change_of,
  clearable_of,
  is_pipe,
  direction_in,
  pipe_in,
};
ghost use Rattle.request.specs.Table.{kind_of, value_fits, is_port, index_fits, length_fits};
ghost use Rattle.request.specs.Request.{port_in, meaning, request_of};
ghost use Rattle.request.specs.Claims.{RequestClaims};
ghost use Rattle.request.specs.Cases.{CasesHold};

use buffer::{DeviceAddress, Direction};
use port::{ChangeBit, ClearableFeature, PortCount, PortNumber, SettableFeature};

// The fields of a setup packet: bmRequestType, bRequest, wValue, wIndex, wLength.
#[derive(Clone, Copy)]
pub struct Setup {
    pub requesttype: u8,
    pub code: u8,
    pub value: u16,
    pub index: u16,
    pub length: u16,
}

// The row of the table that type and code name.
#[derive(Clone, Copy, PartialEq, Eq)]
pub enum Kind {
    SetConfiguration,
    GetConfiguration,
    GetHubDescriptor,
    GetHubStatus,
    GetPortStatus,
    ClearHubFeature,
    ClearPortFeature,
    SetPortFeature,
    ClearTTBuffer,
    ResetTT,
}

// What is wrong first, in this order.
#[derive(Clone, Copy, PartialEq, Eq)]
pub enum Fault {
    TypeOrCode,
    Value,
    Index,
    Length,
}

// What ClearTTBuffer names: address, endpoint and direction. With the lane of the caller it is a key.
#[derive(Clone, Copy)]
pub struct Pipe {
    pub address: DeviceAddress,
    pub endpoint: u8,
    pub direction: Direction,
}

// GetHubDescriptor has wLength, SetConfiguration whether its value is 1.
#[derive(Clone, Copy)]
pub enum Request {
    SetConfiguration(bool),
    GetConfiguration,
    GetHubDescriptor(u16),
    GetHubStatus,
    GetPortStatus(PortNumber),
    ClearHubFeature,
    ClearPortFeature(PortNumber, ClearableFeature),
    SetPortFeature(PortNumber, SettableFeature),
    ClearTTBuffer(Pipe),
    ResetTT,
}

// A little-endian word of the setup packet.
fn word(low: u8, high: u8) -> u16
    ensures { result ≡ word_of low high }
{
    u16::from_le_bytes([low, high])
}

// The fields of the eight setup bytes.
impl From<[u8; 8]> for Setup {
    ghost from_gives = { λ bytes setup. setup ≡ setup_of bytes };

    fn from(bytes: [u8; 8]) -> Setup {
        Setup {
            requesttype: bytes[0],
            code: bytes[1],
            value: word(bytes[2], bytes[3]),
            index: word(bytes[4], bytes[5]),
            length: word(bytes[6], bytes[7]),
        }
    }
}

// The row that type and code name, if one does.
#[tactic(auto, unfolding(crate::specs::Table::kind_of))]
pub fn kind_of(requesttype: u8, code: u8) -> Option<Kind>
    ensures { result ≡ kind_of requesttype code }
{
    match (requesttype, code) {
        (0x00, 0x09) => Some(Kind::SetConfiguration),
        (0x80, 0x08) => Some(Kind::GetConfiguration),
        (0xA0, 0x06) => Some(Kind::GetHubDescriptor),
        (0xA0, 0x00) => Some(Kind::GetHubStatus),
        (0xA3, 0x00) => Some(Kind::GetPortStatus),
        (0x20, 0x01) => Some(Kind::ClearHubFeature),
        (0x23, 0x01) => Some(Kind::ClearPortFeature),
        (0x23, 0x03) => Some(Kind::SetPortFeature),
        (0x23, 0x08) => Some(Kind::ClearTTBuffer),
        (0x23, 0x09) => Some(Kind::ResetTT),
        _ => None,
    }
}

fn is_settable(value: u16) -> bool
    ensures { result ≡ is_settable value }
{
    matches!(value, 2 | 4 | 8)
}

fn settable_of(value: u16) -> SettableFeature
    ensures { result ≡ settable_of value }
{
    match value {
        2 => SettableFeature::Suspend,
        4 => SettableFeature::Reset,
        _ => SettableFeature::Power,
    }
}

fn is_clearable(value: u16) -> bool
    ensures { result ≡ is_clearable value }
{
    matches!(value, 1 | 2 | 8 | 16..=20)
}

fn change_of(value: u16) -> ChangeBit
    ensures { result ≡ change_of value }
{
    match value {
        16 => ChangeBit::Connection,
        17 => ChangeBit::Enable,
        18 => ChangeBit::Suspend,
        19 => ChangeBit::OverCurrent,
        _ => ChangeBit::Reset,
    }
}

fn clearable_of(value: u16) -> ClearableFeature
    ensures { result ≡ clearable_of value }
{
    match value {
        1 => ClearableFeature::Enable,
        2 => ClearableFeature::Suspend,
        8 => ClearableFeature::Power,
        _ => ClearableFeature::Change(change_of(value)),
    }
}

// Whether wValue of ClearTTBuffer has a right type and zeros in bits 13 and 14.
fn is_pipe(value: u16) -> bool
    ensures { result ≡ is_pipe value }
{
    matches!(value / 2048 % 4, 0 | 2) && value / 8192 % 4 == 0
}

fn direction_in(bit: u16) -> Direction
    ensures { result ≡ direction_in bit }
{
    match bit {
        1 => Direction::In,
        _ => Direction::Out,
    }
}

// The pipe that wValue of ClearTTBuffer names.
fn pipe_in(value: u16) -> Pipe
    ensures { result ≡ pipe_in value }
{
    Pipe {
        address: DeviceAddress((value / 16 % 128) as u8),
        endpoint: (value % 16) as u8,
        direction: direction_in(value / 32768),
    }
}

// With the high byte set, an index is above every u8.
fn is_port(ports: PortCount, index: u16) -> bool
    ensures { result ≡ is_port ports.0 index }
{
    1 <= index && index <= ports.0 as u16
}

// The port that wIndex names, once it is found to be one of the hub's.
fn port_in(index: u16) -> PortNumber
    ensures { result ≡ port_in index }
{
    PortNumber(index as u32)
}

impl Kind {
    fn value_fits(self, value: u16) -> bool
        ensures { result ≡ value_fits self value }
    {
        match self {
            Kind::SetConfiguration | Kind::ClearHubFeature => value <= 1,
            Kind::GetHubDescriptor => value == 0x2900,
            Kind::ClearPortFeature => is_clearable(value),
            Kind::SetPortFeature => is_settable(value),
            Kind::ClearTTBuffer => is_pipe(value),
            Kind::GetConfiguration | Kind::GetHubStatus | Kind::GetPortStatus | Kind::ResetTT =>
                value == 0,
        }
    }

    fn index_fits(self, ports: PortCount, index: u16) -> bool
        ensures { result ≡ index_fits ports.0 self index }
    {
        match self {
            Kind::SetConfiguration
            | Kind::GetConfiguration
            | Kind::GetHubDescriptor
            | Kind::GetHubStatus
            | Kind::ClearHubFeature => index == 0,
            Kind::GetPortStatus | Kind::ClearPortFeature | Kind::SetPortFeature => {
                is_port(ports, index)
            }
            Kind::ClearTTBuffer | Kind::ResetTT => index == 1,
        }
    }

    fn length_fits(self, length: u16) -> bool
        ensures { result ≡ length_fits self length }
    {
        match self {
            Kind::GetHubDescriptor => true,
            Kind::GetConfiguration => length == 1,
            Kind::GetHubStatus | Kind::GetPortStatus => length == 4,
            Kind::SetConfiguration
            | Kind::ClearHubFeature
            | Kind::ClearPortFeature
            | Kind::SetPortFeature
            | Kind::ClearTTBuffer
            | Kind::ResetTT => length == 0,
        }
    }

    // What a setup packet of this kind asks for, its fields being right.
    fn meaning(self, value: u16, index: u16, length: u16) -> Request
        ensures { result ≡ meaning self value index length }
    {
        match self {
            Kind::SetConfiguration => Request::SetConfiguration(value == 1),
            Kind::GetConfiguration => Request::GetConfiguration,
            Kind::GetHubDescriptor => Request::GetHubDescriptor(length),
            Kind::GetHubStatus => Request::GetHubStatus,
            Kind::GetPortStatus => Request::GetPortStatus(port_in(index)),
            Kind::ClearHubFeature => Request::ClearHubFeature,
            Kind::ClearPortFeature => Request::ClearPortFeature(
                port_in(index),
                clearable_of(value),
            ),
            Kind::SetPortFeature => Request::SetPortFeature(port_in(index), settable_of(value)),
            Kind::ClearTTBuffer => Request::ClearTTBuffer(pipe_in(value)),
            Kind::ResetTT => Request::ResetTT,
        }
    }
}

// What the setup bytes ask for, or what is wrong first; `ports` is N, the number of the hub's ports.
#[tactic(auto, unfolding(crate::specs::Request::checked, crate::specs::Request::request_of))]
pub fn read(setup: [u8; 8], ports: PortCount) -> Result<Request, Fault>
    ensures { result ≡ request_of ports.0 setup }
{
    let s = Setup::from(setup);
    let kind = kind_of(s.requesttype, s.code).ok_or(Fault::TypeOrCode)?;
    if !kind.value_fits(s.value) {
        return Err(Fault::Value);
    }
    if !kind.index_fits(ports, s.index) {
        return Err(Fault::Index);
    }
    if !kind.length_fits(s.length) {
        return Err(Fault::Length);
    }
    Ok(kind.meaning(s.value, s.index, s.length))
}

// Pins the claims on every setup packet; the function does nothing.
fn request_claims()
    ensures { RequestClaims }
{}

// Setup packets from literal bytes; the function does nothing.
#[tactic(auto, unfolding(crate::specs::Table::kind_of, crate::specs::Request::checked, crate::specs::Request::request_of))]
fn request_cases()
    ensures { CasesHold }
{}
