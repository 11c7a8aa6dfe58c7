// The numbers of the C interface: what each names, and the number of each value and answer.
#![tactic(auto)]

ghost use Rattle.std.specs.Prelude.{◌≡◌};
ghost use Rattle.bools.specs.Bit.{bit};
ghost use Rattle.translator.specs.Answers.{
  choice_number,
  start_number,
  result_number,
  result_pid,
  lane_number,
  pid_number,
  complete_number,
  launch_number,
  deliver_number,
};
ghost use Rattle.numbers.specs.Written.{type_number, direction_number, result_written};
ghost use Rattle.numbers.specs.Named.{
  is_pid,
  pid_from,
  is_type,
  type_from,
  is_result,
  result_from,
  is_direction,
  direction_from,
  is_lane,
  lane_from,
  is_event,
  event_from,
  is_flag,
  flag_from,
  port_named,
};
ghost use Rattle.numbers.specs.Split.{split_named, split_from, key_named, key_from};
ghost use Rattle.numbers.specs.Claims.{NumbersClaims};

use buffer::{DeviceAddress, DeviceResult, Direction, Key, Lane, Pid, StartSplit, TransferType};
use port::{LineEvent, PortCount};
use translator::{Choice, NoResult, NotDelivered, NotLaunched, Outside};

// ---- what a number names

pub fn is_lane(n: u32) -> bool
    ensures { result ≡ is_lane n }
{
    matches!(n, 0 | 1)
}

pub fn lane_of(n: u32) -> Lane
    ensures { result ≡ lane_from n }
{
    match n {
        1 => Lane::One,
        _ => Lane::Zero,
    }
}

pub fn is_pid(n: u32) -> bool
    ensures { result ≡ is_pid n }
{
    matches!(n, 1 | 9 | 13)
}

pub fn pid_of(n: u32) -> Pid
    ensures { result ≡ pid_from n }
{
    match n {
        9 => Pid::In,
        13 => Pid::Setup,
        _ => Pid::Out,
    }
}

pub fn is_type(n: u32) -> bool
    ensures { result ≡ is_type n }
{
    matches!(n, 0 | 2)
}

pub fn type_of(n: u32) -> TransferType
    ensures { result ≡ type_from n }
{
    match n {
        2 => TransferType::Bulk,
        _ => TransferType::Control,
    }
}

pub fn is_result(n: u32) -> bool
    ensures { result ≡ is_result n }
{
    matches!(n, 0 | 2 | 10 | 14 | 3 | 11)
}

pub fn result_of(n: u32) -> DeviceResult
    ensures { result ≡ result_from n }
{
    match n {
        2 => DeviceResult::Ack,
        10 => DeviceResult::Nak,
        14 => DeviceResult::Stall,
        3 => DeviceResult::Data0,
        11 => DeviceResult::Data1,
        _ => DeviceResult::Failure,
    }
}

pub fn is_direction(n: u32) -> bool
    ensures { result ≡ is_direction n }
{
    matches!(n, 0 | 1)
}

pub fn direction_of(n: u32) -> Direction
    ensures { result ≡ direction_from n }
{
    match n {
        1 => Direction::In,
        _ => Direction::Out,
    }
}

pub fn is_event(n: u32) -> bool
    ensures { result ≡ is_event n }
{
    n <= 7
}

pub fn event_of(n: u32) -> LineEvent
    ensures { result ≡ event_from n }
{
    match n {
        1 => LineEvent::AttachFull,
        2 => LineEvent::Detach,
        3 => LineEvent::Chirp,
        4 => LineEvent::Wake,
        5 => LineEvent::PortError,
        6 => LineEvent::OverCurrentOn,
        7 => LineEvent::OverCurrentOff,
        _ => LineEvent::AttachLow,
    }
}

pub fn is_flag(n: u32) -> bool
    ensures { result ≡ is_flag n }
{
    n <= 1
}

pub fn flag_of(n: u32) -> bool
    ensures { result ≡ flag_from n }
{
    n == 1
}

// One of a hub's `count` ports.
pub fn port_named(count: PortCount, n: u32) -> bool
    ensures { result ≡ port_named count.0 n }
{
    1 <= n && n <= count.0 as u32
}

// ---- start-splits and keys

#[tactic(auto, unfolding(crate::specs::Split::split_named))]
pub fn split_named(
    lane: u32,
    pid: u32,
    transfer: u32,
    lowspeed: u32,
    toggle: u32,
    address: u32,
    endpoint: u32,
) -> bool
    ensures { result ≡ split_named lane pid transfer lowspeed toggle address endpoint }
{
    is_lane(lane)
        && is_pid(pid)
        && is_type(transfer)
        && is_flag(lowspeed)
        && is_flag(toggle)
        && address < 128
        && endpoint < 16
}

#[tactic(auto, unfolding(crate::specs::Split::split_from))]
pub fn split_of(
    lane: u32,
    pid: u32,
    transfer: u32,
    lowspeed: u32,
    toggle: u32,
    address: u32,
    endpoint: u32,
) -> StartSplit
    ensures { result ≡ split_from lane pid transfer lowspeed toggle address endpoint }
{
    StartSplit {
        lane: lane_of(lane),
        pid: pid_of(pid),
        transfer: type_of(transfer),
        lowspeed: flag_of(lowspeed),
        toggle: flag_of(toggle),
        address: DeviceAddress((address % 128) as u8),
        endpoint: (endpoint % 16) as u8,
    }
}

#[tactic(auto, unfolding(crate::specs::Split::key_named))]
pub fn key_named(lane: u32, address: u32, endpoint: u32, direction: u32) -> bool
    ensures { result ≡ key_named lane address endpoint direction }
{
    is_lane(lane) && address < 128 && endpoint < 16 && is_direction(direction)
}

#[tactic(auto, unfolding(crate::specs::Split::key_from))]
pub fn key_of(lane: u32, address: u32, endpoint: u32, direction: u32) -> Key
    ensures { result ≡ key_from lane address endpoint direction }
{
    Key::new(
        lane_of(lane),
        DeviceAddress((address % 128) as u8),
        (endpoint % 16) as u8,
        direction_of(direction),
    )
}

// ---- the number of a value

pub fn lane_number(lane: Lane) -> u8
    ensures { result ≡ lane_number lane }
{
    lane as u8
}

pub fn pid_number(pid: Pid) -> u8
    ensures { result ≡ pid_number pid }
{
    match pid {
        Pid::Out => 1,
        Pid::In => 9,
        Pid::Setup => 13,
    }
}

pub fn type_number(transfer: TransferType) -> u8
    ensures { result ≡ type_number transfer }
{
    match transfer {
        TransferType::Control => 0,
        TransferType::Bulk => 2,
    }
}

pub fn direction_number(direction: Direction) -> u8
    ensures { result ≡ direction_number direction }
{
    direction as u8
}

// A failure is 0.
pub fn result_number(res: DeviceResult) -> u8
    ensures { result ≡ result_written res }
{
    match res {
        DeviceResult::Failure => 0,
        DeviceResult::Ack => 2,
        DeviceResult::Nak => 10,
        DeviceResult::Stall => 14,
        DeviceResult::Data0 => 3,
        DeviceResult::Data1 => 11,
    }
}

pub fn flag_number(flag: bool) -> u8
    ensures { result ≡ bit flag }
{
    u8::from(flag)
}

// ---- the number of an answer

pub fn start_answer(answer: Result<Choice, Outside>) -> u8
    ensures { result ≡ start_number answer }
{
    match answer {
        Err(Outside) => 6,
        Ok(choice) => choice_answer(choice),
    }
}

fn choice_answer(choice: Choice) -> u8
    ensures { result ≡ choice_number choice }
{
    match choice {
        Choice::NoRoom | Choice::LimitReached => 3,
        Choice::Held(_) | Choice::Reused(_) | Choice::Took(_) => 0,
    }
}

pub fn complete_answer(answer: Result<DeviceResult, NoResult>) -> u8
    ensures { result ≡ complete_number answer }
{
    match answer {
        Err(NoResult::NoMatch) => 2,
        Err(NoResult::NotYet) => 4,
        Ok(result) => result_answer(result),
    }
}

fn result_answer(res: DeviceResult) -> u8
    ensures { result ≡ result_number res }
{
    if res.is_data() { 1 } else { 9 }
}

// The PID that a complete-split answers; a failure shows as STALL.
pub fn complete_pid(res: DeviceResult) -> u8
    ensures { result ≡ result_pid res }
{
    match res {
        DeviceResult::Failure => 14,
        DeviceResult::Ack => 2,
        DeviceResult::Nak => 10,
        DeviceResult::Stall => 14,
        DeviceResult::Data0 => 3,
        DeviceResult::Data1 => 11,
    }
}

pub fn launch_answer(answer: Result<StartSplit, NotLaunched>) -> u8
    ensures { result ≡ launch_number answer }
{
    match answer {
        Err(NotLaunched::NothingPending) => 3,
        Err(NotLaunched::Occupied) => 8,
        Ok(_) => 1,
    }
}

pub fn deliver_answer(answer: Result<(), NotDelivered>) -> u8
    ensures { result ≡ deliver_number answer }
{
    match answer {
        Err(NotDelivered::Outside) => 6,
        Err(NotDelivered::NotInThisState) => 8,
        Ok(()) => 0,
    }
}

// What holds of the numbers; the function does nothing.
fn numbers_claims()
    ensures { NumbersClaims }
{}
