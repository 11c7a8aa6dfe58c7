// Keys, start-splits, results, and one buffer of the transaction translator, by value.
#![tactic(auto)]

ghost use Rattle.std.specs.Prelude.{◌≡◌};
ghost use Rattle.buffer.specs.Same.{same_key};
ghost use Rattle.buffer.specs.Claims.{KeyTest};
ghost use Rattle.buffer.specs.Key.{direction_of, key_with, key_of, same_lane};
ghost use Rattle.buffer.specs.Lengths.{type_fits, numbers_fit, start_length, start_fits, is_data, result_length, suits};
ghost use Rattle.buffer.specs.Standing.{standing};
ghost use Rattle.buffer.specs.Buffer.{vacant, in_lane, active_in, holds};

use payload::Payload;

// The number of a buffer, counted from 0. No port number and no device address can stand for it.
#[derive(Clone, Copy, PartialEq, Eq)]
pub struct BufferNumber(pub u8);

// How many buffers a translator has.
#[derive(Clone, Copy, PartialEq, Eq)]
pub struct BufferCount(pub u8);

// The address of a device on the bus, 0 to 127.
#[derive(Clone, Copy, PartialEq, Eq)]
pub struct DeviceAddress(pub u8);

// The way in of one of the two computers (an upstream facing port, in USB's words).
#[derive(Clone, Copy, PartialEq, Eq)]
pub enum Lane {
    Zero,
    One,
}

#[derive(Clone, Copy, PartialEq, Eq)]
pub enum Direction {
    Out,
    In,
}

// What a buffer is held under.
#[derive(Clone, Copy, PartialEq, Eq)]
pub struct Key {
    pub lane: Lane,
    pub address: DeviceAddress,
    pub endpoint: u8,
    pub direction: Direction,
}

// The PID of a start-split's token.
#[derive(Clone, Copy, PartialEq, Eq)]
pub enum Pid {
    Out,
    In,
    Setup,
}

#[derive(Clone, Copy, PartialEq, Eq)]
pub enum TransferType {
    Control,
    Bulk,
}

// What a start-split asks for, its payload apart. The key follows from it, so that key and PID agree.
#[derive(Clone, Copy, PartialEq, Eq)]
pub struct StartSplit {
    pub lane: Lane,
    pub pid: Pid,
    pub transfer: TransferType,
    pub lowspeed: bool,
    pub toggle: bool,
    pub address: DeviceAddress,
    pub endpoint: u8,
}

// What came of a transaction on the full- or low-speed bus.
#[derive(Clone, Copy, PartialEq, Eq)]
pub enum DeviceResult {
    Failure,
    Ack,
    Nak,
    Stall,
    Data0,
    Data1,
}

// A pending buffer has a place in the order of acceptance.
#[derive(Clone, Copy, PartialEq, Eq)]
pub enum Slot {
    Empty,
    Pending(StartSplit, u8),
    Ready(StartSplit, DeviceResult),
    Old(StartSplit, DeviceResult),
}

// The payload is the start-split's while the buffer is pending, and then the result's.
#[derive(Clone, Copy)]
pub struct Buffer {
    pub slot: Slot,
    pub payload: Payload,
}

// How a buffer stands to a key that is looked for.
#[derive(Clone, Copy, PartialEq, Eq)]
pub enum Standing {
    // pending or ready under another key
    Busy,
    // empty, or old under another key
    Free,
    // pending or ready under the key
    Holds,
    // old under the key
    Reusable,
}

impl Pid {
    pub fn direction(self) -> Direction
        ensures { result ≡ direction_of self }
    {
        match self {
            Pid::In => Direction::In,
            Pid::Out | Pid::Setup => Direction::Out,
        }
    }
}

impl Key {
    // The one place where a key is made.
    pub fn new(lane: Lane, address: DeviceAddress, endpoint: u8, direction: Direction) -> Key
        ensures { result ≡ key_with lane address endpoint direction }
    {
        Key {
            lane,
            address,
            endpoint,
            direction,
        }
    }

    // The one test of keys. Most differ in their address, so that it stands first; the others
    // are joined by &, since the compiler makes four bytes of one word first out of && all through.
    #[tactic(auto, unfolding(crate::specs::Same::same_key))]
    pub fn same(self, other: Key) -> bool
        ensures { result ≡ same_key self other }
    {
        self.address == other.address
            && (self.lane == other.lane)
                & (self.endpoint == other.endpoint)
                & (self.direction == other.direction)
    }
}

impl StartSplit {
    // The one place where a key is made of a start-split.
    pub fn key(self) -> Key
        ensures { result ≡ key_of self }
    {
        Key::new(self.lane, self.address, self.endpoint, self.pid.direction())
    }

    pub fn is_for(self, key: Key) -> bool
        ensures { result ≡ same_key (key_of self) key }
    {
        self.key().same(key)
    }

    // Whether its numbers are within the rules.
    #[tactic(auto, unfolding(crate::specs::Lengths::numbers_fit))]
    pub fn has_numbers(self) -> bool
        ensures { result ≡ numbers_fit self }
    {
        self.address.0 < 128 && self.endpoint < 16 && self.pid.goes_with(self.transfer)
    }

    // Whether its numbers are within the rules, with a payload of so many bytes.
    #[tactic(auto, unfolding(crate::specs::Lengths::start_fits))]
    pub fn fits(self, len: usize) -> bool
        ensures { result ≡ start_fits self len }
    {
        self.has_numbers() && self.pid.carries(len)
    }
}

impl Pid {
    fn goes_with(self, transfer: TransferType) -> bool
        ensures { result ≡ type_fits self transfer }
    {
        !matches!((self, transfer), (Pid::Setup, TransferType::Bulk))
    }

    // Whether a start-split with this PID carries so many bytes.
    pub fn carries(self, len: usize) -> bool
        ensures { result ≡ start_length self len }
    {
        match self {
            Pid::Out => len <= 64,
            Pid::In => len == 0,
            Pid::Setup => len == 8,
        }
    }
}

impl DeviceResult {
    pub fn is_data(self) -> bool
        ensures { result ≡ is_data self }
    {
        matches!(self, DeviceResult::Data0 | DeviceResult::Data1)
    }

    // Whether a result of this kind carries so many bytes.
    #[tactic(auto, unfolding(crate::specs::Lengths::result_length))]
    pub fn carries(self, len: usize) -> bool
        ensures { result ≡ result_length self len }
    {
        len <= 64 && (self.is_data() || len == 0)
    }

    // Whether it can be the result of a transaction with this PID.
    pub fn suits(self, pid: Pid) -> bool
        ensures { result ≡ suits pid self }
    {
        match self {
            DeviceResult::Failure => true,
            DeviceResult::Ack => matches!(pid, Pid::Out | Pid::Setup),
            DeviceResult::Nak | DeviceResult::Stall => matches!(pid, Pid::In | Pid::Out),
            DeviceResult::Data0 | DeviceResult::Data1 => matches!(pid, Pid::In),
        }
    }
}

impl Buffer {
    // An empty buffer.
    pub fn vacant() -> Buffer
        ensures { result ≡ vacant }
    {
        Buffer {
            slot: Slot::Empty,
            payload: Payload {
                len: 0,
                bytes: [0; 64],
            },
        }
    }
}

impl Slot {
    // Whether it is held under a key of the lane.
    pub fn is_in(self, lane: Lane) -> bool
        ensures { result ≡ in_lane lane self }
    {
        match self {
            Slot::Empty => false,
            Slot::Pending(split, _) | Slot::Ready(split, _) | Slot::Old(split, _) => {
                split.lane == lane
            }
        }
    }

    // Whether it is pending or ready under a key of the lane.
    pub fn is_active_in(self, lane: Lane) -> bool
        ensures { result ≡ active_in lane self }
    {
        match self {
            Slot::Empty | Slot::Old(_, _) => false,
            Slot::Pending(split, _) | Slot::Ready(split, _) => split.lane == lane,
        }
    }

    pub fn holds(self, key: Key) -> bool
        ensures { result ≡ holds key self }
    {
        match self {
            Slot::Empty => false,
            Slot::Pending(split, _) | Slot::Ready(split, _) | Slot::Old(split, _) => {
                split.is_for(key)
            }
        }
    }

    pub fn standing(self, key: Key) -> Standing
        ensures { result ≡ standing key self }
    {
        match self {
            Slot::Empty => Standing::Free,
            Slot::Pending(split, _) | Slot::Ready(split, _) => {
                if split.is_for(key) {
                    Standing::Holds
                } else {
                    Standing::Busy
                }
            }
            Slot::Old(split, _) => {
                if split.is_for(key) {
                    Standing::Reusable
                } else {
                    Standing::Free
                }
            }
        }
    }
}

// The test of keys is their equality.
fn key_test()
    ensures { KeyTest }
{}
