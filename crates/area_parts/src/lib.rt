// Parts of a lent area, one at a time: the numbers of its head, the slots, one buffer, the low side.
#![tactic(auto)]

ghost use Rattle.std.specs.Prelude.{◌≡◌};
ghost use Rattle.area_parts.specs.Parts.{head_at, buffer_start, buffer_at, slots_at, low_over, buffer_over, rank_over, store_over};
ghost use Rattle.area_parts.specs.Claims.{PartsExact};

use buffer::{Buffer, BufferCount, BufferNumber, Slot, StartSplit};
use payload::Payload;
use port::PortCount;
use translator::LowSide;

// What the translator's calls need of the first 8 bytes.
#[derive(Clone, Copy)]
pub struct Head {
    pub ports: PortCount,
    pub count: BufferCount,
    pub configured: bool,
    pub low: LowSide,
}

pub fn head_at(area: &[u8]) -> Head
    ensures { result ≡ head_at area.now }
{
    if area.len() < 8 {
        return Head {
            ports: PortCount(0),
            count: BufferCount(0),
            configured: false,
            low: LowSide::Idle,
        };
    }
    Head {
        ports: PortCount(area[0]),
        count: BufferCount(area[1]),
        configured: area[5] == 1,
        low: area::low_of(area[6], area[7]),
    }
}

// Where the bytes of a buffer begin, of a hub with so many ports.
fn start_of(ports: PortCount, number: BufferNumber) -> u16
    ensures { result ≡ buffer_start ports.0 number }
{
    8 + u16::from(ports.0) * 4 + u16::from(number.0) * 72
}

// Buffer `number` of a hub with so many ports; an empty one where the area doesn't have its bytes.
#[tactic(auto, unfolding(crate::specs::Parts::buffer_at))]
pub fn buffer_at(area: &[u8], ports: PortCount, number: BufferNumber) -> Buffer
    ensures { result ≡ buffer_at ports.0 number area.now }
{
    area::buffer_at(area, start_of(ports, number))
}

// Its slot alone.
#[tactic(auto, unfolding(crate::specs::Parts::buffer_at))]
pub fn slot_at(area: &[u8], ports: PortCount, number: BufferNumber) -> Slot
    ensures { result ≡ (buffer_at ports.0 number area.now).slot }
{
    area::slot_at(area, start_of(ports, number))
}

#[tactic(auto, unfolding(crate::specs::Parts::slots_at))]
pub fn slots_at(area: &[u8], ports: PortCount) -> [Slot; 4]
    ensures { result ≡ slots_at ports.0 area.now }
{
    [
        slot_at(area, ports, BufferNumber(0)),
        slot_at(area, ports, BufferNumber(1)),
        slot_at(area, ports, BufferNumber(2)),
        slot_at(area, ports, BufferNumber(3)),
    ]
}

// The low side anew, where the area has its bytes.
pub fn write_low(low: LowSide, area: &mut [u8])
    ensures { area.new ≡ low_over low area.old }
{
    if area.len() >= 8 {
        area[6] = area::low_byte(low);
        area[7] = area::running_byte(low);
    }
}

// One buffer anew, of a hub with so many ports, where the area has its bytes.
#[tactic(auto, unfolding(crate::specs::Parts::buffer_over))]
pub fn write_buffer(ports: PortCount, number: BufferNumber, buffer: Buffer, area: &mut [u8])
    ensures { area.new ≡ buffer_over ports.0 number buffer area.old }
{
    area::put_buffer_at(buffer, area, start_of(ports, number));
}

// The buffer with its rank as its place, if it is pending.
#[tactic(auto, unfolding(crate::specs::Parts::rank_over))]
fn rerank(slots: [Slot; 4], ports: PortCount, number: BufferNumber, slot: Slot, area: &mut [u8])
    ensures { area.new ≡ rank_over slots ports.0 number slot area.old }
{
    if let Slot::Pending(split, place) = slot {
        let ranked = Buffer {
            slot: Slot::Pending(split, translator::rank_of(slots, place)),
            ..buffer_at(area, ports, number)
        };
        write_buffer(ports, number, ranked, area);
    }
}

// The start-split in buffer `number`, last in the order of acceptance: the slots are those of the area's buffers.
pub fn store(
    slots: [Slot; 4],
    ports: PortCount,
    number: BufferNumber,
    split: StartSplit,
    payload: &[u8],
    area: &mut [u8],
)
    ensures { area.new ≡ store_over slots ports.0 number split payload.now area.old }
{
    rerank(slots, ports, BufferNumber(0), slots[0], area);
    rerank(slots, ports, BufferNumber(1), slots[1], area);
    rerank(slots, ports, BufferNumber(2), slots[2], area);
    rerank(slots, ports, BufferNumber(3), slots[3], area);
    let last = Buffer {
        slot: Slot::Pending(split, translator::count_waiting(slots)),
        payload: Payload::of(payload),
    };
    write_buffer(ports, number, last, area);
}

// Reading and writing one part is exact; the function does nothing.
fn parts_exact()
    ensures { PartsExact }
{}
