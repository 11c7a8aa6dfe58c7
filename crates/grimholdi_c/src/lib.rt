// The C entries: each is the function of crate grimholdi with its name, and promises what that does.
#![tactic(auto)]

ghost use Rattle.std.specs.Prelude.{◌≡◌};
ghost use Rattle.area.specs.Written.{area_length};
ghost use Rattle.grimholdi.specs.Entry.{new_entry};
ghost use Rattle.grimholdi.specs.Asked.{gives};
ghost use Rattle.grimholdi.specs.Asked.Asked.{control, poll, start_split, complete_split, launch, deliver, line_event, tick, bus_reset};
ghost use Rattle.grimholdi.specs.Version.{version};

use grimholdi::Answer;

#[unsafe(no_mangle)]
pub extern "C" fn grimholdi_version() -> u32
    ensures { result ≡ version }
{
    grimholdi::grimholdi_version()
}

// The length of the area of a hub; 0 where a number is outside the rules.
#[unsafe(no_mangle)]
pub extern "C" fn grimholdi_area_length(ports: u32, buffers: u32) -> usize
    ensures { result ≡ area_length ports buffers }
{
    grimholdi::grimholdi_area_length(ports, buffers)
}

#[unsafe(no_mangle)]
pub extern "C" fn grimholdi_new(
    area: &mut [u8],
    ports: u32,
    buffers: u32,
    powergood: u32,
    current: u32,
    removable: u32,
) -> Answer
    ensures value { result ≡ (new_entry area.old ports buffers powergood current removable).answer }
    ensures area { area.new ≡ (new_entry area.old ports buffers powergood current removable).area }
{
    grimholdi::grimholdi_new(area, ports, buffers, powergood, current, removable)
}

#[unsafe(no_mangle)]
pub extern "C" fn grimholdi_control(
    area: &mut [u8],
    lane: u32,
    setup: &[u8],
    reply: &mut [u8],
) -> Answer
    ensures value { result ≡ (gives area.old (control lane setup.now reply.old)).answer }
    ensures area { area.new ≡ (gives area.old (control lane setup.now reply.old)).area }
    ensures reply { reply.new ≡ (gives area.old (control lane setup.now reply.old)).reply }
{
    grimholdi::grimholdi_control(area, lane, setup, reply)
}

// A poll changes no hub: the area is lent to be read, and stays as `gives` leaves it.
#[unsafe(no_mangle)]
pub extern "C" fn grimholdi_poll(area: &[u8], lane: u32, reply: &mut [u8]) -> Answer
    ensures value { result ≡ (gives area.now (poll lane reply.old)).answer }
    ensures area { area.now ≡ (gives area.now (poll lane reply.old)).area }
    ensures reply { reply.new ≡ (gives area.now (poll lane reply.old)).reply }
{
    grimholdi::grimholdi_poll(area, lane, reply)
}

#[unsafe(no_mangle)]
pub extern "C" fn grimholdi_start_split(
    area: &mut [u8],
    lane: u32,
    pid: u32,
    transfer: u32,
    lowspeed: u32,
    toggle: u32,
    address: u32,
    endpoint: u32,
    payload: &[u8],
) -> Answer
    ensures value { result ≡ (gives area.old (start_split lane pid transfer lowspeed toggle address endpoint payload.now)).answer }
    ensures area { area.new ≡ (gives area.old (start_split lane pid transfer lowspeed toggle address endpoint payload.now)).area }
{
    grimholdi::grimholdi_start_split(
        area, lane, pid, transfer, lowspeed, toggle, address, endpoint, payload,
    )
}

#[unsafe(no_mangle)]
pub extern "C" fn grimholdi_complete_split(
    area: &mut [u8],
    lane: u32,
    address: u32,
    endpoint: u32,
    direction: u32,
    reply: &mut [u8],
) -> Answer
    ensures value { result ≡ (gives area.old (complete_split lane address endpoint direction reply.old)).answer }
    ensures area { area.new ≡ (gives area.old (complete_split lane address endpoint direction reply.old)).area }
    ensures reply { reply.new ≡ (gives area.old (complete_split lane address endpoint direction reply.old)).reply }
{
    grimholdi::grimholdi_complete_split(area, lane, address, endpoint, direction, reply)
}

#[unsafe(no_mangle)]
pub extern "C" fn grimholdi_launch(area: &mut [u8], reply: &mut [u8]) -> Answer
    ensures value { result ≡ (gives area.old (launch reply.old)).answer }
    ensures area { area.new ≡ (gives area.old (launch reply.old)).area }
    ensures reply { reply.new ≡ (gives area.old (launch reply.old)).reply }
{
    grimholdi::grimholdi_launch(area, reply)
}

#[unsafe(no_mangle)]
pub extern "C" fn grimholdi_deliver(area: &mut [u8], res: u32, payload: &[u8]) -> Answer
    ensures value { result ≡ (gives area.old (deliver res payload.now)).answer }
    ensures area { area.new ≡ (gives area.old (deliver res payload.now)).area }
{
    grimholdi::grimholdi_deliver(area, res, payload)
}

#[unsafe(no_mangle)]
pub extern "C" fn grimholdi_line_event(area: &mut [u8], event: u32, port: u32) -> Answer
    ensures value { result ≡ (gives area.old (line_event event port)).answer }
    ensures area { area.new ≡ (gives area.old (line_event event port)).area }
{
    grimholdi::grimholdi_line_event(area, event, port)
}

#[unsafe(no_mangle)]
pub extern "C" fn grimholdi_tick(area: &mut [u8]) -> Answer
    ensures value { result ≡ (gives area.old tick).answer }
    ensures area { area.new ≡ (gives area.old tick).area }
{
    grimholdi::grimholdi_tick(area)
}

#[unsafe(no_mangle)]
pub extern "C" fn grimholdi_bus_reset(area: &mut [u8]) -> Answer
    ensures value { result ≡ (gives area.old bus_reset).answer }
    ensures area { area.new ≡ (gives area.old bus_reset).area }
{
    grimholdi::grimholdi_bus_reset(area)
}
