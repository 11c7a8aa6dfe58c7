// The bench cases of document 01 that are run and not proved, and each refusal of its table of answers: four ports, three buffers.
// Each line has a call and the number that it answers.
#![tactic(auto)]

use hub::{Hub, Refusal, Stepped};
use std::io::{self, Write};

fn say(out: &mut impl Write, what: &str, number: u8) -> io::Result<()> {
    writeln!(out, "{what}: {number}")
}

fn told(out: &mut impl Write, what: &str, o: Stepped) -> io::Result<()> {
    say(out, what, o.reply.number)
}

// The hub after a call.
fn after(o: Stepped) -> Hub {
    o.hub
}

// A new hub is answered 0, or the number of what refuses it.
fn made(
    out: &mut impl Write,
    what: &str,
    ports: u32,
    buffers: u32,
    powergood: u32,
    current: u32,
    removable: u32,
) -> io::Result<()> {
    let made = Hub::new(ports, buffers, powergood, current, removable);
    say(out, what, made.map_or_else(Refusal::number, |_| 0))
}

fn new_hubs(out: &mut impl Write) -> io::Result<()> {
    made(out, "new hub, 4 ports, 3 buffers", 4, 3, 0x32, 0x64, 0)?;
    made(
        out,
        "new hub, 7 ports, 4 buffers, all removable bits",
        7,
        4,
        255,
        255,
        0xFE,
    )?;
    made(out, "new hub, 0 ports", 0, 2, 0, 0, 0)?;
    made(out, "new hub, 8 ports", 8, 2, 0, 0, 0)?;
    made(out, "new hub, 1 buffer", 4, 1, 0, 0, 0)?;
    made(out, "new hub, 5 buffers", 4, 5, 0, 0, 0)?;
    made(out, "new hub, power-good 256", 4, 2, 256, 0, 0)?;
    made(out, "new hub, current 256", 4, 2, 0, 256, 0)?;
    made(out, "new hub, removable bit 0", 4, 2, 0, 0, 1)?;
    made(out, "new hub, 4 ports, removable bit 5", 4, 2, 0, 0, 0x20)
}

fn unconfigured(out: &mut impl Write, hub: Hub) -> io::Result<()> {
    told(out, "unconfigured, poll", hub.poll(0, 64))?;
    told(
        out,
        "unconfigured, start-split",
        hub.start_split(0, 9, 2, 0, 0, 5, 1, b""),
    )?;
    told(
        out,
        "unconfigured, complete-split",
        hub.complete_split(0, 5, 1, 1, 64),
    )?;
    told(out, "unconfigured, launch", hub.launch(64))?;
    told(out, "unconfigured, deliver", hub.deliver(2, b""))?;
    told(out, "unconfigured, line event", hub.line_event(0, 1))?;
    told(out, "unconfigured, tick", hub.tick())?;
    told(out, "unconfigured, bus reset", hub.bus_reset())?;
    told(
        out,
        "unconfigured, GetConfiguration",
        hub.control(0, &[0x80, 8, 0, 0, 0, 0, 1, 0], 64),
    )?;
    told(
        out,
        "unconfigured, GetHubStatus",
        hub.control(0, &[0xA0, 0, 0, 0, 0, 0, 4, 0], 64),
    )?;
    told(
        out,
        "unconfigured, poll with reply space 63",
        hub.poll(0, 63),
    )?;
    told(
        out,
        "unconfigured, start-split to address 128",
        hub.start_split(0, 9, 2, 0, 0, 128, 1, b""),
    )?;
    told(
        out,
        "unconfigured, line event at port 5",
        hub.line_event(0, 5),
    )
}

fn requests(out: &mut impl Write, hub: Hub) -> io::Result<()> {
    for (what, setup) in [
        ("GetPortStatus, port 0", [0xA3, 0, 0, 0, 0, 0, 4, 0]),
        ("GetPortStatus, port 1", [0xA3, 0, 0, 0, 1, 0, 4, 0]),
        ("GetPortStatus, port 4", [0xA3, 0, 0, 0, 4, 0, 4, 0]),
        ("GetPortStatus, port 5", [0xA3, 0, 0, 0, 5, 0, 4, 0]),
        ("GetPortStatus, length 3", [0xA3, 0, 0, 0, 1, 0, 3, 0]),
        (
            "GetPortStatus, wIndex high byte 1",
            [0xA3, 0, 0, 0, 1, 1, 4, 0],
        ),
        (
            "SetPortFeature PORT_POWER, port 0",
            [0x23, 3, 8, 0, 0, 0, 0, 0],
        ),
        (
            "SetPortFeature PORT_POWER, port 5",
            [0x23, 3, 8, 0, 5, 0, 0, 0],
        ),
        ("SetPortFeature 1", [0x23, 3, 1, 0, 1, 0, 0, 0]),
        ("SetConfiguration 2", [0, 9, 2, 0, 0, 0, 0, 0]),
        (
            "ClearTTBuffer, transfer type 1",
            [0x23, 8, 0x51, 0x88, 1, 0, 0, 0],
        ),
        ("no such request", [0x23, 10, 0, 0, 1, 0, 0, 0]),
    ] {
        told(out, what, hub.control(0, &setup, 64))?;
    }
    told(
        out,
        "seven setup bytes",
        hub.control(0, &[0xA3, 0, 0, 0, 1, 0, 4], 64),
    )?;
    told(
        out,
        "nine setup bytes",
        hub.control(0, &[0xA3, 0, 0, 0, 1, 0, 4, 0, 0], 64),
    )?;
    told(
        out,
        "seven setup bytes, reply space 63",
        hub.control(0, &[0xA3, 0, 0, 0, 1, 0, 4], 63),
    )?;
    told(
        out,
        "control request, reply space 63",
        hub.control(0, &[0, 9, 1, 0, 0, 0, 0, 0], 63),
    )?;
    told(
        out,
        "control request, reply space 64",
        hub.control(0, &[0, 9, 1, 0, 0, 0, 0, 0], 64),
    )
}

fn numbers(out: &mut impl Write, hub: Hub) -> io::Result<()> {
    told(
        out,
        "start-split, PID 2",
        hub.start_split(0, 2, 2, 0, 0, 5, 1, b""),
    )?;
    told(
        out,
        "start-split, type 1",
        hub.start_split(0, 9, 1, 0, 0, 5, 1, b""),
    )?;
    told(
        out,
        "start-split, flag 2",
        hub.start_split(0, 9, 2, 2, 0, 5, 1, b""),
    )?;
    told(
        out,
        "start-split, toggle 2",
        hub.start_split(0, 9, 2, 0, 2, 5, 1, b""),
    )?;
    told(
        out,
        "start-split, address 128",
        hub.start_split(0, 9, 2, 0, 0, 128, 1, b""),
    )?;
    told(
        out,
        "start-split, endpoint 16",
        hub.start_split(0, 9, 2, 0, 0, 5, 16, b""),
    )?;
    told(
        out,
        "start-split, address 4294967295",
        hub.start_split(0, 9, 2, 0, 0, 4294967295, 1, b""),
    )?;
    told(
        out,
        "start-split IN, one byte",
        hub.start_split(0, 9, 2, 0, 0, 5, 1, b"x"),
    )?;
    told(
        out,
        "start-split SETUP, bulk, 8 bytes",
        hub.start_split(0, 13, 2, 0, 0, 5, 1, b"12345678"),
    )?;
    told(
        out,
        "start-split SETUP, control, 7 bytes",
        hub.start_split(0, 13, 0, 0, 0, 5, 1, b"1234567"),
    )?;
    told(
        out,
        "start-split SETUP, control, 8 bytes",
        hub.start_split(0, 13, 0, 0, 0, 5, 1, b"12345678"),
    )?;
    told(
        out,
        "start-split OUT, payload 64",
        hub.start_split(0, 1, 2, 0, 0, 5, 1, &[7; 64]),
    )?;
    told(
        out,
        "start-split OUT, payload 65",
        hub.start_split(0, 1, 2, 0, 0, 5, 1, &[7; 65]),
    )?;
    told(
        out,
        "complete-split, direction 2",
        hub.complete_split(0, 5, 1, 2, 64),
    )?;
    told(out, "deliver, result 4", hub.deliver(4, b""))?;
    told(out, "deliver ACK, one byte", hub.deliver(2, b"x"))?;
    told(out, "deliver DATA0, 65 bytes", hub.deliver(3, &[7; 65]))?;
    told(out, "line event 8", hub.line_event(8, 1))?;
    told(out, "line event, port 0", hub.line_event(0, 0))?;
    told(out, "line event, port 5", hub.line_event(0, 5))
}

fn lane_numbers(out: &mut impl Write, hub: Hub) -> io::Result<()> {
    told(
        out,
        "control request, lane 2",
        hub.control(2, &[0, 9, 1, 0, 0, 0, 0, 0], 64),
    )?;
    told(
        out,
        "no such request, lane 2",
        hub.control(2, &[0x23, 10, 0, 0, 1, 0, 0, 0], 64),
    )?;
    told(
        out,
        "seven setup bytes, lane 2",
        hub.control(2, &[0xA3, 0, 0, 0, 1, 0, 4], 64),
    )?;
    told(out, "poll, lane 2, reply space 63", hub.poll(2, 63))?;
    told(
        out,
        "start-split, lane 4294967295",
        hub.start_split(4294967295, 9, 2, 0, 0, 5, 1, b""),
    )?;
    told(
        out,
        "complete-split, lane 2",
        hub.complete_split(2, 5, 1, 1, 64),
    )
}

fn states(out: &mut impl Write, hub: Hub) -> io::Result<()> {
    told(out, "poll, nothing changed", hub.poll(0, 64))?;
    told(out, "poll, reply space 63", hub.poll(0, 63))?;
    told(out, "launch, reply space 63", hub.launch(63))?;
    told(
        out,
        "complete-split, reply space 63",
        hub.complete_split(0, 5, 1, 1, 63),
    )?;
    told(out, "launch, none pending", hub.launch(64))?;
    told(
        out,
        "complete-split, no match",
        hub.complete_split(0, 5, 1, 1, 64),
    )?;
    told(out, "deliver, none runs", hub.deliver(2, b""))?;
    told(out, "attach on a port without power", hub.line_event(0, 1))?;
    told(out, "chirp on a port without power", hub.line_event(3, 1))?;
    told(out, "tick", hub.tick())
}

// Two start-splits of lane 0, the most that it may hold of three buffers; the first of them runs.
fn busy(out: &mut impl Write, hub: Hub) -> io::Result<()> {
    let one = after(hub.start_split(0, 9, 2, 0, 0, 5, 1, b""));
    told(
        out,
        "repeat of a held start-split",
        one.start_split(0, 9, 2, 0, 0, 5, 1, b""),
    )?;
    let two = after(one.start_split(0, 9, 2, 0, 0, 6, 1, b""));
    told(
        out,
        "start-split, limit of the lane",
        two.start_split(0, 9, 2, 0, 0, 7, 1, b""),
    )?;
    told(
        out,
        "complete-split, pending",
        two.complete_split(0, 5, 1, 1, 64),
    )?;
    let run = after(two.launch(64));
    told(out, "launch, low side occupied", run.launch(64))?;
    told(out, "deliver ACK to an IN", run.deliver(2, b""))?;
    let ready = after(run.deliver(10, b""));
    told(
        out,
        "complete-split, NAK",
        ready.complete_split(0, 5, 1, 1, 64),
    )?;
    told(
        out,
        "complete-split, other direction",
        ready.complete_split(0, 5, 1, 0, 64),
    )?;
    let cleared = after(run.control(0, &[0x23, 8, 0x51, 0x80, 1, 0, 0, 0], 64));
    told(
        out,
        "launch after a clear, low side occupied",
        cleared.launch(64),
    )?;
    told(out, "late delivery", cleared.deliver(2, b""))?;
    told(
        out,
        "complete-split after a clear",
        cleared.complete_split(0, 5, 1, 1, 64),
    )
}

// Lane 0 holds one buffer and lane 1 two.
fn lanes(out: &mut impl Write, hub: Hub) -> io::Result<()> {
    let one = after(hub.start_split(0, 9, 2, 0, 0, 5, 1, b""));
    told(
        out,
        "lane 1, complete-split of what lane 0 started",
        one.complete_split(1, 5, 1, 1, 64),
    )?;
    let two = after(one.start_split(1, 9, 2, 0, 0, 5, 1, b""));
    let all = after(two.start_split(1, 9, 2, 0, 0, 6, 1, b""));
    told(
        out,
        "lane 0, start-split, no buffer",
        all.start_split(0, 9, 2, 0, 0, 6, 1, b""),
    )?;
    told(
        out,
        "lane 1, start-split, limit of the lane",
        all.start_split(1, 9, 2, 0, 0, 7, 1, b""),
    )?;
    told(
        out,
        "lane 1, repeat at the limit",
        all.start_split(1, 9, 2, 0, 0, 5, 1, b""),
    )?;
    let reset = after(all.control(1, &[0x23, 9, 0, 0, 1, 0, 0, 0], 64));
    told(
        out,
        "lane 1, complete-split after its ResetTT",
        reset.complete_split(1, 5, 1, 1, 64),
    )?;
    told(
        out,
        "lane 0, complete-split after lane 1's ResetTT",
        reset.complete_split(0, 5, 1, 1, 64),
    )
}

fn all(out: &mut impl Write, hub: Hub) -> io::Result<()> {
    unconfigured(out, hub)?;
    let on = after(hub.control(0, &[0, 9, 1, 0, 0, 0, 0, 0], 64));
    requests(out, on)?;
    numbers(out, on)?;
    lane_numbers(out, on)?;
    states(out, on)?;
    busy(out, on)?;
    lanes(out, on)
}

fn main(rt: HostRuntime) -> io::Result<()> {
    let mut out = io::writer(&rt);
    new_hubs(&mut out)?;
    match Hub::new(4, 3, 0x32, 0x64, 0) {
        Ok(hub) => all(&mut out, hub),
        Err(refusal) => say(
            &mut out,
            "no hub of 4 ports and 3 buffers",
            refusal.number(),
        ),
    }
}
