// Prints what each input does to a port: two sets of change bits, both over-current levels, 24 states, 22 inputs; 2,112 lines.
#![tactic(auto)]

use port::{Changes, Input, NotInThisState, Port};
use std::io::{self, Write};

fn say_port(out: &mut impl Write, port: Port) -> io::Result<()> {
    let state = port.state;
    let level = port.overcurrent as u8;
    let changes = port.changes.byte();
    write!(out, "{state} level={level} changes={changes:02x}")
}

fn say_status(out: &mut impl Write, port: Port) -> io::Result<()> {
    let [a, b, c, d] = port.status();
    write!(out, "{a:02x} {b:02x} {c:02x} {d:02x}")
}

// The port before, the input, the number that is answered, and the port after with its status bytes.
fn say_line(out: &mut impl Write, before: Port, input: Input) -> io::Result<()> {
    let (number, after) = match before.step(input) {
        Ok(after) => (0, after),
        Err(NotInThisState) => (8, before),
    };
    say_port(out, before)?;
    write!(out, " | {input} | {number} | ")?;
    say_port(out, after)?;
    write!(out, " | ")?;
    say_status(out, after)?;
    writeln!(out)
}

// The lines of one port, an input each.
fn say_inputs(out: &mut impl Write, before: Port) -> io::Result<()> {
    for column in 0..22 {
        say_line(out, before, chart::input_at(column))?;
    }
    Ok(())
}

// The lines of all ports with all change bits set or none: the state changes fastest, then the level.
fn say_ports(out: &mut impl Write, set: bool) -> io::Result<()> {
    for place in 0..48 {
        let before = Port {
            changes: Changes {
                connection: set,
                enable: set,
                suspend: set,
                overcurrent: set,
                reset: set,
            },
            ..chart::port_at(place)
        };
        say_inputs(out, before)?;
    }
    Ok(())
}

fn main(rt: HostRuntime) -> io::Result<()> {
    let mut out = io::writer(&rt);
    for set in [false, true] {
        say_ports(&mut out, set)?;
    }
    Ok(())
}
