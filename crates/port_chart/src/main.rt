// Prints the chart of one port for people: states down, inputs across, in three parts for each over-current level. docs/PORTS.md shows it.
#![tactic(auto)]

ghost use Rattle.std.specs.Prelude.{◌≤◌};

use port::{Changes, Port, PortState, Speed};
use std::io::{self, Write};
use std::ops::Range;

const LEGEND: &str = "\
The rules of one port as a chart: states down, inputs across.

A cell says what changes: the next state with its speed; ^ or v where the over-current level begins or ends; the change bits
that are set (+) or cleared (-). A dot: nothing changes. All of these are answered 0. A number is a refusal, and nothing
changes: 8, not in this state; 2, a request to an unconfigured hub.

States       NCfg Not Configured   POff Powered-off   Disc Disconnected   Dsbl Disabled
             Rset Resetting        Enbl Enabled       Susp Suspended      Rsum Resuming
Speeds       .l low   .f full   .h high
Timer        runs on, or ends at the next tick: the 15th in Resetting, the 22nd in Resuming. It starts at 0 where such a
             state is entered, and counts ticks alone.
Change bits  C connection   E enable   S suspend   O over-current   R reset   all five

";

const EVENTS: &str =
    "state       |attach low   |attach full  |detach       |chirp        |wake         |port error   |over-cur on  |over-cur off |";

const FEATURES: &str =
    "state       |tick         |set SUSPEND  |set RESET    |set POWER    |clr ENABLE   |clr SUSPEND  |clr POWER    |";

const CHANGES: &str =
    "state       |clr C_CONN   |clr C_ENABLE |clr C_SUSP   |clr C_OVERC  |clr C_RESET  |SetConfig. 0 |SetConfig. 1 |bus reset    |";

// ---- the words of a line and of a cell

fn state_word(state: PortState) -> &'static str {
    match state {
        PortState::NotConfigured => "NCfg",
        PortState::PoweredOff => "POff",
        PortState::Disconnected => "Disc",
        PortState::Disabled(_) => "Dsbl",
        PortState::Resetting(_, _) => "Rset",
        PortState::Enabled(_) => "Enbl",
        PortState::Suspended(_) => "Susp",
        PortState::Resuming(_, _) => "Rsum",
    }
}

fn speed_word(state: PortState) -> &'static str {
    match state.device_speed() {
        None => "  ",
        Some(Speed::Low) => ".l",
        Some(Speed::Full) => ".f",
        Some(Speed::High) => ".h",
    }
}

fn timer_word(state: PortState) -> &'static str {
    match state {
        PortState::Resetting(_, 0) | PortState::Resuming(_, 0) => " runs",
        PortState::Resetting(_, _) | PortState::Resuming(_, _) => " ends",
        _ => "     ",
    }
}

fn level_word(before: bool, after: bool) -> &'static str {
    match (before, after) {
        (false, true) => "^ ",
        (true, false) => "v ",
        _ => "  ",
    }
}

// The change bits that are left of none and of all.
fn bits_word(of_none: u8, of_all: u8) -> &'static str {
    match (of_none, of_all) {
        (0x01, _) => "+C  ",
        (0x02, _) => "+E  ",
        (0x04, _) => "+S  ",
        (0x08, _) => "+O  ",
        (0x10, _) => "+R  ",
        (_, 0x1F) => "    ",
        (_, 0x1E) => "-C  ",
        (_, 0x1D) => "-E  ",
        (_, 0x1B) => "-S  ",
        (_, 0x17) => "-O  ",
        (_, 0x0F) => "-R  ",
        _ => "-all",
    }
}

// ---- a cell, twelve characters

fn same_state(before: PortState, after: PortState) -> bool {
    before.number() == after.number() && before.speed() == after.speed()
}

// Whether nothing changes.
fn is_still(before: Port, of_none: Port, of_all: Port) -> bool {
    same_state(before.state, of_none.state)
        && before.overcurrent == of_none.overcurrent
        && of_none.changes.byte() == 0
        && of_all.changes.byte() == 0x1F
}

// The change bits all set.
fn with_all(port: Port) -> Port {
    Port {
        changes: Changes {
            connection: true,
            enable: true,
            suspend: true,
            overcurrent: true,
            reset: true,
        },
        ..port
    }
}

fn say_change(out: &mut impl Write, before: Port, of_none: Port, of_all: Port) -> io::Result<()> {
    if is_still(before, of_none, of_all) {
        return write!(out, "           .");
    }
    if same_state(before.state, of_none.state) {
        write!(out, "      ")?;
    } else {
        write!(
            out,
            "{}{}",
            state_word(of_none.state),
            speed_word(of_none.state)
        )?;
    }
    let level = level_word(before.overcurrent, of_none.overcurrent);
    let bits = bits_word(of_none.changes.byte(), of_all.changes.byte());
    write!(out, "{level}{bits}")
}

// ---- the chart

#[derive(Drop)]
struct Printer<'a, W> {
    out: &'a mut W,
    chart: &'a [u32; 1104],
}

impl<'a, W: Write> Printer<'a, W> {
    // What the engine makes of a port of the line, without change bits and with all.
    fn cell(&mut self, line: usize, column: usize) -> io::Result<()> {
        let port = chart::port_at(line);
        let input = chart::input_at(column);
        let of_none = chart::look_up(self.chart, port, input);
        let of_all = chart::look_up(self.chart, with_all(port), input);
        if of_none.number != 0 {
            return write!(self.out, " |           {}", of_none.number);
        }
        write!(self.out, " |")?;
        say_change(self.out, port, of_none.port, of_all.port)
    }

    fn line(&mut self, line: usize, columns: Range<usize>) -> io::Result<()> {
        let state = chart::port_at(line).state;
        write!(
            self.out,
            "{}{}{}",
            state_word(state),
            speed_word(state),
            timer_word(state)
        )?;
        for column in columns {
            self.cell(line, column)?;
        }
        writeln!(self.out, " |")
    }

    fn part(&mut self, heading: &str, first: usize, columns: Range<usize>) -> io::Result<()>
        requires { first ≤ 24 }
    {
        writeln!(self.out, "{heading}")?;
        for line in first..first + 24 {
            self.line(line, columns.start..columns.end)?;
        }
        Ok(())
    }

    // The 24 lines of one over-current level.
    fn level(&mut self, first: usize) -> io::Result<()>
        requires { first ≤ 24 }
    {
        self.part(EVENTS, first, 0..8)?;
        writeln!(self.out)?;
        self.part(FEATURES, first, 8..15)?;
        writeln!(self.out)?;
        self.part(CHANGES, first, 15..23)
    }
}

fn main(rt: HostRuntime) -> io::Result<()> {
    let mut out = io::writer(&rt);
    let chart = chart::chart();
    write!(out, "{LEGEND}No over-current\n\n")?;
    let mut printer = Printer {
        out: &mut out,
        chart: &chart,
    };
    printer.level(0)?;
    write!(printer.out, "\nOver-current\n\n")?;
    printer.level(24)
}
