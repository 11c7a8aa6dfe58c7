// A second engine for one port. The rules of a port are a chart (src/table.rt) with a cell for each situation and input; the engine looks the port's
// cell up, by one index. The timer's ticks are counted beside it. The first engine is crate `port`.
#![tactic(auto)]

ghost use Rattle.std.specs.Prelude.{◌≡◌, ◌%◌, ◌<◌, ◌≤◌, min, not};
ghost use Rattle.bools.specs.Bit.{bit};
ghost use Rattle.port.specs.Reaction.{no_changes};
ghost use Rattle.port.specs.FromNumbers.{end_of};
ghost use Rattle.chart.specs.Chart.{
  event_column,
  set_column,
  change_place,
  clear_column,
  column,
  runs_on,
  situation,
  line_of,
  index_of,
  ticks_after,
  bit_after,
  bits_after,
  read,
  looked_up,
};
ghost use Rattle.chart.specs.Engines.{answered, is_port_request, by_rules, EnginesAgree};
ghost use Rattle.chart.specs.Cases.{EngineCases};
ghost use Rattle.chart.specs.Mistakes.{ChartMistakesShutOut};

mod table;

use port::{
    ChangeBit, Changes, ClearableFeature, Input, LineEvent, Port, PortState, SettableFeature, Speed,
};
use table::CHART;

// The port afterwards, and the number that is answered.
#[derive(Clone, Copy, PartialEq, Eq)]
pub struct PortAnswer {
    pub port: Port,
    pub number: u8,
}

// The chart, by which the second engine agrees with the first.
pub fn chart() -> [u32; 1104]
    ensures { EnginesAgree (looked_up result) }
{
    CHART
}

// The second engine, on any chart: one index, one cell.
#[tactic(auto, unfolding(crate::specs::Chart::looked_up))]
pub fn look_up(chart: &[u32; 1104], port: Port, input: Input) -> PortAnswer
    ensures { answered result ≡ looked_up chart.now port input }
{
    read(port, input, chart[index(port, input)])
}

// The second engine on the chart. It has the chart anew for each input; a caller with many inputs has it once and looks them up.
pub fn by_chart(port: Port, input: Input) -> PortAnswer
    ensures { answered result ≡ by_rules port input }
{
    look_up(&chart(), port, input)
}

// The first engine, as the hub uses it: a port request is answered 2 where the port is Not Configured, since the hub is unconfigured then.
pub fn by_rules(port: Port, input: Input) -> PortAnswer
    ensures { answered result ≡ by_rules port input }
{
    if is_port_request(input) && port.state == PortState::NotConfigured {
        return PortAnswer { port, number: 2 };
    }
    port.step(input).map_or(
        PortAnswer { port, number: 8 },
        |next| PortAnswer {
            port: next,
            number: 0,
        },
    )
}

fn is_port_request(input: Input) -> bool
    ensures { result ≡ is_port_request input }
{
    matches!(input, Input::SetFeature(_) | Input::ClearFeature(_))
}

// ---- the 23 columns

fn event_column(event: LineEvent) -> usize
    ensures value { result ≡ event_column event }
    ensures small { result < 23 }
{
    event as usize
}

fn set_column(feature: SettableFeature) -> usize
    ensures value { result ≡ set_column feature }
    ensures small { result < 23 }
{
    9 + feature as usize
}

fn change_place(bit: ChangeBit) -> usize
    ensures value { result ≡ change_place bit }
    ensures small { result < 5 }
{
    bit as usize
}

fn clear_column(feature: ClearableFeature) -> usize
    ensures value { result ≡ clear_column feature }
    ensures small { result < 23 }
{
    match feature {
        ClearableFeature::Enable => 12,
        ClearableFeature::Suspend => 13,
        ClearableFeature::Power => 14,
        ClearableFeature::Change(bit) => 15 + change_place(bit),
    }
}

fn column(input: Input) -> usize
    ensures value { result ≡ column input }
    ensures small { result < 23 }
{
    match input {
        Input::Event(event) => event_column(event),
        Input::Tick => 8,
        Input::SetFeature(feature) => set_column(feature),
        Input::ClearFeature(feature) => clear_column(feature),
        Input::Unconfigure => 20,
        Input::Configure => 21,
        Input::BusReset => 22,
    }
}

// ---- the 48 lines

// The ticks of a state are below this: the 15th tick ends Resetting, the 22nd Resuming. No other state counts.
fn timer_end(number: u8) -> u8
    ensures value { result ≡ end_of number }
    ensures some { 1 ≤ result }
{
    match number {
        4 => 15,
        7 => 22,
        _ => 1,
    }
}

// Whether the timer runs on at the next tick, or ends.
fn runs_on(state: PortState) -> bool
    ensures { result ≡ runs_on state }
{
    state.ticks() < timer_end(state.number()) - 1
}

// A state's place among the 24; ends is 1 where the timer ends at the next tick, else 0.
fn situation(state: PortState, ends: usize) -> usize
    requires { ends ≤ 1 }
    ensures value { result ≡ situation ends state }
    ensures small { result < 24 }
{
    match state {
        PortState::NotConfigured => 0,
        PortState::PoweredOff => 1,
        PortState::Disconnected => 2,
        PortState::Disabled(speed) => 3 + speed.number() as usize,
        PortState::Resetting(speed, _) => 6 + 2 * speed.number() as usize + ends,
        PortState::Enabled(speed) => 12 + speed.number() as usize,
        PortState::Suspended(speed) => 15 + speed.number() as usize,
        PortState::Resuming(speed, _) => 18 + 2 * speed.number() as usize + ends,
    }
}

fn index(port: Port, input: Input) -> usize
    ensures value { result ≡ index_of (runs_on port.state) port input }
    ensures small { result < 1104 }
{
    let ends = bools::bit_of(!runs_on(port.state)) as usize;
    let level = bools::bit_of(port.overcurrent) as usize;
    let line = level * 24 + situation(port.state, ends);
    line * 23 + column(input)
}

// ---- the timer

// The ticks in the state with this number: a tick counts, up to the timer's end; another input keeps them; another state starts at 0.
fn ticks_after(state: PortState, number: u8, tick: bool) -> u8
    ensures { result ≡ ticks_after (runs_on state) state number tick }
{
    if number != state.number() {
        0
    } else if !tick {
        state.ticks()
    } else if runs_on(state) {
        state.ticks() + 1
    } else {
        0
    }
}

// ---- a cell

fn bit_after(set: bool, cleared: bool, before: bool) -> bool
    ensures { result ≡ bit_after set cleared before }
{
    set || !cleared && before
}

// The bits that are set and those that are cleared, as in the change byte of GetPortStatus.
fn bits_after(set: u32, cleared: u32, before: Changes) -> Changes
    ensures { result ≡ bits_after set cleared before }
{
    Changes {
        connection: bit_after(set % 2 == 1, cleared % 2 == 1, before.connection),
        enable: bit_after(set / 2 % 2 == 1, cleared / 2 % 2 == 1, before.enable),
        suspend: bit_after(set / 4 % 2 == 1, cleared / 4 % 2 == 1, before.suspend),
        overcurrent: bit_after(set / 8 % 2 == 1, cleared / 8 % 2 == 1, before.overcurrent),
        reset: bit_after(set / 16 % 2 == 1, cleared / 16 % 2 == 1, before.reset),
    }
}

// What a cell makes of a port: its digits from the left are state, speed, level, change bits set and cleared (two each), number.
fn read(port: Port, input: Input, cell: u32) -> PortAnswer
    ensures { answered result ≡ read (runs_on port.state) port input cell }
{
    let number = (cell / 0x1000_0000 % 16) as u8;
    let speed = port::speed_of((cell / 0x100_0000 % 16) as u8);
    let ticks = ticks_after(port.state, number, input == Input::Tick);
    let next = Port {
        state: port::state_of(number, speed, ticks),
        overcurrent: cell / 0x10_0000 % 16 == 1,
        changes: bits_after(cell / 0x1000 % 256, cell / 16 % 256, port.changes),
    };
    PortAnswer {
        port: next,
        number: (cell % 16) as u8,
    }
}

// ---- a port and an input for each cell

fn state_at(place: usize) -> PortState
    requires { place < 24 }
    ensures { situation (bit (not (runs_on result))) result ≡ place }
{
    match place {
        0 => PortState::NotConfigured,
        1 => PortState::PoweredOff,
        2 => PortState::Disconnected,
        3 => PortState::Disabled(Speed::Low),
        4 => PortState::Disabled(Speed::Full),
        5 => PortState::Disabled(Speed::High),
        6 => PortState::Resetting(Speed::Low, 0),
        7 => PortState::Resetting(Speed::Low, 14),
        8 => PortState::Resetting(Speed::Full, 0),
        9 => PortState::Resetting(Speed::Full, 14),
        10 => PortState::Resetting(Speed::High, 0),
        11 => PortState::Resetting(Speed::High, 14),
        12 => PortState::Enabled(Speed::Low),
        13 => PortState::Enabled(Speed::Full),
        14 => PortState::Enabled(Speed::High),
        15 => PortState::Suspended(Speed::Low),
        16 => PortState::Suspended(Speed::Full),
        17 => PortState::Suspended(Speed::High),
        18 => PortState::Resuming(Speed::Low, 0),
        19 => PortState::Resuming(Speed::Low, 21),
        20 => PortState::Resuming(Speed::Full, 0),
        21 => PortState::Resuming(Speed::Full, 21),
        22 => PortState::Resuming(Speed::High, 0),
        _ => PortState::Resuming(Speed::High, 21),
    }
}

// A port of this line, without change bits.
pub fn port_at(line: usize) -> Port
    ensures result_value { line_of (runs_on result.state) result ≡ line % 48 }
    ensures quiet { result.changes ≡ no_changes }
{
    Port {
        state: state_at(line % 24),
        overcurrent: line / 24 % 2 == 1,
        ..Port::new()
    }
}

// The input of this column.
pub fn input_at(place: usize) -> Input
    ensures { column result ≡ min place 22 }
{
    match place {
        0 => Input::Event(LineEvent::AttachLow),
        1 => Input::Event(LineEvent::AttachFull),
        2 => Input::Event(LineEvent::Detach),
        3 => Input::Event(LineEvent::Chirp),
        4 => Input::Event(LineEvent::Wake),
        5 => Input::Event(LineEvent::PortError),
        6 => Input::Event(LineEvent::OverCurrentOn),
        7 => Input::Event(LineEvent::OverCurrentOff),
        8 => Input::Tick,
        9 => Input::SetFeature(SettableFeature::Suspend),
        10 => Input::SetFeature(SettableFeature::Reset),
        11 => Input::SetFeature(SettableFeature::Power),
        12 => Input::ClearFeature(ClearableFeature::Enable),
        13 => Input::ClearFeature(ClearableFeature::Suspend),
        14 => Input::ClearFeature(ClearableFeature::Power),
        15 => Input::ClearFeature(ClearableFeature::Change(ChangeBit::Connection)),
        16 => Input::ClearFeature(ClearableFeature::Change(ChangeBit::Enable)),
        17 => Input::ClearFeature(ClearableFeature::Change(ChangeBit::Suspend)),
        18 => Input::ClearFeature(ClearableFeature::Change(ChangeBit::OverCurrent)),
        19 => Input::ClearFeature(ClearableFeature::Change(ChangeBit::Reset)),
        20 => Input::Unconfigure,
        21 => Input::Configure,
        _ => Input::BusReset,
    }
}

// P3 to P10 and further sequences of inputs; the function does nothing.
fn engine_cases()
    ensures { EngineCases }
{}

// Charts with one wrong cell, and engines with one mistake, break the claim; the function does nothing.
fn chart_mistakes_shut_out()
    ensures { ChartMistakesShutOut }
{}
