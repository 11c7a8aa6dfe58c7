// Steps ports by one engine or the other, so that their instructions can be counted (`make speed`). Each letter of the input is a round over every
// line of the chart and some of its columns: of all inputs (a), line events (e), the tick (t), features (f), change bits (b), or configuration and
// bus reset (c); by the chart, or by the rules where the letter is a capital. A digit from 0 on is the same round without an engine.
#![tactic(auto)]

ghost use Rattle.std.specs.Prelude.{◌≤◌, IfOk};

use chart::PortAnswer;
use port::{Input, Port};
use std::io::{self, Read};
use std::ops::Range;

fn columns_of(letter: u8) -> Range<usize> {
    match letter {
        b'a' | b'A' | b'0' => 0..23,
        b'e' | b'E' | b'1' => 0..8,
        b't' | b'T' | b'2' => 8..9,
        b'f' | b'F' | b'3' => 9..15,
        b'b' | b'B' | b'4' => 15..20,
        b'c' | b'C' | b'5' => 20..23,
        _ => 0..0,
    }
}

// All that an engine gives back, as one number.
fn weight(given: PortAnswer) -> u64 {
    let port = given.port;
    given.number as u64
        + port.state.number() as u64
        + port.state.speed() as u64
        + port.state.ticks() as u64
        + port.overcurrent as u64
        + port.changes.byte() as u64
}

fn of_line<E: Fn(Port, Input) -> PortAnswer>(line: usize, columns: Range<usize>, engine: &E) -> u64
    requires { E.IsAlwaysCallable engine.now }
{
    columns.fold(0u64, |sum, column| {
        let given = engine(chart::port_at(line), chart::input_at(column));
        sum.wrapping_add(weight(given))
    })
}

fn of_round<E: Fn(Port, Input) -> PortAnswer>(columns: Range<usize>, engine: &E) -> u64
    requires { E.IsAlwaysCallable engine.now }
{
    (0..48usize).fold(0u64, |sum, line| {
        sum.wrapping_add(of_line(line, columns.start..columns.end, engine))
    })
}

// The engine is chosen at each step, so that all rounds are one loop, which costs the same around each engine.
fn of_letter(letter: u8, chart: &[u32; 1104]) -> u64 {
    of_round(
        columns_of(letter),
        &|port, input| match letter {
            b'a'..=b'z' => chart::look_up(chart, port, input),
            b'A'..=b'Z' => chart::by_rules(port, input),
            _ => PortAnswer { port, number: 0 },
        },
    )
}

fn of_letters(letters: &[u8], chart: &[u32; 1104]) -> u64 {
    letters.iter().fold(
        0u64,
        |sum, letter| sum.wrapping_add(of_letter(*letter, chart)),
    )
}

// Fills the letters from the input, as far as it goes; how many there are.
fn read_letters(input: &mut impl Read, letters: &mut [u8; 4096]) -> io::Result<usize>
    ensures { IfOk result (λ n. n ≤ 4096) }
{
    let mut n: usize = 0;
    for _ in 0..4096 {
        let more = input.read(&mut letters[n..])?;
        if more == 0 {
            break;
        }
        n += more;
    }
    Ok(n)
}

// The first 4,096 letters count; a longer input is cut there.
fn main(rt: HostRuntime) -> io::Result<()> {
    let chart = chart::chart();
    let mut letters = [0u8; 4096];
    let n = read_letters(&mut rt.reader(), &mut letters)?;
    let sum = of_letters(&letters[..n], &chart);
    println!(rt; "{sum}")
}
