// The written form of a call, as a recording holds it: reading one record. docs/CALLS.md lays down its bytes.
#![tactic(auto)]

ghost use Rattle.std.specs.Prelude.{◌≡◌, ◌+◌, ◌*◌, ◌≤◌, ◌<◌, length, get_or};
ghost use Rattle.call_bytes.specs.Words.{word_at, half_at, words_at};
ghost use Rattle.call_bytes.specs.Table.{laid, layout_of, kind_of};
ghost use Rattle.call_bytes.specs.Claims.{RecordExact};
ghost use Rattle.call_bytes.specs.Read.{start_of, size_in, seven, recorded_as, read_of};
ghost use Rattle.call_bytes.specs.Cases.{RecordCases};

use std::array;

// The calls.
#[derive(Clone, Copy, PartialEq, Eq)]
pub enum CallKind {
    Control,
    Poll,
    StartSplit,
    CompleteSplit,
    Launch,
    Deliver,
    LineEvent,
    Tick,
    BusReset,
}

// A row of the table: the tag, how many numbers the call has, and whether a count of bytes and the bytes follow.
#[derive(Clone, Copy)]
pub struct Layout {
    pub tag: u8,
    pub numbers: usize,
    pub bytes: bool,
}

// One record: its call's kind and numbers, where its setup or payload bytes start and how many they are, and the record's length.
#[derive(Clone, Copy)]
pub struct Recorded {
    pub kind: CallKind,
    pub numbers: [u32; 7],
    pub start: usize,
    pub size: usize,
    pub length: usize,
}

// ---- the table

fn laid(tag: u8, numbers: usize, bytes: bool) -> Layout
    ensures { result ≡ laid tag numbers bytes }
{
    Layout {
        tag,
        numbers,
        bytes,
    }
}

impl CallKind {
    #[tactic(auto, unfolding(crate::specs::Table::kind_of, crate::specs::Table::with_tag))]
    fn tagged(tag: u8) -> Option<CallKind>
        ensures { result ≡ kind_of tag }
    {
        let kind = match tag {
            1 => CallKind::Control,
            2 => CallKind::Poll,
            3 => CallKind::StartSplit,
            4 => CallKind::CompleteSplit,
            5 => CallKind::Launch,
            6 => CallKind::Deliver,
            7 => CallKind::LineEvent,
            8 => CallKind::Tick,
            9 => CallKind::BusReset,
            _ => return None,
        };
        Some(kind)
    }

    fn layout(self) -> Layout
        ensures { (result ≡ layout_of self) × (result.numbers ≤ 7) }
    {
        match self {
            CallKind::Control => laid(1, 2, true),
            CallKind::Poll => laid(2, 2, false),
            CallKind::StartSplit => laid(3, 7, true),
            CallKind::CompleteSplit => laid(4, 5, false),
            CallKind::Launch => laid(5, 1, false),
            CallKind::Deliver => laid(6, 1, true),
            CallKind::LineEvent => laid(7, 2, false),
            CallKind::Tick => laid(8, 0, false),
            CallKind::BusReset => laid(9, 0, false),
        }
    }

    // Where the record's setup or payload bytes start.
    fn start(self) -> usize
        ensures { (result ≡ start_of self) × (result ≤ 31) }
    {
        let layout = self.layout();
        let head = 1 + 4 * layout.numbers;
        if layout.bytes { head + 2 } else { head }
    }

    // What the bytes hold after the numbers: how many setup or payload bytes.
    fn size_in(self, s: &[u8]) -> usize
        ensures { (result ≡ size_in self s.now) × (result < 65536) }
    {
        let layout = self.layout();
        if layout.bytes {
            let head = 1 + 4 * layout.numbers;
            usize::from(half_at(s, head as u32))
        } else {
            0
        }
    }
}

// ---- numbers

fn word_at(s: &[u8], at: usize) -> u32
    requires { at + 4 ≤ length s.now }
    ensures { result ≡ word_at s.now at }
{
    u32::from_le_bytes([s[at], s[at + 1], s[at + 2], s[at + 3]])
}

// Past the last byte, 0.
fn byte_at(s: &[u8], at: usize) -> u8
    ensures { result ≡ get_or s.now at 0 }
{
    s.get(at).copied().unwrap_or(0)
}

pub fn half_at(s: &[u8], at: u32) -> u16
    ensures { result ≡ half_at s.now at }
{
    let at = at as usize;
    u16::from_le_bytes([byte_at(s, at), byte_at(s, at + 1)])
}

// Number i of n; past the last one, 0.
fn number(s: &[u8], n: usize, i: usize) -> u32
    requires { (n ≤ 7) × (1 + 4 * n ≤ length s.now) }
    ensures { result ≡ get_or (words_at s.now 1 n) i 0 }
{
    if i < n { word_at(s, 1 + 4 * i) } else { 0 }
}

fn numbers(s: &[u8], n: usize) -> [u32; 7]
    requires { (n ≤ 7) × (1 + 4 * n ≤ length s.now) }
    ensures { result ≡ seven (words_at s.now 1 n) }
{
    array::from_fn(|i| number(s, n, i))
}

// ---- one record

impl Recorded {
    fn new(s: &[u8], kind: CallKind, start: usize, size: usize) -> Recorded
        requires { (start ≡ start_of kind) × ((size ≡ size_in kind s.now) × (start + size ≤ length s.now)) }
        ensures { result ≡ recorded_as kind s.now }
    {
        Recorded {
            kind,
            numbers: numbers(s, kind.layout().numbers),
            start,
            size,
            length: start + size,
        }
    }
}

// The record at the start of the bytes. No bytes have tag 0, which is no call's.
#[tactic(auto, unfolding(crate::specs::Read::read_of))]
pub fn read_record(s: &[u8]) -> Option<Recorded>
    ensures { result ≡ read_of s.now }
{
    let kind = CallKind::tagged(byte_at(s, 0))?;
    let start = kind.start();
    if s.len() < start {
        return None;
    }
    let size = kind.size_in(s);
    if s.len() < start + size {
        return None;
    }
    Some(Recorded::new(s, kind, start, size))
}

fn record_exact()
    ensures { RecordExact }
{}

fn record_cases()
    ensures { RecordCases }
{}
