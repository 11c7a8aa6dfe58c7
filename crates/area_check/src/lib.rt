// The test of a lent byte area: whether its bytes are the written form of a valid hub. No hub is built.
#![tactic(auto)]

ghost use Rattle.std.specs.Prelude.{◌≡◌, ◌&&◌, ◌||◌, not, cond, ◌+◌, ◌*◌, ◌^◌, ◌<◌, ◌≤◌, eqb, leb, ltb, length, get_or, drop, map};
ghost use Rattle.std.specs.List.{list_all};
ghost use Rattle.buffer.specs.declared.Lane.TheVariants.{Zero, One};
ghost use Rattle.buffer.specs.declared.Slot.TheVariants.{Empty};
ghost use Rattle.buffer.specs.Same.{same_key};
ghost use Rattle.buffer.specs.Key.{direction_of, key_of, same_lane};
ghost use Rattle.buffer.specs.Lengths.{type_fits, start_length, result_length};
ghost use Rattle.numbers.specs.Named.{is_pid, pid_from, is_type, type_from, is_result, result_from};
ghost use Rattle.hub.specs.Hub.{new_fits};
ghost use Rattle.area_check.specs.Rows.{blank};
ghost use Rattle.area_check.specs.Read.{lane_in, held_split, slot_of, state_fits, port_fits, buffer_fits, clash, clashing, filled_by, runs, low_fits, head_fits, sized, rows_fit, accepts};

use buffer::{BufferCount, DeviceAddress, Direction, Key, Lane};
use port::PortCount;

// ---- one port, 4 bytes

fn within(v: u8, speeds: u8, t: u8, end: u8, agrees: bool) -> bool
    ensures { result ≡ (ltb v speeds && ltb t end) && agrees }
{
    v < speeds && t < end && agrees
}

// Which speeds and ticks a state goes with. Timers are below their ends.
// Every port is Not Configured if the hub is unconfigured, else none.
fn state_fits(configured: bool, s: u8, v: u8, t: u8) -> bool
    ensures { result ≡ state_fits configured s v t }
{
    match s {
        0 => within(v, 1, t, 1, !configured),
        1 | 2 => within(v, 1, t, 1, configured),
        3 | 5 | 6 => within(v, 3, t, 1, configured),
        4 => within(v, 3, t, 15, configured),
        7 => within(v, 3, t, 22, configured),
        _ => false,
    }
}

#[tactic(auto, unfolding(crate::specs::Read::port_fits))]
fn port_fits(b: &[u8; 4], configured: bool) -> bool
    ensures { result ≡ port_fits configured b.now }
{
    state_fits(configured, b[0], b[1], b[2]) && b[3] < 64
}

fn ports_fit(rows: &[[u8; 4]], configured: bool) -> bool
    ensures { result ≡ list_all (port_fits configured) rows.now }
{
    rows.iter().all(|b| port_fits(b, configured))
}

// ---- one buffer, 72 bytes

// Zeros alone from a place on. No early end, so that the loop can go several bytes at a time.
pub fn blank_from(b: &[u8], start: usize) -> bool
    ensures { result ≡ blank (drop start b.now) }
{
    let mut all = 0;
    for x in &b[start.min(b.len())..] {
        all |= *x;
    }
    all == 0
}

// A start-split's PID and transfer type. SETUP is control.
fn names_fit(p: u8, t: u8) -> bool
    ensures { result ≡ is_pid p && (is_type t && type_fits (pid_from p) (type_from t)) }
{
    match p {
        1 | 9 => matches!(t, 0 | 2),
        13 => t == 0,
        _ => false,
    }
}

// A start-split's flags, device address and endpoint.
fn split_fits(f: u8, a: u8, e: u8) -> bool
    ensures { result ≡ ltb f 8 && (ltb a 128 && ltb e 16) }
{
    f < 8 && a < 128 && e < 16
}

fn start_length(p: u8, len: u8) -> bool
    ensures { result ≡ start_length (pid_from p) len }
{
    match p {
        9 => len == 0,
        13 => len == 8,
        _ => len <= 64,
    }
}

// A result and its payload. Only data has one.
#[tactic(auto, unfolding(buffer::specs::Lengths::result_length))]
fn result_fits(last: u8, len: u8) -> bool
    ensures { result ≡ is_result last && result_length (result_from last) len }
{
    match last {
        0 | 2 | 10 | 14 => len == 0,
        3 | 11 => len <= 64,
        _ => false,
    }
}

// The payload of a pending buffer, and the result of a ready or old one.
fn held_fits(s: u8, p: u8, last: u8, len: u8) -> bool
    ensures { result ≡ cond (eqb s 1) (start_length (pid_from p) len) ((eqb s 2 || eqb s 3) && (is_result last && result_length (result_from last) len)) }
{
    match s {
        1 => start_length(p, len),
        2 | 3 => result_fits(last, len),
        _ => false,
    }
}

#[tactic(auto, using(crate::proofs::Parts::empty_end))]
fn buffer_fits(b: &[u8; 72]) -> bool
    ensures { result ≡ buffer_fits b.now }
{
    if b[0] == 0 {
        return blank_from(b, 1);
    }
    names_fit(b[1], b[2])
        && split_fits(b[3], b[4], b[5])
        && held_fits(b[0], b[1], b[6], b[7])
        && blank_from(b, 8 + b[7] as usize)
}

fn buffers_fit(rows: &[[u8; 72]]) -> bool
    ensures { result ≡ list_all buffer_fits rows.now }
{
    rows.iter().all(|b| buffer_fits(b))
}

// ---- the buffers among each other

fn both_held(s: u8, t: u8) -> bool
    ensures { result ≡ (leb 1 s && ltb s 4) && (leb 1 t && ltb t 4) }
{
    (1..4).contains(&s) && (1..4).contains(&t)
}

// The lane of a start-split with these flags.
pub fn lane_in(f: u8) -> Lane
    ensures { result ≡ lane_in f }
{
    if f / 2 / 2 % 2 == 1 {
        Lane::One
    } else {
        Lane::Zero
    }
}

fn direction_in(p: u8) -> Direction
    ensures { result ≡ direction_of (pid_from p) }
{
    numbers::pid_of(p as u32).direction()
}

// The key that a buffer is held under.
#[tactic(auto, unfolding(crate::specs::Read::held_split))]
fn held_key(b: &[u8; 72]) -> Key
    ensures { result ≡ key_of (held_split b.now) }
{
    Key::new(lane_in(b[3]), DeviceAddress(b[4]), b[5], direction_in(b[1]))
}

fn same_key(x: &[u8; 72], y: &[u8; 72]) -> bool
    ensures { result ≡ same_key (key_of (held_split x.now)) (key_of (held_split y.now)) }
{
    held_key(x).same(held_key(y))
}

// Whether two buffers are pending at one place.
fn same_place(s: u8, t: u8, p: u8, q: u8) -> bool
    ensures { result ≡ eqb s 1 && (eqb t 1 && eqb p q) }
{
    s == 1 && t == 1 && p == q
}

// Whether two buffers have one key, or one place.
fn clash(x: &[u8; 72], y: &[u8; 72]) -> bool
    ensures { result ≡ clash (slot_of x.now) (slot_of y.now) }
{
    both_held(x[0], y[0]) && (same_key(y, x) || same_place(x[0], y[0], y[6], x[6]))
}

// The pairs of up to four buffers.
const PAIRS: [(usize, usize); 6] = [(0, 1), (0, 2), (0, 3), (1, 2), (1, 3), (2, 3)];

// Whether two of the buffers clash. None does with one that is not there.
fn pair_clashes(rows: &[[u8; 72]], i: usize, j: usize) -> bool
    ensures { result ≡ clash (get_or (map slot_of rows.now) i Empty) (get_or (map slot_of rows.now) j Empty) }
{
    match (rows.get(i), rows.get(j)) {
        (Some(x), Some(y)) => clash(x, y),
        _ => false,
    }
}

fn clashing(rows: &[[u8; 72]]) -> bool
    requires { length rows.now ≤ 4 }
    ensures { result ≡ clashing (map slot_of rows.now) }
{
    PAIRS.iter().any(|&(i, j)| pair_clashes(rows, i, j))
}

fn is_filled(s: u8) -> bool
    ensures { result ≡ (eqb s 1 || eqb s 2) }
{
    matches!(s, 1 | 2)
}

fn is_from(f: u8, lane: Lane) -> bool
    ensures { result ≡ same_lane (lane_in f) lane }
{
    lane_in(f) == lane
}

// Whether a buffer is pending or ready under a key of the lane.
fn filled_by(b: &[u8; 72], lane: Lane) -> bool
    ensures { result ≡ filled_by lane b.now }
{
    is_filled(b[0]) && is_from(b[3], lane)
}

// Whether the lane holds every buffer pending or ready.
fn filled(rows: &[[u8; 72]], lane: Lane) -> bool
    ensures { result ≡ list_all (filled_by lane) rows.now }
{
    rows.iter().all(|b| filled_by(b, lane))
}

// A lane that holds every buffer holds the first, so that only its lane is looked at.
#[tactic(auto, using(crate::proofs::Ties::first_crowds))]
fn crowded(rows: &[[u8; 72]]) -> bool
    requires { 0 < length rows.now }
    ensures { result ≡ (list_all (filled_by Zero) rows.now || list_all (filled_by One) rows.now) }
{
    filled(rows, lane_in(rows[0][3]))
}

// A running buffer is pending.
fn runs(rows: &[[u8; 72]], low: u8, running: u8) -> bool
    ensures { result ≡ runs (map slot_of rows.now) low running }
{
    let i = running as usize;
    low != 1 || i < rows.len() && rows[i][0] == 1
}

// Each buffer for itself, then all among each other.
fn buffers_agree(rows: &[[u8; 72]], low: u8, running: u8) -> bool
    requires { (0 < length rows.now) × (length rows.now ≤ 4) }
    ensures { result ≡ list_all buffer_fits rows.now && (not (clashing (map slot_of rows.now)) && (not (list_all (filled_by Zero) rows.now || list_all (filled_by One) rows.now) && runs (map slot_of rows.now) low running)) }
{
    buffers_fit(rows) && !clashing(rows) && !crowded(rows) && runs(rows, low, running)
}

// ---- the hub

// A removable byte has no bit above N.
fn removable_fits(n: PortCount, removable: u8) -> bool
    requires { n.0 ≤ 7 }
    ensures { result ≡ ltb removable (2 ^ (n.0 + 1)) }
{
    u32::from(removable) < 1 << (n.0 + 1)
}

#[tactic(auto, unfolding(hub::specs::Hub::new_fits))]
fn numbers_fit(n: PortCount, b: BufferCount, powergood: u8, current: u8, removable: u8) -> bool
    ensures { result ≡ new_fits n.0 b.0 powergood current removable }
{
    (1..=7).contains(&n.0)
        && (2..=4).contains(&b.0)
        && removable % 2 == 0
        && removable_fits(n, removable)
}

fn low_fits(k: u8, n: u8) -> bool
    ensures { result ≡ low_fits k n }
{
    k == 1 || k < 3 && n == 0
}

#[tactic(auto, unfolding(crate::specs::Read::head_fits))]
fn head_fits(area: &[u8]) -> bool
    requires { 8 ≤ length area.now }
    ensures { result ≡ head_fits area.now }
{
    numbers_fit(
        PortCount(area[0]),
        BufferCount(area[1]),
        area[2],
        area[3],
        area[4],
    ) && area[5] < 2
        && low_fits(area[6], area[7])
}

fn size_of(n: PortCount, b: BufferCount) -> usize
    ensures { result ≡ 8 + n.0 * 4 + b.0 * 72 }
{
    8 + (n.0 as usize) * 4 + (b.0 as usize) * 72
}

// Whether the first bytes are within the rules, and the length is the one that they say.
#[tactic(auto, unfolding(crate::specs::Read::sized))]
fn is_sized(area: &[u8]) -> bool
    ensures { result ≡ sized area.now }
{
    area.len() >= 8
        && head_fits(area)
        && area.len() == size_of(PortCount(area[0]), BufferCount(area[1]))
}

fn rows_fit(area: &[u8]) -> bool
    requires { (8 ≤ length area.now) × (get_or area.now 0 0 ≤ 7) × (2 ≤ get_or area.now 1 0) × (get_or area.now 1 0 ≤ 4) × (length area.now ≡ 8 + get_or area.now 0 0 * 4 + get_or area.now 1 0 * 72) }
    ensures { result ≡ rows_fit area.now }
{
    let mid = 8 + area[0] as usize * 4;
    let (ports, _) = area[8..mid].as_chunks::<4>();
    let (buffers, _) = area[mid..].as_chunks::<72>();
    let configured = area[5] == 1;
    ports_fit(ports, configured) && buffers_agree(buffers, area[6], area[7])
}

// Whether the area is the written form of a valid hub.
#[tactic(auto, unfolding(crate::specs::Read::accepts))]
pub fn is_area(area: &[u8]) -> bool
    ensures { result ≡ accepts area.now }
{
    is_sized(area) && rows_fit(area)
}
