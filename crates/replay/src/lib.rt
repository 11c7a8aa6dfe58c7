// Replay of a recorded session, block by block.
#![tactic(auto)]

ghost use Rattle.std.specs.Prelude.{◌≡◌, [], ◌+◌, ◌≤◌, ◌<◌, ◌^◌, length};
ghost use Rattle.buffer.specs.Buffer.{is_active};
ghost use Rattle.hub.specs.Method.{outcome_of};
ghost use Rattle.hub.specs.Step.{step};
ghost use Rattle.runs.specs.Tally.{active_buffers};
ghost use Rattle.call_bytes.specs.Table.{call_of};
ghost use Rattle.replay.specs.Answers.{answer_bytes, put_first};
ghost use Rattle.replay.specs.Counting.{no_tally, is_complete_kind, tallied_by, Counted};
ghost use Rattle.replay.specs.Code.{tally_in, block_gives, block_writes};
ghost use Rattle.replay.specs.Turn.{TurnFits, Turned, RunFits, RanAll};
ghost use Rattle.replay.specs.Replay.{ReplayClaims};
ghost use Rattle.replay.specs.ReplayMistakes.{ReplayMistakesShutOut};

use buffer::Slot;
use call_bytes::{CallKind, Recorded};
use hub::{Hub, Stepped};
use recording::BlockFault;

// A tally: of a block, from zero on.
#[derive(Clone, Copy, Default)]
pub struct Counts {
    pub stored: u32,
    pub answered: u32,
    pub emptied: u32,
}

// ---- one call

// Six calls are kept apart: inlined, the frames add up (docs/SPEED.md).
#[inline(never)]
fn control(hub: Hub, n: &[u32; 7], bytes: &[u8]) -> Stepped
    ensures { outcome_of result ≡ step hub (call_of CallKind.Control n.now bytes.now) }
{
    hub.control(n[0], bytes, n[1] as usize)
}

#[inline(never)]
fn start_split(hub: Hub, n: &[u32; 7], bytes: &[u8]) -> Stepped
    ensures { outcome_of result ≡ step hub (call_of CallKind.StartSplit n.now bytes.now) }
{
    hub.start_split(n[0], n[1], n[2], n[3], n[4], n[5], n[6], bytes)
}

#[inline(never)]
fn complete_split(hub: Hub, n: &[u32; 7]) -> Stepped
    ensures { outcome_of result ≡ step hub (call_of CallKind.CompleteSplit n.now []) }
{
    hub.complete_split(n[0], n[1], n[2], n[3], n[4] as usize)
}

#[inline(never)]
fn launch(hub: Hub, n: &[u32; 7]) -> Stepped
    ensures { outcome_of result ≡ step hub (call_of CallKind.Launch n.now []) }
{
    hub.launch(n[0] as usize)
}

#[inline(never)]
fn deliver(hub: Hub, n: &[u32; 7], bytes: &[u8]) -> Stepped
    ensures { outcome_of result ≡ step hub (call_of CallKind.Deliver n.now bytes.now) }
{
    hub.deliver(n[0], bytes)
}

#[inline(never)]
fn tick(hub: Hub) -> Stepped
    ensures { outcome_of result ≡ step hub (call_of CallKind.Tick [] []) }
{
    hub.tick()
}

// A record's call through the hub.
fn run_call(hub: Hub, taken: &Recorded, bytes: &[u8]) -> Stepped
    ensures { outcome_of result ≡ step hub (call_of taken.now.kind taken.now.numbers bytes.now) }
{
    let n = &taken.numbers;
    match taken.kind {
        CallKind::Control => control(hub, n, bytes),
        CallKind::Poll => hub.poll(n[0], n[1] as usize),
        CallKind::StartSplit => start_split(hub, n, bytes),
        CallKind::CompleteSplit => complete_split(hub, n),
        CallKind::Launch => launch(hub, n),
        CallKind::Deliver => deliver(hub, n, bytes),
        CallKind::LineEvent => hub.line_event(n[0], n[1]),
        CallKind::Tick => tick(hub),
        CallKind::BusReset => hub.bus_reset(),
    }
}

fn is_complete(kind: CallKind) -> bool
    ensures { result ≡ is_complete_kind kind }
{
    matches!(kind, CallKind::CompleteSplit)
}

// ---- the tally

fn is_active(slot: Slot) -> bool
    ensures { result ≡ is_active slot }
{
    matches!(slot, Slot::Pending(..) | Slot::Ready(..))
}

// How many buffers are pending or ready.
pub fn active(hub: Hub) -> u8
    ensures { (result ≡ active_buffers hub) × (result ≤ 4) }
{
    let [a, b, c, d] = hub.translator.slots();
    let first = u8::from(is_active(a)) + u8::from(is_active(b));
    first + u8::from(is_active(c)) + u8::from(is_active(d))
}

fn count_call(counts: Counts, complete: bool, before: u32, after: u32) -> Counts
    requires before_bound { (before ≤ 4) × (after ≤ 4) }
    requires stored_bound { (counts.stored + 4 < 2 ^ 32) × (counts.answered + 4 < 2 ^ 32) × (counts.emptied + 4 < 2 ^ 32) }
    ensures { tally_in result ≡ tallied_by complete before after (tally_in counts) }
{
    if before <= after {
        Counts {
            stored: counts.stored + (after - before),
            ..counts
        }
    } else if complete {
        Counts {
            answered: counts.answered + (before - after),
            ..counts
        }
    } else {
        Counts {
            emptied: counts.emptied + (before - after),
            ..counts
        }
    }
}

// ---- answers

// An answer at the start of the output, and how many bytes it takes.
fn put_answer(out: &mut [u8], said: Stepped) -> usize
    requires { 74 ≤ length out.old }
    ensures value { (result ≡ length (answer_bytes (outcome_of said).answer)) × (result ≤ 74) }
    ensures out_after { out.new ≡ put_first (answer_bytes (outcome_of said).answer) out.old }
{
    let reply = said.reply;
    let payload = said.payload;
    let size = payload.size();
    let head = [
        reply.number,
        size,
        reply.pid,
        reply.transfer,
        reply.lane,
        reply.address,
        reply.endpoint,
        reply.direction,
        reply.lowspeed,
        reply.toggle,
    ];
    out[..10].copy_from_slice(&head);
    payload.give(&mut out[10..]);
    10 + size as usize
}

// ---- the records of a block

// So far: the hub, the tally, the bytes that were read and those that were written.
#[derive(Clone, Copy)]
pub struct Ran {
    pub hub: Hub,
    pub counts: Counts,
    pub at: usize,
    pub written: usize,
}

// One record's call, its answer and its count.
fn turn(ran: Ran, taken: &Recorded, s: &[u8], out: &mut [u8]) -> Ran
    requires { TurnFits ran taken.now s.now (length out.old) }
    ensures { Turned ran taken.now result s.now out.old out.new }
{
    let start = ran.at + taken.start;
    let end = start + taken.size;
    let said = run_call(ran.hub, taken, &s[start..end]);
    let before = u32::from(active(ran.hub));
    let after = u32::from(active(said.hub));
    let counts = count_call(ran.counts, is_complete(taken.kind), before, after);
    let n = put_answer(&mut out[ran.written..], said);
    Ran {
        hub: said.hub,
        counts,
        at: ran.at + taken.length,
        written: ran.written + n,
    }
}

// All records.
fn run_records(hub: Hub, s: &[u8], out: &mut [u8]) -> Ran
    requires { RunFits s.now (length out.old) }
    ensures { RanAll hub result s.now out.old out.new }
{
    let mut ran = Ran {
        hub,
        counts: Counts::default(),
        at: 0,
        written: 0,
    };
    while let Some(taken) = call_bytes::read_record(&s[ran.at..]) {
        ran = turn(ran, &taken, s, out);
    }
    ran
}

// ---- a block

// What became of a block: the hub that it leaves, its part of the tally, how many bytes were written, and what is wrong with it, if it's bad.
#[derive(Clone, Copy)]
pub struct Block {
    pub hub: Hub,
    pub verdict: Result<(), BlockFault>,
    pub counts: Counts,
    pub written: usize,
}

// One block at its place: all its calls are run and each answer is written whole, or it is bad and none is.
// Where there is no room for its answers, it isn't looked at.
pub fn replay_block(hub: Hub, place: u32, block: &[u8], out: &mut [u8]) -> Option<Block>
    ensures value { result ≡ block_gives hub place block.now (length out.old) }
    ensures out_after { out.new ≡ block_writes hub place block.now out.old }
{
    if out.len() < 37444 {
        return None;
    }
    let verdict = recording::check(block, Some(place));
    if verdict.is_err() {
        return Some(Block {
            hub,
            verdict,
            counts: Counts::default(),
            written: 0,
        });
    }
    let end = 4 + recording::count(block);
    let ran = run_records(hub, &block[4..end], out);
    Some(Block {
        hub: ran.hub,
        verdict,
        counts: ran.counts,
        written: ran.written,
    })
}

fn counted()
    ensures { Counted }
{}

fn replay_claims()
    ensures { ReplayClaims }
{}

fn replay_mistakes_shut_out()
    ensures { ReplayMistakesShutOut }
{}
