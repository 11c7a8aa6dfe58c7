// The transaction translator by value: its buffers, the search of a start-split, the order of acceptance and the low side.
#![tactic(auto)]

ghost use Rattle.std.specs.Prelude.{◌≡◌, ◌+◌, ◌≤◌, take};
ghost use Rattle.translator.specs.Translator.{new_translator, at, with_buffer, with_low, emptied};
ghost use Rattle.translator.specs.Slots.{slots_in, bare};
ghost use Rattle.translator.specs.Search.{find};
ghost use Rattle.buffer.specs.Buffer.{holds, is_pending};
ghost use Rattle.translator.specs.Limit.{may_store, permitted};
ghost use Rattle.translator.specs.OnePass.{past, counted, look, is_settled, held_so_far, carried_by, choice_of, OnePass};
ghost use Rattle.translator.specs.SearchMistakes.{SearchMistakesShutOut};
ghost use Rattle.translator.specs.Order.{is_before, waiting, before, reranked, ranked_in, ranked, sooner, earliest};
ghost use Rattle.translator.specs.StartSplit.{stored, start_by, start_split};
ghost use Rattle.translator.specs.CompleteSplit.{given, unanswered, completed, complete_split};
ghost use Rattle.translator.specs.Launch.{unlaunched, launched, launch};
ghost use Rattle.translator.specs.Deliver.{undelivered, delivered, deliver};
ghost use Rattle.translator.specs.Clear.{low_without, clear_buffer};
ghost use Rattle.translator.specs.ResetLane.{without_lane, low_without_lane, reset_lane};
ghost use Rattle.translator.specs.Claims.{TranslatorClaims};
ghost use Rattle.translator.specs.Cases.{CasesHold};
ghost use Rattle.translator.specs.SearchCases.{SearchCasesHold};

use buffer::{
    Buffer, BufferCount, BufferNumber, DeviceResult, Key, Lane, Slot, Standing, StartSplit,
};
use payload::Payload;

// The full- and low-speed side: one transaction at a time.
#[derive(Clone, Copy, PartialEq, Eq)]
pub enum LowSide {
    Idle,
    Running(BufferNumber),
    // its buffer was cleared; the next result is thrown away
    Abandoned,
}

// The first `count` buffers are in use; the others are empty at all times.
#[derive(Clone, Copy)]
pub struct Translator {
    pub buffers: [Buffer; 4],
    pub count: u8,
    pub low: LowSide,
}

// What a start-split does with which buffer.
#[derive(Clone, Copy, PartialEq, Eq)]
pub enum Choice {
    NoRoom,
    // storing would pass the limit of its lane
    LimitReached,
    Held(BufferNumber),
    Reused(BufferNumber),
    Took(BufferNumber),
}

// What the search of a start-split carries on from buffer to buffer (the accumulator of a fold): numbers and flags, no key and no payload.
// Which of the four it is says what the buffer number names; the u8 is how many buffers so far the key's lane holds pending or ready.
#[derive(Clone, Copy, PartialEq, Eq)]
pub enum Carried {
    // none has the key, none is empty or old
    NoneYet(u8),
    // none has the key; the lowest-numbered empty or old one
    LowestFree(BufferNumber, u8),
    // the lowest-numbered one with the key, which is old
    OwnOld(BufferNumber, u8),
    // the lowest-numbered one with the key, which is pending or ready: settled
    Repeat(BufferNumber),
}

// A number or length of a start-split is outside the rules.
#[derive(Clone, Copy, PartialEq, Eq)]
pub struct Outside;

#[derive(Clone, Copy)]
pub struct Started {
    pub next: Translator,
    pub answer: Result<Choice, Outside>,
}

// Why a complete-split gives no result.
#[derive(Clone, Copy, PartialEq, Eq)]
pub enum NoResult {
    NoMatch,
    NotYet,
}

#[derive(Clone, Copy)]
pub struct Completed {
    pub next: Translator,
    pub answer: Result<DeviceResult, NoResult>,
    pub payload: Payload,
}

// Why a launch gives no start-split.
#[derive(Clone, Copy, PartialEq, Eq)]
pub enum NotLaunched {
    NothingPending,
    Occupied,
}

#[derive(Clone, Copy)]
pub struct Launched {
    pub next: Translator,
    pub answer: Result<StartSplit, NotLaunched>,
    pub payload: Payload,
}

// Why a delivery has no effect.
#[derive(Clone, Copy, PartialEq, Eq)]
pub enum NotDelivered {
    // a number or length outside the rules
    Outside,
    NotInThisState,
}

#[derive(Clone, Copy)]
pub struct Delivered {
    pub next: Translator,
    pub answer: Result<(), NotDelivered>,
}

// ---- the search of a start-split

impl Carried {
    // One more that the lane holds pending or ready.
    fn counted(self) -> Carried
        requires { held_so_far self ≤ 3 }
        ensures { result ≡ counted 1 self }
    {
        match self {
            Carried::NoneYet(held) => Carried::NoneYet(held + 1),
            Carried::LowestFree(m, held) => Carried::LowestFree(m, held + 1),
            Carried::OwnOld(m, held) => Carried::OwnOld(m, held + 1),
            Carried::Repeat(_) => self,
        }
    }

    // Past an empty one, or one that is old under another key.
    fn past_free(self, n: BufferNumber) -> Carried
        ensures { result ≡ past self n Standing.Free }
    {
        match self {
            Carried::NoneYet(held) => Carried::LowestFree(n, held),
            Carried::LowestFree(_, _) | Carried::OwnOld(_, _) | Carried::Repeat(_) => self,
        }
    }

    // Past one with the key that is pending or ready.
    fn past_repeat(self, n: BufferNumber) -> Carried
        requires { held_so_far self ≤ 3 }
        ensures { result ≡ counted 1 (past self n Standing.Holds) }
    {
        match self {
            Carried::NoneYet(_) | Carried::LowestFree(_, _) => Carried::Repeat(n),
            Carried::OwnOld(m, held) => Carried::OwnOld(m, held + 1),
            Carried::Repeat(_) => self,
        }
    }

    // Past one with the key that is old.
    fn past_old(self, n: BufferNumber) -> Carried
        ensures { result ≡ past self n Standing.Reusable }
    {
        match self {
            Carried::NoneYet(held) | Carried::LowestFree(_, held) => Carried::OwnOld(n, held),
            Carried::OwnOld(_, _) | Carried::Repeat(_) => self,
        }
    }

    // Whether no later buffer changes the outcome.
    fn is_settled(self) -> bool
        ensures { result ≡ is_settled self }
    {
        matches!(self, Carried::Repeat(_))
    }

    // The choice, read off at the end.
    fn choice(self, count: BufferCount) -> Choice
        ensures { result ≡ choice_of count.0 self }
    {
        let (held, wanted) = match self {
            Carried::NoneYet(held) => (held, Choice::NoRoom),
            Carried::LowestFree(n, held) => (held, Choice::Took(n)),
            Carried::OwnOld(n, held) => (held, Choice::Reused(n)),
            Carried::Repeat(n) => return Choice::Held(n),
        };
        if may_store(count, held) {
            wanted
        } else {
            Choice::LimitReached
        }
    }
}

// What is carried on past buffer n, in the search of a start-split with the key.
fn look(carried: Carried, n: BufferNumber, slot: Slot, key: Key) -> Carried
    requires { held_so_far carried ≤ 3 }
    ensures { result ≡ look carried n slot key }
{
    match slot.standing(key) {
        Standing::Busy => {
            if slot.is_active_in(key.lane) {
                carried.counted()
            } else {
                carried
            }
        }
        Standing::Free => carried.past_free(n),
        Standing::Holds => carried.past_repeat(n),
        Standing::Reusable => carried.past_old(n),
    }
}

// The slots of the first `count` buffers.
fn used(slots: &[Slot; 4], count: BufferCount) -> &[Slot]
    ensures { result.now ≡ take count.0 slots.now }
{
    &slots[..(count.0 as usize).min(4)]
}

// One pass over the slots of the first `count` buffers, in rising number, up to where it is settled.
fn one_pass(slots: [Slot; 4], count: BufferCount, key: Key) -> Carried
    ensures { result ≡ carried_by look key (take count.0 (bare slots)) }
{
    let mut carried = Carried::NoneYet(0);
    for (n, slot) in used(&slots, count).iter().enumerate() {
        carried = look(carried, BufferNumber(n as u8), *slot, key);
        if carried.is_settled() {
            return carried;
        }
    }
    carried
}

// Whether a lane that holds so many of the buffers pending or ready may store one more.
fn may_store(count: BufferCount, held: u8) -> bool
    ensures { result ≡ may_store count.0 held }
{
    (held as usize) + 1 < count.0 as usize
}

// What a start-split under the key does.
pub fn choose(slots: [Slot; 4], count: BufferCount, key: Key) -> Choice
    ensures { result ≡ permitted count.0 key (take count.0 (bare slots)) }
{
    one_pass(slots, count, key).choice(count)
}

// The buffer that holds a key.
pub fn holder(slots: [Slot; 4], count: BufferCount, key: Key) -> Option<BufferNumber>
    ensures { result ≡ find (holds key) (take count.0 (bare slots)) }
{
    for (n, slot) in used(&slots, count).iter().enumerate() {
        if slot.holds(key) {
            return Some(BufferNumber(n as u8));
        }
    }
    None
}

// ---- the order of acceptance

fn is_waiting(slot: Slot) -> bool
    ensures { result ≡ is_pending slot }
{
    matches!(slot, Slot::Pending(_, _))
}

fn is_before(slot: Slot, place: u8) -> bool
    ensures { result ≡ is_before place slot }
{
    matches!(slot, Slot::Pending(_, other) if other < place)
}

pub fn count_waiting(slots: [Slot; 4]) -> u8
    ensures { result ≡ waiting (bare slots) }
{
    bools::how_many(
        is_waiting(slots[0]),
        is_waiting(slots[1]),
        is_waiting(slots[2]),
        is_waiting(slots[3]),
    )
}

pub fn rank_of(slots: [Slot; 4], place: u8) -> u8
    ensures { result ≡ before place (bare slots) }
{
    bools::how_many(
        is_before(slots[0], place),
        is_before(slots[1], place),
        is_before(slots[2], place),
        is_before(slots[3], place),
    )
}

// The slot with its rank among the slots as its place, if it is pending.
fn rerank_slot(slots: [Slot; 4], slot: Slot) -> Slot
    ensures { result ≡ reranked (bare slots) slot }
{
    match slot {
        Slot::Pending(split, place) => Slot::Pending(split, rank_of(slots, place)),
        Slot::Empty | Slot::Ready(_, _) | Slot::Old(_, _) => slot,
    }
}

// The buffer with such a slot.
fn rerank(slots: [Slot; 4], b: Buffer) -> Buffer
    ensures { result ≡ ranked_in (bare slots) b }
{
    Buffer {
        slot: rerank_slot(slots, b.slot),
        ..b
    }
}

fn renumber(bs: [Buffer; 4], slots: [Slot; 4]) -> [Buffer; 4]
    requires { slots ≡ slots_in bs }
    ensures { result ≡ ranked bs }
{
    let b0 = rerank(slots, bs[0]);
    let b1 = rerank(slots, bs[1]);
    let b2 = rerank(slots, bs[2]);
    let b3 = rerank(slots, bs[3]);
    [b0, b1, b2, b3]
}

// The earlier of what was found so far and a buffer.
fn nearer(
    sofar: Option<(BufferNumber, u8)>,
    slot: Slot,
    n: BufferNumber,
) -> Option<(BufferNumber, u8)>
    ensures { result ≡ sooner sofar slot n }
{
    match (slot, sofar) {
        (Slot::Pending(_, place), None) => Some((n, place)),
        (Slot::Pending(_, place), Some((_, other))) => {
            if place < other {
                Some((n, place))
            } else {
                sofar
            }
        }
        (Slot::Empty | Slot::Ready(_, _) | Slot::Old(_, _), _) => sofar,
    }
}

// The pending buffer with the lowest place, of the first `count`, and that place.
pub fn earliest_of(slots: [Slot; 4], count: BufferCount) -> Option<(BufferNumber, u8)>
    ensures { result ≡ earliest (take count.0 (bare slots)) }
{
    let mut sofar = None;
    for (n, slot) in used(&slots, count).iter().enumerate() {
        sofar = nearer(sofar, *slot, BufferNumber(n as u8));
    }
    sofar
}

// ---- the decisions, by the slots alone

impl Translator {
    fn buffer_count(self) -> BufferCount
        ensures { result ≡ record { 0 = self.count } }
    {
        BufferCount(self.count)
    }

    pub fn slots(self) -> [Slot; 4]
        ensures { result ≡ slots_in self.buffers }
    {
        self.buffers.map(|b| b.slot)
    }

    fn choose(self, key: Key) -> Choice
        ensures { result ≡ permitted self.count key (take self.count self.buffers) }
    {
        choose(self.slots(), self.buffer_count(), key)
    }

    fn holder(self, key: Key) -> Option<BufferNumber>
        ensures { result ≡ find (holds key) (take self.count self.buffers) }
    {
        holder(self.slots(), self.buffer_count(), key)
    }

    fn earliest(self) -> Option<(BufferNumber, u8)>
        ensures { result ≡ earliest (take self.count self.buffers) }
    {
        earliest_of(self.slots(), self.buffer_count())
    }
}

// ---- the state

impl Translator {
    // Empty buffers, an idle low side.
    pub fn new(count: BufferCount) -> Translator
        ensures { result ≡ new_translator count.0 }
    {
        Translator {
            buffers: [Buffer::vacant(); 4],
            count: count.0,
            low: LowSide::Idle,
        }
    }

    // Every buffer empty, the low side stopped.
    pub fn empty(self) -> Translator
        ensures { result ≡ emptied self }
    {
        Translator::new(self.buffer_count())
    }

    // Buffer n; past the last one, an empty one.
    pub fn buffer(self, n: BufferNumber) -> Buffer
        ensures { result ≡ at self.buffers n.0 }
    {
        let i = n.0 as usize;
        if i < 4 {
            return self.buffers[i];
        }
        Buffer::vacant()
    }

    fn with_buffer(self, n: BufferNumber, b: Buffer) -> Translator
        ensures { result ≡ with_buffer self n b }
    {
        let mut next = self;
        let i = n.0 as usize;
        if i < 4 {
            next.buffers[i] = b;
        }
        next
    }

    fn with_low(self, low: LowSide) -> Translator
        ensures { result ≡ with_low self low }
    {
        Translator { low, ..self }
    }
}

// ---- the calls

impl Translator {
    // The start-split in buffer n, last in the order of acceptance.
    fn store(self, n: BufferNumber, split: StartSplit, payload: &[u8]) -> Translator
        ensures { result ≡ stored self n split payload.now }
    {
        let slots = self.slots();
        let place = count_waiting(slots);
        let b = Buffer {
            slot: Slot::Pending(split, place),
            payload: Payload::of(payload),
        };
        let buffers = renumber(self.buffers, slots);
        let ranks = Translator { buffers, ..self };
        ranks.with_buffer(n, b)
    }

    // The next translator, once what to do is chosen.
    fn started(self, choice: Choice, split: StartSplit, payload: &[u8]) -> Translator
        ensures { result ≡ (start_by self split payload.now choice).next }
    {
        match choice {
            Choice::NoRoom | Choice::LimitReached | Choice::Held(_) => self,
            Choice::Reused(n) | Choice::Took(n) => self.store(n, split, payload),
        }
    }

    // Inlined: what explains a start-split then stores nothing.
    #[tactic(auto, unfolding(crate::specs::StartSplit::start_split))]
    #[inline(always)]
    pub fn start_split(self, split: StartSplit, payload: &[u8]) -> Started
        ensures { result ≡ start_split self split payload.now }
    {
        if split.fits(payload.len()) {
            let choice = self.choose(split.key());
            Started {
                next: self.started(choice, split, payload),
                answer: Ok(choice),
            }
        } else {
            Started {
                next: self,
                answer: Err(Outside),
            }
        }
    }

    // A complete-split whose key buffer n holds.
    fn complete_at(self, n: BufferNumber) -> Completed
        ensures { result ≡ completed self n (at self.buffers n.0).payload (at self.buffers n.0).slot }
    {
        let Buffer { slot, payload } = self.buffer(n);
        match slot {
            Slot::Empty => no_result(self, NoResult::NoMatch),
            Slot::Pending(_, _) => no_result(self, NoResult::NotYet),
            Slot::Ready(split, result) => Completed {
                next: self.with_buffer(
                    n,
                    Buffer {
                        slot: Slot::Old(split, result),
                        payload,
                    },
                ),
                answer: Ok(result),
                payload: give(result, payload),
            },
            Slot::Old(_, result) => Completed {
                next: self,
                answer: Ok(result),
                payload: give(result, payload),
            },
        }
    }

    #[tactic(auto, unfolding(crate::specs::CompleteSplit::complete_split))]
    pub fn complete_split(self, key: Key) -> Completed
        ensures { result ≡ complete_split self key }
    {
        match self.holder(key) {
            None => no_result(self, NoResult::NoMatch),
            Some(n) => self.complete_at(n),
        }
    }

    fn launch_at(self, n: BufferNumber) -> Launched
        ensures { result ≡ launched self n (at self.buffers n.0).payload (at self.buffers n.0).slot }
    {
        let Buffer { slot, payload } = self.buffer(n);
        match slot {
            Slot::Pending(split, _) => Launched {
                next: self.with_low(LowSide::Running(n)),
                answer: Ok(split),
                payload,
            },
            Slot::Empty | Slot::Ready(_, _) | Slot::Old(_, _) => {
                no_launch(self, NotLaunched::NothingPending)
            }
        }
    }

    #[tactic(auto, unfolding(crate::specs::Launch::launch))]
    pub fn launch(self) -> Launched
        ensures { result ≡ launch self }
    {
        match self.low {
            LowSide::Idle => match self.earliest() {
                None => no_launch(self, NotLaunched::NothingPending),
                Some((n, _)) => self.launch_at(n),
            },
            LowSide::Running(_) | LowSide::Abandoned => no_launch(self, NotLaunched::Occupied),
        }
    }

    fn deliver_to(self, n: BufferNumber, res: DeviceResult, payload: &[u8]) -> Delivered
        ensures { result ≡ delivered self res payload.now n (at self.buffers n.0).slot }
    {
        match self.buffer(n).slot {
            Slot::Pending(split, _) => {
                if res.suits(split.pid) {
                    let ready = Buffer {
                        slot: Slot::Ready(split, res),
                        payload: Payload::of(payload),
                    };
                    Delivered {
                        next: self.with_buffer(n, ready).with_low(LowSide::Idle),
                        answer: Ok(()),
                    }
                } else {
                    not_delivered(self, NotDelivered::NotInThisState)
                }
            }
            Slot::Empty | Slot::Ready(_, _) | Slot::Old(_, _) => {
                not_delivered(self, NotDelivered::NotInThisState)
            }
        }
    }

    #[tactic(auto, unfolding(crate::specs::Deliver::deliver))]
    pub fn deliver(self, res: DeviceResult, payload: &[u8]) -> Delivered
        ensures { result ≡ deliver self res payload.now }
    {
        if !res.carries(payload.len()) {
            return not_delivered(self, NotDelivered::Outside);
        }
        match self.low {
            LowSide::Idle => not_delivered(self, NotDelivered::NotInThisState),
            LowSide::Running(n) => self.deliver_to(n, res, payload),
            LowSide::Abandoned => Delivered {
                next: self.with_low(LowSide::Idle),
                answer: Ok(()),
            },
        }
    }

    // ClearTTBuffer.
    #[tactic(auto, unfolding(crate::specs::Clear::clear_buffer))]
    pub fn clear_buffer(self, key: Key) -> Translator
        ensures { result ≡ clear_buffer self key }
    {
        match self.holder(key) {
            None => self,
            Some(n) => self
                .with_buffer(n, Buffer::vacant())
                .with_low(self.low.without(n)),
        }
    }
}

impl Translator {
    // ResetTT from a lane.
    pub fn reset_lane(self, lane: Lane) -> Translator
        ensures { result ≡ reset_lane self lane }
    {
        let old = self.buffers;
        let b0 = without_lane(old[0], lane);
        let b1 = without_lane(old[1], lane);
        let b2 = without_lane(old[2], lane);
        let b3 = without_lane(old[3], lane);
        Translator {
            buffers: [b0, b1, b2, b3],
            low: self.low_without_lane(lane),
            ..self
        }
    }

    // The low side once the lane's buffers are emptied.
    fn low_without_lane(self, lane: Lane) -> LowSide
        ensures { result ≡ low_without_lane lane self.buffers self.low }
    {
        match self.low {
            LowSide::Running(n) => {
                if self.buffer(n).slot.is_in(lane) {
                    LowSide::Abandoned
                } else {
                    LowSide::Running(n)
                }
            }
            LowSide::Idle | LowSide::Abandoned => self.low,
        }
    }
}

// Empty, if it was the lane's. Kept apart: inlined, the frames add up (docs/SPEED.md).
#[inline(never)]
fn without_lane(b: Buffer, lane: Lane) -> Buffer
    ensures { result ≡ without_lane lane b }
{
    if b.slot.is_in(lane) {
        Buffer::vacant()
    } else {
        b
    }
}

// What comes with a result: data its payload, a handshake none.
pub fn give(res: DeviceResult, payload: Payload) -> Payload
    ensures { result ≡ given res payload }
{
    if res.is_data() {
        payload
    } else {
        Payload::none()
    }
}

fn no_result(t: Translator, why: NoResult) -> Completed
    ensures { result ≡ unanswered t why }
{
    Completed {
        next: t,
        answer: Err(why),
        payload: Payload::none(),
    }
}

fn no_launch(t: Translator, why: NotLaunched) -> Launched
    ensures { result ≡ unlaunched t why }
{
    Launched {
        next: t,
        answer: Err(why),
        payload: Payload::none(),
    }
}

fn not_delivered(t: Translator, why: NotDelivered) -> Delivered
    ensures { result ≡ undelivered t why }
{
    Delivered {
        next: t,
        answer: Err(why),
    }
}

impl LowSide {
    // The low side once buffer n is emptied.
    fn without(self, n: BufferNumber) -> LowSide
        ensures { result ≡ low_without n self }
    {
        match self {
            LowSide::Running(m) if m == n => LowSide::Abandoned,
            LowSide::Idle | LowSide::Running(_) | LowSide::Abandoned => self,
        }
    }
}

// ---- the claims, pinned

fn translator_claims()
    ensures { TranslatorClaims }
{}

// A payload of 64 bytes, a short result after a long one, a late result.
#[tactic(auto, unfolding(payload::specs::Payload::padded, payload::specs::Payload::payload_of, buffer::specs::Same::same_key, buffer::specs::Lengths::numbers_fit, buffer::specs::Lengths::start_fits, buffer::specs::Lengths::result_length, crate::specs::Search::find, crate::specs::Search::chosen, crate::specs::Order::pass, crate::specs::Translator::tally, crate::specs::Order::ranked, crate::specs::Order::earliest, crate::specs::StartSplit::stored, crate::specs::StartSplit::start_split, crate::specs::CompleteSplit::complete_split, crate::specs::Launch::launch, crate::specs::Deliver::deliver, crate::specs::Clear::clear_buffer, crate::specs::Limit::permitted))]
fn translator_cases()
    ensures { CasesHold }
{}

fn one_pass_claim()
    ensures { OnePass look }
{}

fn search_mistakes()
    ensures { SearchMistakesShutOut }
{}

// What is carried past each buffer, and the choice.
#[tactic(auto, unfolding(buffer::specs::Same::same_key, crate::specs::Slots::bare, crate::specs::Search::find, crate::specs::Search::chosen, crate::specs::Order::pass, crate::specs::Translator::tally, crate::specs::Limit::permitted, crate::specs::OnePass::look))]
fn search_cases()
    ensures { SearchCasesHold }
{}
