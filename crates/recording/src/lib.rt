// A block of a recorded session: 512 bytes with a number, a count, records and a check. docs/CALLS.md lays them down.
#![tactic(auto)]

ghost use Rattle.std.specs.Prelude.{◌≡◌, ◌≤◌, ◌<◌, is_some};
ghost use Rattle.recording.specs.Claims.{CallsExact, BlockExact};
ghost use Rattle.recording.specs.Calls.{calls_of};
ghost use Rattle.recording.specs.Mistakes.{BlockMistakesShutOut};
ghost use Rattle.recording.specs.Refusals.{BlockRefusals};
ghost use Rattle.recording.specs.Written.{sum_to, count_of};
ghost use Rattle.recording.specs.Block.{number_right, count_fits, records_fit, is_filled, body_of, verdict_for, verdict_of};
ghost use Rattle.recording.specs.Cases.{BlockCases};

// The first thing that is wrong with a block.
#[derive(Clone, Copy, PartialEq, Eq)]
pub enum BlockFault {
    BadLength,
    BadCheck,
    BadNumber,
    BadCount,
    BadRecord,
}

// ---- its parts

// The sum of the first words.
#[tactic(auto, unfolding(crate::specs::Written::sum_to))]
pub fn word_sum(s: &[u8], words: u16) -> u32
    ensures { result ≡ sum_to s.now words }
{
    let mut sum = 0;
    for i in 0..u32::from(words) {
        sum += u32::from(call_bytes::half_at(s, 2 * i));
    }
    sum
}

// Records, one behind the other.
fn are_records(s: &[u8]) -> bool
    ensures { result ≡ is_some (calls_of s.now) }
{
    let mut rest = s;
    while !rest.is_empty() {
        let Some(record) = call_bytes::read_record(rest) else {
            return false;
        };
        rest = &rest[record.length..];
    }
    true
}

// How many bytes are used.
pub fn count(s: &[u8]) -> usize
    ensures { (result ≡ count_of s.now) × (result < 65536) }
{
    usize::from(call_bytes::half_at(s, 2))
}

fn count_fits(block: &[u8; 512]) -> bool
    ensures { result ≡ count_fits block.now }
{
    let n = count(block);
    n <= 506 && area_check::blank_from(&block[..510], 4 + n)
}

fn records_fit(block: &[u8; 512]) -> bool
    requires { count_of block.now ≤ 506 }
    ensures { result ≡ records_fit block.now }
{
    let end = 4 + count(block);
    are_records(&block[4..end])
}

// Count and records.
fn body(block: &[u8; 512]) -> Result<(), BlockFault>
    ensures { result ≡ body_of block.now }
{
    if !count_fits(block) {
        return Err(BlockFault::BadCount);
    }
    if !records_fit(block) {
        return Err(BlockFault::BadRecord);
    }
    Ok(())
}

// 512 bytes whose count and records fit.
pub fn is_filled(s: &[u8]) -> bool
    ensures { result ≡ is_filled s.now }
{
    match s.as_array() {
        Some(block) => count_fits(block) && records_fit(block),
        None => false,
    }
}

// ---- the whole

// Whether the number is the place, if there is one; no number is right for place 0 or for one above 65,535.
fn number_right(block: &[u8; 512], place: Option<u32>) -> bool
    ensures { result ≡ number_right place block.now }
{
    place.is_none_or(|place| place != 0 && u32::from(call_bytes::half_at(block, 0)) == place)
}

// The test of a block, which may have no place.
pub fn check(s: &[u8], place: Option<u32>) -> Result<(), BlockFault>
    ensures { result ≡ verdict_for place s.now }
{
    let Some(block) = s.as_array::<512>() else {
        return Err(BlockFault::BadLength);
    };
    if word_sum(block, 256) % 65536 != 0 {
        return Err(BlockFault::BadCheck);
    }
    if !number_right(block, place) {
        return Err(BlockFault::BadNumber);
    }
    body(block)
}

fn block_refusals()
    ensures { BlockRefusals verdict_of }
{}

fn block_mistakes_shut_out()
    ensures { BlockMistakesShutOut }
{}

fn block_exact()
    ensures { BlockExact }
{}

fn calls_exact()
    ensures { CallsExact }
{}

fn block_cases()
    ensures { BlockCases }
{}
