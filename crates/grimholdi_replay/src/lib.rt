// The entry that replays a block of a recording on the hub of a lent area.
#![tactic(auto)]

ghost use Rattle.std.specs.Prelude.{◌≡◌};
ghost use Rattle.grimholdi_replay.specs.Entry.{refusal_number, plain_replayed, block_entry};
ghost use Rattle.grimholdi_replay.specs.Replays.{EntryReplays};

use hub::Refusal;
use recording::BlockFault;

// What became of a block. The header's grimholdi_replayed.
#[repr(C)]
#[derive(Clone, Copy, Default)]
pub struct Replayed {
    pub number: u8,
    pub refusal: u8,
    pub active: u8,
    pub stored: u32,
    pub answered: u32,
    pub emptied: u32,
    pub length: u32,
}

fn refusal_number(verdict: Result<(), BlockFault>) -> u8
    ensures { result ≡ refusal_number verdict }
{
    match verdict {
        Ok(()) => 0,
        Err(BlockFault::BadLength) => 1,
        Err(BlockFault::BadCheck) => 2,
        Err(BlockFault::BadNumber) => 3,
        Err(BlockFault::BadCount) => 4,
        Err(BlockFault::BadRecord) => 5,
    }
}

// A number alone.
fn plain_replayed(number: u8) -> Replayed
    ensures { result ≡ plain_replayed number }
{
    Replayed {
        number,
        ..Replayed::default()
    }
}

#[unsafe(no_mangle)]
pub extern "C" fn grimholdi_replay_block(
    area: &mut [u8],
    place: u32,
    block: &[u8],
    answers: &mut [u8],
) -> Replayed
    ensures value { result ≡ (block_entry area.old place block.now answers.old).answer }
    ensures area { area.new ≡ (block_entry area.old place block.now answers.old).area }
    ensures answers { answers.new ≡ (block_entry area.old place block.now answers.old).answers }
{
    let Some(hub) = area::read_area(area) else {
        return plain_replayed(Refusal::Outside.number());
    };
    let Some(done) = replay::replay_block(hub, place, block, answers) else {
        return plain_replayed(Refusal::NoSpace.number());
    };
    area::write_area(done.hub, area);
    Replayed {
        number: 0,
        refusal: refusal_number(done.verdict),
        active: replay::active(done.hub),
        stored: done.counts.stored,
        answered: done.counts.answered,
        emptied: done.counts.emptied,
        length: done.written as u32,
    }
}

// What holds of the entry and of every replay through it.
fn entry_replays()
    ensures { EntryReplays }
{}
