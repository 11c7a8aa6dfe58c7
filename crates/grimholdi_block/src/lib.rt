// The entries that write a block of a recording in lent memory.
#![tactic(auto)]

ghost use Rattle.std.specs.Prelude.{◌≡◌, ◌+◌, ◌≤◌, length};
ghost use Rattle.call_bytes.specs.Words.{half};
ghost use Rattle.recording.specs.Written.{count_of};
ghost use Rattle.grimholdi_block.specs.Writing.{placed, is_waiting, is_under_way, is_whole, longer, sealed, start_entry, add_entry, finish_entry};
ghost use Rattle.grimholdi_block.specs.Writer.{WriterExact};

// ---- bytes

fn put(block: &mut [u8], at: usize, part: &[u8])
    requires { at + length part.now ≤ length block.old }
    ensures { block.new ≡ placed at part.now block.old }
{
    let end = at + part.len();
    block[at..end].copy_from_slice(part);
}

fn put_half(block: &mut [u8], at: usize, n: u16)
    requires { at + 2 ≤ length block.old }
    ensures { block.new ≡ placed at (half n) block.old }
{
    put(block, at, &n.to_le_bytes());
}

// ---- a block under way

#[unsafe(no_mangle)]
#[tactic(auto, unfolding(crate::specs::Writing::start_entry))]
pub extern "C" fn grimholdi_block_start(block: &mut [u8], number: u32) -> u8
    ensures value { result ≡ (start_entry block.old number).answer }
    ensures block_after { block.new ≡ (start_entry block.old number).block }
{
    if block.len() != 512 || number == 0 || 65535 < number {
        return 6;
    }
    put(block, 0, &[0; 510]);
    put_half(block, 510, number as u16);
    0
}

// Bytes 0 and 1 are zero, and a number waits in the last two.
fn is_waiting(block: &[u8]) -> bool
    ensures { result ≡ is_waiting block.now }
{
    call_bytes::half_at(block, 0) == 0 && call_bytes::half_at(block, 510) != 0
}

fn is_under_way(block: &[u8]) -> bool
    ensures { result ≡ is_under_way block.now }
{
    block.len() == 512 && is_waiting(block) && recording::count(block) <= 506
}

// One record, and nothing behind it.
fn is_whole(form: &[u8]) -> bool
    ensures { result ≡ is_whole form.now }
{
    call_bytes::read_record(form).is_some_and(|record| record.length == form.len())
}

// The record behind those that there are.
fn lengthen(block: &mut [u8], form: &[u8])
    requires { (length block.old ≡ 512) × (count_of block.old + length form.now ≤ 506) }
    ensures { block.new ≡ longer block.old form.now }
{
    let used = recording::count(block);
    let end = used + form.len();
    put_half(block, 2, end as u16);
    put(block, 4 + used, form);
}

#[unsafe(no_mangle)]
#[tactic(auto, unfolding(crate::specs::Writing::add_entry))]
pub extern "C" fn grimholdi_block_add(block: &mut [u8], form: &[u8]) -> u8
    ensures value { result ≡ (add_entry block.old form.now).answer }
    ensures block_after { block.new ≡ (add_entry block.old form.now).block }
{
    if !is_under_way(block) || !is_whole(form) {
        return 6;
    }
    if 506 - recording::count(block) < form.len() {
        return 3;
    }
    lengthen(block, form);
    0
}

// The number, then the check.
fn seal(block: &mut [u8])
    requires { length block.old ≡ 512 }
    ensures { block.new ≡ sealed block.old }
{
    let number = call_bytes::half_at(block, 510);
    put_half(block, 0, number);
    let sum = recording::word_sum(block, 255) % 65536;
    put_half(block, 510, ((65536 - sum) % 65536) as u16);
}

#[unsafe(no_mangle)]
#[tactic(auto, unfolding(crate::specs::Writing::finish_entry))]
pub extern "C" fn grimholdi_block_finish(block: &mut [u8]) -> u8
    ensures value { result ≡ (finish_entry block.old).answer }
    ensures block_after { block.new ≡ (finish_entry block.old).block }
{
    if !is_waiting(block) || !recording::is_filled(block) {
        return 6;
    }
    seal(block);
    0
}

// What holds of the entries; the function does nothing.
fn writer_exact()
    ensures { WriterExact }
{}
