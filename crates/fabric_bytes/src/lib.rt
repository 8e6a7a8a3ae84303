// The bytes of a post, of an access and of an unmapped read (rules 3.2, 4.11, 4.17).
// A function that moves bytes cuts the part of its master out of the buffer, and moves them within it (rule 2.2).
#![tactic(auto)]

ghost use Rattle.std.specs.Prelude.{◌≡◌, ◌+◌, ◌≤◌, ◌<◌, length, get_or};
ghost use Rattle.common_laws.specs.Bits.{bit};
ghost use Rattle.fabric_transfer.specs.Moving.{all, index_from, move};
ghost use Rattle.fabric_transfer.specs.Bytes.{buffer_length, part_of, posted_words, cleared_words, carried_access};
ghost use Rattle.fabric_transfer.specs.Code.Reaching.{Reached};

use common_numbers::PART_BYTES;
use fabric_accesses::Posting;

// The words of a post, to the part of master m (rules 2.2, 3.2).
pub fn post_words(buffer: &mut [u8], m: usize, words: &[u8])
    requires { (length buffer.old ≡ buffer_length) × (m < 8) × (length words.now ≤ 512) }
    ensures { buffer.new ≡ posted_words m words.now buffer.old }
{
    let start = PART_BYTES * m;
    let end = start + PART_BYTES;
    store_words(words, &mut buffer[start..end], 0);
}

// The words of a post, or the bytes of a read access, to index `at` of the part and after it (rule 3.2). Byte by byte: those of an
// access are eight at the most, and with `copy_from_slice`, a call of memcpy, a clock takes 1% longer; and with it the archive for C
// needs memmove from outside.
fn store_words(words: &[u8], part: &mut [u8], at: usize)
    requires { at + length words.now ≤ length part.old }
    ensures { part.new ≡ move all (λ k. get_or words.now k 0) (index_from at) 0 (length words.now) part.old }
{
    for (k, word) in words.iter().enumerate() {
        part[at + k] = *word;
    }
}

// The bytes of a read access of master m that the slave has lanes for, to its part from index `first` on (rules 2.2, 3.2, 3.5).
fn read_access(words: &[u8], buffer: &mut [u8], m: usize, first: usize)
    requires { (length buffer.old ≡ buffer_length) × (m < 8) × (first + length words.now ≤ 512) }
    ensures { buffer.new ≡ move all (λ k. get_or words.now k 0)
        (λ k. part_of m + (first + k)) 0 (length words.now) buffer.old }
{
    let start = PART_BYTES * m;
    let end = start + PART_BYTES;
    store_words(words, &mut buffer[start..end], first);
}

// Bytes of the part of master m from index `first` on become 0 (rules 2.2, 4.10): the slave has no lanes for them.
fn clear_access(buffer: &mut [u8], m: usize, first: usize, count: usize)
    requires { (length buffer.old ≡ buffer_length) × (m < 8) × (first + count ≤ 512) }
    ensures { buffer.new
        ≡ move all (λ k. 0) (λ k. part_of m + (first + k)) 0 count buffer.old }
{
    let start = PART_BYTES * m;
    let end = start + PART_BYTES;
    let part = &mut buffer[start..end];
    part[first..first + count].fill(0);
}

// So many bytes at the front of the part of master m become 0 (rules 2.2, 4.17).
pub fn clear_front(buffer: &mut [u8], m: usize, count: usize)
    requires { (length buffer.old ≡ buffer_length) × (m < 8) × (count ≤ 512) }
    ensures { buffer.new ≡ cleared_words m count buffer.old }
{
    clear_access(buffer, m, 0, count);
}

// Whether lane k is enabled (rule 3.1); of the test see fabric_arbiter::is_requesting.
fn lane_on(lanes: u32, k: usize) -> bool
    requires { k < 8 }
    ensures { result ≡ bit lanes k }
{
    (lanes >> k) % 2 == 1
}

// A write access (rule 4.11). Its words lie in one word of the master: their lanes count on from that of the first (rule 2.3).
fn write_words(words: &[u8], memory: &mut [u8], lanes: u32, lane: usize)
    requires { (length words.now ≤ length memory.old) × (lane + length words.now ≤ 8) }
    ensures { memory.new ≡ move (λ k. bit lanes (lane + k)) (λ k. get_or words.now k 0)
        (index_from 0) 0 (length words.now) memory.old }
{
    for (k, word) in words.iter().enumerate() {
        if lane_on(lanes, lane + k) {
            memory[k] = *word;
        }
    }
}

// A write access of master m, whose words begin at index `first` of its part, to the bytes of the memory that it reaches (rules 2.2,
// 4.11).
fn write_access(memory: &mut [u8], buffer: &[u8], m: usize, first: usize, lanes: u32, lane: usize)
    requires { (length buffer.now ≡ buffer_length) × (m < 8) × (first + length memory.old ≤ 512)
        × (lane + length memory.old ≤ 8) }
    ensures { memory.new ≡ move (λ k. bit lanes (lane + k))
        (λ k. get_or buffer.now (part_of m + (first + k)) 0) (index_from 0) 0 (length memory.old) memory.old }
{
    let start = PART_BYTES * m;
    let end = start + PART_BYTES;
    let part = &buffer[start..end];
    write_words(&part[first..first + memory.len()], memory, lanes, lane);
}

// Access a of the transfer that master m holds, carried out at a slave whose span starts at `start` (rules 2.1, 4.8): the bytes
// that the slave has lanes for are moved, and a read clears the others.
pub fn carry_access(
    posting: Posting,
    m: usize,
    start: usize,
    a: u32,
    memory: &mut [u8],
    buffer: &mut [u8],
)
    requires { Reached posting.pair.master posting.pair.slave posting.transfer m start a
        (record { memory = memory.old; buffer = buffer.old }) }
    ensures { record { memory = memory.new; buffer = buffer.new }
        ≡ carried_access posting.pair.master posting.pair.slave posting.transfer m start a
        (record { memory = memory.old; buffer = buffer.old }) }
{
    let Posting { pair, transfer } = posting;
    let at = start + posting.access_offset(a) as usize;
    let from = pair.first_byte(a);
    let first = from as usize;
    let count = pair.lane_bytes() as usize;
    if transfer.write {
        let lane = fabric_accesses::over_width(from, pair.master.width) as usize;
        write_access(
            &mut memory[at..at + count],
            buffer,
            m,
            first,
            transfer.lanes,
            lane,
        );
        return;
    }
    let bytes = pair.access_bytes() as usize;
    read_access(&memory[at..at + count], buffer, m, first);
    clear_access(buffer, m, first + count, bytes - count);
}
