// The index: page p is the bit of weight 2^(p mod 8) in byte p / 8. A page that the index has no bit for is not stored, and stays so.
ghost use Rattle.std.specs.Prelude.{◌≡◌, ◌*◌, ◌/◌, ◌<◌, ◌≤◌, length};
ghost use Rattle.protocol.specs.Bytes.{byte_at};
ghost use Rattle.protocol.specs.Index.{stored, set_bit, clear_bit, clear_bits, set_bits, clear_from};
ghost use Rattle.protocol.specs.BringOver.{bring_over};
ghost use Rattle.protocol.specs.Codes.{outcome_number};
ghost use Rattle.protocol.specs.Records.{brought_of};
ghost use Rattle.library.specs.Lent.{counted_of};

use protocol::numbers::{INDEX, OLD_INDEX};
use protocol::refusals::Refusal;

// Whether a page that the index has a byte for is stored.
pub(crate) fn bit_at(index: &[u8], p: usize) -> bool
    requires { p / 8 < length index.now }
    ensures { result ≡ stored index.now p }
{
    index[p / 8] >> (p % 8) & 1 == 1
}

/// Whether a page is stored.
pub fn is_stored(index: &[u8], p: usize) -> bool
    ensures { result ≡ stored index.now p }
{
    p / 8 < index.len() && bit_at(index, p)
}

/// The byte at a place, 0 where the index has none.
pub fn byte_of(index: &[u8], at: u8) -> u8
    ensures { result ≡ byte_at index.now at }
{
    // Every byte is looked at, and counts once or not at all: so neither a branch nor an address goes by the place. How far the place still is, is counted
    // down in a byte of its own, which lets the compiler take sixteen bytes at a time; an iterator's place is wider, and a fold over it takes four times as long.
    let mut found = 0;
    let mut left = at;
    for byte in &index[..index.len().min(256)] {
        found |= byte * u8::from(left == 0);
        left = left.wrapping_sub(1);
    }
    found
}

// Setting and clearing are two functions of a line each: one with a truth that tells them apart is no plainer.
pub fn set_bit(index: &mut [u8], p: usize)
    ensures { index.new ≡ set_bit index.old p }
{
    if p / 8 < index.len() {
        index[p / 8] |= 1 << (p % 8);
    }
}

pub fn clear_bit(index: &mut [u8], p: usize)
    ensures { index.new ≡ clear_bit index.old p }
{
    if p / 8 < index.len() {
        index[p / 8] &= !(1 << (p % 8));
    }
}

/// Clears n bits from p on.
pub fn clear_bits(index: &mut [u8], p: u16, n: u16)
    ensures { index.new ≡ clear_bits index.old p n }
{
    let start = usize::from(p);
    for q in start..start + usize::from(n) {
        clear_bit(index, q);
    }
}

/// Whether every bit from page c on is clear.
pub fn is_clear_from(index: &[u8], c: usize) -> bool
    ensures { result ≡ clear_from index.now c }
{
    // By bytes: the rest of c's byte, then every later byte, without an early exit.
    let at = c / 8;
    if index.len() <= at {
        return true;
    }
    let mut found = index[at] >> (c % 8);
    for byte in &index[at + 1..] {
        found |= byte;
    }
    found == 0
}

// The set bits of a short index: the ones of each byte, added.
fn count_bits(index: &[u8]) -> u32
    requires { length index.now < 256 }
    ensures count { result ≡ set_bits index.now }
    ensures small { result ≤ 8 * length index.now }
{
    let mut n = 0;
    for byte in index {
        n += byte.count_ones();
    }
    n
}

/// The number of set bits in an index of so many bytes; none if it is not that long.
pub fn count(index: &[u8], len: u8) -> Option<u16>
    ensures { result ≡ counted_of len index.now }
{
    if index.len() == usize::from(len) {
        Some(count_bits(index) as u16)
    } else {
        None
    }
}

/// Brings an index that was stored before request [6] over to a lent one: its bytes, and zero bytes behind them.
pub fn bring_over(old: &[u8], index: &mut [u8]) -> Result<(), Refusal>
    ensures { brought_of (outcome_number result) index.new ≡ bring_over old.now index.old }
{
    if old.len() != OLD_INDEX || index.len() != INDEX {
        return Err(Refusal::BadLength);
    }
    let (front, rest) = index.split_at_mut(OLD_INDEX);
    front.copy_from_slice(old);
    rest.fill(0);
    Ok(())
}
