// Building a packet into a lent room.
ghost use Rattle.std.specs.Prelude.{◌≡◌, ◌∷◌, ◌+◌, ◌%◌, ◌≤◌, length};
ghost use Rattle.protocol.specs.Numbers.{head_bytes, frame_bytes};
ghost use Rattle.protocol.specs.Bytes.{two, total, lay};
ghost use Rattle.protocol.specs.Packet.{sum_of, packet, build_of};
ghost use Rattle.protocol.specs.Records.{built_of, made_of};
ghost use Rattle.wire.specs.Laying.{head_of};

use crate::{bytes, finder};
use protocol::numbers;
use protocol::refusals::Refusal;

// A number as two bytes, high byte first.
#[tactic(auto, using(crate::proofs::Packets::word_two))]
fn word_of(n: usize) -> [u8; 2]
    ensures { result ≡ two n }
{
    ((n % 65536) as u16).to_be_bytes()
}

// The nine bytes before a packet's content, n its length field.
#[tactic(auto, using(crate::proofs::Packets::head_list))]
fn head_of(address: [u8; 4], identifier: u8, n: usize) -> [u8; numbers::HEAD]
    ensures { result ≡ head_of address identifier n }
{
    let [a, b, c, d] = address;
    let [high, low] = word_of(n);
    [
        numbers::FIRST_MARK,
        numbers::SECOND_MARK,
        a,
        b,
        c,
        d,
        identifier,
        high,
        low,
    ]
}

// The sum of a packet, t the sum of its content.
fn sum_of(identifier: u8, n: usize, t: u16) -> u16
    ensures { result ≡ (total (identifier ∷ two n) + t) % 65536 }
{
    let [high, low] = word_of(n);
    bytes::sum(&[identifier, high, low]).wrapping_add(t)
}

// The sum of the packet with this identifier and content.
pub fn packet_sum(identifier: u8, content: &[u8]) -> usize
    ensures { result ≡ sum_of identifier content.now }
{
    usize::from(sum_of(identifier, content.len() + 2, bytes::sum(content)))
}

// Lays the content behind the head and adds it up on the way. To copy it and then to add it up takes 23 instructions more for a byte of content, as most replies
// are short, and 25 fewer for 256.
fn lay_content(room: &mut [u8], content: &[u8]) -> u16
    requires { head_bytes + length content.now ≤ length room.old }
    ensures sum { result ≡ total content.now % 65536 }
    ensures laid { room.new ≡ lay head_bytes content.now room.old }
{
    let mut sum: u16 = 0;
    for (i, &byte) in content.iter().enumerate() {
        room[numbers::HEAD + i] = byte;
        sum = sum.wrapping_add(u16::from(byte));
    }
    sum
}

// A packet at the front of the room, and its length.
#[tactic(auto, using(crate::proofs::Packets::pieces))]
fn lay_packet(address: [u8; 4], identifier: u8, content: &[u8], room: &mut [u8]) -> usize
    requires { length content.now + frame_bytes ≤ length room.old }
    ensures len { result ≡ length content.now + frame_bytes }
    ensures laid { room.new ≡ lay 0 (packet address identifier content.now) room.old }
{
    let n = content.len() + 2;
    let end = numbers::HEAD + content.len();
    room[..numbers::HEAD].copy_from_slice(&head_of(address, identifier, n));
    let t = lay_content(room, content);
    room[end..end + 2].copy_from_slice(&sum_of(identifier, n, t).to_be_bytes());
    end + 2
}

// Builds a packet at the front of the room: `BadContent` where no packet has this identifier and content, then `BadRoom`. The identifier is a number, since C
// may hand over any.
pub fn build(
    address: [u8; 4],
    identifier: u8,
    content: &[u8],
    room: &mut [u8],
) -> Result<usize, Refusal>
    ensures { made_of (built_of result) room.new
        ≡ build_of address identifier content.now room.old }
{
    if !finder::is_head(identifier, content.len() + 2) {
        return Err(Refusal::BadContent);
    }
    if room.len() < content.len() + numbers::FRAME {
        return Err(Refusal::BadRoom);
    }
    Ok(lay_packet(address, identifier, content, room))
}
