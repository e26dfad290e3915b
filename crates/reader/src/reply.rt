// What an answer writes into the reply room: the acknowledge, and a buffer's bytes in data packets of one size.
ghost use Rattle.std.specs.Prelude.{◌≡◌, true, [], ◌+◌, ◌≤◌, length};
ghost use Rattle.protocol.specs.Numbers.{page_bytes, frame_bytes, reply_room, highest_size, done};
ghost use Rattle.protocol.specs.Bytes.{lay, follow};
ghost use Rattle.protocol.specs.Codes.{code_number};
ghost use Rattle.protocol.specs.Packet.{length_of, packet, accepts};
ghost use Rattle.protocol.specs.Reader.{size_of};
ghost use Rattle.protocol.specs.Data.{acknowledge, data_packets};
ghost use Rattle.reader.specs.Answers.{spoken_of, listed_bytes, upload_bytes};
ghost use Rattle.reader.specs.Buffers.{buffer_number, chosen_of};

use crate::answers::Answer;
use crate::buffers::Buffer;
use crate::memory::Sound;
use protocol::codes::Code;
use protocol::identifiers::Identifier;
use protocol::{Settings, numbers};
use rules::settings;
use wire::builder;

// Writes a packet that the builder accepts at the front of a room that it fits, and returns its length.
fn put_packet(address: [u8; 4], identifier: u8, content: &[u8], room: &mut [u8]) -> usize
    requires accepted { accepts identifier (length_of content.now) ≡ true }
    requires room { length content.now + frame_bytes ≤ length room.old }
    ensures len { result ≡ length content.now + frame_bytes }
    ensures laid { room.new ≡ lay 0 (packet address identifier content.now) room.old }
{
    builder::build(address, identifier, content, room).unwrap_or(0)
}

// Writes an acknowledge at the front of the reply room, and returns its length. The number of its bytes is fixed for each kind of answer, which makes
// the short ones quick.
fn put_acknowledge<const N: usize>(
    address: [u8; 4],
    code: Code,
    bytes: [u8; N],
    reply: &mut [u8],
) -> usize
    requires few { N ≤ listed_bytes }
    requires room { reply_room ≤ length reply.old }
    ensures length { result ≡ length (acknowledge address (code_number code) bytes.entry) }
    ensures written { reply.new ≡ lay 0 (acknowledge address (code_number code) bytes.entry) reply.old }
{
    let mut content = [0; numbers::NOTE + 1];
    content[0] = u8::from(code);
    content[1..N + 1].copy_from_slice(&bytes);
    put_packet(
        address,
        Identifier::Acknowledge as u8,
        &content[..N + 1],
        reply,
    )
}

// Writes a buffer in data packets into the reply room from place at on, and returns the place behind them.
fn put_data(settings: Settings, bytes: &[u8], at: usize, reply: &mut [u8]) -> usize
    requires legal { settings.size ≤ highest_size }
    requires page { length bytes.now ≡ page_bytes }
    requires room { at + upload_bytes ≤ length reply.old }
    ensures end { result ≡ at + length (data_packets settings.address (size_of settings.size) bytes.now) }
    ensures written { reply.new ≡ lay at (data_packets settings.address (size_of settings.size) bytes.now) reply.old }
{
    let size = settings::size_of(settings.size);
    let step = size + numbers::FRAME;
    let end = at + bytes.len() / size * step;
    let mut to = at;
    for content in bytes.chunks_exact(size) {
        let next = to + step;
        let identifier = if next == end {
            Identifier::Last as u8
        } else {
            Identifier::Data as u8
        };
        put_packet(settings.address, identifier, content, &mut reply[to..next]);
        to = next;
    }
    end
}

// Writes an acknowledge of 00h at the front of the reply room, and a buffer in data packets behind it, and returns their length.
fn put_upload(settings: Settings, bytes: &[u8], reply: &mut [u8]) -> usize
    requires legal { settings.size ≤ highest_size }
    requires page { length bytes.now ≡ page_bytes }
    requires room { reply_room ≤ length reply.old }
    ensures length { result ≡ length (follow (acknowledge settings.address done []) (data_packets settings.address (size_of settings.size) bytes.now)) }
    ensures written { reply.new ≡ lay 0
        (follow (acknowledge settings.address done []) (data_packets settings.address (size_of settings.size) bytes.now)) reply.old }
{
    let at = put_acknowledge(settings.address, Code::Done, [], reply);
    put_data(settings, bytes, at, reply)
}

impl Sound<'_> {
    fn bytes_of(&self, buffer: Buffer) -> &[u8]
        ensures { result.now ≡ chosen_of (buffer_number buffer) self.now.buffer1.now self.now.buffer2.now }
    {
        match buffer {
            Buffer::First => &*self.buffer1,
            Buffer::Second => &*self.buffer2,
        }
    }

    // Writes what an answer says at the front of the reply room, and returns its length.
    pub(crate) fn speak(&self, answer: Answer, reply: &mut [u8]) -> usize
        requires { reply_room ≤ length reply.old }
        ensures length { result ≡ length (spoken_of answer self.now.settings.now self.now.buffer1.now self.now.buffer2.now) }
        ensures written { reply.new ≡ lay 0 (spoken_of answer self.now.settings.now self.now.buffer1.now self.now.buffer2.now) reply.old }
    {
        let address = self.settings.address;
        match answer {
            Answer::Silence => 0,
            Answer::Alone(code) => put_acknowledge(address, code, [], reply),
            Answer::Count(bytes) => put_acknowledge(address, Code::Done, bytes, reply),
            Answer::Match(code, bytes) => put_acknowledge(address, code, bytes, reply),
            Answer::Parameters(bytes) => put_acknowledge(address, Code::Done, bytes, reply),
            Answer::Page(bytes) => put_acknowledge(address, Code::Done, bytes, reply),
            Answer::Upload(buffer) => put_upload(*self.settings, self.bytes_of(buffer), reply),
        }
    }
}
