// Steps 6 and 7: an open transfer ended, and its data packets.
ghost use Rattle.std.specs.Prelude.{◌≡◌, ◌+◌, ◌≤◌, true, cond, eqb, length};
ghost use Rattle.protocol.specs.Numbers.{page_bytes};
ghost use Rattle.protocol.specs.Reader.{size_of};
ghost use Rattle.protocol.specs.Step.{rested, take_as, take_in};
ghost use Rattle.protocol.specs.Records.{plain_of};
ghost use Rattle.rules.specs.Settings.{with_transfer};
ghost use Rattle.reader.specs.declared.answers.Answer.TheVariants.{Silence};
ghost use Rattle.reader.specs.Buffers.{buffer_number, with_fill};
ghost use Rattle.reader.specs.Memory.{Kept, reader_in, said_of};

use crate::answers::Answer;
use crate::buffers;
use crate::buffers::Buffer;
use crate::memory::Sound;
use protocol::Settings;
use protocol::codes::Code;
use rules::{settings, transfer};
use wire::bytes;

// The settings once a data packet has gone in, up to a place: the last sets the filled mark and closes the transfer.
fn moved_on(settings: Settings, buffer: Buffer, next: u16, last: bool) -> Settings
    ensures { result ≡ cond last (with_transfer 0 0 (with_fill (buffer_number buffer) 1 settings)) (with_transfer settings.transfer next settings) }
{
    if last {
        settings::moved(buffers::mark(settings, buffer), 0, 0)
    } else {
        settings::moved(settings, settings.transfer, next)
    }
}

impl Sound<'_> {
    // Ends an open transfer: its buffer is zeroed.
    pub(crate) fn end_transfer(&mut self)
        ensures kept { Kept self.old self.new }
        ensures rested { reader_in self.new ≡ rested (reader_in self.old) }
    {
        if let Ok(buffer) = Buffer::try_from(self.settings.transfer) {
            self.empty_buffer(buffer);
            *self.settings = settings::moved(*self.settings, 0, 0);
        }
    }

    // A data packet that fits goes in at the place reached.
    fn place(&mut self, buffer: Buffer, content: &[u8], last: bool)
        requires opened { self.old.settings.now.transfer ≡ buffer_number buffer }
        requires room { self.old.settings.now.got + length content.now ≤ page_bytes }
        requires long { length content.now ≡ size_of self.old.settings.now.size }
        ensures kept { Kept self.old self.new }
        ensures placed { said_of Silence self.new
            ≡ take_as (reader_in self.old) (eqb (buffer_number buffer) 2) self.old.settings.now.got content.now true last }
    {
        let at = usize::from(self.settings.got);
        let next = at + content.len();
        *self.settings = moved_on(*self.settings, buffer, next as u16, last);
        // By `put`, whose two slices the compiler knows to lie apart: copy_from_slice between fields would need memmove of a board's C library.
        match buffer {
            Buffer::First => bytes::put(&mut self.buffer1[at..next], content),
            Buffer::Second => bytes::put(&mut self.buffer2[at..next], content),
        }
    }

    // A data packet.
    pub(crate) fn take_part(&mut self, content: &[u8], right: bool, last: bool) -> Answer
        ensures kept { Kept self.old self.new }
        ensures taken { said_of result self.new
            ≡ take_in (reader_in self.old) last right content.now (plain_of self.old.settings.now).transfer }
    {
        let Ok(buffer) = Buffer::try_from(self.settings.transfer) else {
            return Answer::Silence;
        };
        if !transfer::does_fit(*self.settings, right, last, content.len()) {
            self.end_transfer();
            return Answer::Alone(Code::TransferFailed);
        }
        self.place(buffer, content, last);
        Answer::Silence
    }
}
