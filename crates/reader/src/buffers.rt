// The character buffers by number, and the commands over them: UpChar and DownChar.
ghost use Rattle.std.specs.Prelude.{◌≡◌, ◌/◌, ◌<◌, ◌*◌, length};
ghost use Rattle.protocol.specs.Numbers.{page_bytes};
ghost use Rattle.protocol.specs.Bytes.{part};
ghost use Rattle.protocol.specs.Reader.{emptied, loaded_from};
ghost use Rattle.protocol.specs.Commands.{up_char, down_char};
ghost use Rattle.reader.specs.Answers.{answer_in};
ghost use Rattle.reader.specs.Buffers.{buffer_number, with_fill, with_page, IsNamed};
ghost use Rattle.reader.specs.Memory.{Kept, reader_in, filled_of, with_numbered, said_of, obeyed};

use crate::answers::Answer;
use crate::memory::Sound;
use library::pages;
use protocol::codes::Code;
use protocol::{Settings, numbers};
use rules::settings;

#[derive(Clone, Copy, PartialEq, Eq)]
pub(crate) enum Buffer {
    First = 1,
    Second = 2,
}

impl TryFrom<u8> for Buffer {
    type Error = Code;

    ghost try_from_gives = { IsNamed };

    // A number that names no buffer is answered by 01h.
    fn try_from(number: u8) -> Result<Self, Code> {
        match number {
            1 => Ok(Buffer::First),
            2 => Ok(Buffer::Second),
            _ => Err(Code::BadPacket),
        }
    }
}

// The settings with a buffer's filled mark set.
pub(crate) fn mark(settings: Settings, buffer: Buffer) -> Settings
    ensures { result ≡ with_fill (buffer_number buffer) 1 settings }
{
    match buffer {
        Buffer::First => Settings {
            filled1: 1,
            ..settings
        },
        Buffer::Second => Settings {
            filled2: 1,
            ..settings
        },
    }
}

// The settings with a buffer filled from a page, its origin, or with it empty.
pub(crate) fn hold(settings: Settings, buffer: Buffer, page: Option<u16>) -> Settings
    ensures { result ≡ with_page (buffer_number buffer) page settings }
{
    let filled = u8::from(page.is_some());
    let origin = page.unwrap_or(numbers::NO_PAGE);
    match buffer {
        Buffer::First => Settings {
            filled1: filled,
            origin1: origin,
            ..settings
        },
        Buffer::Second => Settings {
            filled2: filled,
            origin2: origin,
            ..settings
        },
    }
}

impl Sound<'_> {
    // Whether a buffer is filled.
    pub(crate) fn is_filled(&self, buffer: Buffer) -> bool
        ensures { result ≡ filled_of (buffer_number buffer) self.now }
    {
        match buffer {
            Buffer::First => self.settings.filled1 == 1,
            Buffer::Second => self.settings.filled2 == 1,
        }
    }

    // Zeroes a buffer: its mark is clear then, and it has no origin.
    pub(crate) fn empty_buffer(&mut self, buffer: Buffer)
        ensures kept { Kept self.old self.new }
        ensures emptied { reader_in self.new ≡ with_numbered (buffer_number buffer) emptied (reader_in self.old) }
    {
        *self.settings = hold(*self.settings, buffer, None);
        match buffer {
            Buffer::First => self.buffer1.fill(0),
            Buffer::Second => self.buffer2.fill(0),
        }
    }

    // Copies a page to a buffer, which is filled then, and the page its origin.
    pub(crate) fn load_buffer(&mut self, buffer: Buffer, page: u16)
        requires { page < length self.old.templates.now / page_bytes }
        ensures kept { Kept self.old self.new }
        ensures loaded { reader_in self.new ≡ with_numbered (buffer_number buffer)
            (loaded_from page (part (page_bytes * page) page_bytes self.old.templates.now)) (reader_in self.old) }
    {
        *self.settings = hold(*self.settings, buffer, Some(page));
        let place = usize::from(page);
        // Borrowed through a name of its own: read straight from the field, its bytes would be lost to the proof, which keeps but their number.
        let templates = &mut *self.templates;
        match buffer {
            Buffer::First => pages::read_page(self.buffer1, templates, place),
            Buffer::Second => pages::read_page(self.buffer2, templates, place),
        }
    }

    // UpChar (buffer).
    pub(crate) fn up_char(&self, number: u8) -> Result<Answer, Code>
        ensures { said_of (answer_in result) self.now ≡ obeyed self.now (up_char number) }
    {
        let buffer = Buffer::try_from(number)?;
        if !self.is_filled(buffer) {
            return Err(Code::NothingToSend);
        }
        Ok(Answer::Upload(buffer))
    }

    // DownChar (buffer).
    pub(crate) fn down_char(&mut self, number: u8) -> Result<Answer, Code>
        ensures kept { Kept self.old self.new }
        ensures obeyed { said_of (answer_in result) self.new ≡ obeyed self.old (down_char number) }
    {
        let buffer = Buffer::try_from(number)?;
        self.empty_buffer(buffer);
        *self.settings = settings::moved(*self.settings, number, 0);
        Ok(Answer::Alone(Code::Done))
    }
}
