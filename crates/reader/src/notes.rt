// The notepad: WriteNotepad and ReadNotepad. Its pages are read off its length.
ghost use Rattle.std.specs.Prelude.{◌≡◌};
ghost use Rattle.protocol.specs.Commands.{write_notepad, read_notepad};
ghost use Rattle.reader.specs.Answers.{answer_in};
ghost use Rattle.reader.specs.Memory.{Kept, said_of, obeyed};

use crate::answers::Answer;
use crate::memory::Sound;
use crate::pages::page_of;
use protocol::codes::Code;
use protocol::numbers;

impl Sound<'_> {
    // WriteNotepad (page, 32 bytes).
    pub(crate) fn write_notepad(&mut self, page: u8, note: [u8; 32]) -> Result<Answer, Code>
        ensures kept { Kept self.old self.new }
        ensures obeyed { said_of (answer_in result) self.new ≡ obeyed self.old (write_notepad page note) }
    {
        let page = usize::from(page);
        if self.notepad.len() / numbers::NOTE <= page {
            return Err(Code::BadNotePage);
        }
        let start = numbers::NOTE * page;
        self.notepad[start..start + numbers::NOTE].copy_from_slice(&note);
        Ok(Answer::Alone(Code::Done))
    }

    // ReadNotepad (page).
    pub(crate) fn read_notepad(&self, page: u8) -> Result<Answer, Code>
        ensures { said_of (answer_in result) self.now ≡ obeyed self.now (read_notepad page) }
    {
        match page_of(self.notepad, page) {
            Some(bytes) => Ok(Answer::Page(bytes)),
            None => Err(Code::BadNotePage),
        }
    }
}
