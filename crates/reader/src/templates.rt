// The commands over the library: Store, LoadChar, DeletChar, Empty, TempleteNum, ReadIndexTable.
ghost use Rattle.std.specs.Prelude.{◌≡◌, ◌/◌, ◌<◌, true, length};
ghost use Rattle.protocol.specs.Numbers.{page_bytes};
ghost use Rattle.protocol.specs.Index.{stored};
ghost use Rattle.protocol.specs.Commands.{store, load_char, delet_char, empty, templete_num, read_index_table};
ghost use Rattle.reader.specs.Answers.{answer_in};
ghost use Rattle.reader.specs.Buffers.{buffer_number};
ghost use Rattle.reader.specs.Memory.{Kept, reader_in, filled_of, stored_numbered, said_of, obeyed};

use crate::answers::Answer;
use crate::buffers::{self, Buffer};
use crate::memory::Sound;
use crate::pages::page_of;
use library::{index, pages};
use protocol::codes::Code;
use protocol::numbers;

impl Sound<'_> {
    // Whether a page is stored.
    fn is_stored(&self, page: u16) -> bool
        ensures { result ≡ stored self.now.index.now page }
    {
        index::is_stored(self.index, usize::from(page))
    }

    // Copies a filled buffer to a page, which is stored then, and the buffer's origin. The page is written before its bit is set.
    fn store_buffer(&mut self, buffer: Buffer, page: u16)
        requires there { page < length self.old.templates.now / page_bytes }
        requires filled { filled_of (buffer_number buffer) self.old ≡ true }
        ensures kept { Kept self.old self.new }
        ensures stored { reader_in self.new ≡ stored_numbered (buffer_number buffer) page (reader_in self.old) }
    {
        let place = usize::from(page);
        *self.settings = buffers::hold(*self.settings, buffer, Some(page));
        // `src` borrows the buffer through a name of its own: read straight from the field, its bytes would be lost to the proof, which keeps but their number.
        // Each arm sets the bit: behind the `match` the proof no longer tells the two apart.
        match buffer {
            Buffer::First => {
                let src = &mut *self.buffer1;
                pages::write_page(self.templates, place, src);
                index::set_bit(self.index, place);
            }
            Buffer::Second => {
                let src = &mut *self.buffer2;
                pages::write_page(self.templates, place, src);
                index::set_bit(self.index, place);
            }
        }
    }

    // Store (buffer, page).
    pub(crate) fn store(&mut self, number: u8, page: u16) -> Result<Answer, Code>
        ensures kept { Kept self.old self.new }
        ensures obeyed { said_of (answer_in result) self.new ≡ obeyed self.old (store number page) }
    {
        let buffer = Buffer::try_from(number)?;
        if self.templates.len() / numbers::PAGE <= usize::from(page) {
            return Err(Code::BadPage);
        }
        if !self.is_filled(buffer) {
            return Err(Code::NothingThere);
        }
        if self.is_stored(page) {
            return Err(Code::PageTaken);
        }
        self.store_buffer(buffer, page);
        Ok(Answer::Alone(Code::Done))
    }

    // LoadChar (buffer, page).
    pub(crate) fn load_char(&mut self, number: u8, page: u16) -> Result<Answer, Code>
        ensures kept { Kept self.old self.new }
        ensures obeyed { said_of (answer_in result) self.new ≡ obeyed self.old (load_char number page) }
    {
        let buffer = Buffer::try_from(number)?;
        if self.templates.len() / numbers::PAGE <= usize::from(page) {
            return Err(Code::BadPage);
        }
        if !self.is_stored(page) {
            return Err(Code::NothingThere);
        }
        self.load_buffer(buffer, page);
        Ok(Answer::Alone(Code::Done))
    }

    // DeletChar (page, count).
    pub(crate) fn delet_char(&mut self, page: u16, count: u16) -> Result<Answer, Code>
        ensures kept { Kept self.old self.new }
        ensures obeyed { said_of (answer_in result) self.new ≡ obeyed self.old (delet_char page count) }
    {
        if !pages::is_span(page, count, self.templates.len() / numbers::PAGE) {
            return Err(Code::BadRange);
        }
        pages::zero_pages(self.templates, page, count);
        index::clear_bits(self.index, page, count);
        self.forget(page, count);
        Ok(Answer::Alone(Code::Done))
    }

    // Empty.
    pub(crate) fn empty(&mut self) -> Answer
        ensures kept { Kept self.old self.new }
        ensures obeyed { said_of result self.new ≡ obeyed self.old empty }
    {
        let pages = self.templates.len() / numbers::PAGE;
        self.templates.fill(0);
        self.index.fill(0);
        self.forget(0, pages as u16);
        Answer::Alone(Code::Done)
    }

    // TempleteNum.
    pub(crate) fn templete_num(&self) -> Answer
        ensures { said_of result self.now ≡ obeyed self.now templete_num }
    {
        let count = index::count(self.index, numbers::INDEX as u8).unwrap();
        Answer::Count(count.to_be_bytes())
    }

    // ReadIndexTable (page).
    pub(crate) fn read_index_table(&self, page: u8) -> Result<Answer, Code>
        ensures { said_of (answer_in result) self.now ≡ obeyed self.now (read_index_table page) }
    {
        match page_of(self.index, page) {
            Some(bytes) => Ok(Answer::Page(bytes)),
            None => Err(Code::BadPage),
        }
    }
}
