// The origins of the buffers: whether they are legal, and what becomes of a buffer when pages are deleted.
ghost use Rattle.std.specs.Prelude.{◌≡◌, ◌≤◌};
ghost use Rattle.protocol.specs.Numbers.{most_pages};
ghost use Rattle.protocol.specs.Tests.{among};
ghost use Rattle.protocol.specs.Reader.{is_one_of};
ghost use Rattle.protocol.specs.Call.{fit_origin};
ghost use Rattle.protocol.specs.Records.{origin_of};
ghost use Rattle.rules.specs.Settings.{origins_fit};
ghost use Rattle.reader.specs.Buffers.{buffer_number};
ghost use Rattle.reader.specs.Memory.{Kept, reader_in, origin_in, without_numbered, without_all};

use crate::buffers::Buffer;
use crate::memory::Sound;
use library::index;
use protocol::{Settings, numbers};

// Whether an origin is legal: none, or a page below C that is stored, of a filled buffer. Origin, index and mark are guarded, so no branch and no address goes
// by them: the index is looked at whole. What the compiler makes of that, benchmarks/traces.c looks at.
fn is_fit(index: &[u8], pages: usize, origin: u16, filled: bool) -> bool
    requires { pages ≤ most_pages }
    ensures { result ≡ fit_origin pages index.now filled (origin_of origin) }
{
    let p = origin as usize;
    let byte = index::byte_of(index, (p / 8 % 256) as u8);
    let there = byte >> (p % 8) & 1;
    let none = origin == numbers::NO_PAGE;
    none | ((p < pages) & (there == 1) & filled)
}

// Whether both origins are legal (refusal 3). Both are looked at, whatever the first is.
pub(crate) fn are_fit(settings: Settings, index: &[u8], pages: usize) -> bool
    requires { pages ≤ most_pages }
    ensures { result ≡ origins_fit pages index.now settings }
{
    let one = is_fit(index, pages, settings.origin1, settings.filled1 == 1);
    let two = is_fit(index, pages, settings.origin2, settings.filled2 == 1);
    one & two
}

// Whether an origin is one of so many pages from a page on.
fn is_one_of(origin: u16, page: u16, count: u16) -> bool
    ensures { result ≡ is_one_of (among page count) (origin_of origin) }
{
    let start = usize::from(page);
    let pages = start..start + usize::from(count);
    origin != numbers::NO_PAGE && pages.contains(&usize::from(origin))
}

impl Sound<'_> {
    // A buffer's origin.
    fn origin_of(&self, buffer: Buffer) -> u16
        ensures { result ≡ origin_in (buffer_number buffer) self.now }
    {
        match buffer {
            Buffer::First => self.settings.origin1,
            Buffer::Second => self.settings.origin2,
        }
    }

    // Empties a buffer if its origin is one of these pages.
    fn forget_by(&mut self, buffer: Buffer, page: u16, count: u16)
        ensures kept { Kept self.old self.new }
        ensures forgot { reader_in self.new ≡ without_numbered (buffer_number buffer) (among page count) (reader_in self.old) }
    {
        if !is_one_of(self.origin_of(buffer), page, count) {
            return;
        }
        self.empty_buffer(buffer);
    }

    // Empties each buffer whose origin is one of these pages.
    pub(crate) fn forget(&mut self, page: u16, count: u16)
        ensures kept { Kept self.old self.new }
        ensures forgot { reader_in self.new ≡ without_all (among page count) (reader_in self.old) }
    {
        self.forget_by(Buffer::First, page, count);
        self.forget_by(Buffer::Second, page, count);
    }
}
