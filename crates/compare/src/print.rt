// What is printed of two libraries whose pages have been compared.
ghost use Rattle.std.specs.Prelude.{◌≡◌, ◌++◌, ◌*◌, ◌+◌, ◌≤◌, ◌<◌, length, unwrap_or};
ghost use Rattle.protocol.specs.Codes.{refusal_number};
ghost use Rattle.offline.specs.Print.{line_of, refusal_line};
ghost use Rattle.compare.specs.Print.{code_lines, Held, text_of};

use arrayvec::ArrayVec;
use library::index;
use protocol::numbers;
use protocol::refusals::Refusal;
use upkeep::compare;

// The bytes of the longest line: letter, three digits, space, code, newline.
const LINE: usize = 7;

// Those of as many lines as there can be.
const TEXT: usize = LINE * (numbers::MOST_PAGES + compare::NOTES);

pub(crate) type Text = ArrayVec<u8, TEXT>;

// T or N, page number in decimal, space, code, newline: byte by byte, since of `write!` it is stated only what an `Ok` leaves, and nowhere that there is one.
fn put_line(text: &mut Text, letter: u8, page: usize, code: u8)
    requires few { page < 1000 }
    requires room { length text.old.items + 7 ≤ 7112 }
    ensures { text.new.items ≡ text.old.items ++ line_of letter page code }
{
    text.push(letter);
    if 100 <= page {
        text.push(b'0' + (page / 100 % 10) as u8);
    }
    if 10 <= page {
        text.push(b'0' + (page / 10 % 10) as u8);
    }
    text.push(b'0' + (page % 10) as u8);
    text.push(b' ');
    text.push(b'0' + code % 10);
    text.push(b'\n');
}

// The lines of the codes behind a text.
fn put_lines(text: &mut Text, letter: u8, codes: &[u8])
    requires few { length codes.now ≤ 1000 }
    requires room { length text.old.items + 7 * length codes.now ≤ 7112 }
    ensures lines { text.new.items ≡ text.old.items ++ code_lines letter codes.now (length codes.now) }
    ensures room { length text.new.items ≤ length text.old.items + 7 * length codes.now }
{
    for (page, &code) in codes.iter().enumerate() {
        if code != 0 {
            put_line(text, letter, page, code);
        }
    }
}

// The line of a refusal.
fn refused(refusal: Refusal) -> Text
    ensures { result.items ≡ refusal_line (refusal_number refusal) }
{
    let mut text = Text::new();
    text.push(b'R');
    text.push(b'0' + u8::from(refusal));
    text.push(b'\n');
    text
}

// The text of the pages, each with its code, and of two notepads. No page, or none, is where the files are no two libraries of equal capacity.
pub(crate) fn text(
    index1: &[u8],
    notepad1: &[u8],
    index2: &[u8],
    notepad2: &[u8],
    pages: Option<usize>,
    codes: &[u8],
) -> Text
    requires { Held notepad1.now notepad2.now (unwrap_or pages 0) codes.now }
    ensures { result.items ≡ text_of index1.now notepad1.now index2.now notepad2.now (unwrap_or pages 0) codes.now }
{
    let c = pages.unwrap_or(0);
    if c == 0 {
        return refused(Refusal::BadLength);
    }
    if !index::is_clear_from(index1, c) {
        return refused(Refusal::BadSetting);
    }
    if !index::is_clear_from(index2, c) {
        return refused(Refusal::BadSetting);
    }
    let mut text = Text::new();
    put_lines(&mut text, b'T', &codes[..c]);
    let mut notes = [0u8; compare::NOTES];
    compare::note_codes(notepad1, notepad2, &mut notes);
    put_lines(&mut text, b'N', &notes);
    text
}
