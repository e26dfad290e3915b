// Comparing (request [11]): what two libraries of equal capacity have, page by page and notepad page by notepad page.
ghost use Rattle.std.specs.Prelude.{◌≡◌, List, ℕ, ◌/◌, length};
ghost use Rattle.protocol.specs.Numbers.{page_bytes, notepad_bytes};
ghost use Rattle.protocol.specs.Bytes.{same, lay};
ghost use Rattle.protocol.specs.Index.{stored};
ghost use Rattle.protocol.specs.Tests.{listed};
ghost use Rattle.protocol.specs.Codes.{outcome_number};
ghost use Rattle.protocol.specs.Call.{core};
ghost use Rattle.offline.specs.Compare.{library, page_code, page_says, compare_of};
ghost use Rattle.offline.specs.Records.{compared_of};
ghost use Rattle.upkeep.specs.Compare.{difference_number, note_code, note_codes, Shelves, fits_two};
ghost use Rattle.upkeep.specs.Lent.{fits_lent};

use crate::lent;
use library::index;
use protocol::numbers;
use protocol::refusals::Refusal;

// The notepad's pages.
pub const NOTES: usize = numbers::NOTEPAD / numbers::NOTE;

// A library with its notepad, lent to be read.
#[derive(Clone, Copy)]
pub struct Library<'a> {
    pub index: &'a [u8],
    pub notepad: &'a [u8],
    pub templates: &'a [u8],
}

// How a page of two libraries differs, or a page of their notepads, by its number in the report.
#[derive(Clone, Copy, Debug, PartialEq, Eq)]
enum Difference {
    Same = 0,
    OnlyFirst = 1,
    OnlySecond = 2,
    Different = 3,
}

impl From<Difference> for u8 {
    ghost from_gives = { λ found number. number ≡ difference_number found };

    fn from(found: Difference) -> u8 {
        found as u8
    }
}

// Of the bytes of two pages that are there.
fn of_bytes(a: &[u8], b: &[u8]) -> Difference
    ensures { difference_number result ≡ note_code a.now b.now }
{
    if lent::is_equal(a, b) {
        Difference::Same
    } else {
        Difference::Different
    }
}

// What is said of page p, by two indexes and the bytes of the page in each library: the number that goes into the report.
pub fn page_code(index1: &[u8], index2: &[u8], p: usize, a: &[u8], b: &[u8]) -> u8
    ensures { result ≡ page_code (stored index1.now p) (stored index2.now p)
        (same a.now b.now) }
{
    let found = match (index::is_stored(index1, p), index::is_stored(index2, p)) {
        (true, true) => of_bytes(a, b),
        (true, false) => Difference::OnlyFirst,
        (false, true) => Difference::OnlySecond,
        (false, false) => Difference::Same,
    };
    u8::from(found)
}

// What is said of every page, at the front of the report.
fn compare_pages(one: Library, two: Library, report: &mut [u8])
    requires { Shelves one.templates.now two.templates.now report.old }
    ensures { (n m : List ℕ) → report.new
        ≡ lay 0 (listed (page_says (library one.entry.index.now n one.entry.templates.now) (library two.entry.index.now m two.entry.templates.now))
        (length one.entry.templates.now / page_bytes)) report.old }
{
    let end = one.templates.len() / numbers::PAGE;
    for p in 0..end {
        let a = numbers::PAGE * p;
        let e = a + numbers::PAGE;
        report[p] = page_code(
            one.index,
            two.index,
            p,
            &one.templates[a..e],
            &two.templates[a..e],
        );
    }
}

// What is said of every notepad page, into sixteen bytes. Where a length is another, nothing is written.
pub fn note_codes(notepad1: &[u8], notepad2: &[u8], codes: &mut [u8])
    ensures { codes.new ≡ note_codes notepad1.now notepad2.now codes.old }
{
    if notepad1.len() != numbers::NOTEPAD {
        return;
    }
    if notepad2.len() != numbers::NOTEPAD {
        return;
    }
    if codes.len() != NOTES {
        return;
    }
    for (n, code) in codes.iter_mut().enumerate() {
        let a = numbers::NOTE * n;
        let e = a + numbers::NOTE;
        *code = u8::from(of_bytes(&notepad1[a..e], &notepad2[a..e]));
    }
}

// Whether the lengths of a library and its notepad are right.
fn is_fit(a: Library) -> bool
    ensures { result ≡ fits_lent (length a.entry.templates.now) (length a.entry.index.now) (length a.entry.notepad.now) notepad_bytes }
{
    lent::is_fit(
        a.templates.len(),
        a.index.len(),
        a.notepad.len(),
        numbers::NOTEPAD,
    )
}

// Whether the lengths of two libraries and their notepads are right, the capacities equal, and the report as long as it must be.
fn are_fit(one: Library, two: Library, entries: usize) -> bool
    ensures { result ≡ fits_two
        (length one.entry.index.now) (length one.entry.notepad.now) (length one.entry.templates.now)
        (length two.entry.index.now) (length two.entry.notepad.now) (length two.entry.templates.now)
        entries }
{
    let pages = one.templates.len() / numbers::PAGE;
    is_fit(one)
        && is_fit(two)
        && pages == two.templates.len() / numbers::PAGE
        && entries == pages + NOTES
}

// Two libraries of equal capacity with their notepads, and a report of C + 16 bytes.
pub fn compare(one: Library, two: Library, report: &mut [u8]) -> Result<(), Refusal>
    ensures { compared_of (outcome_number result) report.new ≡ compare_of core
        (library one.entry.index.now one.entry.notepad.now one.entry.templates.now)
        (library two.entry.index.now two.entry.notepad.now two.entry.templates.now)
        report.old }
{
    if !are_fit(one, two, report.len()) {
        return Err(Refusal::BadLength);
    }
    let c = one.templates.len() / numbers::PAGE;
    if !index::is_clear_from(one.index, c) {
        return Err(Refusal::BadSetting);
    }
    if !index::is_clear_from(two.index, c) {
        return Err(Refusal::BadSetting);
    }
    compare_pages(one, two, report);
    note_codes(one.notepad, two.notepad, &mut report[c..]);
    Ok(())
}
