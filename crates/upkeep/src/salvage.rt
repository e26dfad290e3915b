// Salvage (request [10]): bits at or above C are cleared, vacant pages are zeroed, and a report says of each what was done.
ghost use Rattle.std.specs.Prelude.{◌≡◌, ◌*◌, ◌/◌, ◌<◌, length};
ghost use Rattle.protocol.specs.Numbers.{page_bytes};
ghost use Rattle.protocol.specs.Codes.{outcome_number};
ghost use Rattle.protocol.specs.Call.{core};
ghost use Rattle.offline.specs.Salvage.{is_blank, salvage_of};
ghost use Rattle.offline.specs.Records.{salvaged_of};
ghost use Rattle.upkeep.specs.Salvage.{entry_number, Reporting, Reached, PageSalvaged, PagesSalvaged, BitsReported};

use crate::lent;
use library::{index, pages};
use protocol::numbers;
use protocol::refusals::Refusal;

// The entries of a report: one for each bit of the index.
const ENTRIES: usize = 8 * numbers::INDEX;

// An index byte of eight stored pages.
const ALL_STORED: u8 = 255;

// What was done to a page or a bit, by its number in the report.
#[derive(Clone, Copy, Debug, PartialEq, Eq)]
enum Entry {
    Unchanged = 0,
    BitCleared = 1,
    PageZeroed = 2,
}

impl From<Entry> for u8 {
    ghost from_gives = { λ entry number. number ≡ entry_number entry };

    fn from(entry: Entry) -> u8 {
        entry as u8
    }
}

// Whether a page has no byte but zeros. Most pages that have another show it in their first byte.
fn is_blank(templates: &[u8], p: usize) -> bool
    requires { p < length templates.now / page_bytes }
    ensures { result ≡ is_blank templates.now p }
{
    let a = numbers::PAGE * p;
    if templates[a] != 0 {
        return false;
    }
    let e = a + numbers::PAGE;
    lent::is_equal(&templates[a..e], &[0; numbers::PAGE])
}

// Salvages a page, and returns the one to go on with: behind an index byte of stored pages that is the next byte's first.
fn salvage_page(templates: &mut [u8], index: &[u8], report: &mut [u8], p: usize) -> usize
    requires { Reached templates.old index.now report.old p }
    ensures { PageSalvaged templates.old index.now report.old p result
        templates.new report.new }
{
    if index[p / 8] == ALL_STORED {
        return 8 * (p / 8) + 8;
    }
    if lent::is_stored(index, p) || is_blank(templates, p) {
        return p + 1;
    }
    pages::zero_page(templates, p);
    report[p] = u8::from(Entry::PageZeroed);
    p + 1
}

// Zeroes the report, and salvages all pages. It goes on by one page or to the next byte of the index, as no range does.
fn salvage_pages(templates: &mut [u8], index: &[u8], report: &mut [u8])
    requires { Reporting templates.old index.now report.old }
    ensures { PagesSalvaged templates.old index.now
        templates.new report.new }
{
    report.fill(0);
    let end = templates.len() / numbers::PAGE;
    let mut p = 0;
    while p < end {
        p = salvage_page(templates, index, report, p);
    }
}

// An entry for each bit from c on. One that is set is to be cleared.
fn report_bits(index: &[u8], report: &mut [u8], c: usize)
    requires { length report.old ≡ 8 * length index.now }
    ensures { BitsReported c index.now report.old report.new }
{
    for q in c..report.len() {
        let entry = if lent::is_stored(index, q) {
            Entry::BitCleared
        } else {
            Entry::Unchanged
        };
        report[q] = u8::from(entry);
    }
}

// A stored index and templates salvaged, and a report of 1024 bytes.
pub fn salvage(templates: &mut [u8], index: &mut [u8], report: &mut [u8]) -> Result<(), Refusal>
    ensures { salvaged_of (outcome_number result) templates.new index.new report.new
        ≡ salvage_of core templates.old index.old report.old }
{
    if !lent::is_fit(templates.len(), index.len(), report.len(), ENTRIES) {
        return Err(Refusal::BadLength);
    }
    salvage_pages(templates, index, report);
    let c = templates.len() / numbers::PAGE;
    if !index::is_clear_from(index, c) {
        report_bits(index, report, c);
        index::clear_bits(index, c as u16, (ENTRIES - c) as u16);
    }
    Ok(())
}
