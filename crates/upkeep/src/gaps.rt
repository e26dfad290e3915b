// Closing the gaps (request [9]): the stored pages go down to pages 0, 1, 2 and up, in their order, and the rest is zeroed.
ghost use Rattle.std.specs.Prelude.{◌≡◌, List, ℕ, ◌*◌, ◌/◌, ◌<◌, length};
ghost use Rattle.protocol.specs.Numbers.{page_bytes};
ghost use Rattle.protocol.specs.Call.{core};
ghost use Rattle.protocol.specs.Codes.{outcome_number};
ghost use Rattle.protocol.specs.Records.{left_of, reader_of};
ghost use Rattle.offline.specs.CloseGaps.{first_bits, close_of};
ghost use Rattle.offline.specs.Records.{closed_of, moved_at};
ghost use Rattle.upkeep.specs.Gaps.{Shelved, Gathered, move_page, Tidied, followed_in};

use crate::lent;
use library::pages;
use protocol::refusals::Refusal;
use protocol::{Settings, numbers};
use reader::call;

// Copies a page to another place, by way of an array of its own: the compiler makes one memmove of it, and does not go byte by byte.
fn move_page(templates: &mut [u8], from: usize, to: usize)
    requires source { from < length templates.old / page_bytes }
    requires target { to < length templates.old / page_bytes }
    ensures { templates.new ≡ move_page from to templates.old }
{
    let mut page = [0u8; numbers::PAGE];
    pages::read_page(&mut page, templates, from);
    pages::write_page(templates, to, &page);
}

// One pass over the pages: each stored one goes to the next free place, and the table says where. It returns how many there are.
fn gather(templates: &mut [u8], index: &[u8], table: &mut [u16]) -> usize
    requires { Shelved templates.old index.now table.old }
    ensures { Gathered templates.old index.now result templates.new table.new }
{
    let mut next = 0;
    let end = templates.len() / numbers::PAGE;
    for p in 0..end {
        if lent::is_stored(index, p) {
            table[p] = next as u16;
            if next < p {
                move_page(templates, p, next);
            }
            next += 1;
        } else {
            table[p] = numbers::NO_PAGE;
        }
    }
    next
}

// An index with its first bits set, and no other: whole bytes, and the first bits of one more.
fn set_first(index: &mut [u8], count: usize)
    requires { count < 8 * length index.old }
    ensures { index.new ≡ first_bits (length index.old) count }
{
    let whole = count / 8;
    index.fill(0);
    index[..whole].fill(255);
    index[whole] = (1u8 << (count % 8)) - 1;
}

// A library's gaps closed: the stored pages at the front, the rest zeroed, the index to match, and the table.
fn close_library(templates: &mut [u8], index: &mut [u8], table: &mut [u16])
    requires { Shelved templates.old index.old table.old }
    ensures { Tidied templates.old index.old templates.new index.new table.new }
{
    let n = gather(templates, index, table);
    let a = numbers::PAGE * n;
    templates[a..].fill(0);
    set_first(index, n);
}

// Where the template of an origin went. FFFFh is no page of the table, and stays.
fn followed(table: &[u16], origin: u16) -> u16
    ensures { result ≡ followed_in table.now origin }
{
    table.get(origin as usize).copied().unwrap_or(origin)
}

// The gaps of a reader closed: its settings, templates and index, and a table of as many numbers as it has pages. The settings come back as they are after it.
pub fn close_gaps(
    settings: Settings,
    templates: &mut [u8],
    index: &mut [u8],
    table: &mut [u16],
) -> Result<Settings, Refusal>
    ensures { (n b d : List ℕ)
        → closed_of (moved_at (left_of settings result) (outcome_number result)) templates.new index.new table.new n b d
        ≡ close_of core (reader_of settings templates.old index.old n b d) table.old }
{
    let pages = templates.len() / numbers::PAGE;
    if !lent::is_fit(templates.len(), index.len(), table.len(), pages) {
        return Err(Refusal::BadLength);
    }
    if !call::is_sound_of(settings, index, pages) {
        return Err(Refusal::BadSetting);
    }
    close_library(templates, index, table);
    Ok(Settings {
        origin1: followed(table, settings.origin1),
        origin2: followed(table, settings.origin2),
        ..settings
    })
}
