// Pages of the templates: page p is the 512 bytes that start at 512 × p, lent as a part. What does not fit changes nothing.
// A part is taken by its places, since std says nothing of a slice after get_mut or chunks_exact_mut.
ghost use Rattle.std.specs.Prelude.{◌≡◌};
ghost use Rattle.library.specs.Lent.{is_span, write_page, read_page, zero_page, zero_pages};

use protocol::numbers::PAGE;
use wire::bytes;

/// Whether n pages from a page on are there, of so many. The sum of two 16-bit numbers is taken in full.
pub fn is_span(page: u16, n: u16, pages: usize) -> bool
    ensures { result ≡ is_span page n pages }
{
    let from = usize::from(page);
    let count = usize::from(n);
    from < pages && from + count <= pages
}

/// Copies 512 bytes to a page.
pub fn write_page(templates: &mut [u8], page: usize, src: &[u8])
    ensures { templates.new ≡ write_page page src.now templates.old }
{
    if page < templates.len() / PAGE && src.len() == PAGE {
        let at = PAGE * page;
        bytes::put(&mut templates[at..at + PAGE], src);
    }
}

/// Copies a page to 512 bytes.
pub fn read_page(dst: &mut [u8], templates: &[u8], page: usize)
    ensures { dst.new ≡ read_page page templates.now dst.old }
{
    if page < templates.len() / PAGE && dst.len() == PAGE {
        let at = PAGE * page;
        bytes::put(dst, &templates[at..at + PAGE]);
    }
}

/// Zeroes a page.
pub fn zero_page(templates: &mut [u8], page: usize)
    ensures { templates.new ≡ zero_page page templates.old }
{
    if page < templates.len() / PAGE {
        let at = PAGE * page;
        templates[at..at + PAGE].fill(0);
    }
}

/// Zeroes n pages from a page on.
pub fn zero_pages(templates: &mut [u8], page: u16, n: u16)
    ensures { templates.new ≡ zero_pages page n templates.old }
{
    let start = usize::from(page);
    for p in start..start + usize::from(n) {
        zero_page(templates, p);
    }
}
