// Tells how two readers differ (request [11]): two files, each the index, the notepad and then the templates in page order. It reads both once, from front to end, in step, and
// holds one template of each at a time. Of each page it keeps the code alone until both files have ended: only then is it known that nothing is refused.
#![tactic(auto)]

mod print;

ghost use Rattle.std.specs.Prelude.{◌≡◌, length, unwrap_or};
ghost use Rattle.compare.specs.Reading.{PagesRead, PrintedOfTwo};

use protocol::numbers;
use std::fs;
use std::io::Read;
use std::rt::{Env, Files};
use upkeep::compare;

// The bytes that the system takes for a file's name at most: `arg` writes it into a lent slice.
const NAME: usize = 4096;

// What a file gave when it was asked for so many bytes: all of them; or none, at its end.
#[derive(Clone, Copy, Debug, PartialEq, Eq)]
enum Piece {
    Whole,
    End,
}

// Fills a slice from a file, by a `while`, since each read gives as many bytes as it likes. None where the file could not be opened or read, or ends within the slice.
fn fill<F: Read>(file: &mut Option<F>, out: &mut [u8]) -> Option<Piece> {
    let file = file.as_mut()?;
    let mut n = 0;
    while n < out.len() {
        let more = file.read(&mut out[n..]).ok()?;
        if more == 0 {
            return (n == 0).then_some(Piece::End);
        }
        n += more;
    }
    Some(Piece::Whole)
}

// A piece of each of two files: whole or at the end only where both are.
fn fill_both<F: Read>(
    one: &mut Option<F>,
    a: &mut [u8],
    two: &mut Option<F>,
    b: &mut [u8],
) -> Option<Piece> {
    let piece = fill(one, a)?;
    (fill(two, b)? == piece).then_some(piece)
}

// The pages of both files, and the code of each. It returns their number, none where the files are not as they must be.
fn read_pages<F: Read>(
    one: &mut Option<F>,
    two: &mut Option<F>,
    index1: &[u8],
    index2: &[u8],
    codes: &mut [u8],
) -> Option<usize>
    requires { length codes.old ≡ 1000 }
    ensures { PagesRead index1.now index2.now (unwrap_or result 0) codes.new }
{
    let mut a = [0u8; numbers::PAGE];
    let mut b = [0u8; numbers::PAGE];
    for p in 0..numbers::MOST_PAGES {
        if fill_both(one, &mut a, two, &mut b)? == Piece::End {
            return Some(p);
        }
        codes[p] = compare::page_code(index1, index2, p, &a, &b);
    }
    let last = fill_both(one, &mut a, two, &mut b)?;
    (last == Piece::End).then_some(numbers::MOST_PAGES)
}

// Both files whole: the indexes, the notepads, and the code of each page. It returns the number of pages, as above. The four arrays are in no struct, behind whose `&mut`
// the check would forget how long they are.
fn read<F: Read>(
    one: &mut Option<F>,
    two: &mut Option<F>,
    index1: &mut [u8],
    index2: &mut [u8],
    notepad1: &mut [u8],
    notepad2: &mut [u8],
    codes: &mut [u8],
) -> Option<usize>
    requires { length codes.old ≡ 1000 }
    ensures { PagesRead index1.new index2.new (unwrap_or result 0) codes.new }
{
    if fill_both(one, index1, two, index2)? == Piece::End {
        return None;
    }
    if fill_both(one, notepad1, two, notepad2)? == Piece::End {
        return None;
    }
    read_pages(one, two, index1, index2, codes)
}

// The text for two open files.
fn tell<F: Read>(one: &mut Option<F>, two: &mut Option<F>) -> print::Text
    ensures { PrintedOfTwo (length result.items) result.items }
{
    let mut index1 = [0u8; numbers::INDEX];
    let mut index2 = [0u8; numbers::INDEX];
    let mut notepad1 = [0u8; numbers::NOTEPAD];
    let mut notepad2 = [0u8; numbers::NOTEPAD];
    let mut codes = [0u8; numbers::MOST_PAGES];
    let pages = read(
        one,
        two,
        &mut index1,
        &mut index2,
        &mut notepad1,
        &mut notepad2,
        &mut codes,
    );
    print::text(&index1, &notepad1, &index2, &notepad2, pages, &codes)
}

// Opens the file that an argument names; none where there is no such argument, or the file cannot be opened. Only a name that is
// UTF-8 can be opened, and of any other that is said.
fn open<R: Env + Files + Eprint>(rt: &R, argument: usize) -> Option<R::File> {
    let mut name = [0u8; NAME];
    let n = rt.arg(argument, &mut name).ok()?;
    let Ok(name) = str::from_utf8(&name[..n]) else {
        let _ = eprintln!(rt; "a file's name is not UTF-8");
        return None;
    };
    fs::open(rt, name).ok()
}

fn main(rt: HostRuntime) {
    let mut one = open(&rt, 1);
    let mut two = open(&rt, 2);
    let text = tell(&mut one, &mut two);
    if let Err(e) = rt.write_all(&text) {
        let _ = eprintln!(rt; "write: {e}");
    }
}
