// The settings record: fresh, with one thing changed, locked, and legal. C lends it, so its marks, the transfer's buffer and the origins are numbers.
ghost use Rattle.std.specs.Prelude.{◌≡◌, true, cond, List, [], ℕ, ◌≤◌, eqb};
ghost use Rattle.protocol.specs.Numbers.{highest_size};
ghost use Rattle.protocol.specs.Reader.{locked};
ghost use Rattle.protocol.specs.Call.{fit_plain, fit_transfer};
ghost use Rattle.protocol.specs.Records.{fit_marks, is_set, marks_of, plain_of, transfer_of, reader_of, fresh_of};
ghost use Rattle.rules.specs.Settings.{with_mark, with_password, with_address, with_tuning, with_transfer, with_filled, with_origins, with_found, with_switch, shown_of, SizeOf, legal_of};

use protocol::{Settings, numbers};
use wire::bytes;

/// Fresh settings: password 0, address FFFFFFFFh, level 3, size code 2, baud factor 6, type 0, marks clear, no transfer, no origins, status bit 1 clear.
pub fn fresh() -> Settings
    ensures { (t i n b c : List ℕ) → reader_of result t i n b c ≡ fresh_of t i n b c }
{
    Settings {
        password: numbers::FRESH_PASSWORD,
        address: numbers::FRESH_ADDRESS,
        level: numbers::FRESH_LEVEL,
        size: numbers::FRESH_SIZE,
        baud: numbers::FRESH_BAUD,
        transfer: 0,
        sensor: numbers::FRESH_SENSOR,
        got: 0,
        verified: 0,
        filled1: 0,
        filled2: 0,
        found: 0,
        origin1: numbers::NO_PAGE,
        origin2: numbers::NO_PAGE,
    }
}

pub fn marked(s: Settings, mark: u8) -> Settings
    ensures { result ≡ with_mark mark s }
{
    Settings {
        verified: mark,
        ..s
    }
}

pub fn with_password(s: Settings, p: [u8; 4]) -> Settings
    ensures { result ≡ with_password p s }
{
    Settings {
        password: p,
        verified: 0,
        ..s
    }
}

pub fn with_address(s: Settings, a: [u8; 4]) -> Settings
    ensures { result ≡ with_address a s }
{
    Settings { address: a, ..s }
}

pub fn tuned(s: Settings, baud: u8, level: u8, size: u8) -> Settings
    ensures { result ≡ with_tuning baud level size s }
{
    Settings {
        baud,
        level,
        size,
        ..s
    }
}

pub fn filled(s: Settings, one: u8, two: u8) -> Settings
    ensures { result ≡ with_filled one two s }
{
    Settings {
        filled1: one,
        filled2: two,
        ..s
    }
}

pub fn linked(s: Settings, one: u16, two: u16) -> Settings
    ensures { result ≡ with_origins one two s }
{
    Settings {
        origin1: one,
        origin2: two,
        ..s
    }
}

pub fn moved(s: Settings, transfer: u8, got: u16) -> Settings
    ensures { result ≡ with_transfer transfer got s }
{
    Settings { transfer, got, ..s }
}

/// Status bit 1 as this.
pub fn remembered(s: Settings, found: u8) -> Settings
    ensures { result ≡ with_found found s }
{
    Settings { found, ..s }
}

/// Verified mark, filled marks and status bit 1 clear, no origins, no transfer.
pub fn switched(s: Settings) -> Settings
    ensures { result ≡ with_switch s }
{
    Settings {
        transfer: 0,
        got: 0,
        verified: 0,
        filled1: 0,
        filled2: 0,
        found: 0,
        origin1: numbers::NO_PAGE,
        origin2: numbers::NO_PAGE,
        ..s
    }
}

// Whether the filled mark of a buffer is set.
pub fn filled_of(n: u8, one: u8, two: u8) -> bool
    ensures { result ≡ cond (eqb n 2) (is_set two) (is_set one) }
{
    if n == 2 { two == 1 } else { one == 1 }
}

/// The origin of a buffer.
pub fn origin_of(n: u8, one: u16, two: u16) -> u16
    ensures { result ≡ cond (eqb n 2) two one }
{
    if n == 2 { two } else { one }
}

/// Whether the password is not zero and the verified mark clear.
pub fn is_locked(s: Settings) -> bool
    ensures { result ≡ locked (plain_of s) }
{
    !bytes::is_same(s.password, [0; 4]) && s.verified != 1
}

/// Status bit 1 as it shows: not while the reader is locked. No branch looks at it.
pub fn shows_found(s: Settings) -> bool
    ensures { result ≡ shown_of s }
{
    !is_locked(s) & (s.found == 1)
}

/// The data bytes of a size code; a code above the highest counts as the highest.
pub fn size_of(code: u8) -> usize
    ensures { SizeOf code result }
{
    numbers::SMALLEST_SIZE << code.min(numbers::HIGHEST_SIZE)
}

// Whether level, size code and baud factor are in their ranges.
fn is_plain_fit(s: Settings) -> bool
    ensures { result ≡ fit_plain (plain_of s) }
{
    (numbers::LOWEST_LEVEL..=numbers::HIGHEST_LEVEL).contains(&s.level)
        && s.size <= numbers::HIGHEST_SIZE
        && (numbers::LOWEST_BAUD..=numbers::HIGHEST_BAUD).contains(&s.baud)
}

// Whether each mark is 0 or 1. The two take the same path, since the filled marks and status bit 1 are guarded.
fn has_fit_marks(s: Settings) -> bool
    ensures { result ≡ fit_marks (marks_of s) }
{
    (s.verified < 2) & (s.filled1 < 2) & (s.filled2 < 2) & (s.found < 2)
}

// Whether the transfer beside fit marks is legal. The filled mark of its buffer is looked at last, and never on a locked reader.
fn is_transfer_fit(s: Settings) -> bool
    requires size { s.size ≤ highest_size }
    requires marks { fit_marks (marks_of s) ≡ true }
    ensures { result ≡ fit_transfer (plain_of s) (reader_of s [] [] [] [] []).guarded
        (transfer_of (marks_of s) s.transfer s.got) }
{
    let got = usize::from(s.got);
    match s.transfer {
        0 => got == 0,
        w @ 1..=2 => {
            got % size_of(s.size) == 0
                && got < numbers::PAGE
                && !is_locked(s)
                && !filled_of(w, s.filled1, s.filled2)
        }
        _ => false,
    }
}

/// Whether settings, marks and transfer are legal (refusal 3, but for the index and the origins).
pub fn is_legal(s: Settings) -> bool
    ensures { result ≡ legal_of s }
{
    let marked = has_fit_marks(s);
    is_plain_fit(s) && marked && is_transfer_fit(s)
}
