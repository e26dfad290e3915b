// Finding a packet: steps 1 to 4 of document 01.
ghost use Rattle.std.specs.Prelude.{◌≡◌, ◌%◌};
ghost use Rattle.protocol.specs.Numbers.{wraps_at};
ghost use Rattle.protocol.specs.Packet.{accepts};
ghost use Rattle.protocol.specs.Finder.{start_of, all_but, find_of, used_of};
ghost use Rattle.protocol.specs.Services.{used_service};
ghost use Rattle.wire.specs.Limits.{limit_of};

use protocol::identifiers::Identifier;
use protocol::{Found, numbers};

// The first place with EF followed by 01.
pub fn start(s: &[u8]) -> Option<usize>
    ensures { result ≡ start_of s.now }
{
    s.windows(2).position(|w| w[0] == numbers::FIRST_MARK && w[1] == numbers::SECOND_MARK)
}

// The whole run, less one if it ends in EF.
#[tactic(auto, using(crate::proofs::Picks::picks), unfolding(protocol::specs::Finder::all_but))]
pub fn all_but(s: &[u8]) -> usize
    ensures { result ≡ all_but s.now }
{
    match s {
        [.., numbers::FIRST_MARK] => s.len() - 1,
        _ => s.len(),
    }
}

// The largest length field of an identifier's packets; none where no packet has the identifier. It is a number, since any may come off the line.
pub fn limit_of(i: u8) -> Option<usize>
    ensures { result ≡ limit_of i }
{
    match Identifier::try_from(i) {
        Ok(Identifier::Command) => Some(numbers::LONGEST_OTHER),
        Ok(Identifier::Data) => Some(numbers::LONGEST),
        Ok(Identifier::Acknowledge) => Some(numbers::LONGEST_OTHER),
        Ok(Identifier::Last) => Some(numbers::LONGEST),
        Err(_) => None,
    }
}

// Whether a packet can have this identifier and this length field.
pub fn is_head(i: u8, n: usize) -> bool
    ensures { result ≡ accepts i n }
{
    limit_of(i).is_some_and(|most| (numbers::SHORTEST..=most).contains(&n))
}

// Steps 1 to 4.
pub fn find(s: &[u8]) -> Found
    ensures { result ≡ find_of s.now }
{
    let Some(at) = start(s) else {
        return Found::Noise { used: all_but(s) };
    };
    let packet = &s[at..];
    let [_, _, _, _, _, _, identifier, high, low, behind @ ..] = packet else {
        return Found::Unfinished { at };
    };
    let len = usize::from(u16::from_be_bytes([*high, *low]));
    if !is_head(*identifier, len) {
        return Found::Unfit { at };
    }
    if behind.len() < len {
        return Found::Unfinished { at };
    }
    Found::Whole { at, len }
}

// The bytes used, by what was found. What was found in a run lies in it, so that nothing wraps there.
#[tactic(auto, unfolding(protocol::specs::Finder::used_of))]
pub fn used_of(f: Found) -> usize
    ensures { result ≡ used_of f % wraps_at }
{
    match f {
        Found::Noise { used } => used,
        Found::Unfinished { at } => at,
        Found::Unfit { at } => at.wrapping_add(2),
        Found::Whole { at, len } => at.wrapping_add(numbers::HEAD).wrapping_add(len),
    }
}

// The bytes used of a run.
pub fn used(s: &[u8]) -> usize
    ensures { result ≡ used_service s.now }
{
    used_of(find(s))
}
