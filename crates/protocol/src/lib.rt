// The types that the code and its contracts share. The definitions over them are in specs/, the promises in proofs/.
#![tactic(auto)]

pub mod codes;
pub mod command_codes;
pub mod identifiers;
pub mod numbers;
pub mod outcomes;
pub mod refusals;

// What stands in a run (steps 1 to 4): nothing that starts a packet; one that is not all there yet; a start that no packet has;
// or a whole packet, with its place and its length field.
#[derive(Clone, Copy, Debug, PartialEq, Eq)]
pub enum Found {
    Noise { used: usize },
    Unfinished { at: usize },
    Unfit { at: usize },
    Whole { at: usize, len: usize },
}

// A reader's settings. The transfer is two numbers: its buffer, 1 or 2, and the bytes got so far; no transfer is 0 and 0. The origin of a buffer
// is the number of a page, or FFFFh for none. A mark is 0 or 1, and found is status bit 1: a Search found a page; any byte may lie there.
// They are numbers, and no enums, since C lends the record.
#[repr(C)]
#[derive(Clone, Copy)]
pub struct Settings {
    pub password: [u8; 4],
    pub address: [u8; 4],
    pub level: u8,
    pub size: u8,
    pub baud: u8,
    pub transfer: u8,
    pub sensor: u16,
    pub got: u16,
    pub verified: u8,
    pub filled1: u8,
    pub filled2: u8,
    pub found: u8,
    pub origin1: u16,
    pub origin2: u16,
}

// What Search finds (request [8]): a page and its score.
#[derive(Clone, Copy)]
pub struct Match {
    pub page: u16,
    pub score: u16,
}

// What a call that is not refused did: the bytes that it used, and the length of its reply.
#[derive(Clone, Copy)]
pub struct Lengths {
    pub used: usize,
    pub reply: usize,
}

// What a caller in C gets of a call on lent settings: the refusal or 0, the bytes used, and the reply's length.
#[repr(C)]
#[derive(Clone, Copy)]
pub struct Answered {
    pub refusal: u8,
    pub used: usize,
    pub length: usize,
}

// The bytes that are held between calls: the first `count` cells. The spare byte means nothing; every call that is not refused leaves it 0. C lends it,
// so it is cells and a count.
#[repr(C)]
#[derive(Clone, Copy)]
pub struct Receiver {
    pub held: [u8; numbers::HOLDS],
    pub spare: u8,
    pub count: u16,
}

// A line: the settings and the receiver.
#[repr(C)]
#[derive(Clone, Copy)]
pub struct Line {
    pub settings: Settings,
    pub receiver: Receiver,
}

// What a caller in C gets of a receiver's call on a lent line: the refusal or 0, the bytes taken of the piece, and the reply's length.
#[repr(C)]
#[derive(Clone, Copy)]
pub struct Taken {
    pub refusal: u8,
    pub taken: usize,
    pub length: usize,
}
