// The numbers of document 01 and of its change requests that the code needs, by name. specs/Numbers.antt names them for the
// definitions, and the proofs join the two: a number changed here alone is refused.

// ---- lent memory

// A page of templates, and a character buffer.
pub const PAGE: usize = 512;

// The most pages that a library has (request [6]).
pub const MOST_PAGES: usize = 1000;

// The bytes of an index, and of one stored before request [6].
pub const INDEX: usize = 128;

pub const OLD_INDEX: usize = 32;

// The bytes of a notepad, and of one of its pages; a page of ReadIndexTable has as many.
pub const NOTEPAD: usize = 512;

pub const NOTE: usize = 32;

// The thresholds: one for each level (request [8]).
pub const LEVELS: usize = 5;

// The reply room at least.
pub const REPLY_ROOM: usize = 700;

// ---- settings

pub const LOWEST_LEVEL: u8 = 1;

pub const HIGHEST_LEVEL: u8 = 5;

pub const LOWEST_BAUD: u8 = 1;

pub const HIGHEST_BAUD: u8 = 12;

pub const HIGHEST_SIZE: u8 = 3;

// The data bytes of size code 0; each code after it has twice those of the one before.
pub const SMALLEST_SIZE: usize = 32;

// Fresh settings.
pub const FRESH_PASSWORD: [u8; 4] = [0, 0, 0, 0];

pub const FRESH_ADDRESS: [u8; 4] = [0xFF, 0xFF, 0xFF, 0xFF];

pub const FRESH_LEVEL: u8 = 3;

pub const FRESH_SIZE: u8 = 2;

pub const FRESH_BAUD: u8 = 6;

pub const FRESH_SENSOR: u16 = 0;

// The parameter numbers of SetSysPara.
pub const BAUD_PARAMETER: u8 = 4;

pub const LEVEL_PARAMETER: u8 = 5;

pub const SIZE_PARAMETER: u8 = 6;

// The bits of the status word: verified; and, by request [8], a Search found a page.
pub const VERIFIED_STATUS: u16 = 4;

pub const FOUND_STATUS: u16 = 2;

// ---- packets

// The two bytes that start a packet.
pub const FIRST_MARK: u8 = 0xEF;

pub const SECOND_MARK: u8 = 0x01;

// The marks, the address, the identifier and the length field; and with the sum.
pub const HEAD: usize = 9;

pub const FRAME: usize = 11;

// Where the address, the identifier and the length field stand in a packet: address_at, identifier_at and length_at of the definitions.
pub const ADDRESS_AT: usize = 2;

pub const IDENTIFIER_AT: usize = 6;

pub const LENGTH_AT: usize = 7;

// The least length field; the greatest, which data packets have (request [3]); and that of commands and acknowledges.
pub const SHORTEST: usize = 3;

pub const LONGEST: usize = 258;

pub const LONGEST_OTHER: usize = 256;

// What a receiver holds at most: the longest packet (request [1]).
pub const HOLDS: usize = HEAD + LONGEST;

// ---- the index count

// Its answer to an index of another length.
pub const NO_COUNT: u16 = 0xFFFF;

// ---- the origin of a buffer

// No page, in a settings record.
pub const NO_PAGE: u16 = 0xFFFF;
