// What a reader is lent: its memory, and what the chip gives for a call. Its settings go in and come back by value.
ghost use Rattle.std.specs.Prelude.{◌≡◌, ◌*◌, ◌/◌, ◌≤◌, length};
ghost use Rattle.protocol.specs.Numbers.{page_bytes, index_bytes, most_pages};
ghost use Rattle.rules.specs.Settings.{Legal};

use protocol::Settings;

/// A reader's memory as it is lent, of any lengths.
#[derive(Drop)]
pub struct Memory<'a> {
    pub templates: &'a mut [u8],
    pub index: &'a mut [u8],
    pub notepad: &'a mut [u8],
    pub buffer1: &'a mut [u8],
    pub buffer2: &'a mut [u8],
}

/// What the sensor chip gives for a call: a score for each page, and a threshold for each level.
#[derive(Clone, Copy)]
pub struct Chip<'a> {
    pub scores: &'a [u16],
    pub thresholds: &'a [u16],
}

// A reader that refusals 1 and 3 let pass, with the chip of the call. Its ghost fields are what every command may rely on.
#[derive(Drop)]
pub(crate) struct Sound<'a> {
    pub(crate) settings: &'a mut Settings,
    pub(crate) templates: &'a mut [u8],
    pub(crate) index: &'a mut [u8],
    pub(crate) notepad: &'a mut [u8],
    pub(crate) buffer1: &'a mut [u8],
    pub(crate) buffer2: &'a mut [u8],
    pub(crate) chip: Chip<'a>,
    ghost pages: { length templates.now ≡ page_bytes * (length templates.now / page_bytes) },
    ghost few: { length templates.now / page_bytes ≤ most_pages },
    ghost indexed: { length index.now ≡ index_bytes },
    ghost first: { length buffer1.now ≡ page_bytes },
    ghost second: { length buffer2.now ≡ page_bytes },
    ghost scored: { length chip.scores.now ≡ length templates.now / page_bytes },
    ghost legal: { Legal settings.now },
}
