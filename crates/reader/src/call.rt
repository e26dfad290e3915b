// A whole call of the reader, and the line switch.
ghost use Rattle.std.specs.Prelude.{◌≡◌, ◌&&◌, List, ℕ, ◌+◌, ◌/◌, ◌≤◌, leb, length};
ghost use Rattle.protocol.specs.declared.Found.TheVariants.{Whole};
ghost use Rattle.protocol.specs.Numbers.{page_bytes, head_bytes, most_pages, reply_room};
ghost use Rattle.protocol.specs.Bytes.{same};
ghost use Rattle.protocol.specs.Codes.{outcome_number};
ghost use Rattle.protocol.specs.Packet.{address_at, right_at};
ghost use Rattle.protocol.specs.Step.{hear_as, hear_at, answer};
ghost use Rattle.protocol.specs.Call.{shaped, call_of, switch_of};
ghost use Rattle.protocol.specs.Records.{reader_of, after_of, lengths_of, left_of, switched_of, switched_at};
ghost use Rattle.rules.specs.Settings.{sound_of};
ghost use Rattle.reader.specs.Memory.{Kept, reader_at, reader_in, chip_at, said_of};
ghost use Rattle.reader.specs.Calls.{Lies, lengths_fit, memory_fits, lent_at, ended_at, heard_at, carried_of};

use crate::answers::Answer;
use crate::memory::{Chip, Memory, Sound};
use crate::{fields, origins};
use library::index;
use protocol::identifiers::Identifier;
use protocol::refusals::Refusal;
use protocol::{Found, Lengths, Settings, numbers};
use rules::settings;
use wire::{builder, bytes, finder};

// Whether a packet's address is ours.
fn is_ours(address: [u8; 4], run: &[u8], at: usize) -> bool
    requires { at + 6 ≤ length run.now }
    ensures { result ≡ same (address_at run.now at) address }
{
    bytes::is_same(fields::bytes_at(run, at + numbers::ADDRESS_AT), address)
}

// Whether a packet's sum is right.
fn is_right(run: &[u8], at: usize, len: usize) -> bool
    requires { Lies run.now at len }
    ensures { result ≡ right_at run.now at len }
{
    let from = at + numbers::HEAD;
    let to = from + (len - 2);
    let sum = builder::packet_sum(run[at + numbers::IDENTIFIER_AT], &run[from..to]);
    usize::from(fields::word_at(run, at + numbers::LENGTH_AT + len)) == sum
}

impl Sound<'_> {
    // What a packet of ours does, by its identifier: one of four, for the finder let no other pass. It stays a number, since a conversion would bring an error that
    // cannot come.
    fn act(&mut self, identifier: u8, right: bool, content: &[u8]) -> Answer
        requires some { 1 ≤ length content.now }
        requires high { length content.now ≤ 65535 }
        ensures kept { Kept self.old self.new }
        ensures acted { said_of result self.new ≡ answer (chip_at self.old.chip) (reader_in self.old)
            (hear_as identifier right content.now) }
    {
        if identifier == Identifier::Command as u8 {
            self.end_transfer();
            return match self.command(content, right) {
                Ok(answer) => answer,
                Err(code) => Answer::Alone(code),
            };
        }
        if identifier == Identifier::Acknowledge as u8 {
            return Answer::Silence;
        }
        self.take_part(content, right, identifier == Identifier::Last as u8)
    }

    // A whole packet: the bytes used, and the reply's length.
    fn hear_packet(&mut self, run: &[u8], at: usize, len: usize, reply: &mut [u8]) -> Lengths
        requires whole { Lies run.now at len }
        requires room { reply_room ≤ length reply.old }
        ensures kept { Kept self.old self.new }
        ensures heard { heard_at result (reader_in self.new) reply.new
            ≡ carried_of (at + head_bytes + len) (answer (chip_at self.old.chip) (reader_in self.old)
            (hear_at self.old.settings.now.address run.now (Whole at len))) reply.old }
    {
        let used = at + numbers::HEAD + len;
        if !is_ours(self.settings.address, run, at) {
            return Lengths { used, reply: 0 };
        }
        let identifier = run[at + numbers::IDENTIFIER_AT];
        let right = is_right(run, at, len);
        let from = at + numbers::HEAD;
        let to = from + (len - 2);
        let answer = self.act(identifier, right, &run[from..to]);
        Lengths {
            used,
            reply: self.speak(answer, reply),
        }
    }
}

// Whether settings, transfer, index bits and origins are legal (refusal 3).
#[tactic(auto, unfolding(rules::specs::Settings::sound_of))]
fn is_sound(settings: Settings, index: &[u8], pages: usize) -> bool
    requires { pages ≤ most_pages }
    ensures { result ≡ sound_of pages index.now settings }
{
    if !settings::is_legal(settings) {
        return false;
    }
    if !index::is_clear_from(index, pages) {
        return false;
    }
    origins::are_fit(settings, index, pages)
}

/// The same for any number of pages: of more than a library may have none passes.
pub fn is_sound_of(settings: Settings, index: &[u8], pages: usize) -> bool
    ensures { result ≡ (leb pages most_pages && sound_of pages index.now settings) }
{
    if numbers::MOST_PAGES < pages {
        return false;
    }
    is_sound(settings, index, pages)
}

/// Whether the lent lengths are right, the reply room's apart (refusal 1), where the notepad is to have `noted` bytes.
#[tactic(auto, using(wire::proofs::Picks::picks), unfolding(crate::specs::Calls::lengths_fit, protocol::specs::Tests::within))]
pub fn is_fit(
    noted: usize,
    templates: usize,
    index: usize,
    notepad: usize,
    buffer1: usize,
    buffer2: usize,
    scores: usize,
    thresholds: usize,
) -> bool
    ensures { result ≡ lengths_fit noted templates index notepad buffer1 buffer2 scores thresholds }
{
    let pages = templates / numbers::PAGE;
    templates == numbers::PAGE * pages
        && (1..=numbers::MOST_PAGES).contains(&pages)
        && index == numbers::INDEX
        && notepad == noted
        && buffer1 == numbers::PAGE
        && buffer2 == numbers::PAGE
        && scores == pages
        && thresholds == numbers::LEVELS
}

impl Memory<'_> {
    /// The same of the memory and the chip.
    pub fn has_fit_lengths(&self, noted: usize, chip: Chip<'_>) -> bool
        ensures { result ≡ memory_fits noted self.now chip.entry }
    {
        is_fit(
            noted,
            self.templates.len(),
            self.index.len(),
            self.notepad.len(),
            self.buffer1.len(),
            self.buffer2.len(),
            chip.scores.len(),
            chip.thresholds.len(),
        )
    }

    // Whether settings, transfer, index bits and origins are legal with it.
    fn is_sound(&self, settings: Settings) -> bool
        requires { length self.now.templates.now / page_bytes ≤ most_pages }
        ensures { result ≡ sound_of (length self.now.templates.now / page_bytes) self.now.index.now settings }
    {
        is_sound(settings, self.index, self.templates.len() / numbers::PAGE)
    }

    /// A call of a reader whose notepad has `noted` bytes, document 01's with 512: its settings, the chip's scores and thresholds, a received run, and a reply
    /// room. It gives back the settings, the bytes used and the reply's length; refused, it leaves all as it was.
    pub fn step(
        self,
        noted: usize,
        settings: Settings,
        chip: Chip<'_>,
        run: &[u8],
        reply: &mut [u8],
    ) -> Result<(Settings, Lengths), Refusal>
        ensures { ended_at (after_of settings result) (lengths_of result) self.exit reply.new
            ≡ call_of (shaped noted) (reader_at settings self.entry) run.now (lent_at chip.entry reply.old) }
    {
        if !self.has_fit_lengths(noted, chip) {
            return Err(Refusal::BadLength);
        }
        if reply.len() < numbers::REPLY_ROOM {
            return Err(Refusal::BadRoom);
        }
        if !self.is_sound(settings) {
            return Err(Refusal::BadSetting);
        }
        let found = finder::find(run);
        let Found::Whole { at, len } = found else {
            let used = finder::used_of(found);
            return Ok((settings, Lengths { used, reply: 0 }));
        };
        let Memory {
            templates,
            index,
            notepad,
            buffer1,
            buffer2,
        } = self;
        let mut after = settings;
        let mut sound = Sound {
            settings: &mut after,
            templates,
            index,
            notepad,
            buffer1,
            buffer2,
            chip,
        };
        let lengths = sound.hear_packet(run, at, len, reply);
        Ok((after, lengths))
    }
}

/// The line switch, for which no whole reader is lent: any settings and both buffers; marks and status bit 1 cleared, transfer closed, buffers zeroed, origins
/// none. It knows only refusal 1.
pub fn line_switch(
    settings: Settings,
    buffer1: &mut [u8],
    buffer2: &mut [u8],
) -> Result<Settings, Refusal>
    ensures { (t i n : List ℕ) → switched_of (switched_at (left_of settings result) (outcome_number result)) t i n buffer1.new buffer2.new
        ≡ switch_of (reader_of settings t i n buffer1.old buffer2.old) }
{
    if buffer1.len() != numbers::PAGE {
        return Err(Refusal::BadLength);
    }
    if buffer2.len() != numbers::PAGE {
        return Err(Refusal::BadLength);
    }
    buffer1.fill(0);
    buffer2.fill(0);
    Ok(settings::switched(settings))
}
