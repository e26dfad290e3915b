// The reader of the bench on its line: one call of the receiver, and a piece offered up to the last call.
ghost use Rattle.std.specs.Prelude.{◌≡◌, OnOk};
ghost use Rattle.std.specs.Io.KnownBytes.{Appends};
ghost use Rattle.protocol.specs.Records.{lent_of};
ghost use Rattle.dialogues.specs.Bench.{started};
ghost use Rattle.bench.specs.Offer.{no_scores, no_thresholds, Offered, is_last, Drained, replies};
ghost use Rattle.bench.specs.Start.{Zeroed};

use crate::failure::Failure;
use protocol::refusals::Refusal;
use protocol::{Lengths, Line, numbers, outcomes};
use reader::memory::{Chip, Memory};
use rules::settings;
use std::io;
use std::io::Write;

// The pages of the reader, and their bytes.
const PAGES: usize = 64;

const TEMPLATES: usize = PAGES * numbers::PAGE;

// The reader and its line, with all its memory: fixed arrays, as on the boards.
#[derive(Drop)]
pub(crate) struct Bench {
    line: Line,
    templates: [u8; TEMPLATES],
    index: [u8; numbers::INDEX],
    notepad: [u8; numbers::NOTEPAD],
    buffer1: [u8; numbers::PAGE],
    buffer2: [u8; numbers::PAGE],
}

// Whether a call was the last: it took nothing, and left the held count as it was before.
fn is_last(taken: usize, before: u16, after: u16) -> bool
    ensures { result ≡ is_last taken before after }
{
    taken == 0 && after == before
}

// Writes a reply whole, and lets nothing of it wait in a buffer, since the host waits for it.
fn write<W: Write>(output: &mut W, reply: &[u8]) -> io::Result<()>
    ensures { OnOk result (Appends (W.contents output.old) (W.contents output.new) reply.now) }
{
    output.write_all(reply)?;
    output.flush()
}

impl Bench {
    ghost use Rattle.bench.specs.Bench.{line_at, offered_at};

    // What the program starts with.
    pub(crate) fn new() -> Bench
        ensures zeroed { Zeroed result.templates result.index result.notepad result.buffer1 result.buffer2 }
        ensures started { line_at result ≡ started }
    {
        Bench {
            line: Line {
                settings: settings::fresh(),
                receiver: receiver::empty(),
            },
            templates: [0u8; TEMPLATES],
            index: [0u8; numbers::INDEX],
            notepad: [0u8; numbers::NOTEPAD],
            buffer1: [0u8; numbers::PAGE],
            buffer2: [0u8; numbers::PAGE],
        }
    }

    // There is no chip: all scores and thresholds are 0. It takes no more than the piece and writes no more than the room; and a call that is not refused
    // brings the end of the piece nearer, unless it is the last.
    fn offer(&mut self, piece: &[u8], reply: &mut [u8]) -> Result<Lengths, Refusal>
        ensures { Offered (line_at self.old) piece.now (lent_of no_scores no_thresholds reply.old)
            (offered_at result self.new reply.new) }
    {
        // By one byte read the check knows how long each array behind `self` is.
        let _held = self.line.receiver.held[0];
        let scores = [0u16; PAGES];
        let thresholds = [0u16; numbers::LEVELS];
        let memory = Memory {
            templates: &mut self.templates,
            index: &mut self.index,
            notepad: &mut self.notepad,
            buffer1: &mut self.buffer1,
            buffer2: &mut self.buffer2,
        };
        let chip = Chip {
            scores: &scores,
            thresholds: &thresholds,
        };
        let outcome = receiver::receive(numbers::NOTEPAD, self.line, memory, chip, piece, reply);
        outcomes::write_back(&mut self.line, outcome)
    }

    // Offers a piece up to the last call, and writes each reply. A refusal and a failed write end it. A `loop`: only a call's outcome shows that it was the last;
    // it ends, since each other call leaves less of the piece, or fewer bytes held.
    pub(crate) fn answer<W: Write>(
        &mut self,
        output: &mut W,
        piece: &[u8],
        reply: &mut [u8],
    ) -> Result<(), Failure>
        ensures drained { OnOk result (Drained (line_at self.old) piece.now (line_at self.new)) }
        ensures written { OnOk result (Appends (W.contents output.old) (W.contents output.new)
            (replies (line_at self.old) piece.now)) }
    {
        let mut rest = piece;
        loop {
            let before = self.line.receiver.count;
            let lengths = self.offer(rest, reply)?;
            write(output, &reply[..lengths.reply]).map_err(Failure::Write)?;
            if is_last(lengths.used, before, self.line.receiver.count) {
                return Ok(());
            }
            rest = &rest[lengths.used..];
        }
    }
}
