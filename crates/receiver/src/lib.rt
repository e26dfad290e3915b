// Request [1]: the receiver. It takes bytes as the cable gives them, holds them between calls, and answers at most one packet a call.
#![tactic(auto)]

ghost use Rattle.std.specs.Prelude.{◌≡◌, List, [], ℕ};
ghost use Rattle.protocol.specs.Call.{shaped};
ghost use Rattle.protocol.specs.Codes.{refusal_number, outcome_number};
ghost use Rattle.protocol.specs.Receiver.{holding, receive_of, line_switch_of};
ghost use Rattle.protocol.specs.Records.{after_of, lengths_of, left_of, line_of, emptied_of, emptied_at};
ghost use Rattle.reader.specs.Calls.{lent_at};
ghost use Rattle.receiver.specs.Full.{full_refusal};
ghost use Rattle.receiver.specs.Handed.{line_at, handed_at};

use protocol::refusals::Refusal;
use protocol::{Lengths, Line, Receiver, numbers};
use reader::call;
use reader::memory::{Chip, Memory};
use wire::bytes;

/// A receiver that holds nothing.
pub fn empty() -> Receiver
    ensures { result ≡ holding [] }
{
    Receiver {
        held: [0; numbers::HOLDS],
        spare: 0,
        count: 0,
    }
}

// The refusal of a call on a count above what a receiver holds: 1 and 2 come first. By whether the lent lengths are right, and by that of the reply room.
#[tactic(auto, using(wire::proofs::Picks::picks), unfolding(crate::specs::Full::full_refusal))]
fn full_refusal(fit: bool, room: usize) -> Refusal
    ensures { refusal_number result ≡ full_refusal fit room }
{
    if !fit {
        return Refusal::BadLength;
    }
    if room < numbers::REPLY_ROOM {
        return Refusal::BadRoom;
    }
    Refusal::BadSetting
}

/// A call of a reader whose notepad has `noted` bytes, document 01's with 512: takes what fits of the piece behind the bytes held, does the reader's call on all
/// of them, and drops those used. The line goes in and comes back by value: the cells behind what is still held are zero then, and so is the spare byte. Refused,
/// it leaves all as it was.
pub fn receive(
    noted: usize,
    line: Line,
    memory: Memory<'_>,
    chip: Chip<'_>,
    piece: &[u8],
    reply: &mut [u8],
) -> Result<(Line, Lengths), Refusal>
    ensures { handed_at (after_of line result) (lengths_of result) memory.exit reply.new
        ≡ receive_of (shaped noted) (line_at line memory.entry) piece.now (lent_at chip.entry reply.old) }
{
    let count = line.receiver.count as usize;
    if numbers::HOLDS < count {
        let fit = memory.has_fit_lengths(noted, chip);
        return Err(full_refusal(fit, reply.len()));
    }
    let taken = (numbers::HOLDS - count).min(piece.len());
    let end = count + taken;
    let mut run = line.receiver.held;
    bytes::put(&mut run[count..end], &piece[..taken]);
    // Taken apart and put together again: so the check follows what the call leaves behind each reference.
    let Memory {
        templates,
        index,
        notepad,
        buffer1,
        buffer2,
    } = memory;
    let memory = Memory {
        templates,
        index,
        notepad,
        buffer1,
        buffer2,
    };
    let (settings, lengths) = memory.step(noted, line.settings, chip, &run[..end], reply)?;
    let left = end - lengths.used;
    let mut held = [0u8; numbers::HOLDS];
    bytes::put(&mut held, &run[lengths.used..end]);
    let receiver = Receiver {
        held,
        spare: 0,
        count: left as u16,
    };
    Ok((
        Line { settings, receiver },
        Lengths {
            used: taken,
            reply: lengths.reply,
        },
    ))
}

/// The line switch: the reader's, and the held bytes emptied. It knows only refusal 1, and changes nothing then.
pub fn line_switch(line: Line, buffer1: &mut [u8], buffer2: &mut [u8]) -> Result<Line, Refusal>
    ensures { (t i n : List ℕ) → emptied_of (emptied_at (left_of line result) (outcome_number result)) t i n buffer1.new buffer2.new
        ≡ line_switch_of (line_of line t i n buffer1.old buffer2.old) }
{
    let settings = call::line_switch(line.settings, buffer1, buffer2)?;
    Ok(Line {
        settings,
        receiver: empty(),
    })
}
