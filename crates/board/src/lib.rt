// What the board's C firmware calls: four plain services, bringing over an index, fresh settings, and the whole reader with its settings and its receiver
// lent.
// include/bystrodol.h is the C face; the reader on whole runs is in the crate `step`.
#![tactic(auto)]

ghost use Rattle.std.specs.Prelude.{◌≡◌, List, ℕ};
ghost use Rattle.protocol.specs.BringOver.{bring_over};
ghost use Rattle.protocol.specs.Services.{sum_service, used_service, build_service, count_service};
ghost use Rattle.protocol.specs.Call.{core};
ghost use Rattle.protocol.specs.Receiver.{receive_of, line_switch_of};
ghost use Rattle.protocol.specs.Records.{reader_of, line_of, fresh_of, lent_of, received_of, emptied_of, received_at, emptied_at, brought_of};

use library::index;
use protocol::{Line, Settings, Taken, numbers, outcomes, refusals};
use reader::memory::{Chip, Memory};
use rules::settings;
use wire::{builder, bytes, finder};

// The sum of all bytes of a run modulo 65536.
#[unsafe(no_mangle)]
pub extern "C" fn bystrodol_sum(run: &[u8]) -> u16
    ensures { result ≡ sum_service run.now }
{
    bytes::sum(run)
}

// The bytes used of a run, by steps 1 to 4 of finding a packet.
#[unsafe(no_mangle)]
pub extern "C" fn bystrodol_used(run: &[u8]) -> usize
    ensures { result ≡ used_service run.now }
{
    finder::used(run)
}

// Builds a packet at the front of the room: its length, or 0 if refused.
#[unsafe(no_mangle)]
pub extern "C" fn bystrodol_build(
    address: u32,
    identifier: u8,
    content: &[u8],
    room: &mut [u8],
) -> usize
    ensures length { result ≡ (build_service address identifier content.now room.old).length }
    ensures room { room.new ≡ (build_service address identifier content.now room.old).room }
{
    builder::build(address.to_be_bytes(), identifier, content, room).unwrap_or(0)
}

// The number of set bits in an index, FFFFh if it is not 128 bytes long.
#[unsafe(no_mangle)]
pub extern "C" fn bystrodol_count(index: &[u8]) -> u16
    ensures { result ≡ count_service index.now }
{
    index::count(index, numbers::INDEX as u8).unwrap_or(numbers::NO_COUNT)
}

// Brings an index that was stored before request [6] over to a lent one: the refusal or 0.
#[unsafe(no_mangle)]
pub extern "C" fn bystrodol_bring_over(old: &[u8], index: &mut [u8]) -> u8
    ensures { brought_of result index.new ≡ bring_over old.now index.old }
{
    refusals::outcome_number(&index::bring_over(old, index))
}

// A call of the receiver on a lent line.
#[unsafe(no_mangle)]
pub extern "C" fn bystrodol_receive(
    line: &mut Line,
    templates: &mut [u8],
    index: &mut [u8],
    notepad: &mut [u8],
    buffer1: &mut [u8],
    buffer2: &mut [u8],
    scores: &[u16],
    thresholds: &[u16],
    piece: &[u8],
    reply: &mut [u8],
) -> Taken
    ensures { received_of (received_at line.new result)
        templates.new index.new notepad.new buffer1.new buffer2.new reply.new
        ≡ receive_of core
        (line_of line.old templates.old index.old notepad.old buffer1.old buffer2.old)
        piece.now (lent_of scores.now thresholds.now reply.old) }
{
    let memory = Memory {
        templates,
        index,
        notepad,
        buffer1,
        buffer2,
    };
    let chip = Chip { scores, thresholds };
    let outcome = receiver::receive(numbers::NOTEPAD, *line, memory, chip, piece, reply);
    outcomes::write_back(line, outcome).into()
}

// A line switch on a lent line, which empties its receiver.
#[unsafe(no_mangle)]
pub extern "C" fn bystrodol_receiver_switch(
    line: &mut Line,
    buffer1: &mut [u8],
    buffer2: &mut [u8],
) -> u8
    ensures { (t i n : List ℕ)
        → emptied_of (emptied_at line.new result) t i n buffer1.new buffer2.new
        ≡ line_switch_of (line_of line.old t i n buffer1.old buffer2.old) }
{
    let outcome = receiver::line_switch(*line, buffer1, buffer2);
    outcomes::write_back_alone(line, outcome)
}

// Fresh settings.
#[unsafe(no_mangle)]
pub extern "C" fn bystrodol_fresh() -> Settings
    ensures { (t i n b c : List ℕ) → reader_of result t i n b c ≡ fresh_of t i n b c }
{
    settings::fresh()
}
