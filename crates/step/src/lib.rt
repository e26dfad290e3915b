// The settings record lent: document 01's call and its line switch in the form of the cabinet loop, and what a C firmware calls that hands whole runs over. Each
// is a thin wrapper that calls the step by value, and writes back the new record. include/bystrodol.h is the C face.
// It stands apart from `board`, so that in the archive of each one function leads to the reader's call, and the compiler builds the call into it.
#![tactic(auto)]

ghost use Rattle.std.specs.Prelude.{◌≡◌, List, ℕ};
ghost use Rattle.protocol.specs.Call.{core, call_of, switch_of};
ghost use Rattle.protocol.specs.Records.{reader_of, lent_of, ended_of, switched_of, called_at, switched_at};

use protocol::{Answered, Settings, numbers, outcomes};
use reader::call;
use reader::memory::{Chip, Memory};

// A call of the reader on lent settings.
#[unsafe(no_mangle)]
pub extern "C" fn bystrodol_step(
    settings: &mut Settings,
    templates: &mut [u8],
    index: &mut [u8],
    notepad: &mut [u8],
    buffer1: &mut [u8],
    buffer2: &mut [u8],
    scores: &[u16],
    thresholds: &[u16],
    run: &[u8],
    reply: &mut [u8],
) -> Answered
    ensures { ended_of (called_at settings.new result)
        templates.new index.new notepad.new buffer1.new buffer2.new reply.new
        ≡ call_of core
        (reader_of settings.old templates.old index.old notepad.old buffer1.old buffer2.old)
        run.now (lent_of scores.now thresholds.now reply.old) }
{
    let memory = Memory {
        templates,
        index,
        notepad,
        buffer1,
        buffer2,
    };
    let chip = Chip { scores, thresholds };
    let outcome = memory.step(numbers::NOTEPAD, *settings, chip, run, reply);
    outcomes::write_back(settings, outcome).into()
}

// A line switch on lent settings.
#[unsafe(no_mangle)]
pub extern "C" fn bystrodol_line_switch(
    settings: &mut Settings,
    buffer1: &mut [u8],
    buffer2: &mut [u8],
) -> u8
    ensures { (t i n : List ℕ)
        → switched_of (switched_at settings.new result) t i n buffer1.new buffer2.new
        ≡ switch_of (reader_of settings.old t i n buffer1.old buffer2.old) }
{
    let outcome = call::line_switch(*settings, buffer1, buffer2);
    outcomes::write_back_alone(settings, outcome)
}
