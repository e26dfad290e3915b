// Calls on a reader's library that no packet reaches, and the doors through which a C firmware makes them. include/bystrodol.h is the C face.
// It stands apart from `board`: in an archive where two functions test settings the compiler builds the test into neither.
#![tactic(auto)]

ghost use Rattle.std.specs.Prelude.{◌≡◌, List, ℕ};
ghost use Rattle.protocol.specs.Call.{core};
ghost use Rattle.protocol.specs.Records.{reader_of};
ghost use Rattle.offline.specs.CloseGaps.{close_of};
ghost use Rattle.offline.specs.Salvage.{salvage_of};
ghost use Rattle.offline.specs.Compare.{library, compare_of};
ghost use Rattle.offline.specs.Records.{closed_of, moved_at, salvaged_of, compared_of};

use compare::Library;
use protocol::refusals::outcome_number;
use protocol::{Settings, outcomes};

pub mod compare;
pub mod gaps;
mod lent;
pub mod salvage;

// Closes the gaps of a library, on lent settings: the refusal or 0.
#[unsafe(no_mangle)]
pub extern "C" fn bystrodol_close_gaps(
    settings: &mut Settings,
    templates: &mut [u8],
    index: &mut [u8],
    table: &mut [u16],
) -> u8
    ensures { (n b d : List ℕ)
        → closed_of (moved_at settings.new result) templates.new index.new table.new n b d
        ≡ close_of core (reader_of settings.old templates.old index.old n b d) table.old }
{
    let outcome = gaps::close_gaps(*settings, templates, index, table);
    outcomes::write_back_alone(settings, outcome)
}

// Salvages a library, and reports what was done to each page and bit: the refusal or 0.
#[unsafe(no_mangle)]
pub extern "C" fn bystrodol_salvage(templates: &mut [u8], index: &mut [u8], report: &mut [u8]) -> u8
    ensures { salvaged_of result templates.new index.new report.new
        ≡ salvage_of core templates.old index.old report.old }
{
    outcome_number(&salvage::salvage(templates, index, report))
}

// Compares two libraries with their notepads, and reports how they differ: the refusal or 0.
#[unsafe(no_mangle)]
pub extern "C" fn bystrodol_compare(
    index1: &[u8],
    notepad1: &[u8],
    templates1: &[u8],
    index2: &[u8],
    notepad2: &[u8],
    templates2: &[u8],
    report: &mut [u8],
) -> u8
    ensures { compared_of result report.new ≡ compare_of core
        (library index1.now notepad1.now templates1.now)
        (library index2.now notepad2.now templates2.now)
        report.old }
{
    let one = Library {
        index: index1,
        notepad: notepad1,
        templates: templates1,
    };
    let two = Library {
        index: index2,
        notepad: notepad2,
        templates: templates2,
    };
    outcome_number(&compare::compare(one, two, report))
}
