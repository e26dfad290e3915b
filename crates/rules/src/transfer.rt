// Whether a data packet goes into an open transfer.
ghost use Rattle.std.specs.Prelude.{◌≡◌};
ghost use Rattle.rules.specs.Transfer.{does_fit};

use crate::settings;
use protocol::{Settings, numbers};

/// Whether a data packet of n content bytes goes in.
pub fn does_fit(settings: Settings, right: bool, last: bool, n: usize) -> bool
    ensures { result ≡ does_fit settings right last n }
{
    let z = settings::size_of(settings.size);
    if !right || n != z {
        return false;
    }
    let k = usize::from(settings.got) + z;
    if last {
        k == numbers::PAGE
    } else {
        k < numbers::PAGE
    }
}
