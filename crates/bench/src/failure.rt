// Why the program stops before its input ends.
ghost use Rattle.std.specs.Prelude.{◌≡◌};
ghost use Rattle.bench.specs.declared.failure.Failure.TheVariants.{Refused};

use protocol::refusals::Refusal;
use std::{fmt, io};

#[derive(Drop)]
pub(crate) enum Failure {
    Read(io::Error),
    Write(io::Error),
    Refused,
}

// The line on standard error.
impl fmt::Display for Failure {
    fn fmt<W: fmt::Write>(&self, f: &mut fmt::Formatter<W>) -> fmt::Result {
        match self {
            Failure::Read(e) => write!(f, "read: {e}"),
            Failure::Write(e) => write!(f, "write: {e}"),
            Failure::Refused => f.write_str("the reader refuses"),
        }
    }
}

impl From<Refusal> for Failure {
    ghost from_gives = { λ _ failure. failure ≡ Refused };

    fn from(_: Refusal) -> Failure {
        Failure::Refused
    }
}
