// Why a call is refused. A caller in C gets the number, which specs/Numbers.antt names for the definitions, and 0 for a call that is carried out.
ghost use Rattle.std.specs.Prelude.{◌≡◌};
ghost use Rattle.protocol.specs.Codes.{refusal_number, outcome_number};

#[derive(Clone, Copy, Debug, PartialEq, Eq)]
pub enum Refusal {
    BadLength = 1,
    BadRoom = 2,
    BadSetting = 3,
    BadContent = 4,
}

impl From<Refusal> for u8 {
    ghost from_gives = { λ refusal number. number ≡ refusal_number refusal };

    fn from(refusal: Refusal) -> u8 {
        refusal as u8
    }
}

/// The number for a caller in C.
pub fn outcome_number<T>(outcome: &Result<T, Refusal>) -> u8
    ensures { result ≡ outcome_number outcome.now }
{
    match outcome {
        Ok(_) => 0,
        Err(refusal) => u8::from(*refusal),
    }
}
