// What a call's outcome is to a caller in C: a refusal is its number, beside which all else is 0.
ghost use Rattle.std.specs.Prelude.{◌≡◌};
ghost use Rattle.protocol.specs.Records.{after_of, lengths_of, left_of, answered_of, taken_of};
ghost use Rattle.protocol.specs.Codes.{outcome_number};

use crate::refusals::Refusal;
use crate::{Answered, Lengths, Taken};

impl From<Result<Lengths, Refusal>> for Answered {
    ghost from_gives = { λ outcome answered. answered ≡ answered_of outcome };

    fn from(outcome: Result<Lengths, Refusal>) -> Self {
        match outcome {
            Ok(lengths) => Answered {
                refusal: 0,
                used: lengths.used,
                length: lengths.reply,
            },
            Err(refusal) => Answered {
                refusal: refusal.into(),
                used: 0,
                length: 0,
            },
        }
    }
}

impl From<Result<Lengths, Refusal>> for Taken {
    ghost from_gives = { λ outcome taken. taken ≡ taken_of outcome };

    fn from(outcome: Result<Lengths, Refusal>) -> Self {
        match outcome {
            Ok(lengths) => Taken {
                refusal: 0,
                taken: lengths.used,
                length: lengths.reply,
            },
            Err(refusal) => Taken {
                refusal: refusal.into(),
                taken: 0,
                length: 0,
            },
        }
    }
}

/// Writes a record that a call gave back where it is lent, and returns the rest of the outcome. Refused, the record stays.
pub fn write_back<T: Copy>(
    lent: &mut T,
    outcome: Result<(T, Lengths), Refusal>,
) -> Result<Lengths, Refusal>
    ensures record { lent.new ≡ after_of lent.old outcome }
    ensures lengths { result ≡ lengths_of outcome }
{
    let (after, lengths) = outcome?;
    *lent = after;
    Ok(lengths)
}

/// The same of a call that gave back nothing beside the record: the refusal or 0.
pub fn write_back_alone<T: Copy>(lent: &mut T, outcome: Result<T, Refusal>) -> u8
    ensures record { lent.new ≡ left_of lent.old outcome }
    ensures number { result ≡ outcome_number outcome }
{
    match outcome {
        Ok(after) => {
            *lent = after;
            0
        }
        Err(refusal) => refusal.into(),
    }
}
