// The identifiers of packets; specs/Numbers.antt names their numbers.
ghost use Rattle.protocol.specs.Codes.{Identifies};

#[derive(Clone, Copy, Debug, PartialEq, Eq)]
pub enum Identifier {
    Command = 1,
    Data = 2,
    Acknowledge = 7,
    Last = 8,
}

/// A number that is no packet's identifier.
#[derive(Clone, Copy, Debug, PartialEq, Eq)]
pub struct UnknownIdentifier;

impl TryFrom<u8> for Identifier {
    type Error = UnknownIdentifier;

    ghost try_from_gives = { Identifies };

    fn try_from(number: u8) -> Result<Self, UnknownIdentifier> {
        match number {
            1 => Ok(Identifier::Command),
            2 => Ok(Identifier::Data),
            7 => Ok(Identifier::Acknowledge),
            8 => Ok(Identifier::Last),
            _ => Err(UnknownIdentifier),
        }
    }
}
