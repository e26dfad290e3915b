// The acknowledge codes of document 01 and of its change requests. specs/Numbers.antt names their numbers for the definitions.
ghost use Rattle.std.specs.Prelude.{◌≡◌};
ghost use Rattle.protocol.specs.Codes.{code_number};

#[derive(Clone, Copy, Debug, PartialEq, Eq)]
pub enum Code {
    Done = 0x00,
    BadPacket = 0x01,
    NotFound = 0x09,
    BadPage = 0x0B,
    NothingThere = 0x0C,
    NothingToSend = 0x0D,
    TransferFailed = 0x0E,
    BadRange = 0x10,
    WrongPassword = 0x13,
    UnknownCommand = 0x19,
    BadParameter = 0x1A,
    BadValue = 0x1B,
    BadNotePage = 0x1C,
    PasswordFirst = 0x21,
    PageTaken = 0x22,
}

impl From<Code> for u8 {
    ghost from_gives = { λ code number. number ≡ code_number code };

    fn from(code: Code) -> u8 {
        code as u8
    }
}
