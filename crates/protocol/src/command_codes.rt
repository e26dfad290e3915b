// The codes of the commands; specs/Commands.antt has their numbers in its table.
ghost use Rattle.std.specs.Prelude.{◌≡◌};
ghost use Rattle.protocol.specs.Codes.{command_number};

#[derive(Clone, Copy, Debug, PartialEq, Eq)]
pub enum CommandCode {
    Search = 0x04,
    Store = 0x06,
    LoadChar = 0x07,
    UpChar = 0x08,
    DownChar = 0x09,
    DeletChar = 0x0C,
    Empty = 0x0D,
    SetSysPara = 0x0E,
    ReadSysPara = 0x0F,
    SetPwd = 0x12,
    VfyPwd = 0x13,
    SetAdder = 0x15,
    WriteNotepad = 0x18,
    ReadNotepad = 0x19,
    TempleteNum = 0x1D,
    ReadIndexTable = 0x1F,
    HandShake = 0x40,
}

impl From<CommandCode> for u8 {
    ghost from_gives = { λ command number. number ≡ command_number command };

    fn from(command: CommandCode) -> u8 {
        command as u8
    }
}
