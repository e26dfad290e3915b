// What comes before a command's row: the length that each code fixes, and the lock.
ghost use Rattle.std.specs.Prelude.{◌≡◌};
ghost use Rattle.protocol.specs.Records.{plain_of};
ghost use Rattle.rules.specs.Commands.{Fixes, is_free, Gated};

use crate::settings;
use protocol::Settings;
use protocol::codes::Code;
use protocol::command_codes::CommandCode;

// The command of a code, with the length field that it fixes; none for the ranges of codes that no command has.
// Every code stands in an arm, so the ranges are read beside document 01's table.
#[tactic(auto, unfolding(crate::specs::Commands::len_of, protocol::specs::Commands::row_of, protocol::specs::Commands::commands))]
pub fn required(code: u8) -> Option<(CommandCode, usize)>
    ensures { Fixes code result }
{
    match code {
        0x04 => Some((CommandCode::Search, 8)),
        0x06 => Some((CommandCode::Store, 6)),
        0x07 => Some((CommandCode::LoadChar, 6)),
        0x08 => Some((CommandCode::UpChar, 4)),
        0x09 => Some((CommandCode::DownChar, 4)),
        0x0C => Some((CommandCode::DeletChar, 7)),
        0x0D => Some((CommandCode::Empty, 3)),
        0x0E => Some((CommandCode::SetSysPara, 5)),
        0x0F => Some((CommandCode::ReadSysPara, 3)),
        0x12 => Some((CommandCode::SetPwd, 7)),
        0x13 => Some((CommandCode::VfyPwd, 7)),
        0x15 => Some((CommandCode::SetAdder, 7)),
        0x18 => Some((CommandCode::WriteNotepad, 36)),
        0x19 => Some((CommandCode::ReadNotepad, 4)),
        0x1D => Some((CommandCode::TempleteNum, 3)),
        0x1F => Some((CommandCode::ReadIndexTable, 4)),
        0x40 => Some((CommandCode::HandShake, 3)),
        0x00..=0x03
        | 0x05
        | 0x0A..=0x0B
        | 0x10..=0x11
        | 0x14
        | 0x16..=0x17
        | 0x1A..=0x1C
        | 0x1E
        | 0x20..=0x3F
        | 0x41..=0xFF => None,
    }
}

/// Whether a locked reader carries the command of a code out too.
#[tactic(auto, unfolding(crate::specs::Commands::is_free))]
pub fn is_free(code: u8) -> bool
    ensures { result ≡ is_free code }
{
    code == u8::from(CommandCode::ReadSysPara)
        || code == u8::from(CommandCode::VfyPwd)
        || code == u8::from(CommandCode::HandShake)
}

/// What comes before the row: the command of a code with length field n, or the code that stops it.
pub fn gate(right: bool, code: u8, n: usize, settings: Settings) -> Result<CommandCode, Code>
    ensures { Gated right code n (plain_of settings) result }
{
    if !right {
        return Err(Code::BadPacket);
    }
    let Some((command, need)) = required(code) else {
        return Err(Code::UnknownCommand);
    };
    if need != n {
        return Err(Code::BadPacket);
    }
    if is_free(code) {
        return Ok(command);
    }
    if settings::is_locked(settings) {
        return Err(Code::PasswordFirst);
    }
    Ok(command)
}
