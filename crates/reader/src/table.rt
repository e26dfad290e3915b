// The table of commands: what each command of a content does, behind what comes before it.
ghost use Rattle.std.specs.Prelude.{◌≡◌, ◌≤◌, length};
ghost use Rattle.protocol.specs.Codes.{command_number};
ghost use Rattle.protocol.specs.Packet.{length_of};
ghost use Rattle.protocol.specs.Commands.{commands, row_of, order_of};
ghost use Rattle.protocol.specs.Records.{plain_of};
ghost use Rattle.protocol.specs.Step.{obey, heed};
ghost use Rattle.reader.specs.Answers.{answer_in};
ghost use Rattle.reader.specs.Memory.{Kept, reader_in, chip_at, said_of};
ghost use Rattle.rules.specs.Commands.{read_of, Admitted};

use crate::answers::Answer;
use crate::fields::{bytes_at, word_at};
use crate::memory::Sound;
use protocol::codes::Code;
use protocol::command_codes::CommandCode;
use rules::commands;

impl Sound<'_> {
    // The row of a command that the lock lets pass.
    #[tactic(auto, using(crate::proofs::Obeying::free_row, crate::proofs::Obeying::barred_row), unfolding(rules::specs::Commands::len_of, rules::specs::Commands::read_of, rules::specs::Commands::is_free, protocol::specs::Commands::row_of, protocol::specs::Commands::commands))]
    fn obey(&mut self, command: CommandCode, content: &[u8]) -> Result<Answer, Code>
        requires { Admitted (command_number command) (length_of content.now) (plain_of self.old.settings.now) }
        ensures kept { Kept self.old self.new }
        ensures obeyed { said_of (answer_in result) self.new ≡ obey (chip_at self.old.chip) (reader_in self.old)
            (read_of (row_of commands (command_number command)) content.now) }
    {
        match command {
            CommandCode::Search => {
                self.search_for(content[1], word_at(content, 2), word_at(content, 4))
            }
            CommandCode::Store => self.store(content[1], word_at(content, 2)),
            CommandCode::LoadChar => self.load_char(content[1], word_at(content, 2)),
            CommandCode::UpChar => self.up_char(content[1]),
            CommandCode::DownChar => self.down_char(content[1]),
            CommandCode::DeletChar => self.delet_char(word_at(content, 1), word_at(content, 3)),
            CommandCode::Empty => Ok(self.empty()),
            CommandCode::SetSysPara => self.set_sys_para(content[1], content[2]),
            CommandCode::ReadSysPara => Ok(self.read_sys_para()),
            CommandCode::SetPwd => Ok(self.set_password(bytes_at(content, 1))),
            CommandCode::VfyPwd => Ok(self.verify_password(bytes_at(content, 1))),
            CommandCode::SetAdder => Ok(self.set_address(bytes_at(content, 1))),
            CommandCode::WriteNotepad => self.write_notepad(content[1], bytes_at(content, 2)),
            CommandCode::ReadNotepad => self.read_notepad(content[1]),
            CommandCode::TempleteNum => Ok(self.templete_num()),
            CommandCode::ReadIndexTable => self.read_index_table(content[1]),
            CommandCode::HandShake => Ok(Answer::Alone(Code::Done)),
        }
    }

    // A packet with identifier 1, once an open transfer has ended: sum, code, length, lock, and then the row.
    pub(crate) fn command(&mut self, content: &[u8], right: bool) -> Result<Answer, Code>
        requires some { 1 ≤ length content.now }
        requires high { length content.now ≤ 65535 }
        ensures kept { Kept self.old self.new }
        ensures heeded { said_of (answer_in result) self.new ≡ heed (chip_at self.old.chip) (reader_in self.old)
            (order_of right content.now) }
    {
        let command = commands::gate(right, content[0], content.len() + 2, *self.settings)?;
        self.obey(command, content)
    }
}
