// The commands over password and address: SetPwd, VfyPwd, SetAdder.
ghost use Rattle.std.specs.Prelude.{◌≡◌};
ghost use Rattle.protocol.specs.Commands.{verify_password, set_password, set_address};
ghost use Rattle.reader.specs.Memory.{Kept, said_of, obeyed, freed};

use crate::answers::Answer;
use crate::memory::Sound;
use protocol::codes::Code;
use rules::settings;
use wire::bytes;

impl Sound<'_> {
    // SetPwd.
    pub(crate) fn set_password(&mut self, password: [u8; 4]) -> Answer
        ensures kept { Kept self.old self.new }
        ensures obeyed { said_of result self.new ≡ obeyed self.old (set_password password) }
    {
        *self.settings = settings::with_password(*self.settings, password);
        Answer::Alone(Code::Done)
    }

    // VfyPwd. All four bytes are compared.
    pub(crate) fn verify_password(&mut self, password: [u8; 4]) -> Answer
        ensures kept { Kept self.old self.new }
        ensures freed { said_of result self.new ≡ freed self.old (verify_password password) }
    {
        let right = bytes::is_same(password, self.settings.password);
        *self.settings = settings::marked(*self.settings, u8::from(right));
        Answer::Alone(if right {
            Code::Done
        } else {
            Code::WrongPassword
        })
    }

    // SetAdder. The reply carries the new address, since it is written with the settings after the command.
    pub(crate) fn set_address(&mut self, address: [u8; 4]) -> Answer
        ensures kept { Kept self.old self.new }
        ensures obeyed { said_of result self.new ≡ obeyed self.old (set_address address) }
    {
        *self.settings = settings::with_address(*self.settings, address);
        Answer::Alone(Code::Done)
    }
}
