// The system parameters: SetSysPara and ReadSysPara.
ghost use Rattle.std.specs.Prelude.{◌≡◌, [], ◌∷◌};
ghost use Rattle.protocol.specs.Bytes.{two, joined};
ghost use Rattle.protocol.specs.Table.{status_of, in_range};
ghost use Rattle.protocol.specs.Commands.{set_sys_para, read_sys_para};
ghost use Rattle.reader.specs.Answers.{answer_in};
ghost use Rattle.reader.specs.Parameters.{IsParameter, parameter_number, tuned};
ghost use Rattle.reader.specs.Memory.{Kept, said_of, obeyed, freed};

use crate::answers::Answer;
use crate::memory::Sound;
use protocol::codes::Code;
use protocol::{Settings, numbers};
use rules::settings;

// A parameter that SetSysPara sets.
#[derive(Clone, Copy)]
enum Parameter {
    Baud = 4,
    Level = 5,
    Size = 6,
}

impl TryFrom<u8> for Parameter {
    type Error = Code;

    ghost try_from_gives = { IsParameter };

    // A number that is no parameter is answered by 1Ah.
    fn try_from(number: u8) -> Result<Self, Code> {
        match number {
            numbers::BAUD_PARAMETER => Ok(Parameter::Baud),
            numbers::LEVEL_PARAMETER => Ok(Parameter::Level),
            numbers::SIZE_PARAMETER => Ok(Parameter::Size),
            _ => Err(Code::BadParameter),
        }
    }
}

impl Parameter {
    // Whether a value is in its range.
    fn admits(self, value: u8) -> bool
        ensures { result ≡ in_range (parameter_number self) value }
    {
        match self {
            Parameter::Baud => (numbers::LOWEST_BAUD..=numbers::HIGHEST_BAUD).contains(&value),
            Parameter::Level => (numbers::LOWEST_LEVEL..=numbers::HIGHEST_LEVEL).contains(&value),
            Parameter::Size => value <= numbers::HIGHEST_SIZE,
        }
    }

    // The settings with this value of it.
    fn set(self, settings: Settings, value: u8) -> Settings
        ensures { result ≡ tuned self value settings }
    {
        match self {
            Parameter::Baud => Settings {
                baud: value,
                ..settings
            },
            Parameter::Level => Settings {
                level: value,
                ..settings
            },
            Parameter::Size => Settings {
                size: value,
                ..settings
            },
        }
    }
}

// The status word.
fn status(verified: bool, found: bool) -> u16
    ensures { result ≡ status_of verified found }
{
    numbers::VERIFIED_STATUS * u16::from(verified) + numbers::FOUND_STATUS * u16::from(found)
}

// The sixteen bytes of ReadSysPara.
fn parameter_bytes(
    status: u16,
    sensor: u16,
    pages: u16,
    level: u16,
    address: [u8; 4],
    size: u16,
    baud: u16,
) -> [u8; 16]
    ensures { result
        ≡ joined (two status ∷ two sensor ∷ two pages ∷ two level ∷ address ∷ two size ∷ two baud ∷ []) }
{
    let [s1, s2] = status.to_be_bytes();
    let [k1, k2] = sensor.to_be_bytes();
    let [p1, p2] = pages.to_be_bytes();
    let [l1, l2] = level.to_be_bytes();
    let [a1, a2, a3, a4] = address;
    let [z1, z2] = size.to_be_bytes();
    let [f1, f2] = baud.to_be_bytes();
    [
        s1, s2, k1, k2, p1, p2, l1, l2, a1, a2, a3, a4, z1, z2, f1, f2,
    ]
}

impl Sound<'_> {
    // SetSysPara (number, value).
    pub(crate) fn set_sys_para(&mut self, number: u8, value: u8) -> Result<Answer, Code>
        ensures kept { Kept self.old self.new }
        ensures obeyed { said_of (answer_in result) self.new ≡ obeyed self.old (set_sys_para number value) }
    {
        let parameter = Parameter::try_from(number)?;
        if !parameter.admits(value) {
            return Err(Code::BadValue);
        }
        *self.settings = parameter.set(*self.settings, value);
        Ok(Answer::Alone(Code::Done))
    }

    // ReadSysPara.
    pub(crate) fn read_sys_para(&self) -> Answer
        ensures { said_of result self.now ≡ freed self.now read_sys_para }
    {
        let s = *self.settings;
        let pages = self.templates.len() / numbers::PAGE;
        Answer::Parameters(parameter_bytes(
            status(s.verified == 1, settings::shows_found(s)),
            s.sensor,
            pages as u16,
            u16::from(s.level),
            s.address,
            u16::from(s.size),
            u16::from(s.baud),
        ))
    }
}
