//! How a run of the program ends.

ghost use Rattle.std.specs.Prelude.{◌≡◌};
ghost use Rattle.corr_cli.specs.Texts.{code_after, code_of};

use corr_serial::Reports;
use corr_settings::SetRefusal;
use vis_send::Sent;

/// The status with which the program ends.
#[derive(Clone, Copy, Debug, PartialEq, Eq)]
pub struct Status {
    /// 0 done, 1 usage, 2 settings, 3 source fault, 4 sink fault, 5 no memory, 6 print fault,
    /// 8 settings source fault, 9 refused content.
    pub code: u8,
}

/// What a run comes to.
#[derive(Drop)]
pub enum Answer {
    /// The words have no form.
    Usage,
    /// The source of the settings failed.
    SettingsFault,
    /// The settings are refused.
    Settings(SetRefusal),
    /// The source of this antenna could not be begun.
    NotBegun(u32),
    /// So many packets were sent, and the least antenna whose source failed later, if one did.
    Sent(u64, Option<u32>),
    /// The same, with all that was counted of what was sent, and the report on each stream.
    Summed(Sent, Reports, Option<u32>),
    /// So many packets of one simulated input were sent.
    Simulated(u64),
    /// The sink failed.
    SinkFault,
    /// There was no memory.
    NoMemory,
}

impl Answer {
    /// The code with which the program ends, where its text is printed.
    pub fn code(&self) -> u8
        ensures { result ≡ code_of self.now }
    {
        match self {
            Answer::Sent(_, fault) | Answer::Summed(_, _, fault) => code_after(*fault),
            Answer::Simulated(_) => 0,
            Answer::Usage => 1,
            Answer::Settings(_) => 2,
            Answer::NotBegun(_) => 3,
            Answer::SinkFault => 4,
            Answer::NoMemory => 5,
            Answer::SettingsFault => 8,
        }
    }
}

// The code of a run that sent all.
fn code_after(fault: Option<u32>) -> u8
    ensures { result ≡ code_after fault }
{
    if fault.is_some() { 3 } else { 0 }
}
