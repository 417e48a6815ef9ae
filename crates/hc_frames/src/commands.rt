//! The commands of datagrams, as an enum and as numbers. Builders and the reader use them.
ghost use Rattle.std.specs.Prelude.{◌≡◌};
ghost use Rattle.hc_frames.specs.Commands.{code_of, command_of};

/// A datagram's command (ETG.1000.4, coding of the commands).
#[derive(Clone, Copy, PartialEq, Eq, Debug)]
pub enum Command {
    /// Auto increment physical read: by position.
    Aprd = 1,
    /// Auto increment physical write: by position.
    Apwr = 2,
    /// Configured address physical write: by station address.
    Fpwr = 5,
    /// Logical memory read and write.
    Lrw = 12,
}

impl Command {
    /// Returns the number in a datagram's first byte.
    pub fn code(self) -> u8
        ensures { result ≡ code_of self }
    {
        self as u8
    }

    /// Returns the command with this number, or `None` if this project does not use it.
    pub fn of(code: u8) -> Option<Command>
        ensures { result ≡ command_of code }
    {
        match code {
            1 => Some(Command::Aprd),
            2 => Some(Command::Apwr),
            5 => Some(Command::Fpwr),
            12 => Some(Command::Lrw),
            _ => None,
        }
    }
}
