//! How a call of the program ends.

ghost use Rattle.std.specs.Prelude.{◌≡◌};
ghost use Rattle.qq_tool.specs.Status.{code_of};

/// How a call ended. The program's users see the number beside it.
#[derive(Clone, Copy, Debug, PartialEq, Eq)]
pub enum Status {
    /// The whole text of the command was written.
    Success = 0,
    /// The input is refused.
    Refused = 1,
    /// The words are no command.
    BadWords = 2,
    /// A read failed.
    ReadFault = 3,
    /// A write failed.
    WriteFault = 4,
    /// There was no memory.
    OutOfMemory = 5,
    /// The run that was shown stands before a measurement for which no outcome is left.
    Asked = 7,
    /// The run that was shown stands at the end of a loop's body, with no turn left.
    Turning = 8,
}

impl Status {
    /// Its number.
    pub fn code(self) -> u8
        ensures { result ≡ code_of self }
    {
        self as u8
    }
}
