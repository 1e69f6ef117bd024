ghost use Rattle.std.specs.Prelude.{◌≡◌};
ghost use Rattle.eb_lines.specs.StatusLine.{code_of, line_of};

/// The most bytes that a run takes from its input, 2^40.
pub const MAX_INPUT: u64 = 1_099_511_627_776;

/// How a run ends.
#[derive(Clone, Copy, Debug, PartialEq, Eq)]
pub enum Status {
    /// The input is processed, and no line was refused.
    Done,
    /// The input is processed, and at least one line was refused.
    Refused,
    /// The command line is invalid. Nothing was read, and nothing was printed.
    Usage,
    /// Reading failed. What was read of whole lines is processed.
    ReadFault,
    /// Writing failed.
    WriteFault,
    /// Memory ran out. It can come in any run.
    NoMemory,
    /// [`MAX_INPUT`] bytes were read without an end. Their whole lines are processed.
    InputTooLong,
    /// What was read isn't an image. Only a load ends so; nothing was printed.
    BadImage,
}

impl Status {
    /// The exit code of the program, 0 to 7 in the order of the statuses.
    pub fn code(&self) -> u8
        ensures { result ≡ code_of self.now }
    {
        match self {
            Status::Done => 0,
            Status::Refused => 1,
            Status::Usage => 2,
            Status::ReadFault => 3,
            Status::WriteFault => 4,
            Status::NoMemory => 5,
            Status::InputTooLong => 6,
            Status::BadImage => 7,
        }
    }

    /// The line of the status on the error output, which may be empty; `usage` is the line that
    /// says how to call the program.
    pub fn line(self, usage: &'static [u8]) -> &'static [u8]
        ensures { result.now ≡ line_of usage.now self }
    {
        match self {
            Status::Done => b"",
            Status::Refused => b"",
            Status::Usage => usage,
            Status::ReadFault => b"earlybird: read fault\n",
            Status::WriteFault => b"earlybird: write fault\n",
            Status::NoMemory => b"earlybird: no memory\n",
            Status::InputTooLong => b"earlybird: input too long\n",
            Status::BadImage => b"earlybird: bad image\n",
        }
    }
}
