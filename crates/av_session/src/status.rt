// How a run ends.

/// How a run ended. Its number is the status of the program.
#[derive(Clone, Copy, Debug, PartialEq, Eq)]
pub enum Status {
    /// The whole text due was written.
    Done = 0,
    /// Memory was wanting. A prefix of the text due was written.
    Memory = 1,
    /// The words of the command line aren't accepted. Nothing was read or written.
    Words = 2,
    /// The source failed. Nothing was written.
    ReadFault = 3,
    /// The sink failed. A prefix of the text due was written.
    WriteFault = 4,
    /// The source is no script, or with `--check` no claim. The line of its first fault was written.
    Refused = 5,
    /// The class isn't settled up to the limit. The header and the limit were written.
    Unsettled = 6,
    /// The canonical system is larger than the limit. The header and the limit were written.
    TooLarge = 7,
}
