// The kinds of faults.
ghost use Rattle.std.specs.Prelude.{◌≡◌};
ghost use Rattle.av_text.specs.Kinds.{kind_number};

/// Why a script or a claim is refused.
#[derive(Clone, Copy, Debug, PartialEq, Eq, thiserror::Error)]
pub enum Kind {
    /// No line is a basis line.
    #[error("there is no basis line")]
    NoBasis = 1,
    /// A token spells no word, since it has neither form of one or since its entries aren't the numbers 1 to their
    /// number, each once.
    #[error("a token is no word")]
    BadWord = 2,
    /// A word has more entries than may stand there: 12 in the basis line, the union line and the line of
    /// required words, 160 in a query.
    #[error("a word is too long")]
    LongWord = 3,
    /// The basis line, the union line or the line of required words has more than 64 words.
    #[error("there are more than 64 words in a line")]
    ManyWords = 4,
    /// A line fits no form of a query, or is a format line without one argument.
    #[error("the line is no query")]
    UnknownQuery = 5,
    /// An argument that should be a number is no numeral.
    #[error("an argument is no number")]
    BadNumber = 6,
    /// A number is out of its range.
    #[error("a number is out of range")]
    Range = 7,
    /// A script has more than 65,536 bytes, or a claim more than 1,048,576.
    #[error("the text is too long")]
    TooLong = 8,
    /// A line holds a byte that is neither a tab nor from space to `~`.
    #[error("a byte isn't allowed")]
    BadByte = 9,
    /// A line is a basis line, and so is an earlier one.
    #[error("there is a second basis line")]
    SecondBasis = 10,
    /// A line is one of required words, and so is an earlier one.
    #[error("there is a second line of required words")]
    SecondRequire = 11,
    /// A line is a format line, and so is an earlier one.
    #[error("there is a second format line")]
    SecondFormat = 12,
    /// A line of a claim isn't as demanded in its place, or the text ends before the claim does.
    #[error("the text is no claim")]
    BadClaim = 13,
    /// The longest word of the basis line and the longest of the union line have together more than 10 entries.
    #[error("the words of the basis and of the union are too long together")]
    LongUnion = 14,
    /// A line is a union line, and so is an earlier one.
    #[error("there is a second union line")]
    SecondUnion = 15,
}

impl Kind {
    /// The number that a fault is reported by, from 1 to 15.
    pub fn number(self) -> u8
        ensures { result ≡ kind_number self }
    {
        self as u8
    }
}
