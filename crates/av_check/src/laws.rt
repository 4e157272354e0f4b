// The laws of claims and of the verdict on them.
ghost use Rattle.av_check.specs.ClaimLaws.{ClaimLaw, ClaimTextLaw};
ghost use Rattle.av_check.specs.Laws.{CheckLaw, CompleteLaw, PartLaw, SoundLaw};

/// A text is a claim in one way, or it is none, with one line and one kind of fault. The words and the system of a claim are within
/// the limits.
pub fn claim_law()
    ensures { ClaimLaw }
{}

/// The text of a claim, with or without the lines that are passed over and whatever follows it, is that claim.
pub fn claim_text_law()
    ensures { ClaimTextLaw }
{}

/// Where the verdict on a claim is yes, with roots that hold all simple words of the class, the claimed system generates
/// exactly the words that avoid the basis and contain the required words, each by one derivation tree, and each of its
/// equations exactly the words that its name describes, at every size and whatever the limit of the systems that were asked
/// for.
pub fn sound_law()
    ensures { SoundLaw }
{}

/// The verdict is yes on the canonical system of a class that is within the limit, and on that system without the equations
/// that generate nothing, where the roots are simple words, each once.
pub fn complete_law()
    ensures { CompleteLaw }
{}

/// Both for a class with a gap, with its simple words of lengths below the gap for roots, and `MAX_SIZE` for a limit.
pub fn check_law()
    ensures { CheckLaw }
{}

/// The cells of the leaves of a walk part the lists of blocks of its root: each lies in one, and in no two.
pub fn part_law()
    ensures { PartLaw }
{}
