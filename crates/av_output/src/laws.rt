// The law of the output.
ghost use Rattle.av_output.specs.Output.{OutputLaw};

/// The text due to a script whose class is settled is the claim of the minimal words of its basis, its maximal required words and
/// its system, where the text is no longer than a claim may be and the basis has no more words: that of a union may have more. With
/// every limit of lengths from that of the script on, the text due to this claim ends in `check yes`.
pub fn output_law()
    ensures { OutputLaw }
{}
