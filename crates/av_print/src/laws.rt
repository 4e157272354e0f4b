// The laws of texts.
ghost use Rattle.av_print.specs.Laws.{SystemTextLaw, QueryTextLaw};

/// Two different pairs of a version and a well-formed system, whose names avoid and require words, have different texts.
pub fn system_text_law()
    ensures { SystemTextLaw }
{}

/// The canonical text of a query in its range, read as a line of a script, is that query, whatever the lines before it
/// said.
pub fn query_text_law()
    ensures { QueryTextLaw }
{}
