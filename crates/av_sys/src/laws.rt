// The laws of names and systems.
ghost use Rattle.av_sys.specs.Names.{MeansLaw};
ghost use Rattle.av_sys.specs.Laws.{WellFormedLaw, TreesLaw};

/// The test of a name passes, of words, exactly those that avoid each of its avoided words, contain each of its required
/// ones, and meet its sign.
pub fn means_law()
    ensures { MeansLaw }
{}

/// The test for well-formed systems passes exactly these.
pub fn well_formed_law()
    ensures { WellFormedLaw }
{}

/// Of a well-formed system, the list of the derivation trees of an equation of one size holds each of them once, and is made
/// of the equation's terms in turn, over the lists of the children's trees.
pub fn trees_law()
    ensures { TreesLaw }
{}
