// The laws of embeddings.
ghost use Rattle.av_embed.specs.Laws.{EmbeddingsLaw, EmbeddingLaw};

/// The list of the embeddings of a pattern in a root holds exactly the embeddings, each once, in lexicographic order.
pub fn embeddings_law()
    ensures { EmbeddingsLaw }
{}

/// An inflation π[α1, .., αk] contains γ exactly where there is an embedding of γ in π such that each αi contains the
/// pattern of the fibre of i, for every fibre that isn't empty.
pub fn embedding_law()
    ensures { EmbeddingLaw }
{}
