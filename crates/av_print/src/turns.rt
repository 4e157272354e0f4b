// Texts in turn: tuples.
ghost use Rattle.std.specs.Prelude.{◌++◌};

use crate::text::Text;
use av_io::{Sink, SinkFault};

/// A reference's text is that of what it points to.
impl<T: Text> Text for &T {
    ghost text = { λ value. T.text value.now };

    fn put_on<K: Sink>(&self, sink: &mut K) -> Result<(), SinkFault> {
        let value: &T = *self;
        value.put_on(sink)
    }
}

/// One text and then another.
impl<A: Text, B: Text> Text for (A, B) {
    ghost text = { λ both. A.text both.0 ++ B.text both.1 };

    #[tactic(auto, using(crate::proofs::Written::written))]
    fn put_on<K: Sink>(&self, sink: &mut K) -> Result<(), SinkFault> {
        self.0.put_on(sink)?;
        self.1.put_on(sink)
    }
}

impl<A: Text, B: Text, C: Text> Text for (A, B, C) {
    ghost text = { λ all. A.text all.0 ++ (B.text all.1 ++ C.text all.2) };

    fn put_on<K: Sink>(&self, sink: &mut K) -> Result<(), SinkFault> {
        (&self.0, (&self.1, &self.2)).put_on(sink)
    }
}

impl<A: Text, B: Text, C: Text, D: Text> Text for (A, B, C, D) {
    ghost text = { λ all. A.text all.0 ++ (B.text all.1 ++ (C.text all.2 ++ D.text all.3)) };

    fn put_on<K: Sink>(&self, sink: &mut K) -> Result<(), SinkFault> {
        (&self.0, (&self.1, &self.2, &self.3)).put_on(sink)
    }
}
