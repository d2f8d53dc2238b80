// Where text is put.
ghost use Rattle.std.specs.Prelude.{◌≡◌, ◌≤◌, ◌<◌, ℕ, List, length, take, IfOk, OnErr, IsErr};
ghost use Rattle.std.specs.declared.option.Option.{Option};
ghost use Rattle.sq_edge.specs.Edge.{and_then_bytes, Rose};

/// The sink failed and took nothing. The count of faults rose.
#[derive(Clone, Copy, Debug, PartialEq, Eq)]
pub struct SinkFault;

/// Where text goes.
/// A count that stands at the end of `u64` stays there, and a call that fails counts as one in which it rose.
pub trait Sink {
    /// The bytes that it holds, where the sink tells them.
    ghost bytes: { Self → Option (List ℕ) };

    /// How often a call has failed, or has taken nothing of a piece that is not empty.
    ghost faults: { Self → ℕ };

    /// Takes bytes from the front of the piece, and answers how many.
    fn put(&mut self, piece: &[u8]) -> Result<usize, SinkFault>
        ensures within { IfOk result (λ n. n ≤ length piece.now) }
        ensures took { IfOk result (λ n. bytes self.new
            ≡ and_then_bytes (bytes self.old) (take n piece.now)) }
        ensures err { OnErr result (bytes self.new ≡ bytes self.old) }
        ensures later { faults self.old ≤ faults self.new }
        ensures failed { IsErr result → Rose (faults self.old) (faults self.new) }
        ensures none { IfOk result (λ n. n ≡ 0 → 0 < length piece.now
            → Rose (faults self.old) (faults self.new)) };
}
