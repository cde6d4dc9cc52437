ghost use Rattle.std.specs.Prelude.{◌≡◌, ◌<◌, ◌≤◌, [], length, take, flat_map, IsOk, OnOk, OnErr, IfOk};
ghost use Rattle.gv_outside.specs.Count.{HasCause};
ghost use Rattle.gv_outside.specs.Sink.{SinkState, Takes, TakesPrefix};

use crate::files::Failed;

/// What takes bytes.
pub trait Sink {
    ghost state: { Self → SinkState };

    /// Takes some first bytes of a piece, and answers how many.
    fn put(&mut self, piece: &[u8]) -> Result<usize, Failed>
        ensures within { IfOk result (λ count. count ≤ length piece.now) }
        ensures progress { IfOk result (λ count. 0 < length piece.now → 0 < count) }
        ensures takes { IfOk result (λ count. Takes (state self.old) (take count piece.now) (state self.new)) }
        ensures err { OnErr result ((state self.new).written ≡ (state self.old).written) }
        ensures empty { piece.now ≡ [] → (result ≡ Ok 0) × (state self.new ≡ state self.old) }
        ensures cause { HasCause (state self.old).faults (state self.new).faults result };
}

/// Puts all bytes into a sink. Where there are none, no call is made.
pub fn put_all<S: Sink>(sink: &mut S, bytes: &[u8]) -> Result<(), Failed>
    ensures empty { bytes.now ≡ [] → IsOk result × (S.state sink.new ≡ S.state sink.old) }
    ensures ok { OnOk result (Takes (S.state sink.old) bytes.now (S.state sink.new)) }
    ensures err { OnErr result (TakesPrefix (S.state sink.old) bytes.now (S.state sink.new)) }
    ensures cause { HasCause (S.state sink.old).faults (S.state sink.new).faults result }
{
    let mut done = 0;
    while done < bytes.len() {
        done += sink.put(&bytes[done..])?;
    }
    Ok(())
}

/// Puts pieces into a sink, one behind the other. After a fault nothing more is put.
pub fn put_pieces<S: Sink>(sink: &mut S, pieces: &[&[u8]]) -> Result<(), Failed>
    ensures ok { OnOk result (Takes (S.state sink.old) (flat_map (λ piece. piece.now) pieces.now) (S.state sink.new)) }
    ensures err { OnErr result (TakesPrefix (S.state sink.old) (flat_map (λ piece. piece.now) pieces.now) (S.state sink.new)) }
    ensures cause { HasCause (S.state sink.old).faults (S.state sink.new).faults result }
{
    for piece in pieces {
        put_all(sink, piece)?;
    }
    Ok(())
}
