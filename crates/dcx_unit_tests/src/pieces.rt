//! A sink that keeps each piece that it is handed: a text is handed on to it rest by rest.
ghost use Rattle.std.specs.Prelude.{◌≡◌, ◌<◌, ℕ, ◌++◌, [], ◌∷◌, length, map, take, Some, OnOk, OnErr, IfOk, IfErr};
ghost use Rattle.std.specs.List.{flat_map};
ghost use Rattle.dcx_host.specs.Pieces.{AreRests};

use dcx_host::{Sink, SinkFault, write_all};
use dcx_shape::Bytes;
use std::alloc::Global;
use std::test::Fail;

/// A piece, and how many bytes of its front were taken.
#[derive(Drop)]
struct Kept {
    piece: Bytes,
    taken: usize,
}

/// Takes at most two bytes of each piece, and never answers `Failed`.
#[derive(Drop)]
struct TwoByTwo {
    alloc: Global,
    pieces: Vec<Kept>,
}

/// Keeps a piece, or nothing.
fn keep(
    alloc: Global,
    pieces: &mut Vec<Kept>,
    piece: &[u8],
    taken: usize,
) -> Result<usize, SinkFault>
    ensures ok { OnOk result (pieces.new.items ≡ pieces.old.items ++ record { piece = piece.now; taken = taken } ∷ []) }
    ensures err { OnErr result (pieces.new.items ≡ pieces.old.items) }
    ensures taken { IfOk result (λ n. n ≡ taken) }
    ensures memory { IfErr result (λ e. e ≡ SinkFault.Memory) }
{
    let Ok(bytes) = piece.to_vec(alloc) else {
        return Err(SinkFault::Memory);
    };
    let piece = Bytes::from_vec(bytes);
    match pieces.push(Kept { piece, taken }) {
        Ok(()) => Ok(taken),
        Err(_) => Err(SinkFault::Memory),
    }
}

impl Sink for TwoByTwo {
    ghost written = { λ s. Some (flat_map (λ k. take k.taken k.piece) s.pieces.items) };

    ghost faults = { λ _. 0 };

    ghost handed = { λ s. Some (map (λ k. record { piece = k.piece; taken = k.taken }) s.pieces.items) };

    fn write(&mut self, piece: &[u8]) -> Result<usize, SinkFault> {
        keep(self.alloc, &mut self.pieces, piece, piece.len().min(2))
    }
}

/// Writes a text to a sink without pieces. They are its rests then, and what was taken of them adds up to the text, or at a fault to a front of it.
fn hand(text: &[u8], sink: &mut TwoByTwo) -> Result<(), SinkFault>
    requires { sink.old.pieces.items ≡ [] }
    ensures ok { OnOk result (AreRests text.now 0 (map (λ k. record { piece = k.piece; taken = k.taken }) sink.new.pieces.items) (length text.now)) }
    ensures err { OnErr result ((n : ℕ) × (n < length text.now) × AreRests text.now 0 (map (λ k. record { piece = k.piece; taken = k.taken }) sink.new.pieces.items) n) }
{
    write_all(text, sink)
}

/// Whether this piece was handed, of which so many bytes were taken.
fn is(kept: &Kept, piece: &[u8], taken: usize) -> bool {
    kept.piece.as_slice() == piece && kept.taken == taken
}

#[test]
fn each_write_is_handed_the_rest(rt: HostRuntime) -> Result<(), Fail> {
    let mut sink = TwoByTwo {
        alloc: rt.alloc(),
        pieces: Vec::new(rt.alloc()),
    };
    hand(b"abcde", &mut sink)?;
    assert!(rt;
        matches!(
        sink.pieces.as_slice(),
        [a, b, c] if is(a, b"abcde", 2) && is(b, b"cde", 2) && is(c, b"e", 1)
    )
    );
    Ok(())
}
