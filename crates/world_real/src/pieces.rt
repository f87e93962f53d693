ghost use Rattle.std.specs.Prelude.{◌≡◌, ◌≢◌, ◌≤◌, ℕ, IfOk, length};
ghost use Rattle.std.specs.Io.KnownBytes.{Appends, Consumes, IsAtEnd};
ghost use Rattle.world_io.specs.Stream.{FillCount, filled_bytes, PutCount, put_bytes};
ghost use Rattle.world_real.specs.Report.{CountsTaken};

use std::io::{self, ErrorKind, Read, Write};
use world_io::{Filled, Put};

/// Reads the next bytes into the piece, from its first byte on. A read that moves nothing is the
/// end, unless the piece is empty.
pub fn read_some<F: Read>(from: &mut F, piece: &mut [u8]) -> Filled
    ensures count { FillCount result (length piece.old) }
    ensures takes { Consumes (F.remaining from.old) (F.remaining from.new)
        (filled_bytes result piece.new) }
    ensures end { result ≡ Filled.End → IsAtEnd (F.remaining from.old) }
{
    match from.read(piece) {
        Ok(0) if !piece.is_empty() => Filled::End,
        Ok(count) => Filled::Got(count),
        Err(_) => Filled::Failed,
    }
}

/// Writes the first bytes of the piece. A write that moves nothing is a fault, unless the piece is
/// empty.
pub fn write_some<F: Write>(to: &mut F, piece: &[u8]) -> Put
    ensures count { PutCount result (length piece.now) }
    ensures appends { Appends (F.contents to.old) (F.contents to.new) (put_bytes result piece.now) }
    ensures memory { result ≢ Put.NoMemory }
{
    match to.write(piece) {
        Ok(0) if !piece.is_empty() => Put::Failed,
        Ok(count) => Put::Took(count),
        Err(_) => Put::Failed,
    }
}

/// What a write of a piece of the report, which has so many bytes, counts as. Where its pipe is closed nobody reads the
/// report: the piece counts as taken, though nothing of it was written.
pub fn count_report(written: io::Result<usize>, length: usize) -> Put
    requires { IfOk written (λ count. count ≤ length) }
    ensures count { PutCount result length }
    ensures taken { (n : ℕ) → result ≡ Put.Took n → CountsTaken written length n }
    ensures memory { result ≢ Put.NoMemory }
{
    match written {
        Ok(0) if length > 0 => Put::Failed,
        Ok(count) => Put::Took(count),
        Err(error) => match error.kind() {
            ErrorKind::BrokenPipe => Put::Took(length),
            _ => Put::Failed,
        },
    }
}
