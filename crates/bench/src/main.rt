// A reader with 64 zeroed pages and no chip on a line: packets come in by standard input, replies go out by standard output.
#![tactic(auto)]

mod bench;
mod failure;

ghost use Rattle.std.specs.Prelude.{◌≤◌, [], take, length, OnOk, OnErr, IfOk};
ghost use Rattle.std.specs.Io.KnownBytes.{Consumes};
ghost use Rattle.bench.specs.Talk.{Talked};

use bench::Bench;
use failure::Failure;
use protocol::numbers;
use std::io;
use std::io::{Read, Write};

// The bytes that are read at a time at most, as the boards hand them over.
const PIECE: usize = 60;

// Reads a piece once, and returns its bytes: 0 at the end of the input.
fn read<R: Read>(input: &mut R, piece: &mut [u8]) -> io::Result<usize>
    ensures fits { IfOk result (λ n. n ≤ length piece.old) }
    ensures taken { IfOk result (λ n. Consumes (R.remaining input.old) (R.remaining input.new) (take n piece.new)) }
    ensures failed { OnErr result (Consumes (R.remaining input.old) (R.remaining input.new) []) }
{
    input.read(piece)
}

// Reads and answers until the input ends: what it has written then are the replies to all that it has taken. A proved loop has to end,
// and nothing says that an input does, so the turns are counted up to a number that no run comes to.
fn talk<R: Read, W: Write>(input: &mut R, output: &mut W) -> Result<(), Failure>
    ensures { OnOk result (Talked (R.remaining input.old) (R.remaining input.new) (W.contents output.old) (W.contents output.new)) }
{
    let mut bench = Bench::new();
    let mut piece = [0u8; PIECE];
    let mut reply = [0u8; numbers::REPLY_ROOM];
    for _ in 0..u64::MAX {
        let n = read(input, &mut piece).map_err(Failure::Read)?;
        if n == 0 {
            return Ok(());
        }
        bench.answer(output, &piece[..n], &mut reply)?;
    }
    Ok(())
}

// A failure is told on standard error; the exit status is 0 all the same.
fn main(rt: HostRuntime) {
    if let Err(failure) = talk(&mut rt.stdin(), &mut rt.stdout()) {
        let _ = eprintln!(rt; "{failure}");
    }
}
