// Draws row 0 of a 4 by 1 frame, with a limit of 64 words and no graphics memory, from the list on standard input, and
// prints the answer and the row.
#![tactic(auto)]

ghost use Rattle.std.specs.Io.{ReadsAtMost};
ghost use Rattle.rowshow.specs.Show.{Shows};

use std::io;
use std::io::{Read, Write};
use text::{Row, Shown, Text};

mod text;

fn show(list: &[u8]) -> Text
    ensures { Shows list.now result.items }
{
    let mut picture = [0u8; 12];
    let mut tags = [0u8; 4];
    let answer = jokulvisp::jv_paint_row(list, b"", 4, 1, 0, 64, &mut picture, &mut tags);
    let shown = Shown {
        answer,
        row: Row { picture, tags },
    };
    shown.text()
}

// Reads until the run is full or the input ends. Each read asks for all of what is left, and one that is interrupted is a
// read that fails; std's `copy` would ask for less, and read again.
fn read_full(input: &mut impl Read, run: &mut [u8]) -> io::Result<usize>
    ensures { ReadsAtMost result run.new }
{
    let mut length = 0;
    while length < run.len() {
        let count = input.read(&mut run[length..])?;
        if count == 0 {
            break;
        }
        length += count;
    }
    Ok(length)
}

// One byte more than the longest list has, so that a list too long is refused as jv_paint_row refuses it.
const MOST_BYTES: usize = 8193;

// `show` is proved. Of `main` no contract speaks: what it reads and writes is run and compared, on this crate's stdin
// and stdout and by tests/rowshow. A read or a write that fails ends the program with its error.
fn main(rt: HostRuntime) -> io::Result<()> {
    let mut list = [0u8; MOST_BYTES];
    let length = read_full(&mut rt.stdin(), &mut list)?;
    let text = show(&list[..length]);
    rt.stdout().write_all(&text)
}
