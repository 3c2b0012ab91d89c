// Lines in, one after the other, and replies out.
use crate::bench::Bench;
use crate::error::LineError;
use script::lines::Lines;
use script::words::MOST_OCTETS;
use std::alloc::Global;
use std::io::{self, BufWriter, Read, Write};

// How many octets of the replies are held.
const BUFFER_ROOM: usize = 4096;

// Fails where there is no memory for lines and replies, or where replies cannot be written.
pub(crate) fn run<R: Read + Drop, W: Write + Drop>(
    alloc: Global,
    source: R,
    replies: W,
    echoing: bool,
) -> io::Result<()> {
    let mut lines = Lines::new(alloc, source)?;
    let mut out = BufWriter::with_capacity(alloc, BUFFER_ROOM, replies)?;
    let mut bench = Bench::new(echoing);
    let mut octets = [0; MOST_OCTETS];
    for number in 1..u64::MAX {
        // Replies are written out before a line is waited for.
        if !lines.is_at_hand() {
            out.flush()?;
        }
        let Some(line) = lines.next()? else {
            break;
        };
        match bench.answer(line, &mut octets, &mut out) {
            Ok(()) => {}
            Err(LineError::Bad) => writeln!(out, "bad line {number}")?,
            Err(LineError::Refused(why)) => writeln!(out, "refused {why}")?,
            Err(LineError::Unwritten(error)) => return Err(error),
        }
    }
    out.flush()
}
