// Lines out of a reader, whatever the reads cut it into.
use crate::command::LONGEST_LINE;
use std::alloc::Global;
use std::io::{self, BufRead, BufReader, Read};

// How many octets are read at once.
const BUFFER_ROOM: usize = 4096;

// The longest line with its CR and LF, and one octet more, by which a line that is too long is told.
const KEPT: usize = LONGEST_LINE + 3;

// A source that has ended, or that can't be read, gives nothing any more.
#[derive(Drop)]
struct Fused<R> {
    source: R,
    ended: bool,
}

impl<R: Read> Read for Fused<R> {
    fn read(&mut self, octets: &mut [u8]) -> io::Result<usize> {
        if self.ended {
            return Ok(0);
        }
        let count = self.source.read(octets).unwrap_or(0);
        self.ended = count == 0;
        Ok(count)
    }
}

#[derive(Drop)]
pub struct Lines<R> {
    reader: BufReader<Fused<R>>,
    line: Vec<u8>,
}

impl<R: Read + Drop> Lines<R> {
    pub fn new(alloc: Global, source: R) -> io::Result<Lines<R>> {
        let source = Fused {
            source,
            ended: false,
        };
        Ok(Lines {
            reader: BufReader::with_capacity(alloc, BUFFER_ROOM, source)?,
            line: Vec::with_capacity(alloc, KEPT)?,
        })
    }

    // Whether the next line is found without waiting.
    pub fn is_at_hand(&self) -> bool {
        self.reader.buffer().contains(&b'\n')
    }

    // The next line without its LF and one CR before that, or none at the end of the input. Of a line that is too long only so much is kept
    // that it still is.
    pub fn next(&mut self) -> io::Result<Option<&[u8]>> {
        self.line.clear();
        let mut kept = self.reader.by_ref().take(KEPT as u64);
        if kept.read_until(b'\n', &mut self.line)? == 0 {
            return Ok(None);
        }
        if self.line.len() == KEPT && self.line.last() != Some(&b'\n') {
            self.reader.skip_until(b'\n')?;
        }
        Ok(Some(without_end(self.line.as_slice())))
    }
}

// A last line may lack its LF, and then keeps its CR.
fn without_end(line: &[u8]) -> &[u8] {
    match line {
        [line @ .., b'\r', b'\n'] | [line @ .., b'\n'] => line,
        line => line,
    }
}
