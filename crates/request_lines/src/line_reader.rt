//! Lines as they are read.

ghost use Rattle.std.specs.Prelude.{◌≡◌, ◌≢◌, ◌↔◌, ◌==◌, ◌<◌, ◌≤◌, ◌++◌, [], List, ℕ, Some, None, Ok, Err, false, true, IfOk, OnOk, IsTrue, length, drop, option_map, ◌∷◌};
ghost use Rattle.std.specs.List.{list_any};
ghost use Rattle.std.specs.Io.KnownBytes.{Consumes, Keeps, IsAtEnd, prepend_known};
ghost use Rattle.request_lines.specs.Input.{IsKept, KnowsEnd, TakesLine, TakesPart, chunk_bytes, still_to_read};
ghost use Rattle.request_lines.specs.Inside.Pieces.{TakesPiece, ReadsPiece};

use crate::members::MAX_LINE_BYTES;
use crate::stream::{Source, StreamFailed};
use std::alloc::{AllocError, Global};
use std::marker::Model;

/// Bytes that are asked of a reader at a time.
const CHUNK_BYTES: usize = 16_384;

/// Why no line could be read.
#[derive(Clone, Copy, PartialEq, Eq, Debug)]
pub enum Stop {
    /// The reader failed.
    Stream,
    /// Memory ran out.
    OutOfMemory,
}

impl From<AllocError> for Stop {
    ghost use Rattle.std.specs.Prelude.{◌≡◌};
    ghost use Rattle.request_lines.specs.declared.line_reader.Stop.TheVariants.{OutOfMemory};

    ghost from_gives = { λ _ stop. stop ≡ OutOfMemory };

    fn from(_error: AllocError) -> Stop {
        Stop::OutOfMemory
    }
}

impl From<StreamFailed> for Stop {
    ghost use Rattle.std.specs.Prelude.{◌≡◌};
    ghost use Rattle.request_lines.specs.declared.line_reader.Stop.TheVariants.{Stream};

    ghost from_gives = { λ _ stop. stop ≡ Stream };

    fn from(_error: StreamFailed) -> Stop {
        Stop::Stream
    }
}

/// Bytes that were read and not yet used. Contracts see these.
#[derive(Drop)]
pub struct Chunk {
    buffer: Vec<u8>,
    start: usize,
    end: usize,
}

impl Model for Chunk {
    ghost use Rattle.std.specs.Prelude.{List, ℕ, take, drop, vec_len, ◌-◌, ◌≤◌, ◌≡◌};
    ghost use Rattle.request_lines.specs.Input.{chunk_bytes};

    ghost Value = { List ℕ };

    ghost view = { λ c. take (c.end - c.start) (drop c.start c.buffer.items) };

    ghost invariant = { λ c. (c.start ≤ c.end) × (c.end ≤ vec_len c.buffer)
        × (vec_len c.buffer ≡ chunk_bytes) };
}

impl Chunk {
    /// An empty chunk with its memory.
    pub fn new(alloc: Global) -> Result<Chunk, AllocError>
        ensures { IfOk result (λ c. c ≡ []) }
    {
        let buffer = vec![in alloc; 0u8; CHUNK_BYTES]?;
        Ok(Chunk {
            buffer,
            start: 0,
            end: 0,
        })
    }

    fn bytes(&self) -> &[u8]
        ensures { result.now ≡ self.now }
    {
        &self.buffer[self.start..self.end]
    }

    /// Drops the first n bytes.
    fn skip(&mut self, n: usize)
        requires { n ≤ length self.old }
        ensures { self.new ≡ drop n self.old }
    {
        self.start += n;
    }
}

impl Chunk {
    /// Reads the next bytes if none are left; false if there are none to read.
    fn refill<R: Source>(&mut self, reader: &mut R) -> Result<bool, Stop>
        ensures bytes { OnOk result (Keeps (prepend_known self.old (R.remaining reader.old))
            (prepend_known self.new (R.remaining reader.new))) }
        ensures some { result ≡ Ok true → self.new ≢ [] }
        ensures end { result ≡ Ok false
            → IsAtEnd (prepend_known self.new (R.remaining reader.new)) }
        ensures failed { result ≡ Err Stop.Stream → R.has_failed reader.new }
        ensures fault { result ≡ Err Stop.Stream
            → Keeps (prepend_known self.old (R.remaining reader.old)) (R.remaining reader.new) }
        ensures left { OnOk result (still_to_read (R.reads_left reader.new) self.new
            ≤ still_to_read (R.reads_left reader.old) self.old) }
        ensures less { result ≡ Ok false → still_to_read (R.reads_left reader.new) self.new
            < still_to_read (R.reads_left reader.old) self.old }
    {
        if !self.bytes().is_empty() {
            return Ok(true);
        }
        self.start = 0;
        self.end = 0;
        let count = reader.read(&mut self.buffer)?;
        self.end = count;
        Ok(count > 0)
    }
}

/// A line as far as it is read. Contracts see its bytes, or none if it is too long; then none are kept, so
/// that no line takes more memory than the limit.
#[derive(Drop)]
pub struct Line {
    kept: Vec<u8>,
    is_long: bool,
}

impl Model for Line {
    ghost use Rattle.std.specs.Prelude.{List, ℕ, Option, Some, None, ◌≤◌, vec_len, if◌then◌else◌};
    ghost use Rattle.request_lines.specs.Shape.{max_line_bytes};

    ghost Value = { Option (List ℕ) };

    ghost view = { λ l. if l.is_long then None else Some l.kept.items };

    ghost invariant = { λ l. vec_len l.kept ≤ max_line_bytes };
}

impl Line {
    /// An empty line, with room for the longest.
    pub fn new(alloc: Global) -> Result<Line, AllocError>
        ensures { IfOk result (λ l. l ≡ Some []) }
    {
        Ok(Line {
            kept: Vec::with_capacity(alloc, MAX_LINE_BYTES)?,
            is_long: false,
        })
    }

    /// The bytes, or none if the line is too long.
    pub fn bytes(&self) -> Option<&[u8]>
        ensures { option_map (λ b. b.now) result ≡ self.now }
    {
        if self.is_long {
            None
        } else {
            Some(self.kept.as_slice())
        }
    }

    fn clear(&mut self)
        ensures { self.new ≡ Some [] }
    {
        self.kept.clear();
        self.is_long = false;
    }

    fn is_empty(&self) -> bool
        ensures { IsTrue result ↔ (self.now ≡ Some []) }
    {
        !self.is_long && self.kept.is_empty()
    }

    /// Adds what was read.
    fn add(&mut self, piece: &[u8]) -> Result<(), AllocError>
        ensures { OnOk result
            ((line : List ℕ) → IsKept self.old line → IsKept self.new (line ++ piece.now)) }
    {
        if self.is_long || MAX_LINE_BYTES - self.kept.len() < piece.len() {
            self.is_long = true;
            return Ok(());
        }
        self.kept.extend_from_slice(piece)
    }
}

/// Moves what is there of a line from the bytes to it, and says whether its line feed was found.
fn take_piece(chunk: &mut Chunk, line: &mut Line) -> Result<bool, AllocError>
    ensures { IfOk result (λ found. (piece : List ℕ) × TakesPiece found chunk.old chunk.new piece
        × ((before : List ℕ) → IsKept line.old before → IsKept line.new (before ++ piece))) }
{
    let bytes = chunk.bytes();
    match memchr::memchr(b'\n', bytes) {
        Some(end) => {
            line.add(&bytes[..end])?;
            chunk.skip(end + 1);
            Ok(true)
        }
        None => {
            let n = bytes.len();
            line.add(bytes)?;
            chunk.skip(n);
            Ok(false)
        }
    }
}

/// How far the line is read.
#[derive(Clone, Copy, PartialEq, Eq, Debug)]
pub(crate) enum Progress {
    /// Its line feed was found.
    Found,
    /// It goes on.
    More,
    /// The reader is at its end.
    End,
}

/// Moves a piece of a line from the reader to the line.
fn read_piece<R: Source>(
    chunk: &mut Chunk,
    line: &mut Line,
    reader: &mut R,
) -> Result<Progress, Stop>
    ensures bytes { IfOk result
        (λ p. ReadsPiece p (prepend_known chunk.old (R.remaining reader.old))
        (prepend_known chunk.new (R.remaining reader.new))
        line.old line.new) }
    ensures failed { result ≡ Err Stop.Stream → R.has_failed reader.new }
    ensures fault { result ≡ Err Stop.Stream
        → Keeps (prepend_known chunk.old (R.remaining reader.old)) (R.remaining reader.new) }
    ensures less { OnOk result (still_to_read (R.reads_left reader.new) chunk.new
        < still_to_read (R.reads_left reader.old) chunk.old) }
{
    if !chunk.refill(reader)? {
        return Ok(Progress::End);
    }
    if take_piece(chunk, line)? {
        Ok(Progress::Found)
    } else {
        Ok(Progress::More)
    }
}

/// Reads the next line, and says whether its line feed was found. If not, the reader is at its end, and what
/// there is of a line is the last one.
fn next_line<R: Source>(chunk: &mut Chunk, line: &mut Line, reader: &mut R) -> Result<bool, Stop>
    ensures found { result ≡ Ok true → (text : List ℕ) × IsKept line.new text
        × TakesLine (prepend_known chunk.old (R.remaining reader.old))
        (prepend_known chunk.new (R.remaining reader.new)) text
        × Consumes (prepend_known chunk.old (R.remaining reader.old))
        (prepend_known chunk.new (R.remaining reader.new)) (text ++ 10 ∷ []) }
    ensures last { result ≡ Ok false → line.new ≢ Some []
        → (text : List ℕ) × IsKept line.new text
        × TakesLine (prepend_known chunk.old (R.remaining reader.old))
        (prepend_known chunk.new (R.remaining reader.new)) text }
    ensures none { result ≡ Ok false → line.new ≡ Some []
        → IsAtEnd (prepend_known chunk.old (R.remaining reader.old)) }
    ensures end { result ≡ Ok false → IsAtEnd (prepend_known chunk.new (R.remaining reader.new)) }
    ensures failed { result ≡ Err Stop.Stream → R.has_failed reader.new }
    ensures fault { result ≡ Err Stop.Stream
        → TakesPart (prepend_known chunk.old (R.remaining reader.old)) (R.remaining reader.new) }
    ensures less { OnOk result (still_to_read (R.reads_left reader.new) chunk.new
        < still_to_read (R.reads_left reader.old) chunk.old) }
{
    line.clear();
    loop {
        match read_piece(chunk, line, reader)? {
            Progress::Found => return Ok(true),
            Progress::More => {}
            Progress::End => return Ok(false),
        }
    }
}

/// Reads lines, one after another. Once its source has answered its end, that is asked for nothing more.
#[derive(Drop)]
pub struct LineReader {
    chunk: Chunk,
    line: Line,
    at_end: bool,
}

impl LineReader {
    /// It has read nothing. All memory that lines need is taken here: an error only if there is not enough.
    pub fn new(alloc: Global) -> Result<LineReader, AllocError>
        ensures { IfOk result (λ r. (r.chunk ≡ []) × (r.at_end ≡ false)) }
    {
        Ok(LineReader {
            chunk: Chunk::new(alloc)?,
            line: Line::new(alloc)?,
            at_end: false,
        })
    }

    /// The bytes of the line that was read last. None if it is too long.
    pub fn bytes(&self) -> Option<&[u8]>
        ensures { option_map (λ b. b.now) result ≡ self.now.line }
    {
        self.line.bytes()
    }

    /// Whether the line feed of the next line has been read, so that `next` will not ask the source.
    pub fn has_line(&self) -> bool
        ensures { result ≡ list_any (λ b. b == 10) self.now.chunk }
    {
        self.chunk.bytes().contains(&b'\n')
    }

    /// Reads the next line; false if there is none. `Stream` only if the source has failed: what was read
    /// since the last line has no line feed then. A line comes without its line feed only at the end of the
    /// source. After that end none comes, and the source is asked for nothing more.
    pub fn next<R: Source>(&mut self, reader: &mut R) -> Result<bool, Stop>
        requires { KnowsEnd self.old.at_end
            (prepend_known self.old.chunk (R.remaining reader.old)) }
        ensures line { result ≡ Ok true → (text : List ℕ) × IsKept self.new.line text
            × TakesLine (prepend_known self.old.chunk (R.remaining reader.old))
            (prepend_known self.new.chunk (R.remaining reader.new)) text
            × (self.new.at_end ≡ false
            → Consumes (prepend_known self.old.chunk (R.remaining reader.old))
            (prepend_known self.new.chunk (R.remaining reader.new)) (text ++ 10 ∷ [])) }
        ensures goes_on { result ≡ Ok true → self.old.at_end ≡ false }
        ensures over { self.old.at_end ≡ true → reader.new ≡ reader.old }
        ensures end { result ≡ Ok false
            → IsAtEnd (prepend_known self.old.chunk (R.remaining reader.old)) }
        ensures ends { OnOk result (KnowsEnd self.new.at_end
            (prepend_known self.new.chunk (R.remaining reader.new))) }
        ensures failed { result ≡ Err Stop.Stream → R.has_failed reader.new }
        ensures fault { result ≡ Err Stop.Stream → (self.old.at_end ≡ false)
            × TakesPart (prepend_known self.old.chunk (R.remaining reader.old))
            (R.remaining reader.new) }
        ensures less { result ≡ Ok true → still_to_read (R.reads_left reader.new) self.new.chunk
            < still_to_read (R.reads_left reader.old) self.old.chunk }
    {
        if self.at_end {
            return Ok(false);
        }
        if next_line(&mut self.chunk, &mut self.line, reader)? {
            return Ok(true);
        }
        self.at_end = true;
        Ok(!self.line.is_empty())
    }
}
