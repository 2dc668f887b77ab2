//! The output streams of a process.

ghost use Rattle.std.specs.Prelude.{◌≡◌};
ghost use Rattle.oci_config.specs.Streams.{stream_of};

/// An output stream of a process.
#[derive(Clone, Copy, PartialEq, Eq, Debug)]
pub enum Stream {
    /// Standard output.
    Out,
    /// Standard error.
    Err,
}

impl Stream {
    /// The stream with a number (POSIX): 1 is standard output, 2 standard error. None for any other.
    pub fn from_number(number: u64) -> Option<Stream>
        ensures { result ≡ stream_of number }
    {
        match number {
            1 => Some(Stream::Out),
            2 => Some(Stream::Err),
            _ => None,
        }
    }
}
