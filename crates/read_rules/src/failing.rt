// What failed, and how that is told.
use std::io;

#[derive(Clone, Copy)]
pub enum Failure {
    // A file that cannot be read or stored.
    File {
        what: &'static str,
        error: io::Error,
    },
    // Standard output, where no more can be told.
    Output(io::Error),
}

impl From<io::Error> for Failure {
    fn from(error: io::Error) -> Failure {
        Failure::Output(error)
    }
}

pub fn failed(what: &'static str, error: io::Error) -> Failure {
    Failure::File { what, error }
}

// The system's words for an error; std's text has its number behind them.
fn words(error: &str) -> &str {
    error
        .split_once(" (os error ")
        .map_or(error, |(words, _)| words)
}

// A line on standard error: what failed, and the system's words for it.
pub fn tell<R: AllocGlobal + Eprint>(
    rt: &R,
    what: &'static str,
    error: io::Error,
) -> io::Result<()> {
    let error = error.to_string(rt.alloc())?;
    let words = words(error.as_str());
    eprintln!(rt; "{what}: {words}")
}
