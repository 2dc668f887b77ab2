//! What is told of refused requests.

use anyhow::{Context, Result, bail};
use reasons::{Contents, why_request};
use std::alloc::{AllocError, Global};
use wasm_ast::{Place, Refusal};

/// A content, under every digest.
#[derive(Drop)]
struct One {
    bytes: Option<Vec<u8>>,
}

impl Contents for One {
    fn bytes_under(&self, alloc: Global, _digest: &str) -> Result<Option<Vec<u8>>, AllocError> {
        match &self.bytes {
            Some(bytes) => {
                let mut copied = Vec::new(alloc);
                copied.extend_from_slice(bytes.as_slice())?;
                Ok(Some(copied))
            }
            None => Ok(None),
        }
    }
}

/// The refusals without a place, each at its number less 1; `NoMemory` in place of those that have one.
const PLAIN: &[Refusal] = &[
    Refusal::BadRequest,
    Refusal::BadId,
    Refusal::Exists,
    Refusal::NotFound,
    Refusal::NoContent,
    Refusal::InUse,
    Refusal::BadModule,
    Refusal::Invalid(None),
    Refusal::Limit,
    Refusal::BadConfig,
    Refusal::WrongStatus,
    Refusal::Busy,
    Refusal::OutOfRange,
    Refusal::TooMany,
    Refusal::JournalFull,
    Refusal::DigestConflict,
    Refusal::NoMemory,
    Refusal::NoMemory,
    Refusal::Closed,
    Refusal::JournalFault,
    Refusal::NoEntry,
    Refusal::BadImport,
    Refusal::SegmentOutOfBounds,
];

/// What a row says of a refusal.
#[derive(Drop)]
struct Row {
    number: u64,
    place: Option<(u64, u64)>,
    content: Option<Vec<u8>>,
}

// A number of a row.
fn number_of(word: Option<&str>) -> Result<u64> {
    match word.context("a number")?.parse::<u64>() {
        Ok(number) => Ok(number),
        Err(_) => bail!("a number"),
    }
}

// The words after `refused`: the number, and perhaps `at A B` and `content HEX`.
fn row_of(alloc: Global, written: &str) -> Result<Row> {
    let mut words = written.split_whitespace();
    let mut row = Row {
        number: number_of(words.next())?,
        place: None,
        content: None,
    };
    for _ in 0..2 {
        match words.next() {
            Some("at") => {
                let first = number_of(words.next())?;
                row.place = Some((first, number_of(words.next())?));
            }
            Some("content") => match hex::decode(alloc, words.next().context("digits")?) {
                Ok(bytes) => row.content = Some(bytes),
                Err(_) => bail!("digits"),
            },
            Some(_) => bail!("a word"),
            None => {}
        }
    }
    Ok(row)
}

// The refusal of a row.
fn refusal_of(row: &Row) -> Result<Refusal> {
    match (row.number, row.place) {
        (18, Some((line, column))) => Ok(Refusal::BadText { line, column }),
        (8, Some((func, instr))) => {
            let func = u32::try_from(func)?;
            let instr = u32::try_from(instr)?;
            Ok(Refusal::Invalid(Some(Place { func, instr })))
        }
        (number, _) => match PLAIN.get(usize::try_from(number)?.saturating_sub(1)) {
            Some(refusal) => Ok(*refusal),
            None => bail!("a number of no refusal"),
        },
    }
}

/// The number of a refusal and the reason that is told of the request of a line, for a row of these words.
pub fn refused_told(alloc: Global, written: &str, line: &[u8]) -> Result<(String, String)> {
    let row = row_of(alloc, written)?;
    let refusal = refusal_of(&row)?;
    let contents = One { bytes: row.content };
    let reason = why_request(alloc, Some(line), refusal, &contents)?;
    if reason.as_str().contains('\n') {
        bail!("a reason of two lines");
    }
    Ok((String::from_str(alloc, refusal.name())?, reason))
}
