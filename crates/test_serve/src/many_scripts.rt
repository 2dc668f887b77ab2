//! `serve` with many scripts: each is answered, in the order of the scripts.

use crate::serving::{OutputPage, Page, Told, check_text, empty_text, served};
use serve_command::Work;
use std::alloc::{AllocError, Global};
use std::test::Fail;
use test_streams::{ChunkedReader, FailingWriter};

/// How many scripts there are.
const MANY: usize = 130;

// The name of a script.
fn name(alloc: Global, number: usize) -> Result<String, AllocError> {
    format!(in alloc; "s{number}")
}

// A script with a text after this number of spaces.
fn script(alloc: Global, number: usize) -> Result<ChunkedReader<'static>, AllocError> {
    let spaces = " ".repeat(alloc, number)?;
    let line = format!(in alloc;
        "{{\"op\":\"put_text\",\"text\":\"{spaces}(module (type (func)) (func (type 0) i32.cons 1))\"}}\n"
    )?;
    Ok(ChunkedReader::new(line.into_bytes().leak()))
}

// Adds what the script is answered: without spaces the fault is in column 38.
fn add_answer(alloc: Global, answers: &mut String, number: usize) -> Result<(), AllocError> {
    let column = number.wrapping_add(38);
    let answer = format!(in alloc;
        "{{\"column\":{column},\"error\":\"BadText\",\"line\":1,\"number\":18,\"ok\":false}}\n"
    )?;
    answers.push_str(answer.as_str())
}

// The names of all scripts.
fn all_names(alloc: Global) -> Result<&'static [String], AllocError> {
    let mut names = Vec::new(alloc);
    for number in 0..MANY {
        names.push(name(alloc, number)?)?;
    }
    Ok(names.leak())
}

// The readers of all scripts.
fn all_scripts(alloc: Global) -> Result<Vec<ChunkedReader<'static>>, AllocError> {
    let mut readers = Vec::new(alloc);
    for number in 0..MANY {
        readers.push(script(alloc, number)?)?;
    }
    Ok(readers)
}

// The answers to all scripts, in their order.
fn all_answers(alloc: Global) -> Result<String, AllocError> {
    let mut answers = String::new(alloc);
    for number in 0..MANY {
        add_answer(alloc, &mut answers, number)?;
    }
    Ok(answers)
}

#[test]
fn each_of_many_scripts_is_answered(rt: HostRuntime) -> Result<(), Fail> {
    let alloc = rt.alloc();
    let (text, said) = (empty_text(alloc)?, empty_text(alloc)?);
    let page = Page { rt, alloc, text };
    let work: Work<ChunkedReader<'static>, FailingWriter, OutputPage<HostRuntime>> = Work::Scripts(
        all_names(alloc)?,
        all_scripts(alloc)?,
        OutputPage { page },
    );
    assert_eq!(rt; served(rt, alloc, said, Told::Nothing, work), 0);
    check_text(rt, said, "");
    check_text(rt, text, all_answers(alloc)?.as_str());
    Ok(())
}
