//! Bytes that are no text, which no row can hold.

use crate::checks::check_text;
use file_commands::replay_lines;
use oci_config::read_config;
use std::str::from_utf8;
use std::test::Fail;
use wasm_ast::Refusal;

/// Bytes that begin no character, one inside a text, half of a surrogate pair and a NUL in two bytes; after
/// each a request.
const NOT_TEXT: &[u8] = b"\xff\xfe
{\"op\":\"state\",\"id\":\"zz\"}
{\"op\":\"state\",\"id\":\"\xff\"}
{\"op\":\"state\",\"id\":\"zz\"}
{\"op\":\"state\",\"id\":\"\xed\xa0\x80\"}
{\"op\":\"state\",\"id\":\"zz\"}
{\"op\":\"state\",\"id\":\"\xc0\x80\"}
{\"op\":\"state\",\"id\":\"zz\"}
";

/// What they are answered.
const NOT_TEXT_ANSWERS: &str = r#"{"error":"BadRequest","number":1,"ok":false}
{"error":"NotFound","number":4,"ok":false}
{"error":"BadRequest","number":1,"ok":false}
{"error":"NotFound","number":4,"ok":false}
{"error":"BadRequest","number":1,"ok":false}
{"error":"NotFound","number":4,"ok":false}
{"error":"BadRequest","number":1,"ok":false}
{"error":"NotFound","number":4,"ok":false}
"#;

#[test]
fn bytes_that_are_no_text_are_no_requests(rt: HostRuntime) -> Result<(), Fail> {
    let answers = replay_lines(rt.alloc(), NOT_TEXT)?;
    let answers = from_utf8(answers.as_slice())?;
    check_text(&rt, "the answers", answers, NOT_TEXT_ANSWERS);
    Ok(())
}

#[test]
fn bytes_that_are_no_text_are_no_config(rt: HostRuntime) -> Result<(), Fail> {
    let refused = read_config(rt.alloc(), b"{\"ociVersion\":\"1.\xff\"}");
    assert!(rt; matches!(refused, Err(Refusal::BadConfig)));
    Ok(())
}
