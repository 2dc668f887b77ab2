//! Lines and their answers, which many tests share.

use std::alloc::{AllocError, Global};

/// Stores a module whose entry calls `proc_exit` with 7; creates a task, waits for it, ends and deletes it
/// before it has run; and a line that is no request.
pub const SIX_LINES: &str =
    r#"{"op":"put","hex":"0061736d0100000001080260017f0060000002240116776173695f736e617073686f745f70726576696577310970726f635f65786974000003020101070a01065f737461727400010a08010600410710000b"}
{"op":"create","id":"a","config":"{\"ociVersion\":\"1.0.2\",\"process\":{\"args\":[\"a\"],\"cwd\":\"/\"},\"annotations\":{\"dev.shim.module\":\"sha256:2194f0d23626e6104d4a7a891350fbd0e82a54a29dd596a672d41474e9b6ee0a\"}}"}
{"op":"wait","id":"a"}
{}
{"op":"kill","id":"a","signal":9}
{"op":"delete","id":"a"}
"#;

/// What they are answered.
pub const SIX_ANSWERS: &str =
    r#"{"digest":"sha256:2194f0d23626e6104d4a7a891350fbd0e82a54a29dd596a672d41474e9b6ee0a","ok":true,"size":82}
{"id":"a","ok":true,"status":"created"}
{"id":"a","n":0,"ok":true,"status":"created"}
{"error":"BadRequest","number":1,"ok":false}
{"id":"a","ok":true,"status":"stopped"}
{"cause":"kill","exit":137,"id":"a","n":0,"ok":true,"signal":9,"status":"stopped"}
"#;

/// Stores a module whose entry makes 24,002 turns and exits with 7, creates the tasks `a` and `b`
/// of it, starts both and waits for both; with a line between that is no request. The caller may
/// run a first slice of each, and workers the rest.
pub const RUN_LINES: &str =
    r#"{"op":"put","hex":"0061736d0100000001080260017f0060000002240116776173695f736e617073686f745f70726576696577310970726f635f65786974000003020101070a01065f737461727400010a1a011801017f0340200041016a220041b817490d000b410710000b"}
{"op":"create","id":"a","config":"{\"ociVersion\":\"1.0.2\",\"process\":{\"args\":[\"a\"],\"cwd\":\"/\"},\"annotations\":{\"dev.shim.module\":\"sha256:fa76229e32d9d57d26199a7ff36258690908fe7df8763ab6adeae95bc78c6382\"}}"}
{"op":"create","id":"b","config":"{\"ociVersion\":\"1.0.2\",\"process\":{\"args\":[\"a\"],\"cwd\":\"/\"},\"annotations\":{\"dev.shim.module\":\"sha256:fa76229e32d9d57d26199a7ff36258690908fe7df8763ab6adeae95bc78c6382\"}}"}
{"op":"start","id":"a"}
{"op":"start","id":"b"}
{}
{"op":"wait","id":"a"}
{"op":"wait","id":"b"}
{"op":"state","id":"a"}
"#;

/// What they are answered, if workers run the tasks.
pub const RUN_ANSWERS: &str =
    r#"{"digest":"sha256:fa76229e32d9d57d26199a7ff36258690908fe7df8763ab6adeae95bc78c6382","ok":true,"size":100}
{"id":"a","ok":true,"status":"created"}
{"id":"b","ok":true,"status":"created"}
{"id":"a","ok":true,"status":"running"}
{"id":"b","ok":true,"status":"running"}
{"error":"BadRequest","number":1,"ok":false}
{"cause":"exit","exit":7,"id":"a","n":24002,"ok":true,"status":"stopped"}
{"cause":"exit","exit":7,"id":"b","n":24002,"ok":true,"status":"stopped"}
{"cause":"exit","exit":7,"id":"a","n":24002,"ok":true,"status":"stopped"}
"#;

/// Stores a module whose entry returns after 2,400,002 turns, creates the task `a` of it and starts that.
pub const LONG_LINES: &str =
    r#"{"op":"put","hex":"0061736d0100000001040160000003020100070a01065f737461727400000a18011601017f4180b51821000340200041016b22000d000b0b"}
{"op":"create","id":"a","config":"{\"ociVersion\":\"1.0.2\",\"process\":{\"args\":[\"a\"],\"cwd\":\"/\"},\"annotations\":{\"dev.shim.module\":\"sha256:25937b564006ad6cd5a7d340e6c73e757b514cb1f00fdfe18760ece186b85f95\"}}"}
{"op":"start","id":"a"}
"#;

/// Stores a module whose entry writes the first 65,536 bytes of its memory, and runs a task of it.
const OUTPUT_RUN_LINES: &str =
    r#"{"op":"put","hex":"0061736d01000000010c0260047f7f7f7f017f60000002230116776173695f736e617073686f745f70726576696577310866645f77726974650000030201010503010002071302065f73746172740001066d656d6f727902000a0f010d00410141004101410810001a0b0b0e010041000b080000000000000100"}
{"op":"create","id":"a","config":"{\"ociVersion\":\"1.0.2\",\"process\":{\"args\":[\"a\"],\"cwd\":\"/\"},\"annotations\":{\"dev.shim.module\":\"sha256:f3fa7b3ab518be327da65a6f635503d4f6753eff1463df7ce2fe3f3b3b03695a\"}}"}
{"op":"start","id":"a"}
{"op":"wait","id":"a"}
"#;

/// Asks for what it has written. The reply has two digits for each byte.
const OUTPUT_LINE: &str = "{\"op\":\"output\",\"id\":\"a\",\"stream\":1}\n";

/// A request for a task that is not there.
pub const STATE: &str = r#"{"op":"state","id":"zz"}"#;

pub const BAD_REQUEST_LINE: &str = "{\"error\":\"BadRequest\",\"number\":1,\"ok\":false}\n";

pub const BAD_ID_LINE: &str = "{\"error\":\"BadId\",\"number\":2,\"ok\":false}\n";

pub const NOT_FOUND_LINE: &str = "{\"error\":\"NotFound\",\"number\":4,\"ok\":false}\n";

/// The same line, `count` times. None if memory runs out.
pub fn repeated(alloc: Global, line: &str, count: usize) -> Option<Vec<u8>> {
    let mut lines = Vec::new(alloc);
    for _ in 0..count {
        lines.extend_from_slice(line.as_bytes()).ok()?;
        lines.push(b'\n').ok()?;
    }
    Some(lines)
}

/// Lines that run that task, and ask for its output `outputs` times.
pub fn output_lines(alloc: Global, outputs: usize) -> Result<Vec<u8>, AllocError> {
    let mut lines = String::from_str(alloc, OUTPUT_RUN_LINES)?;
    for _ in 0..outputs {
        lines.push_str(OUTPUT_LINE)?;
    }
    Ok(lines.into_bytes())
}
