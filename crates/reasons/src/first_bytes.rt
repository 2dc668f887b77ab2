//! What a file is by its first bytes: its module, or a file of another kind.

use std::alloc::{AllocError, Global};
use std::str::from_utf8;
use text_assembler::assemble_module;
use wasm_ast::{Module, Refusal};
use wasm_binary::decode;

const KINDS: &[(&[u8], &str)] = rows! {
    b"\x7FELF" => "an ELF file, of machine code; a module is built for a wasm32 target";
    b"\x1F\x8B" => "a gzip file; gunzip gives what is in it";
    b"\x28\xB5\x2F\xFD" => "a zstd file; unzstd gives what is in it";
    b"\xFD7zXZ" => "an xz file; unxz gives what is in it";
    b"PK\x03\x04" => "a zip file; unzip gives what is in it";
    b"MZ" => "a program of Windows; a module is built for a wasm32 target";
    b"\xCF\xFA\xED\xFE" => "a Mach-O file, of machine code; a module is built for a wasm32 target";
    b"BC\xC0\xDE" => "LLVM bitcode; wasm-ld makes a module of it";
    b"!<arch>" => "an archive of objects; wasm-ld makes a module of it";
    b"\xEF\xBB\xBF" => "a text with a byte order mark, which no module's text has";
    b"\xFF\xFE" => "a text in UTF-16; a module's text is in UTF-8";
    b"\xFE\xFF" => "a text in UTF-16; a module's text is in UTF-8";
    b"0061736d" => "a module in hexadecimal digits; xxd -r -p makes its bytes of them";
    b"AGFzbQ" => "a module in base64; base64 -d makes its bytes of it";
    b"{\"op\"" => "lines of requests; serve and replay take them";
    b"#!" => "a script";
    b"\x00asm\x0D\x00\x01\x00" => "a component; the profile has modules of version 1 alone";
};

/// The text of the first row whose bytes are at the front of these.
pub fn row_at_front(rows: &[(&[u8], &'static str)], bytes: &[u8]) -> Option<&'static str> {
    for row in rows {
        if bytes.starts_with(row.0) {
            return Some(row.1);
        }
    }
    None
}

/// What kind of file begins with these bytes, if it is a known one.
pub fn kind_of(bytes: &[u8]) -> Option<&'static str> {
    row_at_front(KINDS, bytes)
}

fn text_module(alloc: Global, bytes: &[u8]) -> Result<Module, Refusal> {
    match from_utf8(bytes) {
        Ok(text) => Ok(assemble_module(alloc, text)?.module),
        Err(_) => Err(Refusal::BadModule),
    }
}

/// The module of a file, if it has one. An error only if memory runs out.
pub fn module_of(alloc: Global, bytes: &[u8]) -> Result<Option<Module>, AllocError> {
    let read = match bytes.first() {
        Some(0) => decode(alloc, bytes),
        _ => text_module(alloc, bytes),
    };
    match read {
        Ok(found) => Ok(Some(found)),
        Err(Refusal::NoMemory) => Err(AllocError),
        Err(_) => Ok(None),
    }
}
