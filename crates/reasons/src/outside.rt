//! What the binary format of other profiles has, and this one does not.

use wasm_binary::readers::read_u32;

const FLOATS: &str = "floats are outside the profile (feulgama lower translates them)";

const BULK_MEMORY: &str = "bulk memory is outside the profile (feulgama lower translates it)";

const TABLES: &str = "instructions on tables are outside the profile";

const EXCEPTIONS: &str = "exceptions are outside the profile";

const NO_INSTRUCTION: &str = "no instruction of the profile has this opcode";

// Opcodes of one byte of which the profile has none: the first, the last, their words in the text format
// (none, if they are not known), and what they belong to.
const OPCODES: &[(u8, u8, &str, &str)] = rows! {
    0x06, 0x0A, "" => EXCEPTIONS;
    0x12, 0x15, "" => "tail calls and calls of references are outside the profile";
    0x18, 0x19, "" => EXCEPTIONS;
    0x1C, 0x1C, "select with types" => "reference types are outside the profile; select is 1b";
    0x1F, 0x1F, "" => EXCEPTIONS;
    0x25, 0x26, "table.get, table.set" => "reference types are outside the profile";
    0x2A, 0x2B, "f32.load, f64.load" => FLOATS;
    0x38, 0x39, "f32.store, f64.store" => FLOATS;
    0x43, 0x44, "f32.const, f64.const" => FLOATS;
    0x5B, 0x66, COMPARISONS => FLOATS;
    0x8B, 0xBF, OPERATORS => FLOATS;
    0xD0, 0xD6, "ref.null, ref.is_null, ref.func" => "references are outside the profile";
    0xFB, 0xFB, "" => "garbage collection is outside the profile";
    0xFD, 0xFD, "" => "vectors of 128 bits are outside the profile";
    0xFE, 0xFE, "" => "threads are outside the profile";
};

// The words of f32.eq and the opcodes after it: six comparisons of each of two types.
const COMPARISONS: &str = "\
f32.eq, f32.ne, f32.lt, f32.gt, f32.le, f32.ge, f64.eq, f64.ne, f64.lt, f64.gt, f64.le, f64.ge";

// The words of f32.abs and the opcodes after it, those of the profile among them, up to f64.reinterpret_i64.
const OPERATORS: &str = "\
f32.abs, f32.neg, f32.ceil, f32.floor, f32.trunc, f32.nearest, f32.sqrt, f32.add, f32.sub, \
f32.mul, f32.div, f32.min, f32.max, f32.copysign, f64.abs, f64.neg, f64.ceil, f64.floor, \
f64.trunc, f64.nearest, f64.sqrt, f64.add, f64.sub, f64.mul, f64.div, f64.min, f64.max, \
f64.copysign, i32.wrap_i64, i32.trunc_f32_s, i32.trunc_f32_u, i32.trunc_f64_s, i32.trunc_f64_u, \
i64.extend_i32_s, i64.extend_i32_u, i64.trunc_f32_s, i64.trunc_f32_u, i64.trunc_f64_s, \
i64.trunc_f64_u, f32.convert_i32_s, f32.convert_i32_u, f32.convert_i64_s, f32.convert_i64_u, \
f32.demote_f64, f64.convert_i32_s, f64.convert_i32_u, f64.convert_i64_s, f64.convert_i64_u, \
f64.promote_f32, i32.reinterpret_f32, i64.reinterpret_f64, f32.reinterpret_i32, \
f64.reinterpret_i64";

// The words of the instructions whose opcode is FC and a number, from 0 on.
const NUMBERED: &str = "\
i32.trunc_sat_f32_s, i32.trunc_sat_f32_u, i32.trunc_sat_f64_s, i32.trunc_sat_f64_u, \
i64.trunc_sat_f32_s, i64.trunc_sat_f32_u, i64.trunc_sat_f64_s, i64.trunc_sat_f64_u, memory.init, \
data.drop, memory.copy, memory.fill, table.init, elem.drop, table.copy, table.grow, table.size, \
table.fill";

/// The names of sections, by their ids.
const SECTIONS: &str = "\
custom, type, import, function, table, memory, global, export, start, element, code, data";

// The word with this number, from 0 on.
fn word_at(words: &'static str, number: usize) -> Option<&'static str> {
    match words.split(", ").nth(number) {
        Some("") => None,
        word => word,
    }
}

/// The word in the text format, if it has one, of the instruction outside the profile of which this is the
/// first byte of the opcode, and these bytes follow; and what it belongs to.
pub fn find_outside(opcode: u8, bytes: &[u8]) -> (Option<&'static str>, &'static str) {
    for (first, last, words, feature) in OPCODES {
        if *first <= opcode && opcode <= *last {
            let word = word_at(*words, usize::from(opcode.saturating_sub(*first)));
            return (word, *feature);
        }
    }
    let number = match read_u32(bytes) {
        Ok((number, _)) if opcode == 0xFC => number,
        _ => u32::MAX,
    };
    let feature = match number {
        0..=7 => FLOATS,
        8..=11 => BULK_MEMORY,
        12..=17 => TABLES,
        _ => NO_INSTRUCTION,
    };
    (word_at(NUMBERED, number as usize), feature)
}

/// What a byte means that is none of a value type of the profile.
pub fn val_type_words(byte: u8) -> &'static str {
    match byte {
        0x7D => "f32; floats are outside the profile (feulgama lower translates them)",
        0x7C => "f64; floats are outside the profile (feulgama lower translates them)",
        0x7B => "v128; vectors of 128 bits are outside the profile",
        0x70 | 0x6F => "a reference; reference types are outside the profile",
        _ => "a value type is to be here: 7f (i32) or 7e (i64)",
    }
}

/// The name of a section.
pub fn section_name(id: u8) -> &'static str {
    match id {
        12 =>
            "data count, of bulk memory, which is outside the profile; feulgama lower translates it",
        13 => "tag, of exceptions, which are outside the profile",
        _ => word_at(SECTIONS, usize::from(id)).unwrap_or("none"),
    }
}
