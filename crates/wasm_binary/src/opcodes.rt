//! The bytes of the binary format (5.3 to 5.5).

// Types (5.3).
pub const I32: u8 = 0x7F;

pub const I64: u8 = 0x7E;

pub const FUNC_TYPE: u8 = 0x60;
/// The type of a block without a result.
pub const EMPTY: u8 = 0x40;
/// Limits without a largest size.
pub const MIN: u8 = 0x00;
/// Limits with a largest size.
pub const MIN_MAX: u8 = 0x01;
/// The type of the elements of a table.
pub const TABLE_TYPE: u8 = 0x70;
/// A global that may not be written.
pub const CONST: u8 = 0x00;
/// A global that may be written.
pub const VAR: u8 = 0x01;

// Instructions that have bodies (5.4.1).
pub const BLOCK: u8 = 0x02;

pub const LOOP: u8 = 0x03;

pub const IF: u8 = 0x04;

pub const ELSE: u8 = 0x05;

pub const END: u8 = 0x0B;

// Instructions without bodies (5.4.1 to 5.4.5; the sign extensions Core 2.0, 5.4.7).
pub const UNREACHABLE: u8 = 0x00;

pub const NOP: u8 = 0x01;

pub const BR: u8 = 0x0C;

pub const BR_IF: u8 = 0x0D;

pub const BR_TABLE: u8 = 0x0E;

pub const RETURN: u8 = 0x0F;

pub const CALL: u8 = 0x10;

pub const CALL_INDIRECT: u8 = 0x11;

pub const DROP: u8 = 0x1A;

pub const SELECT: u8 = 0x1B;

pub const LOCAL_GET: u8 = 0x20;

pub const LOCAL_SET: u8 = 0x21;

pub const LOCAL_TEE: u8 = 0x22;

pub const GLOBAL_GET: u8 = 0x23;

pub const GLOBAL_SET: u8 = 0x24;

pub const I32_LOAD: u8 = 0x28;

pub const I64_LOAD: u8 = 0x29;

pub const I32_LOAD8_S: u8 = 0x2C;

pub const I32_LOAD8_U: u8 = 0x2D;

pub const I32_LOAD16_S: u8 = 0x2E;

pub const I32_LOAD16_U: u8 = 0x2F;

pub const I64_LOAD8_S: u8 = 0x30;

pub const I64_LOAD8_U: u8 = 0x31;

pub const I64_LOAD16_S: u8 = 0x32;

pub const I64_LOAD16_U: u8 = 0x33;

pub const I64_LOAD32_S: u8 = 0x34;

pub const I64_LOAD32_U: u8 = 0x35;

pub const I32_STORE: u8 = 0x36;

pub const I64_STORE: u8 = 0x37;

pub const I32_STORE8: u8 = 0x3A;

pub const I32_STORE16: u8 = 0x3B;

pub const I64_STORE8: u8 = 0x3C;

pub const I64_STORE16: u8 = 0x3D;

pub const I64_STORE32: u8 = 0x3E;

pub const MEMORY_SIZE: u8 = 0x3F;

pub const MEMORY_GROW: u8 = 0x40;

pub const I32_CONST: u8 = 0x41;

pub const I64_CONST: u8 = 0x42;

pub const I32_EQZ: u8 = 0x45;

pub const I32_EQ: u8 = 0x46;

pub const I32_NE: u8 = 0x47;

pub const I32_LT_S: u8 = 0x48;

pub const I32_LT_U: u8 = 0x49;

pub const I32_GT_S: u8 = 0x4A;

pub const I32_GT_U: u8 = 0x4B;

pub const I32_LE_S: u8 = 0x4C;

pub const I32_LE_U: u8 = 0x4D;

pub const I32_GE_S: u8 = 0x4E;

pub const I32_GE_U: u8 = 0x4F;

pub const I64_EQZ: u8 = 0x50;

pub const I64_EQ: u8 = 0x51;

pub const I64_NE: u8 = 0x52;

pub const I64_LT_S: u8 = 0x53;

pub const I64_LT_U: u8 = 0x54;

pub const I64_GT_S: u8 = 0x55;

pub const I64_GT_U: u8 = 0x56;

pub const I64_LE_S: u8 = 0x57;

pub const I64_LE_U: u8 = 0x58;

pub const I64_GE_S: u8 = 0x59;

pub const I64_GE_U: u8 = 0x5A;

pub const I32_CLZ: u8 = 0x67;

pub const I32_CTZ: u8 = 0x68;

pub const I32_POPCNT: u8 = 0x69;

pub const I32_ADD: u8 = 0x6A;

pub const I32_SUB: u8 = 0x6B;

pub const I32_MUL: u8 = 0x6C;

pub const I32_DIV_S: u8 = 0x6D;

pub const I32_DIV_U: u8 = 0x6E;

pub const I32_REM_S: u8 = 0x6F;

pub const I32_REM_U: u8 = 0x70;

pub const I32_AND: u8 = 0x71;

pub const I32_OR: u8 = 0x72;

pub const I32_XOR: u8 = 0x73;

pub const I32_SHL: u8 = 0x74;

pub const I32_SHR_S: u8 = 0x75;

pub const I32_SHR_U: u8 = 0x76;

pub const I32_ROTL: u8 = 0x77;

pub const I32_ROTR: u8 = 0x78;

pub const I64_CLZ: u8 = 0x79;

pub const I64_CTZ: u8 = 0x7A;

pub const I64_POPCNT: u8 = 0x7B;

pub const I64_ADD: u8 = 0x7C;

pub const I64_SUB: u8 = 0x7D;

pub const I64_MUL: u8 = 0x7E;

pub const I64_DIV_S: u8 = 0x7F;

pub const I64_DIV_U: u8 = 0x80;

pub const I64_REM_S: u8 = 0x81;

pub const I64_REM_U: u8 = 0x82;

pub const I64_AND: u8 = 0x83;

pub const I64_OR: u8 = 0x84;

pub const I64_XOR: u8 = 0x85;

pub const I64_SHL: u8 = 0x86;

pub const I64_SHR_S: u8 = 0x87;

pub const I64_SHR_U: u8 = 0x88;

pub const I64_ROTL: u8 = 0x89;

pub const I64_ROTR: u8 = 0x8A;

pub const I32_WRAP_I64: u8 = 0xA7;

pub const I64_EXTEND_I32_S: u8 = 0xAC;

pub const I64_EXTEND_I32_U: u8 = 0xAD;

pub const I32_EXTEND8_S: u8 = 0xC0;

pub const I32_EXTEND16_S: u8 = 0xC1;

pub const I64_EXTEND8_S: u8 = 0xC2;

pub const I64_EXTEND16_S: u8 = 0xC3;

pub const I64_EXTEND32_S: u8 = 0xC4;

/// What follows the type of `call_indirect`, and the opcodes of `memory.size` and `memory.grow`.
pub const RESERVED: u8 = 0x00;

// What is imported or exported (5.5.5, 5.5.10).
pub const FUNC_KIND: u8 = 0x00;

pub const TABLE_KIND: u8 = 0x01;

pub const MEMORY_KIND: u8 = 0x02;

pub const GLOBAL_KIND: u8 = 0x03;

// Ids of sections (5.5.2).
pub const CUSTOM_SECTION: u8 = 0;

pub const TYPE_SECTION: u8 = 1;

pub const IMPORT_SECTION: u8 = 2;

pub const FUNCTION_SECTION: u8 = 3;

pub const TABLE_SECTION: u8 = 4;

pub const MEMORY_SECTION: u8 = 5;

pub const GLOBAL_SECTION: u8 = 6;

pub const EXPORT_SECTION: u8 = 7;

pub const START_SECTION: u8 = 8;

pub const ELEMENT_SECTION: u8 = 9;

pub const CODE_SECTION: u8 = 10;

pub const DATA_SECTION: u8 = 11;

/// The magic number and the version (5.5.15).
pub const PREAMBLE: [u8; 8] = [0x00, 0x61, 0x73, 0x6D, 0x01, 0x00, 0x00, 0x00];
