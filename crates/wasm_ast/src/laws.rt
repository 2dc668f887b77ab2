//! What is proved of the definitions themselves.

ghost use Rattle.std.specs.Prelude.{◌≡◌, ◌↔◌, ℕ, List, [], ◌∷◌, map, IsTrue, Decides, nat_lt, is_some, Option, Some, None, true, false, codes};
ghost use Rattle.wasm_ast.specs.Names.{trap_name, refusal_number};
ghost use Rattle.wasm_ast.specs.declared.place.Place.{Place};
ghost use Rattle.wasm_ast.specs.declared.trap.Trap.TheVariants as trap;
ghost use Rattle.wasm_ast.specs.declared.refusal.Refusal.TheVariants as refusal;
ghost use Rattle.wasm_ast.specs.Limits.{Within, is_within, ops_depth, max_module_bytes, max_functions, max_locals, max_results, max_nesting, max_table_entries, max_memory_pages};
ghost use Rattle.wasm_ast.specs.Syntax.{Ops, simple, ops_count, ops_at};
ghost use Rattle.wasm_ast.specs.Types.{type_of, value_of, zero_of, is_same_type, are_same_types, source_of, target_of, block_type, type_at};
ghost use Rattle.wasm_ast.specs.Access.{load_type, load_bytes, is_sign_extended, store_type, store_bytes};
ghost use Rattle.wasm_ast.specs.Worked.{inner_if, outer_block, worked};
ghost use Rattle.wasm_ast.specs.declared.instr.BlockType.TheVariants.{Empty, One, Index};
ghost use Rattle.wasm_ast.specs.declared.instr.Simple.TheVariants as instr;
ghost use Rattle.wasm_ast.specs.declared.operators.LoadOp.TheVariants as load;
ghost use Rattle.wasm_ast.specs.declared.operators.StoreOp.TheVariants as store;
ghost use Rattle.wasm_ast.specs.declared.operators.ConvertOp.TheVariants as convert;
ghost use Rattle.wasm_ast.specs.declared.values.ValType.{ValType};
ghost use Rattle.wasm_ast.specs.declared.values.ValType.TheVariants as type;
ghost use Rattle.wasm_ast.specs.declared.values.Value.TheVariants as value;

use crate::module::Module;
use crate::refusal::Refusal;
use crate::trap::Trap;

/// The test of the limits is the limits.
pub fn limits_are_tested(of: &Module)
    ensures within { is_within of.now ≡ true → Within of.now }
    ensures tested { Within of.now → is_within of.now ≡ true }
{}

/// Refusals that compare equal are the same.
pub fn refusals_compare(first: Refusal, second: Refusal) -> bool
    ensures { IsTrue result ↔ (first ≡ second) }
{
    first == second
}

/// Traps that compare equal are the same.
pub fn traps_compare(first: Trap, second: Trap) -> bool
    ensures { IsTrue result ↔ (first ≡ second) }
{
    first == second
}

/// The places of a sequence are the numbers below its count of instructions.
pub fn places_are_counted()
    ensures { (os : Ops) (k : ℕ) → is_some (ops_at os k) ≡ nat_lt k (ops_count os) }
{}

/// What loads read, by bytes, type and extension.
pub fn loads_read_their_bytes()
    ensures i32 { (load_type load.I32 ≡ type.I32) × (load_bytes load.I32 ≡ 4) }
    ensures i64 { (load_type load.I64 ≡ type.I64) × (load_bytes load.I64 ≡ 8) }
    ensures i32_8 { (load_bytes load.I32From8S ≡ 1) × (load_bytes load.I32From8U ≡ 1) }
    ensures i32_16 { (load_bytes load.I32From16S ≡ 2) × (load_bytes load.I32From16U ≡ 2) }
    ensures i64_8 { (load_bytes load.I64From8S ≡ 1) × (load_bytes load.I64From8U ≡ 1) }
    ensures i64_16 { (load_bytes load.I64From16S ≡ 2) × (load_bytes load.I64From16U ≡ 2) }
    ensures i64_32 { (load_bytes load.I64From32S ≡ 4) × (load_bytes load.I64From32U ≡ 4) }
    ensures to_i32 { map load_type
        (load.I32From8S ∷ load.I32From8U ∷ load.I32From16S ∷ load.I32From16U ∷ [])
        ≡ type.I32 ∷ type.I32 ∷ type.I32 ∷ type.I32 ∷ [] }
    ensures to_i64 { map load_type (load.I64From8S ∷ load.I64From8U ∷ load.I64From16S
        ∷ load.I64From16U ∷ load.I64From32S ∷ load.I64From32U ∷ [])
        ≡ type.I64 ∷ type.I64 ∷ type.I64 ∷ type.I64 ∷ type.I64 ∷ type.I64 ∷ [] }
    ensures by_sign { map is_sign_extended (load.I32From8S ∷ load.I32From16S ∷ load.I64From8S
        ∷ load.I64From16S ∷ load.I64From32S ∷ []) ≡ true ∷ true ∷ true ∷ true ∷ true ∷ [] }
    ensures by_zeros { map is_sign_extended (load.I32 ∷ load.I64 ∷ load.I32From8U ∷ load.I32From16U
        ∷ load.I64From8U ∷ load.I64From16U ∷ load.I64From32U ∷ [])
        ≡ false ∷ false ∷ false ∷ false ∷ false ∷ false ∷ false ∷ [] }
{}

/// What stores write, by bytes and type.
pub fn stores_write_their_bytes()
    ensures of_i32 { map store_type (store.I32 ∷ store.I32To8 ∷ store.I32To16 ∷ [])
        ≡ type.I32 ∷ type.I32 ∷ type.I32 ∷ [] }
    ensures of_i64 { map store_type (store.I64 ∷ store.I64To8 ∷ store.I64To16 ∷ store.I64To32 ∷ [])
        ≡ type.I64 ∷ type.I64 ∷ type.I64 ∷ type.I64 ∷ [] }
    ensures i32_bytes { map store_bytes (store.I32 ∷ store.I32To8 ∷ store.I32To16 ∷ [])
        ≡ 4 ∷ 1 ∷ 2 ∷ [] }
    ensures i64_bytes { map store_bytes
        (store.I64 ∷ store.I64To8 ∷ store.I64To16 ∷ store.I64To32 ∷ [])
        ≡ 8 ∷ 1 ∷ 2 ∷ 4 ∷ [] }
{}

/// The names of traps, in the order of `Trap`.
pub fn traps_are_named()
    ensures names { map trap_name
        (trap.Unreachable ∷ trap.IntegerDivideByZero ∷ trap.IntegerOverflow
        ∷ trap.OutOfBoundsMemoryAccess ∷ trap.UndefinedElement ∷ trap.UninitializedElement
        ∷ trap.IndirectCallTypeMismatch ∷ trap.Exhausted ∷ trap.TurnLimit ∷ [])
        ≡ codes "unreachable" ∷ codes "integer divide by zero" ∷ codes "integer overflow"
        ∷ codes "out of bounds memory access" ∷ codes "undefined element"
        ∷ codes "uninitialized element" ∷ codes "indirect call type mismatch" ∷ codes "exhausted"
        ∷ codes "turn_limit" ∷ [] }
{}

/// The refusals in the order of their numbers: these are 1 to 23, whatever a refusal says besides.
pub fn refusals_are_numbered()
    ensures from_1 { map refusal_number (refusal.BadRequest ∷ refusal.BadId ∷ refusal.Exists
        ∷ refusal.NotFound ∷ refusal.NoContent ∷ refusal.InUse ∷ refusal.BadModule ∷ [])
        ≡ 1 ∷ 2 ∷ 3 ∷ 4 ∷ 5 ∷ 6 ∷ 7 ∷ [] }
    ensures invalid { (at : Option Place) → refusal_number (refusal.Invalid at) ≡ 8 }
    ensures from_9 { map refusal_number (refusal.Limit ∷ refusal.BadConfig ∷ refusal.WrongStatus
        ∷ refusal.Busy ∷ refusal.OutOfRange ∷ refusal.TooMany ∷ refusal.JournalFull
        ∷ refusal.DigestConflict ∷ refusal.NoMemory ∷ [])
        ≡ 9 ∷ 10 ∷ 11 ∷ 12 ∷ 13 ∷ 14 ∷ 15 ∷ 16 ∷ 17 ∷ [] }
    ensures text { (line column : ℕ) → refusal_number (refusal.BadText line column) ≡ 18 }
    ensures from_19 { map refusal_number (refusal.Closed ∷ refusal.JournalFault ∷ refusal.NoEntry
        ∷ refusal.BadImport ∷ refusal.SegmentOutOfBounds ∷ []) ≡ 19 ∷ 20 ∷ 21 ∷ 22 ∷ 23 ∷ [] }
{}

/// A worked sequence: what is at each of its places, and how many blocks are open at once.
pub fn places_are_in_written_order()
    ensures first { ops_at worked 0 ≡ Some outer_block }
    ensures inside { ops_at worked 1 ≡ Some (simple (instr.Const (value.I32 1))) }
    ensures after_inside { ops_at worked 2 ≡ Some inner_if }
    ensures then_arm { ops_at worked 3 ≡ Some (simple instr.Drop) }
    ensures else_arm { ops_at worked 4 ≡ Some (simple (instr.Br 0)) }
    ensures after_block { ops_at worked 5 ≡ Some (simple instr.Return) }
    ensures no_more { ops_at worked 6 ≡ None }
    ensures depth { ops_depth worked ≡ 2 }
{}

/// Types of blocks, and the look-up of a type.
pub fn types_are_looked_up()
    ensures empty { block_type [] Empty ≡ Some (record { params = []; results = [] }) }
    ensures one { block_type [] (One type.I64)
        ≡ Some (record { params = []; results = type.I64 ∷ [] }) }
    ensures by_index { block_type
        (record { params = []; results = [] }
        ∷ record { params = type.I32 ∷ []; results = type.I64 ∷ type.I32 ∷ [] } ∷ [])
        (Index 1) ≡ Some (record { params = type.I32 ∷ []; results = type.I64 ∷ type.I32 ∷ [] }) }
    ensures no_type { block_type [] (Index 0) ≡ None }
    ensures second { type_at (None ∷ Some (record { params = []; results = [] }) ∷ []) 1
        ≡ Some (record { params = []; results = [] }) }
    ensures none { type_at (None ∷ []) 0 ≡ None }
    ensures beyond { type_at [] 0 ≡ None }
{}

/// Types of values, and their zeros.
pub fn values_have_types()
    ensures i32 { type_of (value.I32 5) ≡ type.I32 }
    ensures i64 { type_of (value.I64 5) ≡ type.I64 }
    ensures zero_32 { zero_of type.I32 ≡ value.I32 0 }
    ensures zero_64 { zero_of type.I64 ≡ value.I64 0 }
    ensures of_i32 { value_of type.I32 5 ≡ value.I32 5 }
    ensures of_i64 { value_of type.I64 5 ≡ value.I64 5 }
{}

/// The tests of types hold of equal types alone.
pub fn types_are_compared()
    ensures one { (t u : ValType) → Decides (is_same_type t u) (t ≡ u) }
    ensures lists { (ts us : List ValType) → Decides (are_same_types ts us) (ts ≡ us) }
{}

/// Types that conversions take and give.
pub fn conversions_have_types()
    ensures of_i32 { map source_of
        (convert.ExtendS ∷ convert.ExtendU ∷ convert.I32From8S ∷ convert.I32From16S ∷ [])
        ≡ type.I32 ∷ type.I32 ∷ type.I32 ∷ type.I32 ∷ [] }
    ensures of_i64 { map source_of
        (convert.Wrap ∷ convert.I64From8S ∷ convert.I64From16S ∷ convert.I64From32S ∷ [])
        ≡ type.I64 ∷ type.I64 ∷ type.I64 ∷ type.I64 ∷ [] }
    ensures to_i32 { map target_of (convert.Wrap ∷ convert.I32From8S ∷ convert.I32From16S ∷ [])
        ≡ type.I32 ∷ type.I32 ∷ type.I32 ∷ [] }
    ensures to_i64 { map target_of (convert.ExtendS ∷ convert.ExtendU ∷ convert.I64From8S
        ∷ convert.I64From16S ∷ convert.I64From32S ∷ [])
        ≡ type.I64 ∷ type.I64 ∷ type.I64 ∷ type.I64 ∷ type.I64 ∷ [] }
{}

/// The limits of the profile.
pub fn limits_are_those_of_the_profile()
    ensures bytes { max_module_bytes ≡ 262144 }
    ensures functions { max_functions ≡ 4096 }
    ensures locals { max_locals ≡ 1024 }
    ensures results { max_results ≡ 1024 }
    ensures nesting { max_nesting ≡ 256 }
    ensures table { max_table_entries ≡ 4096 }
    ensures memory { max_memory_pages ≡ 256 }
{}
