//! What is proved of the definitions themselves.

ghost use Rattle.std.specs.Prelude.{◌≡◌, ℕ, ◌+◌, ◌^◌, ◌<◌, ◌≤◌, List, [], ◌∷◌, ◌++◌, length, map, replicate, All};
ghost use Rattle.std.specs.List.{range_with_len};
ghost use Rattle.wasm_ast.specs.declared.module.Module.{Module};
ghost use Rattle.wasm_ast.specs.declared.values.ValType.{ValType};
ghost use Rattle.wasm_ast.specs.declared.values.Value.TheVariants as Value;
ghost use Rattle.wasm_ast.specs.declared.values.ValType.TheVariants as val_types;
ghost use Rattle.wasm_ast.specs.declared.instr.BlockType.{BlockType};
ghost use Rattle.wasm_ast.specs.declared.instr.BlockType.TheVariants.{Empty, One, Index};
ghost use Rattle.wasm_ast.specs.declared.instr.Simple.TheVariants.{Const, Drop, Br, BrTable, Return, CallIndirect, Load, Store, MemoryGrow, Binary};
ghost use Rattle.wasm_ast.specs.declared.instr.Simple.TheVariants as instr;
ghost use Rattle.wasm_ast.specs.declared.instr.LocalOp.TheVariants as local;
ghost use Rattle.wasm_ast.specs.declared.instr.GlobalOp.TheVariants as global;
ghost use Rattle.wasm_ast.specs.declared.operators.LoadOp.TheVariants as load;
ghost use Rattle.wasm_ast.specs.declared.operators.StoreOp.TheVariants as store;
ghost use Rattle.wasm_ast.specs.declared.operators.BinaryOp.TheVariants as binary;
ghost use Rattle.wasm_ast.specs.declared.operators.TestOp.TheVariants as test;
ghost use Rattle.wasm_ast.specs.Syntax.{simple, block, loop, if', stop, next};
ghost use Rattle.wasm_ast.specs.Ranged.{Ranged, RangedBlockType, AreTexts};
ghost use Rattle.wasm_ast.specs.Limits.{Within, max_module_bytes};
ghost use Rattle.wasm_binary.specs.Numbers.{IsU32, IsSigned};
ghost use Rattle.wasm_binary.specs.Opcodes.{local_byte, global_byte, load_byte, store_byte, test_byte, compare_byte, unary_byte, binary_byte, convert_byte, opcode, block_byte, loop_byte, if_byte, else_byte, end_byte, preamble};
ghost use Rattle.wasm_binary.specs.Grammar.{IsBlockType, IsOp, AreLocals, Spells, locals_of};
ghost use Rattle.wasm_binary.specs.Worked.{one_of_each};
ghost use Rattle.wasm_binary.specs.Limits.{ResultsOver, TooDeep, Over};
ghost use Rattle.wasm_binary.specs.Tables.{all_loads, all_stores, all_unary, all_binary, all_relations, all_conversions};
ghost use Rattle.wasm_binary.specs.Canonical.{canon, FitsLimits, canon_number, canon_signed, canon_val_type, canon_block_type, canon_op, runs_of, AreLongest};

/// Bytes encode at most one module.
pub fn spells_one()
    ensures { (bytes : List ℕ) (m n : Module) → Spells bytes m → Spells bytes n → m ≡ n }
{}

/// Bytes that pass a limit encode no module within the limits, or are too many.
pub fn over_spells_none_within()
    ensures { (bytes : List ℕ) → Over bytes
        → (m : Module) → Spells bytes m → Within m → length bytes ≤ max_module_bytes → ⊥ }
{}

/// A block too many is met at its opcode, after whole instructions and before its type; and inside a
/// block or an else arm.
pub fn depth_is_met_at_the_opcode()
    ensures block { (rest : List ℕ) → TooDeep 0 (0x1A ∷ 0x02 ∷ rest) }
    ensures iteration { (rest : List ℕ) → TooDeep 0 (0x1A ∷ 0x03 ∷ rest) }
    ensures choice { (rest : List ℕ) → TooDeep 0 (0x1A ∷ 0x04 ∷ rest) }
    ensures inside { (rest : List ℕ) → TooDeep 1 (0x03 ∷ 0x40 ∷ 0x02 ∷ rest) }
    ensures in_else { (rest : List ℕ) → TooDeep 1 (0x04 ∷ 0x40 ∷ 0x05 ∷ 0x02 ∷ rest) }
{}

/// The numbers of a module that bytes encode are in range, the numbers of locals included (5.5.13).
pub fn spells_ranged()
    ensures numbers { (bytes : List ℕ) (m : Module) → Spells bytes m → Ranged m }
    ensures locals { (bytes : List ℕ) (m : Module) → Spells bytes m
        → All (λ f. length f.locals < 2 ^ 32) m.funcs }
{}

/// Any number of locals below 2^32 has an encoding.
pub fn locals_have_encodings()
    ensures { (n : ℕ) (t : ValType) → n < 2 ^ 32
        → AreLocals (0x01 ∷ canon_number n ++ canon_val_type t) (replicate n t) [] }
{}

/// The canonical encoding of a module that fits encodes it. So what `encode` gives, `decode` reads
/// as that module.
pub fn canonical_spells()
    ensures { (m : Module) → Ranged m → AreTexts m → FitsLimits m
        → Spells (canon m) m }
{}

/// A canonical number encodes that number.
pub fn canonical_numbers_are_encodings()
    ensures unsigned { (n : ℕ) (rest : List ℕ) → n < 2 ^ 32
        → IsU32 (canon_number n ++ rest) n rest }
    ensures signed { (n : ℕ) (rest : List ℕ) → n < 2 ^ 32
        → IsSigned 32 (canon_signed 4 32 n ++ rest) n rest }
    ensures long { (n : ℕ) (rest : List ℕ) → n < 2 ^ 64
        → IsSigned 64 (canon_signed 9 64 n ++ rest) n rest }
{}

/// A canonical number is the shortest encoding of that number.
pub fn canonical_numbers_are_shortest()
    ensures unsigned { (bytes : List ℕ) (n : ℕ) (rest : List ℕ) → IsU32 bytes n rest
        → length (canon_number n) + length rest ≤ length bytes }
    ensures signed { (bytes : List ℕ) (n : ℕ) (rest : List ℕ) → IsSigned 32 bytes n rest
        → length (canon_signed 4 32 n) + length rest ≤ length bytes }
    ensures long { (bytes : List ℕ) (n : ℕ) (rest : List ℕ) → IsSigned 64 bytes n rest
        → length (canon_signed 9 64 n) + length rest ≤ length bytes }
{}

/// Canonical runs have the same locals, none is empty, and no two of one type are next to each
/// other. No other runs are like that.
pub fn canonical_runs_are_longest()
    ensures same { (locals : List ValType) → locals_of (runs_of locals) ≡ locals }
    ensures longest { (locals : List ValType) → AreLongest (runs_of locals) }
    ensures only { (runs : List (ℕ × ValType)) → AreLongest runs → runs_of (locals_of runs) ≡ runs }
{}

/// An `if` with an empty else arm is encoded with an else and without (5.4.1).
pub fn empty_else_arms_have_two_encodings()
    ensures written { IsOp (0x04 ∷ 0x40 ∷ 0x05 ∷ 0x0B ∷ []) (if' Empty stop stop) [] }
    ensures left_out { IsOp (0x04 ∷ 0x40 ∷ 0x0B ∷ []) (if' Empty stop stop) [] }
{}

/// Canonical instructions as the Standard writes them (5.4): -1 as an i64, `br 300` in a block,
/// `return` in a loop with a result, and an `if` with one arm and with two.
#[tactic(auto, unfolding(crate::specs::Canonical::canon_unsigned, crate::specs::Canonical::canon_signed))]
pub fn canonical_instructions()
    ensures long { canon_op (simple (Const (Value.I64 18446744073709551615))) ≡ 0x42 ∷ 0x7F ∷ [] }
    ensures branch { canon_op (block Empty (next (simple (Br 300)) stop))
        ≡ 0x02 ∷ 0x40 ∷ 0x0C ∷ 0xAC ∷ 0x02 ∷ 0x0B ∷ [] }
    ensures leave { canon_op (loop (One val_types.I64) (next (simple Return) stop))
        ≡ 0x03 ∷ 0x7E ∷ 0x0F ∷ 0x0B ∷ [] }
    ensures one_arm { canon_op (if' Empty (next (simple Drop) stop) stop)
        ≡ 0x04 ∷ 0x40 ∷ 0x1A ∷ 0x0B ∷ [] }
    ensures two_arms { canon_op (if' Empty stop (next (simple Drop) stop))
        ≡ 0x04 ∷ 0x40 ∷ 0x05 ∷ 0x1A ∷ 0x0B ∷ [] }
{}

/// What follows an opcode (5.4): the labels of `br_table` and then the one for all other operands,
/// an alignment and then an offset, and a byte 00.
#[tactic(auto, unfolding(crate::specs::Canonical::canon_unsigned))]
pub fn canonical_immediates()
    ensures labels { canon_op (simple (BrTable 2 (1 ∷ 0 ∷ [])))
        ≡ 0x0E ∷ 0x02 ∷ 0x01 ∷ 0x00 ∷ 0x02 ∷ [] }
    ensures load { canon_op (simple (Load load.I64From16S (record { align = 1; offset = 5 })))
        ≡ 0x32 ∷ 0x01 ∷ 0x05 ∷ [] }
    ensures store { canon_op (simple (Store store.I32 (record { align = 2; offset = 4 })))
        ≡ 0x36 ∷ 0x02 ∷ 0x04 ∷ [] }
    ensures indirect { canon_op (simple (CallIndirect 3)) ≡ 0x11 ∷ 0x03 ∷ 0x00 ∷ [] }
    ensures grow { canon_op (simple MemoryGrow) ≡ 0x40 ∷ 0x00 ∷ [] }
    ensures none { canon_op (simple (Binary val_types.I64 binary.ShrU)) ≡ 0x88 ∷ [] }
{}

/// Canonical sections in rising order of ids (5.5): all but that of imports, each with one item.
#[tactic(auto, unfolding(crate::specs::Canonical::canon_unsigned, crate::specs::Canonical::canon_signed))]
pub fn canonical_sections()
    ensures { canon one_of_each ≡ preamble
        ++ (0x01 ∷ 0x04 ∷ 0x01 ∷ 0x60 ∷ 0x00 ∷ 0x00 ∷ [])
        ++ (0x03 ∷ 0x02 ∷ 0x01 ∷ 0x00 ∷ [])
        ++ (0x04 ∷ 0x05 ∷ 0x01 ∷ 0x70 ∷ 0x01 ∷ 0x01 ∷ 0x02 ∷ [])
        ++ (0x05 ∷ 0x03 ∷ 0x01 ∷ 0x00 ∷ 0x01 ∷ [])
        ++ (0x06 ∷ 0x06 ∷ 0x01 ∷ 0x7E ∷ 0x01 ∷ 0x42 ∷ 0x07 ∷ 0x0B ∷ [])
        ++ (0x07 ∷ 0x05 ∷ 0x01 ∷ 0x01 ∷ 0x6D ∷ 0x02 ∷ 0x00 ∷ [])
        ++ (0x08 ∷ 0x01 ∷ 0x00 ∷ [])
        ++ (0x09 ∷ 0x07 ∷ 0x01 ∷ 0x00 ∷ 0x41 ∷ 0x00 ∷ 0x0B ∷ 0x01 ∷ 0x00 ∷ [])
        ++ (0x0A ∷ 0x04 ∷ 0x01 ∷ 0x02 ∷ 0x00 ∷ 0x0B ∷ [])
        ++ (0x0B ∷ 0x07 ∷ 0x01 ∷ 0x00 ∷ 0x41 ∷ 0x08 ∷ 0x0B ∷ 0x01 ∷ 0xFF ∷ []) }
{}

/// Opcodes of instructions with and without bodies, but for operators (5.4.1 to 5.4.5).
pub fn opcodes_of_instructions()
    ensures first { opcode instr.Unreachable ∷ opcode instr.Nop ∷ [] ≡ 0x00 ∷ 0x01 ∷ [] }
    ensures blocks { block_byte ∷ loop_byte ∷ if_byte ∷ else_byte ∷ end_byte ∷ []
        ≡ 0x02 ∷ 0x03 ∷ 0x04 ∷ 0x05 ∷ 0x0B ∷ [] }
    ensures control { (i : ℕ) (is : List ℕ) → map opcode (instr.Br i ∷ instr.BrIf i
        ∷ instr.BrTable i is ∷ instr.Return ∷ instr.Call i ∷ instr.CallIndirect i ∷ [])
        ≡ range_with_len 0x0C 6 }
    ensures operands { map opcode (instr.Drop ∷ instr.Select ∷ []) ≡ 0x1A ∷ 0x1B ∷ [] }
    ensures locals { map local_byte (local.Get ∷ local.Set ∷ local.Tee ∷ [])
        ≡ 0x20 ∷ 0x21 ∷ 0x22 ∷ [] }
    ensures globals { map global_byte (global.Get ∷ global.Set ∷ []) ≡ 0x23 ∷ 0x24 ∷ [] }
    ensures sizes { map opcode (instr.MemorySize ∷ instr.MemoryGrow ∷ []) ≡ 0x3F ∷ 0x40 ∷ [] }
    ensures constants { (n : ℕ) → map opcode (Const (Value.I32 n) ∷ Const (Value.I64 n) ∷ [])
        ≡ 0x41 ∷ 0x42 ∷ [] }
{}

/// Opcodes of operators: each is the first of its class and the number in the class, but where the
/// Standard has operators on floating-point numbers between them (5.4.4, 5.4.5; Core 2.0, 5.4.7).
pub fn opcodes_of_operators()
    ensures loads { map load_byte all_loads ≡ 0x28 ∷ 0x29 ∷ range_with_len 0x2C 10 }
    ensures stores { map store_byte all_stores ≡ 0x36 ∷ 0x37 ∷ range_with_len 0x3A 5 }
    ensures narrow_tests { test_byte val_types.I32 test.Eqz
        ∷ map (compare_byte val_types.I32) all_relations ≡ range_with_len 0x45 11 }
    ensures wide_tests { test_byte val_types.I64 test.Eqz
        ∷ map (compare_byte val_types.I64) all_relations ≡ range_with_len 0x50 11 }
    ensures narrow { map (unary_byte val_types.I32) all_unary
        ++ map (binary_byte val_types.I32) all_binary ≡ range_with_len 0x67 18 }
    ensures wide { map (unary_byte val_types.I64) all_unary
        ++ map (binary_byte val_types.I64) all_binary ≡ range_with_len 0x79 18 }
    ensures conversions { map convert_byte all_conversions
        ≡ 0xA7 ∷ 0xAC ∷ 0xAD ∷ range_with_len 0xC0 5 }
{}

/// The three forms of the type of a block. An index is a signed number: its bit 6 is the sign, so 64 takes
/// two bytes, and longer encodings are allowed. The type of one value is the one byte of a negative number.
#[tactic(auto, unfolding(crate::specs::Canonical::canon_signed))]
pub fn block_types_have_three_forms()
    ensures empty { (rest : List ℕ) → IsBlockType (0x40 ∷ rest) Empty rest }
    ensures narrow { (rest : List ℕ) → IsBlockType (0x7F ∷ rest) (One val_types.I32) rest }
    ensures wide { (rest : List ℕ) → IsBlockType (0x7E ∷ rest) (One val_types.I64) rest }
    ensures short { (rest : List ℕ) → IsBlockType (0x02 ∷ rest) (Index 2) rest }
    ensures long { (rest : List ℕ) → IsBlockType (0x82 ∷ 0x00 ∷ rest) (Index 2) rest }
    ensures long_63 { (rest : List ℕ) → IsBlockType (0xBF ∷ 0x00 ∷ rest) (Index 63) rest }
    ensures long_64 { (rest : List ℕ) → IsBlockType (0xC0 ∷ 0x80 ∷ 0x00 ∷ rest) (Index 64) rest }
    ensures canonical { map canon_block_type (Index 63 ∷ Index 64 ∷ Index 4294967295 ∷ [])
        ≡ (0x3F ∷ []) ∷ (0xC0 ∷ 0x00 ∷ []) ∷ (0xFF ∷ 0xFF ∷ 0xFF ∷ 0xFF ∷ 0x0F ∷ []) ∷ [] }
    ensures encodings { (t : BlockType) (rest : List ℕ) → RangedBlockType t
        → IsBlockType (canon_block_type t ++ rest) t rest }
    ensures shortest { (bytes : List ℕ) (t : BlockType) (rest : List ℕ) → IsBlockType bytes t rest
        → length (canon_block_type t) + length rest ≤ length bytes }
    ensures one { (bytes : List ℕ) (t u : BlockType) (rest other : List ℕ)
        → IsBlockType bytes t rest → IsBlockType bytes u other → (t ≡ u) × (rest ≡ other) }
{}

/// A negative number of 33 bits is no type of a block, but for the one bytes of the other two forms: -3,
/// and -64 in two bytes. Nor is 2^32, whose fifth byte would be 10, nor a number in six bytes.
pub fn other_numbers_are_no_block_types()
    ensures negative { (t : BlockType) (rest after : List ℕ)
        → IsBlockType (0x7D ∷ rest) t after → ⊥ }
    ensures long_negative { (t : BlockType) (rest after : List ℕ)
        → IsBlockType (0xC0 ∷ 0x7F ∷ rest) t after → ⊥ }
    ensures too_large { (t : BlockType) (rest after : List ℕ)
        → IsBlockType (0x80 ∷ 0x80 ∷ 0x80 ∷ 0x80 ∷ 0x10 ∷ rest) t after → ⊥ }
    ensures too_long { (t : BlockType) (rest after : List ℕ)
        → IsBlockType (0x82 ∷ 0x80 ∷ 0x80 ∷ 0x80 ∷ 0x80 ∷ rest) t after → ⊥ }
{}

/// The count of results is met before the results are read: 1,025 of them pass the limit, 1,024 do not.
pub fn results_are_met_at_their_count()
    ensures over { (rest : List ℕ) → ResultsOver (0x60 ∷ 0x00 ∷ 0x81 ∷ 0x08 ∷ rest) }
    ensures within { (rest : List ℕ) → ResultsOver (0x60 ∷ 0x00 ∷ 0x80 ∷ 0x08 ∷ rest) → ⊥ }
{}
