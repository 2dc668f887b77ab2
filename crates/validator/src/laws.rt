//! What is proved of the definitions themselves: each rule of validity, with modules that it
//! accepts and modules that it refuses. Each function has a contract and no body.

ghost use Rattle.std.specs.Prelude.{◌≡◌, ◌↔◌, ℕ, ◌+◌, ◌^◌, true, false, List, [], ◌∷◌, reverse, Option, Some, None};
ghost use Rattle.std.specs.List.{AllZip};
ghost use Rattle.wasm_ast.specs.declared.values.ValType.{ValType};
ghost use Rattle.wasm_ast.specs.declared.values.FuncType.{FuncType};
ghost use Rattle.wasm_ast.specs.declared.module.Func.{Func};
ghost use Rattle.wasm_ast.specs.declared.module.Module.{Module};
ghost use Rattle.wasm_ast.specs.declared.values.ValType.TheVariants.{I32, I64};
ghost use Rattle.wasm_ast.specs.declared.operators.UnaryOp.{UnaryOp};
ghost use Rattle.wasm_ast.specs.declared.operators.BinaryOp.{BinaryOp};
ghost use Rattle.wasm_ast.specs.declared.operators.TestOp.{TestOp};
ghost use Rattle.wasm_ast.specs.declared.operators.RelationOp.{RelationOp};
ghost use Rattle.wasm_ast.specs.declared.operators.ConvertOp.TheVariants.{Wrap, ExtendS, ExtendU, I32From8S, I32From16S, I64From8S, I64From16S, I64From32S};
ghost use Rattle.wasm_ast.specs.declared.operators.BinaryOp.TheVariants.{Add};
ghost use Rattle.wasm_ast.specs.declared.place.Place.{Place};
ghost use Rattle.wasm_ast.specs.declared.operators.LoadOp.TheVariants as load;
ghost use Rattle.wasm_ast.specs.declared.operators.StoreOp.TheVariants as store;
ghost use Rattle.wasm_ast.specs.declared.instr.BlockType.TheVariants.{Empty, One, Index};
ghost use Rattle.wasm_ast.specs.declared.module.ExportKind.TheVariants as kind;
ghost use Rattle.validator.specs.Typing.{ValidModule, Typed, body_context};
ghost use Rattle.validator.specs.Faults.{NamesFault};
ghost use Rattle.validator.specs.PlaceTypes.{Point, IsOwn, IsPlace, ReachesAt, PassesAt, Known, Matches, MatchPoint};
ghost use Rattle.validator.specs.Worked.{i32_const, i64_const, local_get, local_set, local_tee, global_get, global_set, load_at, store_at, memory_size, memory_grow, nop, unary, binary, test, compare, convert, unreachable, drop', select, br, br_if, br_table, return', call, call_indirect, block_of, loop_of, if_of, func_type, func, limits, constant_of, variable_of, export_of, element, segment, import_of, plain, with_body, with_types, Types, Gives, WithLocals, TypesWithoutMemory, TypesWithoutTable, point_of, known_stack, known_point, LeadsTo, MayLeadTo, MayPass, branch_body, arms_body};

/// Constants, and operators with one operand (3.3.1).
pub fn constants_and_operators_are_typed()
    ensures i32_const { (n : ℕ) → Gives (I32 ∷ []) (i32_const n ∷ []) }
    ensures i64_const { (n : ℕ) → Gives (I64 ∷ []) (i64_const n ∷ []) }
    ensures i32_const_of_other_type { Gives (I64 ∷ []) (i32_const 1 ∷ []) → ⊥ }
    ensures i64_const_of_other_type { Gives (I32 ∷ []) (i64_const 1 ∷ []) → ⊥ }
    ensures const_left_over { Gives [] (i32_const 1 ∷ []) → ⊥ }
    ensures i32_unary { (op : UnaryOp) → Types (I32 ∷ []) (I32 ∷ []) (unary I32 op ∷ []) }
    ensures i64_unary { (op : UnaryOp) → Types (I64 ∷ []) (I64 ∷ []) (unary I64 op ∷ []) }
    ensures unary_of_other_type { (op : UnaryOp) → Types (I64 ∷ []) (I32 ∷ [])
        (unary I32 op ∷ []) → ⊥ }
    ensures unary_to_other_type { (op : UnaryOp) → Types (I32 ∷ []) (I64 ∷ [])
        (unary I32 op ∷ []) → ⊥ }
    ensures unary_of_nothing { (op : UnaryOp) → Types [] (I32 ∷ []) (unary I32 op ∷ []) → ⊥ }
    ensures unary_of_i32 { (op : UnaryOp) → Types (I32 ∷ []) (I64 ∷ []) (unary I64 op ∷ []) → ⊥ }
    ensures i32_test { (op : TestOp) → Types (I32 ∷ []) (I32 ∷ []) (test I32 op ∷ []) }
    ensures i64_test { (op : TestOp) → Types (I64 ∷ []) (I32 ∷ []) (test I64 op ∷ []) }
    ensures test_of_other_type { (op : TestOp) → Types (I32 ∷ []) (I32 ∷ [])
        (test I64 op ∷ []) → ⊥ }
    ensures test_to_its_type { (op : TestOp) → Types (I64 ∷ []) (I64 ∷ []) (test I64 op ∷ []) → ⊥ }
    ensures test_of_nothing { (op : TestOp) → Types [] (I32 ∷ []) (test I32 op ∷ []) → ⊥ }
    ensures wrap { Types (I64 ∷ []) (I32 ∷ []) (convert Wrap ∷ []) }
    ensures extend_signed { Types (I32 ∷ []) (I64 ∷ []) (convert ExtendS ∷ []) }
    ensures extend_unsigned { Types (I32 ∷ []) (I64 ∷ []) (convert ExtendU ∷ []) }
    ensures wrap_of_i32 { Types (I32 ∷ []) (I32 ∷ []) (convert Wrap ∷ []) → ⊥ }
    ensures wrap_to_i64 { Types (I64 ∷ []) (I64 ∷ []) (convert Wrap ∷ []) → ⊥ }
    ensures extend_signed_of_i64 { Types (I64 ∷ []) (I64 ∷ []) (convert ExtendS ∷ []) → ⊥ }
    ensures extend_signed_to_i32 { Types (I32 ∷ []) (I32 ∷ []) (convert ExtendS ∷ []) → ⊥ }
    ensures extend_unsigned_of_i64 { Types (I64 ∷ []) (I64 ∷ []) (convert ExtendU ∷ []) → ⊥ }
    ensures extend_unsigned_to_i32 { Types (I32 ∷ []) (I32 ∷ []) (convert ExtendU ∷ []) → ⊥ }
{}

/// Operators and comparisons of two operands (3.3.1).
pub fn operators_on_two_are_typed()
    ensures i32_binary { (op : BinaryOp) → Types (I32 ∷ I32 ∷ []) (I32 ∷ []) (binary I32 op ∷ []) }
    ensures i64_binary { (op : BinaryOp) → Types (I64 ∷ I64 ∷ []) (I64 ∷ []) (binary I64 op ∷ []) }
    ensures other_type_on_top { (op : BinaryOp) → Types (I32 ∷ I64 ∷ []) (I32 ∷ [])
        (binary I32 op ∷ []) → ⊥ }
    ensures other_type_below { (op : BinaryOp) → Types (I64 ∷ I32 ∷ []) (I32 ∷ [])
        (binary I32 op ∷ []) → ⊥ }
    ensures binary_to_other_type { (op : BinaryOp) → Types (I64 ∷ I64 ∷ []) (I32 ∷ [])
        (binary I64 op ∷ []) → ⊥ }
    ensures binary_of_one { (op : BinaryOp) → Types (I32 ∷ []) (I32 ∷ []) (binary I32 op ∷ []) → ⊥ }
    ensures binary_left_over { (op : BinaryOp) → Types (I32 ∷ I32 ∷ I32 ∷ []) (I32 ∷ [])
        (binary I32 op ∷ []) → ⊥ }
    ensures i32_compare { (op : RelationOp) → Types (I32 ∷ I32 ∷ []) (I32 ∷ [])
        (compare I32 op ∷ []) }
    ensures i64_compare { (op : RelationOp) → Types (I64 ∷ I64 ∷ []) (I32 ∷ [])
        (compare I64 op ∷ []) }
    ensures compare_to_its_type { (op : RelationOp) → Types (I64 ∷ I64 ∷ []) (I64 ∷ [])
        (compare I64 op ∷ []) → ⊥ }
    ensures compare_other_on_top { (op : RelationOp) → Types (I64 ∷ I32 ∷ []) (I32 ∷ [])
        (compare I64 op ∷ []) → ⊥ }
    ensures compare_other_below { (op : RelationOp) → Types (I32 ∷ I64 ∷ []) (I32 ∷ [])
        (compare I64 op ∷ []) → ⊥ }
    ensures compare_of_one { (op : RelationOp) → Types (I64 ∷ []) (I32 ∷ [])
        (compare I64 op ∷ []) → ⊥ }
{}

/// `drop` and `select` (3.3.2): of any type, and `select` of one type.
pub fn drop_and_select_are_typed()
    ensures drop_i32 { Types (I32 ∷ []) [] (drop' ∷ []) }
    ensures drop_i64 { Types (I64 ∷ []) [] (drop' ∷ []) }
    ensures drop_of_nothing { Gives [] (drop' ∷ []) → ⊥ }
    ensures drop_keeps_nothing { Types (I32 ∷ []) (I32 ∷ []) (drop' ∷ []) → ⊥ }
    ensures drop_of_one { Types (I32 ∷ I64 ∷ []) [] (drop' ∷ []) → ⊥ }
    ensures select_i32 { Types (I32 ∷ I32 ∷ I32 ∷ []) (I32 ∷ []) (select ∷ []) }
    ensures select_i64 { Types (I64 ∷ I64 ∷ I32 ∷ []) (I64 ∷ []) (select ∷ []) }
    ensures select_of_two_types { Types (I32 ∷ I64 ∷ I32 ∷ []) (I32 ∷ []) (select ∷ []) → ⊥ }
    ensures select_of_two_types_below { Types (I64 ∷ I32 ∷ I32 ∷ []) (I32 ∷ []) (select ∷ []) → ⊥ }
    ensures select_to_the_type_below { Types (I32 ∷ I64 ∷ I32 ∷ []) (I64 ∷ []) (select ∷ []) → ⊥ }
    ensures select_without_condition { Types (I32 ∷ I32 ∷ []) (I32 ∷ []) (select ∷ []) → ⊥ }
    ensures condition_of_other_type { Types (I32 ∷ I32 ∷ I64 ∷ []) (I32 ∷ []) (select ∷ []) → ⊥ }
    ensures select_to_other_type { Types (I32 ∷ I32 ∷ I32 ∷ []) (I64 ∷ []) (select ∷ []) → ⊥ }
    ensures select_to_nothing { Types (I32 ∷ I32 ∷ I32 ∷ []) [] (select ∷ []) → ⊥ }
    ensures select_of_one { Types (I32 ∷ I32 ∷ []) (I32 ∷ []) (select ∷ []) → ⊥ }
    ensures select_of_unknown_i32 { Gives (I32 ∷ []) (unreachable ∷ select ∷ []) }
    ensures select_of_unknown_i64 { Gives (I64 ∷ []) (unreachable ∷ select ∷ []) }
    ensures select_of_one_known { Gives (I64 ∷ [])
        (unreachable ∷ i64_const 1 ∷ i32_const 0 ∷ select ∷ []) }
    ensures select_of_other_known { Gives (I32 ∷ [])
        (unreachable ∷ i64_const 1 ∷ i32_const 0 ∷ select ∷ []) → ⊥ }
    ensures select_of_two_known { Gives (I32 ∷ [])
        (unreachable ∷ i64_const 1 ∷ i32_const 1 ∷ i32_const 0 ∷ select ∷ []) → ⊥ }
    ensures unknown_with_other_condition { Gives (I32 ∷ [])
        (unreachable ∷ i64_const 1 ∷ select ∷ []) → ⊥ }
{}

/// Instructions of locals (3.3.3): parameters are counted first.
pub fn locals_are_typed()
    ensures first_parameter { WithLocals (I32 ∷ []) (local_get 0 ∷ []) }
    ensures second_parameter { WithLocals (I64 ∷ []) (local_get 1 ∷ []) }
    ensures first_local { WithLocals (I32 ∷ []) (local_get 2 ∷ []) }
    ensures second_local { WithLocals (I64 ∷ []) (local_get 3 ∷ []) }
    ensures no_local { WithLocals (I32 ∷ []) (local_get 4 ∷ []) → ⊥ }
    ensures get_other_type { WithLocals (I32 ∷ []) (local_get 1 ∷ []) → ⊥ }
    ensures get_other_local_type { WithLocals (I64 ∷ []) (local_get 2 ∷ []) → ⊥ }
    ensures get_without_result { WithLocals [] (local_get 0 ∷ []) → ⊥ }
    ensures set { WithLocals [] (i64_const 1 ∷ local_set 3 ∷ []) }
    ensures set_other_type { WithLocals [] (i32_const 1 ∷ local_set 3 ∷ []) → ⊥ }
    ensures set_of_nothing { WithLocals [] (local_set 3 ∷ []) → ⊥ }
    ensures set_with_result { WithLocals (I64 ∷ []) (i64_const 1 ∷ local_set 3 ∷ []) → ⊥ }
    ensures set_no_local { WithLocals [] (i32_const 1 ∷ local_set 4 ∷ []) → ⊥ }
    ensures tee { WithLocals (I64 ∷ []) (i64_const 1 ∷ local_tee 1 ∷ []) }
    ensures tee_other_type { WithLocals (I32 ∷ []) (i32_const 1 ∷ local_tee 1 ∷ []) → ⊥ }
    ensures tee_of_nothing { WithLocals (I64 ∷ []) (local_tee 1 ∷ []) → ⊥ }
    ensures tee_without_result { WithLocals [] (i64_const 1 ∷ local_tee 1 ∷ []) → ⊥ }
    ensures tee_no_local { WithLocals (I32 ∷ []) (i32_const 1 ∷ local_tee 4 ∷ []) → ⊥ }
{}

/// Instructions of globals (3.3.3): only a variable is set.
pub fn globals_are_typed()
    ensures get_constant { Gives (I32 ∷ []) (global_get 0 ∷ []) }
    ensures get_variable { Gives (I64 ∷ []) (global_get 1 ∷ []) }
    ensures no_global { Gives (I32 ∷ []) (global_get 2 ∷ []) → ⊥ }
    ensures get_other_type { Gives (I64 ∷ []) (global_get 0 ∷ []) → ⊥ }
    ensures get_without_result { Gives [] (global_get 0 ∷ []) → ⊥ }
    ensures set_variable { Gives [] (i64_const 1 ∷ global_set 1 ∷ []) }
    ensures set_constant { Gives [] (i32_const 1 ∷ global_set 0 ∷ []) → ⊥ }
    ensures set_other_type { Gives [] (i32_const 1 ∷ global_set 1 ∷ []) → ⊥ }
    ensures set_of_nothing { Gives [] (global_set 1 ∷ []) → ⊥ }
    ensures set_with_result { Gives (I64 ∷ []) (i64_const 1 ∷ global_set 1 ∷ []) → ⊥ }
    ensures set_no_global { Gives [] (i64_const 1 ∷ global_set 2 ∷ []) → ⊥ }
{}

/// Loads (3.3.4), at each alignment up to the bytes that are read.
pub fn loads_are_typed()
    ensures i32 { (offset : ℕ) → Types (I32 ∷ []) (I32 ∷ []) (load_at load.I32 2 offset ∷ []) }
    ensures i32_aligned_more { (offset : ℕ) → Types (I32 ∷ []) (I32 ∷ [])
        (load_at load.I32 3 offset ∷ []) → ⊥ }
    ensures i64 { (offset : ℕ) → Types (I32 ∷ []) (I64 ∷ []) (load_at load.I64 3 offset ∷ []) }
    ensures i64_aligned_more { (offset : ℕ) → Types (I32 ∷ []) (I64 ∷ [])
        (load_at load.I64 4 offset ∷ []) → ⊥ }
    ensures i64_aligned_less { (offset : ℕ) → Types (I32 ∷ []) (I64 ∷ [])
        (load_at load.I64 0 offset ∷ []) }
    ensures i32_8 { (offset : ℕ) → Types (I32 ∷ []) (I32 ∷ [])
        (load_at load.I32From8S 0 offset ∷ []) }
    ensures i32_8_aligned_more { (offset : ℕ) → Types (I32 ∷ []) (I32 ∷ [])
        (load_at load.I32From8S 1 offset ∷ []) → ⊥ }
    ensures i64_16 { (offset : ℕ) → Types (I32 ∷ []) (I64 ∷ [])
        (load_at load.I64From16U 1 offset ∷ []) }
    ensures i64_16_aligned_more { (offset : ℕ) → Types (I32 ∷ []) (I64 ∷ [])
        (load_at load.I64From16U 2 offset ∷ []) → ⊥ }
    ensures i64_32 { (offset : ℕ) → Types (I32 ∷ []) (I64 ∷ [])
        (load_at load.I64From32S 2 offset ∷ []) }
    ensures i64_32_aligned_more { (offset : ℕ) → Types (I32 ∷ []) (I64 ∷ [])
        (load_at load.I64From32S 3 offset ∷ []) → ⊥ }
    ensures address_of_other_type { (offset : ℕ) → Types (I64 ∷ []) (I32 ∷ [])
        (load_at load.I32 2 offset ∷ []) → ⊥ }
    ensures to_other_type { (offset : ℕ) → Types (I32 ∷ []) (I64 ∷ [])
        (load_at load.I32 2 offset ∷ []) → ⊥ }
    ensures to_other_type_i64 { (offset : ℕ) → Types (I32 ∷ []) (I32 ∷ [])
        (load_at load.I64From8S 0 offset ∷ []) → ⊥ }
    ensures without_address { (offset : ℕ) → Types [] (I32 ∷ [])
        (load_at load.I32 2 offset ∷ []) → ⊥ }
    ensures without_memory { (offset : ℕ) → TypesWithoutMemory (I32 ∷ []) (I32 ∷ [])
        (load_at load.I32 2 offset ∷ []) → ⊥ }
{}

/// Stores, and instructions of the size of memory (3.3.4).
pub fn stores_and_sizes_are_typed()
    ensures i32 { (offset : ℕ) → Types (I32 ∷ I32 ∷ []) [] (store_at store.I32 2 offset ∷ []) }
    ensures i32_aligned_more { (offset : ℕ) → Types (I32 ∷ I32 ∷ []) []
        (store_at store.I32 3 offset ∷ []) → ⊥ }
    ensures i64 { (offset : ℕ) → Types (I32 ∷ I64 ∷ []) [] (store_at store.I64 3 offset ∷ []) }
    ensures i64_aligned_more { (offset : ℕ) → Types (I32 ∷ I64 ∷ []) []
        (store_at store.I64 4 offset ∷ []) → ⊥ }
    ensures i64_8 { (offset : ℕ) → Types (I32 ∷ I64 ∷ []) [] (store_at store.I64To8 0 offset ∷ []) }
    ensures i64_8_aligned_more { (offset : ℕ) → Types (I32 ∷ I64 ∷ []) []
        (store_at store.I64To8 1 offset ∷ []) → ⊥ }
    ensures address_on_top { (offset : ℕ) → Types (I64 ∷ I32 ∷ []) []
        (store_at store.I64 3 offset ∷ []) → ⊥ }
    ensures of_other_type { (offset : ℕ) → Types (I32 ∷ I32 ∷ []) []
        (store_at store.I64 3 offset ∷ []) → ⊥ }
    ensures address_of_other_type { (offset : ℕ) → Types (I64 ∷ I64 ∷ []) []
        (store_at store.I64 3 offset ∷ []) → ⊥ }
    ensures value_alone { (offset : ℕ) → Types (I64 ∷ []) []
        (store_at store.I64 3 offset ∷ []) → ⊥ }
    ensures with_result { (offset : ℕ) → Types (I32 ∷ I64 ∷ []) (I64 ∷ [])
        (store_at store.I64 3 offset ∷ []) → ⊥ }
    ensures without_memory { (offset : ℕ) → TypesWithoutMemory (I32 ∷ I32 ∷ []) []
        (store_at store.I32 2 offset ∷ []) → ⊥ }
    ensures size { Gives (I32 ∷ []) (memory_size ∷ []) }
    ensures size_of_other_type { Gives (I64 ∷ []) (memory_size ∷ []) → ⊥ }
    ensures size_without_memory { TypesWithoutMemory [] (I32 ∷ []) (memory_size ∷ []) → ⊥ }
    ensures grow { Types (I32 ∷ []) (I32 ∷ []) (memory_grow ∷ []) }
    ensures grow_by_nothing { Types [] (I32 ∷ []) (memory_grow ∷ []) → ⊥ }
    ensures grow_by_i64 { Types (I64 ∷ []) (I32 ∷ []) (memory_grow ∷ []) → ⊥ }
    ensures grow_to_other_type { Types (I32 ∷ []) (I64 ∷ []) (memory_grow ∷ []) → ⊥ }
    ensures grow_without_memory { TypesWithoutMemory (I32 ∷ []) (I32 ∷ []) (memory_grow ∷ []) → ⊥ }
{}

/// `nop`, and `unreachable`, after which operands are of any types (3.3.5).
pub fn unreachable_frees_the_stack()
    ensures nop { Gives [] (nop ∷ []) }
    ensures nop_keeps { Types (I32 ∷ []) (I32 ∷ []) (nop ∷ []) }
    ensures nop_gives_nothing { Types [] (I32 ∷ []) (nop ∷ []) → ⊥ }
    ensures nop_changes_nothing { Types (I32 ∷ []) (I64 ∷ []) (nop ∷ []) → ⊥ }
    ensures unreachable_i32 { Gives (I32 ∷ []) (unreachable ∷ []) }
    ensures unreachable_i64 { Gives (I64 ∷ []) (unreachable ∷ []) }
    ensures unreachable_drops { Types (I32 ∷ I64 ∷ []) [] (unreachable ∷ []) }
    ensures unknown_operands { (op : BinaryOp) → Gives (I64 ∷ [])
        (unreachable ∷ binary I64 op ∷ []) }
    ensures known_after_it { (op : BinaryOp) → Gives (I32 ∷ [])
        (unreachable ∷ i32_const 1 ∷ binary I64 op ∷ []) → ⊥ }
    ensures left_over_after_it { Gives (I32 ∷ [])
        (unreachable ∷ i32_const 1 ∷ i32_const 1 ∷ []) → ⊥ }
    ensures other_result_after_it { Gives (I32 ∷ []) (unreachable ∷ i64_const 1 ∷ []) → ⊥ }
    ensures inside_a_block_only { Gives (I32 ∷ []) (block_of Empty (unreachable ∷ []) ∷ []) → ⊥ }
    ensures block_result_after_it { Gives (I32 ∷ []) (block_of (One I32) (unreachable ∷ []) ∷ []) }
    ensures block_result_is_known { Gives (I64 ∷ [])
        (block_of (One I32) (unreachable ∷ []) ∷ []) → ⊥ }
{}

/// `br` and `br_if` (3.3.5): a label is counted from the innermost.
pub fn branches_are_typed()
    ensures out_of_the_body { Gives (I32 ∷ []) (i32_const 1 ∷ br 0 ∷ []) }
    ensures br_drops { Gives (I32 ∷ []) (i64_const 2 ∷ i32_const 1 ∷ br 0 ∷ []) }
    ensures stack_is_free_after_br { Gives (I32 ∷ []) (i32_const 1 ∷ br 0 ∷ drop' ∷ []) }
    ensures no_label { Gives [] (br 1 ∷ []) → ⊥ }
    ensures br_with_nothing { Gives (I32 ∷ []) (br 0 ∷ []) → ⊥ }
    ensures br_with_other_type { Gives (I32 ∷ []) (i64_const 1 ∷ br 0 ∷ []) → ⊥ }
    ensures out_of_two { Gives (I32 ∷ [])
        (block_of Empty (i32_const 1 ∷ br 1 ∷ []) ∷ i32_const 2 ∷ []) }
    ensures out_of_the_inner { Gives (I32 ∷ [])
        (block_of Empty (br 1 ∷ []) ∷ i32_const 2 ∷ []) → ⊥ }
    ensures br_if { Gives (I32 ∷ []) (i32_const 5 ∷ i32_const 1 ∷ br_if 0 ∷ []) }
    ensures br_if_without_condition { Gives (I32 ∷ []) (i32_const 5 ∷ br_if 0 ∷ []) → ⊥ }
    ensures br_if_on_i64 { Gives (I32 ∷ []) (i32_const 5 ∷ i64_const 1 ∷ br_if 0 ∷ []) → ⊥ }
    ensures br_if_without_operand { Gives (I32 ∷ [])
        (i32_const 1 ∷ br_if 0 ∷ i32_const 5 ∷ []) → ⊥ }
    ensures br_if_no_label { Gives [] (i32_const 1 ∷ br_if 1 ∷ []) → ⊥ }
    ensures br_if_with_other_type { Gives (I32 ∷ [])
        (i64_const 5 ∷ i32_const 1 ∷ br_if 0 ∷ drop' ∷ i32_const 1 ∷ []) → ⊥ }
    ensures stack_is_known_after_br_if { Gives (I32 ∷ [])
        (i32_const 5 ∷ i32_const 1 ∷ br_if 0 ∷ drop' ∷ []) → ⊥ }
    ensures br_if_keeps_what_is_below { Gives (I32 ∷ [])
        (i64_const 5 ∷ i32_const 1 ∷ block_of Empty (i32_const 1 ∷ br_if 0 ∷ []) ∷ br 0 ∷ []) }
    ensures known_after_br_if { Gives (I32 ∷ []) (unreachable ∷ br_if 0 ∷ []) }
    ensures known_type_after_br_if { (op : TestOp) → Gives (I32 ∷ [])
        (unreachable ∷ br_if 0 ∷ test I64 op ∷ []) → ⊥ }
{}

/// `br_table` and `return` (3.3.5): all labels of a table take the same types.
pub fn branch_tables_are_typed()
    ensures table { Gives (I32 ∷ []) (i32_const 5 ∷ i32_const 1 ∷ br_table (0 ∷ 0 ∷ []) 0 ∷ []) }
    ensures table_of_none { Gives (I32 ∷ []) (i32_const 5 ∷ i32_const 1 ∷ br_table [] 0 ∷ []) }
    ensures two_labels { Gives (I32 ∷ [])
        (block_of (One I32) (i32_const 5 ∷ i32_const 1 ∷ br_table (0 ∷ 1 ∷ []) 1 ∷ []) ∷ []) }
    ensures labels_of_two_types { Gives (I32 ∷ [])
        (block_of Empty
        (i32_const 5 ∷ i32_const 1 ∷ br_table (0 ∷ 1 ∷ []) 1 ∷ []) ∷ i32_const 1 ∷ []) → ⊥ }
    ensures other_label_of_other_type { Gives (I32 ∷ [])
        (block_of Empty (i32_const 5 ∷ i32_const 1 ∷ br_table (1 ∷ []) 0 ∷ []) ∷ i32_const 1 ∷ [])
        → ⊥ }
    ensures no_label_in_the_table { Gives [] (i32_const 1 ∷ br_table (0 ∷ 1 ∷ []) 0 ∷ []) → ⊥ }
    ensures no_other_label { Gives [] (i32_const 1 ∷ br_table (0 ∷ []) 1 ∷ []) → ⊥ }
    ensures index_of_other_type { Gives (I32 ∷ [])
        (i32_const 5 ∷ i64_const 1 ∷ br_table (0 ∷ []) 0 ∷ []) → ⊥ }
    ensures no_index { Gives (I32 ∷ []) (i32_const 5 ∷ br_table (0 ∷ []) 0 ∷ []) → ⊥ }
    ensures no_operand { Gives (I32 ∷ [])
        (i32_const 1 ∷ br_table (0 ∷ []) 0 ∷ i32_const 5 ∷ []) → ⊥ }
    ensures operand_of_other_type { Gives (I32 ∷ [])
        (i64_const 5 ∷ i32_const 1 ∷ br_table (0 ∷ []) 0 ∷ []) → ⊥ }
    ensures stack_is_free_after_it { Gives (I32 ∷ [])
        (i32_const 5 ∷ i32_const 1 ∷ br_table (0 ∷ []) 0 ∷ drop' ∷ []) }
    ensures by_return { Gives (I32 ∷ []) (i32_const 1 ∷ return' ∷ []) }
    ensures return_from_a_block { Gives (I32 ∷ [])
        (block_of Empty (i32_const 1 ∷ return' ∷ []) ∷ i32_const 2 ∷ []) }
    ensures return_drops { Gives (I32 ∷ []) (i64_const 1 ∷ i32_const 1 ∷ return' ∷ []) }
    ensures stack_is_free_after_return { Gives (I32 ∷ []) (i32_const 1 ∷ return' ∷ drop' ∷ []) }
    ensures return_of_nothing { Gives (I32 ∷ []) (return' ∷ []) → ⊥ }
    ensures return_of_other_type { Gives (I32 ∷ []) (i64_const 1 ∷ return' ∷ []) → ⊥ }
{}

/// Calls (3.3.5), imports counted first, and calls through the table.
pub fn calls_are_typed()
    ensures import { Types (I32 ∷ []) [] (call 0 ∷ []) }
    ensures own { Types (I32 ∷ I64 ∷ []) (I64 ∷ []) (call 3 ∷ []) }
    ensures no_function { Types [] [] (call 4 ∷ []) → ⊥ }
    ensures itself { Gives (I64 ∷ []) (call 1 ∷ []) }
    ensures no_argument { Types [] [] (call 0 ∷ []) → ⊥ }
    ensures argument_of_other_type { Types (I64 ∷ []) [] (call 0 ∷ []) → ⊥ }
    ensures arguments_in_other_order { Types (I64 ∷ I32 ∷ []) (I64 ∷ []) (call 3 ∷ []) → ⊥ }
    ensures one_argument { Types (I64 ∷ []) (I64 ∷ []) (call 3 ∷ []) → ⊥ }
    ensures to_other_type { Types (I32 ∷ I64 ∷ []) (I32 ∷ []) (call 3 ∷ []) → ⊥ }
    ensures result_left_over { Types (I32 ∷ I64 ∷ []) [] (call 3 ∷ []) → ⊥ }
    ensures argument_is_taken { Types (I32 ∷ []) (I32 ∷ []) (call 0 ∷ []) → ⊥ }
    ensures indirect { Types (I32 ∷ I64 ∷ I32 ∷ []) (I64 ∷ []) (call_indirect 3 ∷ []) }
    ensures no_type { Types (I32 ∷ []) [] (call_indirect 4 ∷ []) → ⊥ }
    ensures indirect_without_index { Types (I32 ∷ I64 ∷ []) (I64 ∷ []) (call_indirect 3 ∷ []) → ⊥ }
    ensures index_of_other_type { Types (I32 ∷ I64 ∷ I64 ∷ []) (I64 ∷ [])
        (call_indirect 3 ∷ []) → ⊥ }
    ensures indirect_in_other_order { Types (I64 ∷ I32 ∷ I32 ∷ []) (I64 ∷ [])
        (call_indirect 3 ∷ []) → ⊥ }
    ensures indirect_to_other_type { Types (I32 ∷ I64 ∷ I32 ∷ []) (I32 ∷ [])
        (call_indirect 3 ∷ []) → ⊥ }
    ensures without_table { TypesWithoutTable (I32 ∷ I64 ∷ I32 ∷ []) (I64 ∷ [])
        (call_indirect 3 ∷ []) → ⊥ }
{}

/// Blocks whose type is given by an index (Core 2.0, 3.3.8): a body begins with the parameters alone, a
/// branch to a loop takes them, and an `if` without an else arm gives what it takes. `with_body` has the
/// types: the function's own, i32 to nothing, nothing to i32, i32 and i64 to i64.
pub fn blocks_by_index_are_typed()
    ensures block { Types (I32 ∷ I64 ∷ []) (I64 ∷ []) (block_of (Index 3)
        (convert Wrap ∷ binary I32 Add ∷ convert ExtendU ∷ []) ∷ []) }
    ensures block_without_parameters { Types (I32 ∷ I64 ∷ []) (I64 ∷ []) (block_of (One I64)
        (convert Wrap ∷ binary I32 Add ∷ convert ExtendU ∷ []) ∷ []) → ⊥ }
    ensures parameter_left_over { Types (I32 ∷ I64 ∷ []) (I64 ∷ []) (block_of (Index 3) [] ∷ [])
        → ⊥ }
    ensures parameters_out_of_order { Types (I64 ∷ I32 ∷ []) (I64 ∷ [])
        (block_of (Index 3) (br 0 ∷ []) ∷ []) → ⊥ }
    ensures parameter_not_there { Types (I64 ∷ []) (I64 ∷ []) (block_of (Index 3) (br 0 ∷ []) ∷ [])
        → ⊥ }
    ensures below_the_parameters { Types (I64 ∷ I32 ∷ []) []
        (block_of (Index 1) (drop' ∷ drop' ∷ []) ∷ []) → ⊥ }
    ensures no_type { Gives [] (block_of (Index 4) [] ∷ []) → ⊥ }
    ensures branch_to_a_block { Types (I32 ∷ []) [] (block_of (Index 1) (drop' ∷ br 0 ∷ []) ∷ []) }
    ensures branch_to_a_loop { Types (I32 ∷ I64 ∷ []) (I64 ∷ [])
        (loop_of (Index 3) (br 0 ∷ []) ∷ []) }
    ensures branch_to_a_loop_without_parameters { Types (I32 ∷ []) []
        (loop_of (Index 1) (drop' ∷ br 0 ∷ []) ∷ []) → ⊥ }
    ensures two_results { Gives (I32 ∷ I64 ∷ [])
        (block_of (Index 0) (i32_const 1 ∷ i64_const 1 ∷ []) ∷ []) }
    ensures branch_with_two { Gives (I32 ∷ I64 ∷ []) (block_of (Index 0)
        (i32_const 1 ∷ i64_const 1 ∷ br 0 ∷ []) ∷ []) }
    ensures branch_with_one_of_two { Gives (I32 ∷ I64 ∷ [])
        (block_of (Index 0) (i64_const 1 ∷ br 0 ∷ []) ∷ []) → ⊥ }
    ensures if_without_else { Types (I32 ∷ []) (I32 ∷ [])
        (i32_const 1 ∷ if_of (Index 0) [] [] ∷ []) }
    ensures if_without_else_of_other_results { Types (I32 ∷ []) []
        (i32_const 1 ∷ if_of (Index 1) (drop' ∷ []) [] ∷ []) → ⊥ }
    ensures if_with_else { Types (I32 ∷ []) []
        (i32_const 1 ∷ if_of (Index 1) (drop' ∷ []) (drop' ∷ []) ∷ []) }
    ensures call { Gives (I32 ∷ I64 ∷ []) (call 1 ∷ []) }
    ensures tables_of_unequal_labels { Gives (I32 ∷ I64 ∷ []) (block_of (One I64)
        (i32_const 1 ∷ i64_const 1 ∷ i32_const 0 ∷ br_table (0 ∷ []) 1 ∷ []) ∷ []) → ⊥ }
{}

/// Blocks, loops and ifs (3.3.5): a body begins with no operands and ends with the results.
pub fn blocks_are_typed()
    ensures block { Gives (I32 ∷ []) (block_of (One I32) (i32_const 1 ∷ []) ∷ []) }
    ensures i64_block { Gives (I64 ∷ []) (block_of (One I64) (i64_const 1 ∷ []) ∷ []) }
    ensures block_keeps { Types (I32 ∷ []) (I32 ∷ []) (block_of Empty [] ∷ []) }
    ensures block_without_result { Gives (I32 ∷ []) (block_of (One I32) [] ∷ []) → ⊥ }
    ensures block_with_other_result { Gives (I32 ∷ [])
        (block_of (One I32) (i64_const 1 ∷ []) ∷ []) → ⊥ }
    ensures block_with_more { Gives [] (block_of Empty (i32_const 1 ∷ []) ∷ []) → ⊥ }
    ensures block_result_left_over { Gives [] (block_of (One I32) (i32_const 1 ∷ []) ∷ []) → ⊥ }
    ensures operand_below_a_block { Types (I32 ∷ []) [] (block_of Empty (drop' ∷ []) ∷ []) → ⊥ }
    ensures branch_out_of_a_block { Gives (I32 ∷ [])
        (block_of (One I32) (i32_const 1 ∷ br 0 ∷ []) ∷ []) }
    ensures branch_with_nothing { Gives (I32 ∷ []) (block_of (One I32) (br 0 ∷ []) ∷ []) → ⊥ }
    ensures loop_result { Gives (I32 ∷ []) (loop_of (One I32) (i32_const 1 ∷ []) ∷ []) }
    ensures branch_to_a_loop { Gives (I32 ∷ []) (loop_of (One I32) (br 0 ∷ []) ∷ []) }
    ensures loop_without_result { Gives (I32 ∷ []) (loop_of (One I32) [] ∷ []) → ⊥ }
    ensures loop_result_left_over { Gives [] (loop_of (One I32) (i32_const 1 ∷ []) ∷ []) → ⊥ }
    ensures operand_below_a_loop { Types (I32 ∷ []) [] (loop_of Empty (drop' ∷ []) ∷ []) → ⊥ }
    ensures if_result { Types (I32 ∷ []) (I64 ∷ [])
        (if_of (One I64) (i64_const 1 ∷ []) (i64_const 2 ∷ []) ∷ []) }
    ensures no_condition { Types [] [] (if_of Empty [] [] ∷ []) → ⊥ }
    ensures condition_of_other_type { Types (I64 ∷ []) [] (if_of Empty [] [] ∷ []) → ⊥ }
    ensures then_arm_without_result { Types (I32 ∷ []) (I32 ∷ [])
        (if_of (One I32) [] (i32_const 1 ∷ []) ∷ []) → ⊥ }
    ensures else_arm_without_result { Types (I32 ∷ []) (I32 ∷ [])
        (if_of (One I32) (i32_const 1 ∷ []) [] ∷ []) → ⊥ }
    ensures then_arm_with_other_result { Types (I32 ∷ []) (I32 ∷ [])
        (if_of (One I32) (i64_const 1 ∷ []) (i32_const 1 ∷ []) ∷ []) → ⊥ }
    ensures else_arm_with_other_result { Types (I32 ∷ []) (I32 ∷ [])
        (if_of (One I32) (i32_const 1 ∷ []) (i64_const 1 ∷ []) ∷ []) → ⊥ }
    ensures branches_out_of_arms { Types (I32 ∷ []) (I32 ∷ [])
        (if_of (One I32) (i32_const 1 ∷ br 0 ∷ []) (i32_const 1 ∷ br 0 ∷ []) ∷ []) }
    ensures then_branch_with_nothing { Types (I32 ∷ []) (I32 ∷ [])
        (if_of (One I32) (br 0 ∷ []) (i32_const 1 ∷ []) ∷ []) → ⊥ }
    ensures else_branch_with_nothing { Types (I32 ∷ []) (I32 ∷ [])
        (if_of (One I32) (i32_const 1 ∷ []) (br 0 ∷ []) ∷ []) → ⊥ }
    ensures condition_is_taken { Types (I32 ∷ []) (I32 ∷ []) (if_of Empty [] [] ∷ []) → ⊥ }
    ensures if_result_left_over { Types (I32 ∷ []) []
        (if_of (One I32) (i32_const 1 ∷ []) (i32_const 2 ∷ []) ∷ []) → ⊥ }
{}

/// A module that is refused as invalid is not valid, wherever its fault is.
pub fn invalid_modules_are_not_valid()
    ensures { (m : Module) (at : Option Place) → NamesFault m at → ValidModule m → ⊥ }
{}

/// Where faults may be named: nowhere in a valid module; outside the bodies only where there is a fault; and
/// in a body that has no typing, up to its end.
pub fn faults_are_where_they_are_named()
    ensures outside { NamesFault (record plain { memories = limits 1 None ∷ limits 1 None ∷ [] })
        None }
    ensures not_outside { NamesFault (with_body (func_type [] []) [] (i32_const 1 ∷ [])) None → ⊥ }
    ensures at_the_end { NamesFault (with_body (func_type [] []) [] (i32_const 1 ∷ []))
        (Some (record { func = 1; instr = 1 })) }
    ensures past_the_end { NamesFault (with_body (func_type [] []) [] (i32_const 1 ∷ []))
        (Some (record { func = 1; instr = 2 })) → ⊥ }
    ensures other_function { NamesFault (with_body (func_type [] []) [] (i32_const 1 ∷ []))
        (Some (record { func = 2; instr = 0 })) → ⊥ }
    ensures import { NamesFault (with_body (func_type [] []) [] (i32_const 1 ∷ []))
        (Some (record { func = 0; instr = 0 })) → ⊥ }
{}

/// Sign extensions (Core 2.0, 3.3.1): from a type to itself.
pub fn sign_extensions_are_typed()
    ensures extend8 { Types (I32 ∷ []) (I32 ∷ []) (convert I32From8S ∷ []) }
    ensures extend8_of_other { Types (I64 ∷ []) (I32 ∷ []) (convert I32From8S ∷ []) → ⊥ }
    ensures extend8_to_other { Types (I32 ∷ []) (I64 ∷ []) (convert I32From8S ∷ []) → ⊥ }
    ensures extend16 { Types (I32 ∷ []) (I32 ∷ []) (convert I32From16S ∷ []) }
    ensures extend16_of_other { Types (I64 ∷ []) (I32 ∷ []) (convert I32From16S ∷ []) → ⊥ }
    ensures extend16_to_other { Types (I32 ∷ []) (I64 ∷ []) (convert I32From16S ∷ []) → ⊥ }
    ensures extend8_64 { Types (I64 ∷ []) (I64 ∷ []) (convert I64From8S ∷ []) }
    ensures extend8_64_of_other { Types (I32 ∷ []) (I64 ∷ []) (convert I64From8S ∷ []) → ⊥ }
    ensures extend8_64_to_other { Types (I64 ∷ []) (I32 ∷ []) (convert I64From8S ∷ []) → ⊥ }
    ensures extend16_64 { Types (I64 ∷ []) (I64 ∷ []) (convert I64From16S ∷ []) }
    ensures extend16_64_of_other { Types (I32 ∷ []) (I64 ∷ []) (convert I64From16S ∷ []) → ⊥ }
    ensures extend16_64_to_other { Types (I64 ∷ []) (I32 ∷ []) (convert I64From16S ∷ []) → ⊥ }
    ensures extend32_64 { Types (I64 ∷ []) (I64 ∷ []) (convert I64From32S ∷ []) }
    ensures extend32_64_of_other { Types (I32 ∷ []) (I64 ∷ []) (convert I64From32S ∷ []) → ⊥ }
    ensures extend32_64_to_other { Types (I64 ∷ []) (I32 ∷ []) (convert I64From32S ∷ []) → ⊥ }
{}

/// Functions, their types, and those of imports (3.4.1, 3.4.9, Core 2.0, 3.2.3).
pub fn functions_and_types_are_valid()
    ensures plain { ValidModule plain }
    ensures no_result { Gives (I32 ∷ []) (nop ∷ []) → ⊥ }
    ensures result_of_other_type { Gives (I32 ∷ []) (i64_const 1 ∷ []) → ⊥ }
    ensures result_left_over { Gives (I32 ∷ []) (i32_const 1 ∷ i32_const 1 ∷ []) → ⊥ }
    ensures no_type_of_function { ValidModule (record plain { funcs = func 4 [] [] ∷ [] }) → ⊥ }
    ensures second_function { ValidModule
        (record plain { funcs = func 0 [] [] ∷ func 2 [] [] ∷ [] }) → ⊥ }
    ensures type_of_import { ValidModule (record plain { imports = import_of 3 ∷ []; funcs = [] }) }
    ensures no_type_of_import { ValidModule
        (record plain { imports = import_of 4 ∷ []; funcs = [] }) → ⊥ }
    ensures second_import { ValidModule
        (record plain { imports = import_of 1 ∷ import_of 4 ∷ []; funcs = [] }) → ⊥ }
    ensures two_results { ValidModule (with_types (func_type [] (I32 ∷ I64 ∷ []) ∷ [])) }
    ensures two_results_in_order { Gives (I32 ∷ I64 ∷ []) (i32_const 1 ∷ i64_const 1 ∷ []) }
    ensures two_results_out_of_order { Gives (I32 ∷ I64 ∷ []) (i64_const 1 ∷ i32_const 1 ∷ [])
        → ⊥ }
    ensures one_result_of_two { Gives (I32 ∷ I64 ∷ []) (i64_const 1 ∷ []) → ⊥ }
    ensures many_parameters { ValidModule
        (with_types (func_type (I32 ∷ I32 ∷ I64 ∷ []) (I32 ∷ []) ∷ [])) }
{}

/// Tables and memories
/// (3.4.2, 3.4.3, 3.2.1): at most one of each, with limits in range and in order.
pub fn tables_and_memories_are_valid()
    ensures no_table { ValidModule (record plain { tables = [] }) }
    ensures two_tables { ValidModule
        (record plain { tables = limits 1 None ∷ limits 1 None ∷ [] }) → ⊥ }
    ensures table_of_one_size { ValidModule (record plain { tables = limits 5 (Some 5) ∷ [] }) }
    ensures table_out_of_order { ValidModule
        (record plain { tables = limits 5 (Some 4) ∷ [] }) → ⊥ }
    ensures largest_table { ValidModule
        (record plain { tables = limits (2 ^ 32) (Some (2 ^ 32)) ∷ [] }) }
    ensures table_out_of_range { ValidModule
        (record plain { tables = limits (2 ^ 32 + 1) None ∷ [] }) → ⊥ }
    ensures most_out_of_range { ValidModule
        (record plain { tables = limits 1 (Some (2 ^ 32 + 1)) ∷ [] }) → ⊥ }
    ensures no_memory { ValidModule (record plain { memories = [] }) }
    ensures two_memories { ValidModule
        (record plain { memories = limits 1 None ∷ limits 1 None ∷ [] }) → ⊥ }
    ensures memory_of_one_size { ValidModule (record plain { memories = limits 5 (Some 5) ∷ [] }) }
    ensures memory_out_of_order { ValidModule
        (record plain { memories = limits 5 (Some 4) ∷ [] }) → ⊥ }
    ensures largest_memory { ValidModule
        (record plain { memories = limits 65536 (Some 65536) ∷ [] }) }
    ensures memory_out_of_range { ValidModule
        (record plain { memories = limits 65537 None ∷ [] }) → ⊥ }
    ensures most_pages_out_of_range { ValidModule
        (record plain { memories = limits 1 (Some 65537) ∷ [] }) → ⊥ }
{}

/// Globals (3.4.4), which begin with a constant (3.3.7), and exports (3.4.8, 3.4.10).
pub fn globals_and_exports_are_valid()
    ensures global { ValidModule
        (record plain { globals = variable_of I64 (i64_const 7 ∷ []) ∷ [] }) }
    ensures global_of_other_type { ValidModule
        (record plain { globals = constant_of I64 (i32_const 7 ∷ []) ∷ [] }) → ⊥ }
    ensures empty_expression { ValidModule
        (record plain { globals = constant_of I32 [] ∷ [] }) → ⊥ }
    ensures two_constants { ValidModule
        (record plain { globals = constant_of I32 (i32_const 1 ∷ i32_const 2 ∷ []) ∷ [] }) → ⊥ }
    ensures no_constant { ValidModule
        (record plain { globals = constant_of I32 (i32_const 1 ∷ drop' ∷ i32_const 2 ∷ []) ∷ [] })
        → ⊥ }
    ensures global_of_a_global { ValidModule
        (record plain { globals = constant_of I32 (global_get 0 ∷ []) ∷ [] }) → ⊥ }
    ensures block_of_a_constant { ValidModule
        (record plain
        { globals = constant_of I32 (block_of (One I32) (i32_const 1 ∷ []) ∷ []) ∷ [] }) → ⊥ }
    ensures second_global { ValidModule
        (record plain { globals = constant_of I32 (i32_const 1 ∷ []) ∷ constant_of I32 [] ∷ [] }) →
        ⊥ }
    ensures last_function { ValidModule (record plain { exports = export_of [] kind.Func 3 ∷ [] }) }
    ensures no_function { ValidModule
        (record plain { exports = export_of [] kind.Func 4 ∷ [] }) → ⊥ }
    ensures table { ValidModule (record plain { exports = export_of [] kind.Table 0 ∷ [] }) }
    ensures no_table { ValidModule (record plain { exports = export_of [] kind.Table 1 ∷ [] }) → ⊥ }
    ensures memory { ValidModule (record plain { exports = export_of [] kind.Memory 0 ∷ [] }) }
    ensures no_memory { ValidModule
        (record plain { exports = export_of [] kind.Memory 1 ∷ [] }) → ⊥ }
    ensures last_global { ValidModule (record plain { exports = export_of [] kind.Global 1 ∷ [] }) }
    ensures no_global { ValidModule
        (record plain { exports = export_of [] kind.Global 2 ∷ [] }) → ⊥ }
    ensures two_names { ValidModule
        (record plain
        { exports = export_of (1 ∷ []) kind.Func 0 ∷ export_of (2 ∷ []) kind.Func 0 ∷ [] }) }
    ensures same_names { ValidModule
        (record plain
        { exports = export_of (1 ∷ []) kind.Func 0 ∷ export_of (1 ∷ []) kind.Func 1 ∷ [] }) → ⊥ }
    ensures same_names_apart { ValidModule
        (record plain {
          exports = export_of (1 ∷ []) kind.Func 0 ∷ export_of (2 ∷ []) kind.Func 0 ∷ export_of
              (1 ∷ []) kind.Table 0 ∷ [];
        }) → ⊥ }
    ensures same_names_later { ValidModule
        (record plain {
          exports = export_of [] kind.Func 0 ∷ export_of (1 ∷ []) kind.Func 0 ∷ export_of
              (1 ∷ []) kind.Func 0 ∷ [];
        }) → ⊥ }
{}

/// The start function (3.4.7), and segments of functions and of bytes (3.4.5, 3.4.6).
pub fn start_and_segments_are_valid()
    ensures start { ValidModule (record plain { start = Some 1 }) }
    ensures start_that_takes { ValidModule (record plain { start = Some 0 }) → ⊥ }
    ensures start_that_gives { ValidModule (record plain { start = Some 2 }) → ⊥ }
    ensures no_start_function { ValidModule (record plain { start = Some 4 }) → ⊥ }
    ensures element { ValidModule
        (record plain { elements = element 0 (i32_const 9 ∷ []) (0 ∷ 3 ∷ []) ∷ [] }) }
    ensures no_table_of_element { ValidModule
        (record plain { elements = element 1 (i32_const 9 ∷ []) [] ∷ [] }) → ⊥ }
    ensures element_without_table { ValidModule
        (record plain { tables = []; elements = element 0 (i32_const 9 ∷ []) [] ∷ [] }) → ⊥ }
    ensures element_at_i64 { ValidModule
        (record plain { elements = element 0 (i64_const 9 ∷ []) [] ∷ [] }) → ⊥ }
    ensures element_at_no_constant { ValidModule
        (record plain { elements = element 0 (global_get 0 ∷ []) [] ∷ [] }) → ⊥ }
    ensures no_function_of_element { ValidModule
        (record plain { elements = element 0 (i32_const 9 ∷ []) (0 ∷ 4 ∷ []) ∷ [] }) → ⊥ }
    ensures second_element { ValidModule
        (record plain {
          elements = element 0 (i32_const 9 ∷ []) [] ∷ element 0 (i32_const 9 ∷ [])
              (4 ∷ []) ∷ [];
        }) → ⊥ }
    ensures segment { ValidModule (record plain { segments = segment 0 (i32_const 9 ∷ []) ∷ [] }) }
    ensures no_memory_of_segment { ValidModule
        (record plain { segments = segment 1 (i32_const 9 ∷ []) ∷ [] }) → ⊥ }
    ensures segment_without_memory { ValidModule
        (record plain { memories = []; segments = segment 0 (i32_const 9 ∷ []) ∷ [] }) → ⊥ }
    ensures segment_at_i64 { ValidModule
        (record plain { segments = segment 0 (i64_const 9 ∷ []) ∷ [] }) → ⊥ }
    ensures segment_at_no_constant { ValidModule
        (record plain { segments = segment 0 [] ∷ [] }) → ⊥ }
    ensures second_segment { ValidModule
        (record plain
        { segments = segment 0 (i32_const 9 ∷ []) ∷ segment 1 (i32_const 9 ∷ []) ∷ [] }) → ⊥ }
{}

/// The operands and labels before an instruction (3.3.5, 3.3.6), at places of two bodies: those of the
/// block that it is in first.
pub fn instructions_lead_to_points()
    ensures first { LeadsTo (I32 ∷ []) branch_body 0 (point_of ((I32 ∷ []) ∷ []) ([] ∷ [])) }
    ensures before_a_block { LeadsTo (I32 ∷ []) branch_body 1
        (point_of ((I32 ∷ []) ∷ []) ((I32 ∷ []) ∷ [])) }
    ensures first_of_a_block { LeadsTo (I32 ∷ []) branch_body 2
        (point_of ((I32 ∷ []) ∷ (I32 ∷ []) ∷ []) ([] ∷ (I32 ∷ []) ∷ [])) }
    ensures before_a_branch { LeadsTo (I32 ∷ []) branch_body 3
        (point_of ((I32 ∷ []) ∷ (I32 ∷ []) ∷ []) ((I32 ∷ []) ∷ (I32 ∷ []) ∷ [])) }
    ensures past_a_branch { (ts : List ValType) → MayLeadTo (I32 ∷ []) branch_body 4
        (point_of ((I32 ∷ []) ∷ (I32 ∷ []) ∷ []) (ts ∷ (I32 ∷ []) ∷ [])) }
    ensures past_a_branch_outside { (ts us : List ValType) → MayLeadTo (I32 ∷ []) branch_body 4
        (point_of ((I32 ∷ []) ∷ (I32 ∷ []) ∷ []) (ts ∷ us ∷ [])) → us ≡ I32 ∷ [] }
    ensures past_a_block { LeadsTo (I32 ∷ []) branch_body 5
        (point_of ((I32 ∷ []) ∷ []) ((I32 ∷ I32 ∷ []) ∷ [])) }
    ensures past_the_end { (p : Point) → MayLeadTo (I32 ∷ []) branch_body 6 p → ⊥ }
    ensures before_an_if { LeadsTo [] arms_body 1 (point_of ([] ∷ []) ((I32 ∷ []) ∷ [])) }
    ensures then_arm { LeadsTo [] arms_body 2 (point_of ((I64 ∷ []) ∷ [] ∷ []) ([] ∷ [] ∷ [])) }
    ensures else_arm { LeadsTo [] arms_body 3 (point_of ((I64 ∷ []) ∷ [] ∷ []) ([] ∷ [] ∷ [])) }
    ensures before_a_loop { LeadsTo [] arms_body 4
        (point_of ((I64 ∷ []) ∷ [] ∷ []) ([] ∷ [] ∷ [])) }
    ensures first_of_a_loop { LeadsTo [] arms_body 5
        (point_of ([] ∷ (I64 ∷ []) ∷ [] ∷ []) ([] ∷ [] ∷ [] ∷ [])) }
    ensures past_an_if { LeadsTo [] arms_body 6 (point_of ([] ∷ []) ((I64 ∷ []) ∷ [])) }
{}

/// Typings of a whole body pass through points that the instructions before a place lead to. Where the
/// place cannot be reached they need not pass through each: what follows is typed as well.
pub fn typings_pass_through_points()
    ensures leads { (m : Module) (func place : ℕ) (p : Point) → PassesAt m func place p
        → ReachesAt m func place p }
    ensures each_place { (m : Module) (func place : ℕ) → ValidModule m → IsPlace m func place
        → (p : Point) × PassesAt m func place p }
    ensures typed { (m : Module) (func place : ℕ) (p : Point) → PassesAt m func place p
        → (f : Func) × (t : FuncType) × IsOwn m func f
        × Typed (body_context m t f) f.body [] (reverse t.results) }
    ensures before_the_sum { MayPass (I32 ∷ []) branch_body 4
        (point_of ((I32 ∷ []) ∷ (I32 ∷ []) ∷ []) ((I32 ∷ I32 ∷ []) ∷ (I32 ∷ []) ∷ [])) }
    ensures without_an_operand { (ts : List ValType) → MayPass (I32 ∷ []) branch_body 4
        (point_of ((I32 ∷ []) ∷ (I32 ∷ []) ∷ []) (ts ∷ (I32 ∷ []) ∷ [])) → ts ≡ I32 ∷ I32 ∷ [] }
{}

/// What is known of operands: a type matches itself, an operand that is not known matches each type, and
/// there may be others below only if the point cannot be reached.
pub fn known_operands_match()
    ensures same_types { Matches (known_stack false (Some I32 ∷ Some I64 ∷ [])) (I32 ∷ I64 ∷ []) }
    ensures other_type { Matches (known_stack false (Some I32 ∷ [])) (I64 ∷ []) → ⊥ }
    ensures other_order { Matches (known_stack false (Some I32 ∷ Some I64 ∷ [])) (I64 ∷ I32 ∷ [])
        → ⊥ }
    ensures not_known { (t : ValType) → Matches (known_stack true (None ∷ Some I64 ∷ []))
        (t ∷ I64 ∷ []) }
    ensures none { Matches (known_stack false []) [] }
    ensures others_below { (t : ValType) (ts : List ValType)
        → Matches (known_stack false (Some I32 ∷ [])) (I32 ∷ t ∷ ts) → ⊥ }
    ensures others_below_unreachable { (ts : List ValType)
        → Matches (known_stack true (Some I32 ∷ [])) (I32 ∷ ts) }
    ensures too_few { Matches (known_stack true (Some I32 ∷ [])) [] → ⊥ }
    ensures not_known_too_few { Matches (known_stack true (None ∷ [])) [] → ⊥ }
    ensures point { (k : Known) (p : Point) → MatchPoint k p → k.labels ≡ p.labels }
    ensures each_block { (labels : List (List ValType)) → MatchPoint
        (known_point labels (known_stack false [] ∷ known_stack false (Some I32 ∷ []) ∷ []))
        (point_of labels ([] ∷ (I32 ∷ []) ∷ [])) }
    ensures other_block { (labels : List (List ValType)) → MatchPoint
        (known_point labels (known_stack false [] ∷ known_stack false (Some I32 ∷ []) ∷ []))
        (point_of labels ([] ∷ (I64 ∷ []) ∷ [])) → ⊥ }
    ensures fewer_blocks { (labels : List (List ValType)) (ts : List ValType) → MatchPoint
        (known_point labels (known_stack true [] ∷ known_stack true [] ∷ []))
        (point_of labels (ts ∷ [])) → ⊥ }
    ensures more_blocks { (labels : List (List ValType)) (ts us : List ValType) → MatchPoint
        (known_point labels (known_stack true [] ∷ []))
        (point_of labels (ts ∷ us ∷ [])) → ⊥ }
{}

/// There is one answer for each place, in their order.
pub fn each_place_has_an_answer()
    ensures { (ns : List ℕ) → AllZip (λ place n. n ≡ place + 1) (3 ∷ 5 ∷ []) ns
        ↔ (ns ≡ 4 ∷ 6 ∷ []) }
{}
