//! Worked instructions, computed: what each does with the store, the locals and the operands. Each function
//! has a contract and no body.

ghost use Rattle.std.specs.Prelude.{◌≡◌, ℕ, List, [], ◌∷◌, Some, None};
ghost use Rattle.std.specs.Int.{w32, w64, leading_zeros};
ghost use Rattle.wasm_ast.specs.declared.values.ValType.TheVariants as type;
ghost use Rattle.wasm_ast.specs.declared.values.Value.{Value};
ghost use Rattle.wasm_ast.specs.declared.values.Value.TheVariants.{I32, I64};
ghost use Rattle.wasm_ast.specs.declared.operators.UnaryOp.TheVariants as un;
ghost use Rattle.wasm_ast.specs.declared.operators.BinaryOp.TheVariants as bin;
ghost use Rattle.wasm_ast.specs.declared.operators.TestOp.TheVariants as tests;
ghost use Rattle.wasm_ast.specs.declared.operators.RelationOp.TheVariants as rel;
ghost use Rattle.wasm_ast.specs.declared.operators.ConvertOp.TheVariants as cvt;
ghost use Rattle.wasm_ast.specs.declared.operators.LoadOp.TheVariants as load;
ghost use Rattle.wasm_ast.specs.declared.operators.StoreOp.TheVariants as store;
ghost use Rattle.wasm_ast.specs.declared.instr.LocalOp.TheVariants as local;
ghost use Rattle.wasm_ast.specs.declared.instr.GlobalOp.TheVariants as global;
ghost use Rattle.wasm_ast.specs.declared.instr.Simple.TheVariants as instr;
ghost use Rattle.wasm_ast.specs.declared.trap.Trap.TheVariants as trap;
ghost use Rattle.step_machine.specs.Program.{Program};
ghost use Rattle.step_machine.specs.Configuration.{branch, invoke, ret};
ghost use Rattle.step_machine.specs.Effects.{Env, gives, becomes, traps, no_rule, simple_effect};
ghost use Rattle.step_machine.specs.WorkedEffects.{at, with_locals, with_globals, with_bytes, with_pages, with_table, typed_functions};

/// Operators on numbers of one type: the second operand is the newest.
pub fn numbers_are_computed()
    ensures unary_32 { (p : Program) (env : Env) (n : ℕ) (vs : List Value)
        → simple_effect p env (I32 n ∷ vs) (instr.Unary type.I32 un.Clz)
        ≡ gives env (I32 (leading_zeros w32 n) ∷ vs) }
    ensures unary_64 { (p : Program) (env : Env) (n : ℕ) (vs : List Value)
        → simple_effect p env (I64 n ∷ vs) (instr.Unary type.I64 un.Clz)
        ≡ gives env (I64 (leading_zeros w64 n) ∷ vs) }
    ensures binary_32 { (p : Program) (env : Env) (vs : List Value)
        → simple_effect p env (I32 3 ∷ I32 10 ∷ vs) (instr.Binary type.I32 bin.Sub)
        ≡ gives env (I32 7 ∷ vs) }
    ensures binary_64 { (p : Program) (env : Env) (vs : List Value)
        → simple_effect p env (I64 3 ∷ I64 10 ∷ vs) (instr.Binary type.I64 bin.Sub)
        ≡ gives env (I64 7 ∷ vs) }
    ensures by_zero { (p : Program) (env : Env) (vs : List Value)
        → simple_effect p env (I32 0 ∷ I32 10 ∷ vs) (instr.Binary type.I32 bin.DivU)
        ≡ traps trap.IntegerDivideByZero }
    ensures test { (p : Program) (env : Env) (vs : List Value)
        → simple_effect p env (I64 0 ∷ vs) (instr.Test type.I64 tests.Eqz)
        ≡ gives env (I32 1 ∷ vs) }
    ensures test_fails { (p : Program) (env : Env) (vs : List Value)
        → simple_effect p env (I32 5 ∷ vs) (instr.Test type.I32 tests.Eqz)
        ≡ gives env (I32 0 ∷ vs) }
    ensures compare { (p : Program) (env : Env) (vs : List Value)
        → simple_effect p env (I64 3 ∷ I64 2 ∷ vs) (instr.Compare type.I64 rel.LtU)
        ≡ gives env (I32 1 ∷ vs) }
    ensures compare_fails { (p : Program) (env : Env) (vs : List Value)
        → simple_effect p env (I32 2 ∷ I32 3 ∷ vs) (instr.Compare type.I32 rel.LtU)
        ≡ gives env (I32 0 ∷ vs) }
    ensures wrap { (p : Program) (env : Env) (vs : List Value)
        → simple_effect p env (I64 4294967301 ∷ vs) (instr.Convert cvt.Wrap)
        ≡ gives env (I32 5 ∷ vs) }
    ensures extend_s { (p : Program) (env : Env) (vs : List Value)
        → simple_effect p env (I32 4294967295 ∷ vs) (instr.Convert cvt.ExtendS)
        ≡ gives env (I64 18446744073709551615 ∷ vs) }
    ensures extend_u { (p : Program) (env : Env) (vs : List Value)
        → simple_effect p env (I32 4294967295 ∷ vs) (instr.Convert cvt.ExtendU)
        ≡ gives env (I64 4294967295 ∷ vs) }
    ensures i32_from_8 { (p : Program) (env : Env) (vs : List Value)
        → simple_effect p env (I32 384 ∷ vs) (instr.Convert cvt.I32From8S)
        ≡ gives env (I32 4294967168 ∷ vs) }
    ensures i32_from_16 { (p : Program) (env : Env) (vs : List Value)
        → simple_effect p env (I32 98304 ∷ vs) (instr.Convert cvt.I32From16S)
        ≡ gives env (I32 4294934528 ∷ vs) }
    ensures i64_from_8 { (p : Program) (env : Env) (vs : List Value)
        → simple_effect p env (I64 384 ∷ vs) (instr.Convert cvt.I64From8S)
        ≡ gives env (I64 18446744073709551488 ∷ vs) }
    ensures i64_from_16 { (p : Program) (env : Env) (vs : List Value)
        → simple_effect p env (I64 98304 ∷ vs) (instr.Convert cvt.I64From16S)
        ≡ gives env (I64 18446744073709518848 ∷ vs) }
    ensures i64_from_32 { (p : Program) (env : Env) (vs : List Value)
        → simple_effect p env (I64 6442450944 ∷ vs) (instr.Convert cvt.I64From32S)
        ≡ gives env (I64 18446744071562067968 ∷ vs) }
    ensures of_another_type { (p : Program) (env : Env) (vs : List Value)
        → simple_effect p env (I64 1 ∷ vs) (instr.Unary type.I32 un.Clz) ≡ no_rule }
{}

/// Constants, `drop`, `select`, `nop` and `unreachable`.
pub fn operands_are_moved()
    ensures constant { (p : Program) (env : Env) (vs : List Value)
        → simple_effect p env vs (instr.Const (I64 9)) ≡ gives env (I64 9 ∷ vs) }
    ensures drop { (p : Program) (env : Env) (v : Value) (vs : List Value)
        → simple_effect p env (v ∷ vs) instr.Drop ≡ gives env vs }
    ensures first { (p : Program) (env : Env) (v w : Value) (vs : List Value)
        → simple_effect p env (I32 3 ∷ w ∷ v ∷ vs) instr.Select ≡ gives env (v ∷ vs) }
    ensures second { (p : Program) (env : Env) (v w : Value) (vs : List Value)
        → simple_effect p env (I32 0 ∷ w ∷ v ∷ vs) instr.Select ≡ gives env (w ∷ vs) }
    ensures nop { (p : Program) (env : Env) (vs : List Value)
        → simple_effect p env vs instr.Nop ≡ gives env vs }
    ensures unreachable { (p : Program) (env : Env) (vs : List Value)
        → simple_effect p env vs instr.Unreachable ≡ traps trap.Unreachable }
{}

/// Locals and globals are read and written by their index.
pub fn variables_are_used()
    ensures get { (p : Program) (env : Env) (u v : Value) (vs : List Value)
        → simple_effect p (with_locals (u ∷ v ∷ []) env) vs (instr.Local local.Get 1)
        ≡ gives (with_locals (u ∷ v ∷ []) env) (v ∷ vs) }
    ensures set { (p : Program) (env : Env) (u v w : Value) (vs : List Value)
        → simple_effect p (with_locals (u ∷ v ∷ []) env) (w ∷ vs) (instr.Local local.Set 1)
        ≡ gives (with_locals (u ∷ w ∷ []) env) vs }
    ensures tee { (p : Program) (env : Env) (u v w : Value) (vs : List Value)
        → simple_effect p (with_locals (u ∷ v ∷ []) env) (w ∷ vs) (instr.Local local.Tee 0)
        ≡ gives (with_locals (w ∷ v ∷ []) env) (w ∷ vs) }
    ensures no_local { (p : Program) (env : Env) (v w : Value) (vs : List Value)
        → simple_effect p (with_locals (v ∷ []) env) (w ∷ vs) (instr.Local local.Set 1) ≡ no_rule }
    ensures get_global { (p : Program) (env : Env) (u v : Value) (vs : List Value)
        → simple_effect p (with_globals (u ∷ v ∷ []) env) vs (instr.Global global.Get 1)
        ≡ gives (with_globals (u ∷ v ∷ []) env) (v ∷ vs) }
    ensures set_global { (p : Program) (env : Env) (u v w : Value) (vs : List Value)
        → simple_effect p (with_globals (u ∷ v ∷ []) env) (w ∷ vs) (instr.Global global.Set 1)
        ≡ gives (with_globals (u ∷ w ∷ []) env) vs }
{}

/// Loads read little-endian bytes at the sum of operand and offset, extended by sign or by zeros; the sum
/// does not wrap.
pub fn memory_is_read()
    ensures i32 { (p : Program) (env : Env) (vs : List Value)
        → simple_effect p (with_bytes (9 ∷ 42 ∷ 1 ∷ 0 ∷ 128 ∷ []) env) (I32 0 ∷ vs)
        (instr.Load load.I32 (at 1)) ≡ gives (with_bytes (9 ∷ 42 ∷ 1 ∷ 0 ∷ 128 ∷ []) env)
        (I32 2147483946 ∷ vs) }
    ensures i64 { (p : Program) (env : Env) (vs : List Value)
        → simple_effect p (with_bytes (1 ∷ 2 ∷ 0 ∷ 0 ∷ 0 ∷ 0 ∷ 0 ∷ 128 ∷ []) env) (I32 0 ∷ vs)
        (instr.Load load.I64 (at 0)) ≡ gives (with_bytes (1 ∷ 2 ∷ 0 ∷ 0 ∷ 0 ∷ 0 ∷ 0 ∷ 128 ∷ []) env)
        (I64 9223372036854776321 ∷ vs) }
    ensures by_sign { (p : Program) (env : Env) (vs : List Value)
        → simple_effect p (with_bytes (255 ∷ 254 ∷ []) env) (I32 1 ∷ vs)
        (instr.Load load.I32From8S (at 0)) ≡ gives (with_bytes (255 ∷ 254 ∷ []) env)
        (I32 4294967294 ∷ vs) }
    ensures positive { (p : Program) (env : Env) (vs : List Value)
        → simple_effect p (with_bytes (127 ∷ []) env) (I32 0 ∷ vs)
        (instr.Load load.I64From8S (at 0)) ≡ gives (with_bytes (127 ∷ []) env) (I64 127 ∷ vs) }
    ensures by_sign_64 { (p : Program) (env : Env) (vs : List Value)
        → simple_effect p (with_bytes (0 ∷ 128 ∷ []) env) (I32 0 ∷ vs)
        (instr.Load load.I64From16S (at 0)) ≡ gives (with_bytes (0 ∷ 128 ∷ []) env)
        (I64 18446744073709518848 ∷ vs) }
    ensures by_zeros { (p : Program) (env : Env) (vs : List Value)
        → simple_effect p (with_bytes (0 ∷ 128 ∷ []) env) (I32 0 ∷ vs)
        (instr.Load load.I32From16U (at 0)) ≡ gives (with_bytes (0 ∷ 128 ∷ []) env)
        (I32 32768 ∷ vs) }
    ensures outside { (p : Program) (env : Env) (vs : List Value)
        → simple_effect p (with_bytes (1 ∷ 2 ∷ 3 ∷ 4 ∷ []) env) (I32 1 ∷ vs)
        (instr.Load load.I32 (at 0)) ≡ traps trap.OutOfBoundsMemoryAccess }
    ensures no_wrap { (p : Program) (env : Env) (vs : List Value)
        → simple_effect p (with_bytes (1 ∷ 2 ∷ 3 ∷ 4 ∷ []) env) (I32 4294967295 ∷ vs)
        (instr.Load load.I32From8U (at 1)) ≡ traps trap.OutOfBoundsMemoryAccess }
{}

/// Stores write the lowest bytes of the newest operand; an access that is not all inside writes nothing.
pub fn memory_is_written()
    ensures i32 { (p : Program) (env : Env) (vs : List Value)
        → simple_effect p (with_bytes (9 ∷ 9 ∷ 9 ∷ 9 ∷ 9 ∷ []) env) (I32 513 ∷ I32 0 ∷ vs)
        (instr.Store store.I32 (at 1))
        ≡ gives (with_bytes (9 ∷ 1 ∷ 2 ∷ 0 ∷ 0 ∷ []) env) vs }
    ensures of_i64 { (p : Program) (env : Env) (vs : List Value)
        → simple_effect p (with_bytes (9 ∷ 9 ∷ 9 ∷ []) env) (I64 66051 ∷ I32 1 ∷ vs)
        (instr.Store store.I64To16 (at 0))
        ≡ gives (with_bytes (9 ∷ 3 ∷ 2 ∷ []) env) vs }
    ensures outside { (p : Program) (env : Env) (vs : List Value)
        → simple_effect p (with_bytes (9 ∷ 9 ∷ 9 ∷ []) env) (I32 0 ∷ I32 2 ∷ vs)
        (instr.Store store.I32To16 (at 0)) ≡ traps trap.OutOfBoundsMemoryAccess }
{}

/// A memory without pages: its size, and its growth within the most pages and beyond.
pub fn memory_grows()
    ensures size { (p : Program) (env : Env) (vs : List Value)
        → simple_effect p (with_pages 0 1 env) vs instr.MemorySize
        ≡ gives (with_pages 0 1 env) (I32 0 ∷ vs) }
    ensures beyond { (p : Program) (env : Env) (vs : List Value)
        → simple_effect p (with_pages 0 1 env) (I32 2 ∷ vs) instr.MemoryGrow
        ≡ gives (with_pages 0 1 env) (I32 4294967295 ∷ vs) }
    ensures within { (p : Program) (env : Env) (vs : List Value)
        → simple_effect p (with_pages 0 1 env) (I32 1 ∷ vs) instr.MemoryGrow
        ≡ gives (with_pages 1 1 env) (I32 0 ∷ vs) }
{}

/// Branches, returns and calls are on their way from here.
pub fn control_goes_on()
    ensures br { (p : Program) (env : Env) (vs : List Value)
        → simple_effect p env vs (instr.Br 3) ≡ becomes vs (branch 3) }
    ensures taken { (p : Program) (env : Env) (vs : List Value)
        → simple_effect p env (I32 7 ∷ vs) (instr.BrIf 3) ≡ becomes vs (branch 3) }
    ensures not_taken { (p : Program) (env : Env) (vs : List Value)
        → simple_effect p env (I32 0 ∷ vs) (instr.BrIf 3) ≡ gives env vs }
    ensures by_index { (p : Program) (env : Env) (vs : List Value)
        → simple_effect p env (I32 1 ∷ vs) (instr.BrTable 6 (4 ∷ 5 ∷ [])) ≡ becomes vs (branch 5) }
    ensures beyond_the_table { (p : Program) (env : Env) (vs : List Value)
        → simple_effect p env (I32 2 ∷ vs) (instr.BrTable 6 (4 ∷ 5 ∷ [])) ≡ becomes vs (branch 6) }
    ensures returns { (p : Program) (env : Env) (vs : List Value)
        → simple_effect p env vs instr.Return ≡ becomes vs ret }
    ensures call { (p : Program) (env : Env) (vs : List Value)
        → simple_effect p env vs (instr.Call 8) ≡ becomes vs (invoke 8) }
{}

/// `call_indirect` of the type 1, where function 0 is of the type 0 and function 1 is of a type equal to the
/// type 1.
pub fn calls_go_through_the_table()
    ensures called { (p : Program) (env : Env) (vs : List Value)
        → simple_effect (typed_functions p) (with_table (None ∷ Some 1 ∷ []) env) (I32 1 ∷ vs)
        (instr.CallIndirect 1) ≡ becomes vs (invoke 1) }
    ensures of_another_type { (p : Program) (env : Env) (vs : List Value)
        → simple_effect (typed_functions p) (with_table (Some 0 ∷ []) env) (I32 0 ∷ vs)
        (instr.CallIndirect 1) ≡ traps trap.IndirectCallTypeMismatch }
    ensures not_written { (p : Program) (env : Env) (vs : List Value)
        → simple_effect (typed_functions p) (with_table (None ∷ []) env) (I32 0 ∷ vs)
        (instr.CallIndirect 1) ≡ traps trap.UninitializedElement }
    ensures outside { (p : Program) (env : Env) (vs : List Value)
        → simple_effect (typed_functions p) (with_table (None ∷ []) env) (I32 1 ∷ vs)
        (instr.CallIndirect 1) ≡ traps trap.UndefinedElement }
    ensures of_a_system_call { (p : Program) (env : Env) (vs : List Value)
        → simple_effect (typed_functions p) (with_table (Some 2 ∷ []) env) (I32 0 ∷ vs)
        (instr.CallIndirect 2) ≡ becomes vs (invoke 2) }
{}
