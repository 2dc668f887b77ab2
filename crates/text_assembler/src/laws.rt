//! What is proved of the definitions themselves.

ghost use Rattle.std.specs.Prelude.{◌≡◌, ℕ, ◌≤◌, List, [], ◌∷◌, ◌++◌, ◌+◌, length, map, filter, false, Result, Ok, Err, Some, None, codes};
ghost use Rattle.std.specs.List.{range_with_len};
ghost use Rattle.wasm_ast.specs.declared.module.Module.{Module};
ghost use Rattle.wasm_ast.specs.Limits.{Within};
ghost use Rattle.wasm_ast.specs.declared.values.ValType.TheVariants as type;
ghost use Rattle.wasm_ast.specs.declared.operators.BinaryOp.TheVariants as binary;
ghost use Rattle.wasm_ast.specs.declared.operators.LoadOp.TheVariants as load;
ghost use Rattle.wasm_ast.specs.declared.operators.ConvertOp.TheVariants as convert;
ghost use Rattle.text_assembler.specs.declared.fault.Fault.TheVariants.{Malformed, TooDeep};
ghost use Rattle.text_assembler.specs.declared.keyword.Keyword.TheVariants as keyword;
ghost use Rattle.text_assembler.specs.declared.token.Lexeme.{Lexeme};
ghost use Rattle.text_assembler.specs.declared.token.Lexeme.TheVariants as lexeme;
ghost use Rattle.wasm_ast.specs.declared.instr.Simple.{Simple};
ghost use Rattle.wasm_ast.specs.declared.instr.Simple.TheVariants.{Convert};
ghost use Rattle.wasm_ast.specs.declared.instr.BlockType.{BlockType};
ghost use Rattle.wasm_ast.specs.declared.instr.BlockType.TheVariants.{Index};
ghost use Rattle.wasm_ast.specs.Syntax.{Ops, simple, block, loop, if', stop};
ghost use Rattle.wasm_ast.specs.Ranged.{RangedBlockType, RangedSimple};
ghost use Rattle.text_assembler.specs.declared.fault.Fault.{Fault};
ghost use Rattle.text_assembler.specs.declared.scopes.Scopes.{Scopes};
ghost use Rattle.text_assembler.specs.Lines.{line_of, HasAlignment, IsWritten, read_instr_line};
ghost use Rattle.text_assembler.specs.Names.{Ids};
ghost use Rattle.text_assembler.specs.Instructions.{Bodies, read_body};
ghost use Rattle.text_assembler.specs.Numbers.{number, small_number, constant};
ghost use Rattle.text_assembler.specs.Names.{with_id, index_of};
ghost use Rattle.text_assembler.specs.Characters.{is_word_char};
ghost use Rattle.text_assembler.specs.Tokens.{read_element, tokens_of};
ghost use Rattle.text_assembler.specs.Words.{keyword_of};
ghost use Rattle.text_assembler.specs.Worked.{worked, worked_access, worked_uses};
ghost use Rattle.text_assembler.specs.Modules.{AreOf, Denotes, IsPlaceIn, IsTooDeep, read_text};

/// A text denotes at most one module.
pub fn denotes_one()
    ensures { (text : List ℕ) (m n : Module) → Denotes text m → Denotes text n → m ≡ n }
{}

/// A text where more than 256 blocks are open at one word denotes no module within the limits.
pub fn too_deep_denotes_none_within()
    ensures { (text : List ℕ) → IsTooDeep text
        → (m : Module) → Denotes text m → Within m → ⊥ }
{}

/// The scopes that names are looked up in are the index spaces of the module (2.5.1): the types
/// that are declared are those that are read, and each space has an entry for each of its imports
/// and for each of its own.
pub fn scopes_are_the_index_spaces()
    ensures signatures { (ts : List Lexeme) (s : Scopes) (m : Module) → AreOf ts s m
        → s.signatures ≡ m.types }
    ensures types { (ts : List Lexeme) (s : Scopes) (m : Module) → AreOf ts s m
        → length s.types ≡ length m.types }
    ensures funcs { (ts : List Lexeme) (s : Scopes) (m : Module) → AreOf ts s m
        → length s.funcs ≡ length m.imports + length m.funcs }
    ensures tables { (ts : List Lexeme) (s : Scopes) (m : Module) → AreOf ts s m
        → length s.tables ≡ length m.tables }
    ensures memories { (ts : List Lexeme) (s : Scopes) (m : Module) → AreOf ts s m
        → length s.memories ≡ length m.memories }
    ensures globals { (ts : List Lexeme) (s : Scopes) (m : Module) → AreOf ts s m
        → length s.globals ≡ length m.globals }
{}

/// The line of an instruction without a body is read back as that instruction, in any scopes where the
/// type that it names is written, with nothing left.
pub fn lines_denote()
    ensures { (i : Simple) (s : Scopes) (locals : Ids) (inner : Result Bodies Fault) (labels : Ids)
        → RangedSimple i → HasAlignment i → IsWritten s (simple i)
        → read_instr_line s locals inner labels (line_of (simple i)) ≡ Ok (simple i, []) }
{}

/// The opening line of a block, a loop or an if, with `end` added, is read back as that one with empty
/// bodies, where one more block may be open and the type that it names is written.
pub fn opening_lines_denote()
    ensures opening_block { (t : BlockType) (body : Ops)
        → (s : Scopes) (locals labels : Ids) (more : ℕ)
        → RangedBlockType t → IsWritten s (block t body)
        → read_instr_line s locals (Ok (read_body s locals more)) labels
        (line_of (block t body) ++ codes " end") ≡ Ok (block t stop, []) }
    ensures opening_loop { (t : BlockType) (body : Ops)
        → (s : Scopes) (locals labels : Ids) (more : ℕ)
        → RangedBlockType t → IsWritten s (loop t body)
        → read_instr_line s locals (Ok (read_body s locals more)) labels
        (line_of (loop t body) ++ codes " end") ≡ Ok (loop t stop, []) }
    ensures opening_if { (t : BlockType) (first second : Ops)
        → (s : Scopes) (locals labels : Ids) (more : ℕ)
        → RangedBlockType t → IsWritten s (if' t first second)
        → read_instr_line s locals (Ok (read_body s locals more)) labels
        (line_of (if' t first second) ++ codes " end") ≡ Ok (if' t stop stop, []) }
{}

/// Numbers with `_` between digits, in both bases, and words that are none (6.3.1).
#[tactic(auto, unfolding(crate::specs::Numbers::number, crate::specs::Numbers::more_digits, crate::specs::Numbers::with_digit, crate::specs::Numbers::small_number))]
pub fn numbers_are_read()
    ensures decimal { number (codes "1_000") ≡ Ok 1000 }
    ensures hexadecimal { number (codes "0xF_f") ≡ Ok 255 }
    ensures doubled { number (codes "1__0") ≡ Err Malformed }
    ensures trailing { number (codes "1_") ≡ Err Malformed }
    ensures leading { number (codes "0x_1") ≡ Err Malformed }
    ensures prefix { number (codes "0X1") ≡ Err Malformed }
    ensures none { number (codes "0x") ≡ Err Malformed }
    ensures largest { small_number (codes "4294967295") ≡ Ok 4294967295 }
    ensures over { small_number (codes "4294967296") ≡ Err Malformed }
{}

/// Constants at each bound and beyond it (6.5.6).
#[tactic(auto, unfolding(crate::specs::Numbers::constant, crate::specs::Numbers::number, crate::specs::Numbers::more_digits, crate::specs::Numbers::with_digit))]
pub fn constants_are_read()
    ensures unsigned { constant 32 (codes "4294967295") ≡ Ok 4294967295 }
    ensures unsigned_over { constant 32 (codes "4294967296") ≡ Err Malformed }
    ensures positive { constant 32 (codes "+2147483647") ≡ Ok 2147483647 }
    ensures positive_over { constant 32 (codes "+2147483648") ≡ Err Malformed }
    ensures negative { constant 32 (codes "-2147483648") ≡ Ok 2147483648 }
    ensures negative_over { constant 32 (codes "-2147483649") ≡ Err Malformed }
    ensures minus_one { constant 64 (codes "-1") ≡ Ok 18446744073709551615 }
    ensures no_digits { constant 32 (codes "-") ≡ Err Malformed }
{}

/// Words of instructions, and words that are none (6.5).
#[tactic(auto, unfolding(crate::specs::Words::keyword_of, crate::specs::Words::find_word))]
pub fn keywords_are_found()
    ensures binary { keyword_of (codes "i64.shr_u") ≡ Some (keyword.Binary type.I64 binary.ShrU) }
    ensures load { keyword_of (codes "i64.load16_s") ≡ Some (keyword.Load load.I64From16S) }
    ensures control { keyword_of (codes "br_table") ≡ Some keyword.BrTable }
    ensures cut { keyword_of (codes "i32.cons") ≡ None }
    ensures sign_extensions { map keyword_of (codes "i32.extend8_s" ∷ codes "i32.extend16_s"
        ∷ codes "i64.extend8_s" ∷ codes "i64.extend16_s" ∷ codes "i64.extend32_s" ∷ [])
        ≡ map (λ op. Some (keyword.Convert op)) (convert.I32From8S ∷ convert.I32From16S
        ∷ convert.I64From8S ∷ convert.I64From16S ∷ convert.I64From32S ∷ []) }
    ensures no_extension { keyword_of (codes "i32.extend32_s") ≡ None }
{}

/// The lines of sign extensions and of blocks with the use of a type.
pub fn lines_are_written()
    ensures extension { line_of (simple (Convert convert.I64From32S)) ≡ codes "i64.extend32_s" }
    ensures opening_block { (body : Ops) → line_of (block (Index 1024) body)
        ≡ codes "block (type 1024)" }
    ensures opening_loop { (body : Ops) → line_of (loop (Index 2) body) ≡ codes "loop (type 2)" }
    ensures opening_if { (first second : Ops) → line_of (if' (Index 0) first second)
        ≡ codes "if (type 0)" }
{}

/// Escapes in strings (6.3.3): the six of one character, and characters by their codes, up to the last
/// one and without surrogates.
#[tactic(auto, unfolding(crate::specs::Tokens::read_element, crate::specs::Tokens::read_escape, crate::specs::Tokens::read_escaped, crate::specs::Tokens::read_code, crate::specs::Tokens::more_code, crate::specs::Tokens::read_byte))]
pub fn escapes_are_read()
    ensures characters { map (λ c. read_element (0x5C ∷ c ∷ []))
        (0x74 ∷ 0x6E ∷ 0x72 ∷ 0x22 ∷ 0x27 ∷ 0x5C ∷ [])
        ≡ map (λ b. Ok (b ∷ [], [])) (0x09 ∷ 0x0A ∷ 0x0D ∷ 0x22 ∷ 0x27 ∷ 0x5C ∷ []) }
    ensures last_code { read_element (0x5C ∷ codes "u{10FFFF}")
        ≡ Ok (0xF4 ∷ 0x8F ∷ 0xBF ∷ 0xBF ∷ [], []) }
    ensures past_the_last { read_element (0x5C ∷ codes "u{110000}") ≡ Err Malformed }
    ensures surrogate { read_element (0x5C ∷ codes "u{D800}") ≡ Err Malformed }
    ensures last_surrogate { read_element (0x5C ∷ codes "u{DFFF}") ≡ Err Malformed }
    ensures other { read_element (0x5C ∷ codes "q") ≡ Err Malformed }
{}

/// Words have 85 characters, all of them below 128 (6.3.5).
pub fn words_have_85_characters()
    ensures count { length (filter is_word_char (range_with_len 0 128)) ≡ 85 }
    ensures ascii { (c : ℕ) → 127 ≤ c → is_word_char c ≡ false }
{}

/// Texts and their tokens: nested comments, an escape, and words and strings that touch (6.2, 6.3).
#[tactic(auto, unfolding(crate::specs::Tokens::tokens_of, crate::specs::Tokens::read_token, crate::specs::Tokens::read_open, crate::specs::Tokens::read_line, crate::specs::Tokens::read_word, crate::specs::Tokens::read_string, crate::specs::Tokens::read_closing, crate::specs::Tokens::read_element, crate::specs::Tokens::read_escape, crate::specs::Tokens::read_escaped, crate::specs::Tokens::read_byte, crate::specs::Tokens::is_apart, crate::specs::Tokens::after_comment, crate::specs::Tokens::after_line, crate::specs::Tokens::opens_comment, crate::specs::Tokens::closes_comment, crate::specs::Reading::read_parts, crate::specs::Reading::read_some))]
pub fn texts_have_tokens()
    ensures nested { tokens_of (codes "(a(;(;;);)b)")
        ≡ Ok (lexeme.Open ∷ lexeme.Word (codes "a") ∷ lexeme.Word (codes "b") ∷ lexeme.Close ∷ []) }
    ensures unclosed { tokens_of (codes "(;(;;)") ≡ Err Malformed }
    ensures escaped { tokens_of (0x22 ∷ codes "b" ++ 0x5C ∷ codes "4a" ++ 0x22 ∷ [])
        ≡ Ok (lexeme.Text (codes "bJ") ∷ []) }
    ensures touching { tokens_of (codes "a" ++ 0x22 ∷ 0x22 ∷ []) ≡ Err Malformed }
    ensures strings { tokens_of (0x22 ∷ 0x22 ∷ 0x22 ∷ 0x22 ∷ []) ≡ Err Malformed }
    ensures line { tokens_of (0x3B ∷ 0x3B ∷ 0x0D ∷ 0x0A ∷ codes "a")
        ≡ Ok (lexeme.Word (codes "a") ∷ []) }
{}

/// The line and the column of a place in a text: no other numbers are those of a place in it.
pub fn places_are_in_the_text()
    ensures first { IsPlaceIn (codes "a") 1 1 }
    ensures end { IsPlaceIn (codes "a") 1 2 }
    ensures past_the_end { IsPlaceIn (codes "a") 1 3 → ⊥ }
    ensures after_a_line_feed { IsPlaceIn (0x0A ∷ []) 2 1 }
    ensures no_second_column { IsPlaceIn (0x0A ∷ []) 1 2 → ⊥ }
{}

/// Names are looked up in their space, the first of a name first (6.6.1).
#[tactic(auto, unfolding(crate::specs::Names::index_of, crate::specs::Names::position, crate::specs::Names::is_id, crate::specs::Names::with_id, crate::specs::Names::is_declared))]
pub fn names_are_indices()
    ensures found { index_of (None ∷ Some (codes "$a") ∷ Some (codes "$a") ∷ []) (codes "$a")
        ≡ Ok 1 }
    ensures missing { index_of (Some (codes "$a") ∷ []) (codes "$b") ≡ Err Malformed }
    ensures twice { with_id (Some (codes "$a") ∷ []) (Some (codes "$a")) ≡ Err Malformed }
    ensures nameless { with_id (None ∷ []) None ≡ Ok (None ∷ None ∷ []) }
{}

/// Texts and what they denote: a function that is named before it is written and a label from inside two
/// blocks, a memory access, and blocks with the use of a type; and texts that denote nothing (6.5, 6.6).
#[tactic(auto, unfolding(crate::specs::Reading::read_some, crate::specs::Reading::read_parts, crate::specs::Numbers::with_digit, crate::specs::Numbers::more_digits, crate::specs::Numbers::number, crate::specs::Numbers::small_number, crate::specs::Numbers::constant, crate::specs::Tokens::after_line, crate::specs::Tokens::opens_comment, crate::specs::Tokens::closes_comment, crate::specs::Tokens::after_comment, crate::specs::Tokens::read_byte, crate::specs::Tokens::more_code, crate::specs::Tokens::read_code, crate::specs::Tokens::read_escaped, crate::specs::Tokens::read_escape, crate::specs::Tokens::read_element, crate::specs::Tokens::is_apart, crate::specs::Tokens::read_closing, crate::specs::Tokens::read_string, crate::specs::Tokens::read_word, crate::specs::Tokens::read_open, crate::specs::Tokens::read_line, crate::specs::Tokens::read_token, crate::specs::Tokens::tokens_of, crate::specs::Words::find_word, crate::specs::Words::keyword_of, crate::specs::Names::is_id, crate::specs::Names::is_index, crate::specs::Names::is_declared, crate::specs::Names::with_id, crate::specs::Names::position, crate::specs::Names::index_of, crate::specs::Phrases::is_close, crate::specs::Phrases::skip_close, crate::specs::Phrases::skip_open, crate::specs::Phrases::take_word, crate::specs::Phrases::take_text, crate::specs::Phrases::begins_word, crate::specs::Phrases::skip_word, crate::specs::Phrases::begins_group, crate::specs::Phrases::skip_group, crate::specs::Phrases::read_name, crate::specs::Phrases::begins_id, crate::specs::Phrases::id_of, crate::specs::Phrases::after_id, crate::specs::Phrases::read_number, crate::specs::Phrases::begins_index, crate::specs::Phrases::read_index, crate::specs::Phrases::one_index, crate::specs::Phrases::read_indices, crate::specs::Phrases::val_type_of, crate::specs::Phrases::read_val_type, crate::specs::Phrases::one_type, crate::specs::Phrases::read_result, crate::specs::Phrases::read_results, crate::specs::Phrases::one_nameless, crate::specs::Phrases::read_bound, crate::specs::Phrases::read_group, crate::specs::Phrases::read_bindings, crate::specs::Phrases::read_limits, crate::specs::Instructions::declare_all, crate::specs::Instructions::fits_signature, crate::specs::Instructions::params_of_use, crate::specs::Instructions::read_type_index, crate::specs::Instructions::read_use, crate::specs::Instructions::are_nameless, crate::specs::Instructions::read_nameless_use, crate::specs::Instructions::read_call_indirect, crate::specs::Instructions::last_of, crate::specs::Instructions::read_br_table, crate::specs::Instructions::exponent_from, crate::specs::Instructions::digits_after, crate::specs::Instructions::with_digits, crate::specs::Instructions::read_option, crate::specs::Instructions::read_mem_arg, crate::specs::Instructions::read_const, crate::specs::Instructions::with_index, crate::specs::Instructions::read_immediates, crate::specs::Instructions::read_block_type, crate::specs::Instructions::skip_label, crate::specs::Instructions::skip_end, crate::specs::Instructions::read_enclosed, crate::specs::Instructions::read_else, crate::specs::Instructions::read_if, crate::specs::Instructions::read_nested, crate::specs::Instructions::read_simple, crate::specs::Instructions::read_op, crate::specs::Instructions::one_op, crate::specs::Instructions::is_end, crate::specs::Instructions::read_body, crate::specs::Inside::Bodies::inner_of, crate::specs::Modules::read_type, crate::specs::Modules::read_imported, crate::specs::Modules::read_import, crate::specs::Modules::read_func, crate::specs::Modules::read_table, crate::specs::Modules::read_memory, crate::specs::Modules::read_global_type, crate::specs::Modules::read_expression, crate::specs::Modules::read_global, crate::specs::Modules::kind_of, crate::specs::Modules::read_exported, crate::specs::Modules::read_export, crate::specs::Modules::read_offset, crate::specs::Modules::read_element, crate::specs::Modules::read_segment, crate::specs::Modules::read_defined, crate::specs::Modules::read_contents, crate::specs::Modules::read_field, crate::specs::Modules::declare_as, crate::specs::Modules::declare_field, crate::specs::Modules::declare_fields, crate::specs::Modules::add_field, crate::specs::Modules::one_field, crate::specs::Modules::read_fields, crate::specs::Modules::read_module, crate::specs::Modules::read_tokens, crate::specs::Modules::read_text))]
pub fn worked_texts()
    ensures module { read_text 2
        (codes
        "(module(type $t(func))(func(type $t)block $a block $b br $a call $f end $b end)(func $f(type 0)(param))(start $f))")
        ≡ Ok worked }
    ensures access { read_text 0
        (codes "(module(memory 1 2)(global $g(mut i32)i32.const -1 i32.load16_u offset=4 align=1))")
        ≡ Ok worked_access }
    ensures uses { read_text 1 (codes
        "(module(type $l(func(param i32)(result i32)))(type $n(func))(type(func(result i32 i64)(result i32)))(func(type $n)block $a(type $n)end $a i32.const 1 loop(type $l)(param i32)(result i32)i32.extend8_s end if(type 0)end drop))")
        ≡ Ok worked_uses }
    ensures unwritten_use { read_text 1
        (codes "(module(type(func))(func(type 0)block(type 1)end))") ≡ Err Malformed }
    ensures other_use { read_text 1
        (codes "(module(type(func(result i32)))(func(type 0)block(type 0)(result i64)end))")
        ≡ Err Malformed }
    ensures named_use { read_text 1
        (codes "(module(type(func(param i32)))(func(type 0)block(type 0)(param $x i32)end))")
        ≡ Err Malformed }
    ensures two_results { read_text 1
        (codes "(module(type(func))(func(type 0)block(result i32 i32)end))") ≡ Err Malformed }
    ensures params_without_use { read_text 1
        (codes "(module(type(func))(func(type 0)block(param i32)end))") ≡ Err Malformed }
    ensures too_deep { read_text 1 (codes "(module(type(func))(func(type 0)block block end end))")
        ≡ Err TooDeep }
    ensures other_label { read_text 2 (codes "(module(type(func))(func(type 0)if $a else $b end))")
        ≡ Err Malformed }
    ensures late_import { read_text 0 (codes "(module(memory 1)(type(func))(import(func(type 0))))")
        ≡ Err Malformed }
    ensures two_starts { read_text 0 (codes "(module(start 0)(start 0))") ≡ Err Malformed }
    ensures twice { read_text 0 (codes "(module(memory $m 1)(memory $m 1))") ≡ Err Malformed }
    ensures unwritten { read_text 0 (codes "(module(func(type 0)))") ≡ Err Malformed }
    ensures results_alone { read_text 0
        (codes "(module(type(func(param i32)(result i32)))(func(type 0)(result i32)))")
        ≡ Err Malformed }
    ensures named_param { read_text 0
        (codes "(module(type(func(param i32)))(func(type 0)call_indirect(type 0)(param $x i32)))")
        ≡ Err Malformed }
    ensures no_power { read_text 0 (codes "(module(global i32 i32.load align=3))") ≡ Err Malformed }
    ensures align_first { read_text 0 (codes "(module(global i32 i32.load align=4 offset=1))")
        ≡ Err Malformed }
    ensures after_module { read_text 0 (codes "(module)(module)") ≡ Err Malformed }
    ensures cut { read_text 0 (codes "(module(memory 1)") ≡ Err Malformed }
{}
