//! The words of instructions without bodies (6.5).

ghost use Rattle.std.specs.Prelude.{◌≡◌, Some, map};
ghost use Rattle.wasm_ast.specs.declared.values.ValType.TheVariants as type;
ghost use Rattle.wasm_binary.specs.Tables.{all_conversions};
ghost use Rattle.text_assembler.specs.declared.keyword.Keyword.TheVariants as keyword;
ghost use Rattle.text_assembler.specs.Words.{unary_word, binary_word, relation_word, typed, keyword_word, accesses, controls, numerics, find_word, keyword_of};

use wasm_ast::{
    BinaryOp, ConvertOp, GlobalOp, LoadOp, LocalOp, RelationOp, StoreOp, TestOp, UnaryOp, ValType,
};

/// The first word of an instruction without a body: what it is, but for its numbers.
#[derive(Clone, Copy)]
pub enum Keyword {
    Unreachable,
    Nop,
    Br,
    BrIf,
    BrTable,
    Return,
    Call,
    CallIndirect,
    Drop,
    Select,
    MemorySize,
    MemoryGrow,
    Local(LocalOp),
    Global(GlobalOp),
    Load(LoadOp),
    Store(StoreOp),
    Const(ValType),
    Unary(ValType, UnaryOp),
    Binary(ValType, BinaryOp),
    Test(ValType, TestOp),
    Compare(ValType, RelationOp),
    Convert(ConvertOp),
}

fn local_word(op: LocalOp) -> &'static str
    ensures { result.now ≡ keyword_word (keyword.Local op) }
{
    match op {
        LocalOp::Get => "local.get",
        LocalOp::Set => "local.set",
        LocalOp::Tee => "local.tee",
    }
}

fn global_word(op: GlobalOp) -> &'static str
    ensures { result.now ≡ keyword_word (keyword.Global op) }
{
    match op {
        GlobalOp::Get => "global.get",
        GlobalOp::Set => "global.set",
    }
}

fn load_word(op: LoadOp) -> &'static str
    ensures { result.now ≡ keyword_word (keyword.Load op) }
{
    match op {
        LoadOp::I32 => "i32.load",
        LoadOp::I64 => "i64.load",
        LoadOp::I32From8S => "i32.load8_s",
        LoadOp::I32From8U => "i32.load8_u",
        LoadOp::I32From16S => "i32.load16_s",
        LoadOp::I32From16U => "i32.load16_u",
        LoadOp::I64From8S => "i64.load8_s",
        LoadOp::I64From8U => "i64.load8_u",
        LoadOp::I64From16S => "i64.load16_s",
        LoadOp::I64From16U => "i64.load16_u",
        LoadOp::I64From32S => "i64.load32_s",
        LoadOp::I64From32U => "i64.load32_u",
    }
}

fn store_word(op: StoreOp) -> &'static str
    ensures { result.now ≡ keyword_word (keyword.Store op) }
{
    match op {
        StoreOp::I32 => "i32.store",
        StoreOp::I64 => "i64.store",
        StoreOp::I32To8 => "i32.store8",
        StoreOp::I32To16 => "i32.store16",
        StoreOp::I64To8 => "i64.store8",
        StoreOp::I64To16 => "i64.store16",
        StoreOp::I64To32 => "i64.store32",
    }
}

fn convert_word(op: ConvertOp) -> &'static str
    ensures { result.now ≡ keyword_word (keyword.Convert op) }
{
    match op {
        ConvertOp::Wrap => "i32.wrap_i64",
        ConvertOp::ExtendS => "i64.extend_i32_s",
        ConvertOp::ExtendU => "i64.extend_i32_u",
        ConvertOp::I32From8S => "i32.extend8_s",
        ConvertOp::I32From16S => "i32.extend16_s",
        ConvertOp::I64From8S => "i64.extend8_s",
        ConvertOp::I64From16S => "i64.extend16_s",
        ConvertOp::I64From32S => "i64.extend32_s",
    }
}

fn i32_unary_word(op: UnaryOp) -> &'static str
    ensures { result.now ≡ typed type.I32 (unary_word op) }
{
    match op {
        UnaryOp::Clz => "i32.clz",
        UnaryOp::Ctz => "i32.ctz",
        UnaryOp::Popcnt => "i32.popcnt",
    }
}

fn i32_binary_word(op: BinaryOp) -> &'static str
    ensures { result.now ≡ typed type.I32 (binary_word op) }
{
    match op {
        BinaryOp::Add => "i32.add",
        BinaryOp::Sub => "i32.sub",
        BinaryOp::Mul => "i32.mul",
        BinaryOp::DivS => "i32.div_s",
        BinaryOp::DivU => "i32.div_u",
        BinaryOp::RemS => "i32.rem_s",
        BinaryOp::RemU => "i32.rem_u",
        BinaryOp::And => "i32.and",
        BinaryOp::Or => "i32.or",
        BinaryOp::Xor => "i32.xor",
        BinaryOp::Shl => "i32.shl",
        BinaryOp::ShrS => "i32.shr_s",
        BinaryOp::ShrU => "i32.shr_u",
        BinaryOp::Rotl => "i32.rotl",
        BinaryOp::Rotr => "i32.rotr",
    }
}

fn i32_relation_word(op: RelationOp) -> &'static str
    ensures { result.now ≡ typed type.I32 (relation_word op) }
{
    match op {
        RelationOp::Eq => "i32.eq",
        RelationOp::Ne => "i32.ne",
        RelationOp::LtS => "i32.lt_s",
        RelationOp::LtU => "i32.lt_u",
        RelationOp::GtS => "i32.gt_s",
        RelationOp::GtU => "i32.gt_u",
        RelationOp::LeS => "i32.le_s",
        RelationOp::LeU => "i32.le_u",
        RelationOp::GeS => "i32.ge_s",
        RelationOp::GeU => "i32.ge_u",
    }
}

fn i64_unary_word(op: UnaryOp) -> &'static str
    ensures { result.now ≡ typed type.I64 (unary_word op) }
{
    match op {
        UnaryOp::Clz => "i64.clz",
        UnaryOp::Ctz => "i64.ctz",
        UnaryOp::Popcnt => "i64.popcnt",
    }
}

fn i64_binary_word(op: BinaryOp) -> &'static str
    ensures { result.now ≡ typed type.I64 (binary_word op) }
{
    match op {
        BinaryOp::Add => "i64.add",
        BinaryOp::Sub => "i64.sub",
        BinaryOp::Mul => "i64.mul",
        BinaryOp::DivS => "i64.div_s",
        BinaryOp::DivU => "i64.div_u",
        BinaryOp::RemS => "i64.rem_s",
        BinaryOp::RemU => "i64.rem_u",
        BinaryOp::And => "i64.and",
        BinaryOp::Or => "i64.or",
        BinaryOp::Xor => "i64.xor",
        BinaryOp::Shl => "i64.shl",
        BinaryOp::ShrS => "i64.shr_s",
        BinaryOp::ShrU => "i64.shr_u",
        BinaryOp::Rotl => "i64.rotl",
        BinaryOp::Rotr => "i64.rotr",
    }
}

fn i64_relation_word(op: RelationOp) -> &'static str
    ensures { result.now ≡ typed type.I64 (relation_word op) }
{
    match op {
        RelationOp::Eq => "i64.eq",
        RelationOp::Ne => "i64.ne",
        RelationOp::LtS => "i64.lt_s",
        RelationOp::LtU => "i64.lt_u",
        RelationOp::GtS => "i64.gt_s",
        RelationOp::GtU => "i64.gt_u",
        RelationOp::LeS => "i64.le_s",
        RelationOp::LeU => "i64.le_u",
        RelationOp::GeS => "i64.ge_s",
        RelationOp::GeU => "i64.ge_u",
    }
}

impl Keyword {
    /// The word.
    pub fn word(self) -> &'static str
        ensures { result.now ≡ keyword_word self }
    {
        match self {
            Keyword::Unreachable => "unreachable",
            Keyword::Nop => "nop",
            Keyword::Br => "br",
            Keyword::BrIf => "br_if",
            Keyword::BrTable => "br_table",
            Keyword::Return => "return",
            Keyword::Call => "call",
            Keyword::CallIndirect => "call_indirect",
            Keyword::Drop => "drop",
            Keyword::Select => "select",
            Keyword::MemorySize => "memory.size",
            Keyword::MemoryGrow => "memory.grow",
            Keyword::Local(op) => local_word(op),
            Keyword::Global(op) => global_word(op),
            Keyword::Load(op) => load_word(op),
            Keyword::Store(op) => store_word(op),
            Keyword::Const(ValType::I32) => "i32.const",
            Keyword::Const(ValType::I64) => "i64.const",
            Keyword::Unary(ValType::I32, op) => i32_unary_word(op),
            Keyword::Unary(ValType::I64, op) => i64_unary_word(op),
            Keyword::Binary(ValType::I32, op) => i32_binary_word(op),
            Keyword::Binary(ValType::I64, op) => i64_binary_word(op),
            Keyword::Test(ValType::I32, TestOp::Eqz) => "i32.eqz",
            Keyword::Test(ValType::I64, TestOp::Eqz) => "i64.eqz",
            Keyword::Compare(ValType::I32, op) => i32_relation_word(op),
            Keyword::Compare(ValType::I64, op) => i64_relation_word(op),
            Keyword::Convert(op) => convert_word(op),
        }
    }
}

// The first of these whose word this is.
#[tactic(auto, unfolding(crate::specs::Words::find_word))]
fn find_word(keywords: &[Keyword], word: &[u8]) -> Option<Keyword>
    ensures { result ≡ find_word keywords.now word.now }
{
    let mut rest = keywords;
    while let [first, tail @ ..] = rest {
        if first.word().as_bytes() == word {
            return Some(*first);
        }
        rest = tail;
    }
    None
}

fn control_of(word: &[u8]) -> Option<Keyword>
    ensures { result ≡ find_word controls word.now }
{
    let keywords = [
        Keyword::Unreachable,
        Keyword::Nop,
        Keyword::Br,
        Keyword::BrIf,
        Keyword::BrTable,
        Keyword::Return,
        Keyword::Call,
        Keyword::CallIndirect,
        Keyword::Drop,
        Keyword::Select,
        Keyword::MemorySize,
        Keyword::MemoryGrow,
        Keyword::Local(LocalOp::Get),
        Keyword::Local(LocalOp::Set),
        Keyword::Local(LocalOp::Tee),
        Keyword::Global(GlobalOp::Get),
        Keyword::Global(GlobalOp::Set),
    ];
    find_word(keywords.as_slice(), word)
}

fn access_of(word: &[u8]) -> Option<Keyword>
    ensures { result ≡ find_word accesses word.now }
{
    let keywords = [
        Keyword::Load(LoadOp::I32),
        Keyword::Load(LoadOp::I64),
        Keyword::Load(LoadOp::I32From8S),
        Keyword::Load(LoadOp::I32From8U),
        Keyword::Load(LoadOp::I32From16S),
        Keyword::Load(LoadOp::I32From16U),
        Keyword::Load(LoadOp::I64From8S),
        Keyword::Load(LoadOp::I64From8U),
        Keyword::Load(LoadOp::I64From16S),
        Keyword::Load(LoadOp::I64From16U),
        Keyword::Load(LoadOp::I64From32S),
        Keyword::Load(LoadOp::I64From32U),
        Keyword::Store(StoreOp::I32),
        Keyword::Store(StoreOp::I64),
        Keyword::Store(StoreOp::I32To8),
        Keyword::Store(StoreOp::I32To16),
        Keyword::Store(StoreOp::I64To8),
        Keyword::Store(StoreOp::I64To16),
        Keyword::Store(StoreOp::I64To32),
    ];
    find_word(keywords.as_slice(), word)
}

fn numeric_of(t: ValType, word: &[u8]) -> Option<Keyword>
    ensures { result ≡ find_word (numerics t) word.now }
{
    let keywords = [
        Keyword::Const(t),
        Keyword::Unary(t, UnaryOp::Clz),
        Keyword::Unary(t, UnaryOp::Ctz),
        Keyword::Unary(t, UnaryOp::Popcnt),
        Keyword::Binary(t, BinaryOp::Add),
        Keyword::Binary(t, BinaryOp::Sub),
        Keyword::Binary(t, BinaryOp::Mul),
        Keyword::Binary(t, BinaryOp::DivS),
        Keyword::Binary(t, BinaryOp::DivU),
        Keyword::Binary(t, BinaryOp::RemS),
        Keyword::Binary(t, BinaryOp::RemU),
        Keyword::Binary(t, BinaryOp::And),
        Keyword::Binary(t, BinaryOp::Or),
        Keyword::Binary(t, BinaryOp::Xor),
        Keyword::Binary(t, BinaryOp::Shl),
        Keyword::Binary(t, BinaryOp::ShrS),
        Keyword::Binary(t, BinaryOp::ShrU),
        Keyword::Binary(t, BinaryOp::Rotl),
        Keyword::Binary(t, BinaryOp::Rotr),
        Keyword::Test(t, TestOp::Eqz),
        Keyword::Compare(t, RelationOp::Eq),
        Keyword::Compare(t, RelationOp::Ne),
        Keyword::Compare(t, RelationOp::LtS),
        Keyword::Compare(t, RelationOp::LtU),
        Keyword::Compare(t, RelationOp::GtS),
        Keyword::Compare(t, RelationOp::GtU),
        Keyword::Compare(t, RelationOp::LeS),
        Keyword::Compare(t, RelationOp::LeU),
        Keyword::Compare(t, RelationOp::GeS),
        Keyword::Compare(t, RelationOp::GeU),
    ];
    find_word(keywords.as_slice(), word)
}

fn conversion_of(word: &[u8]) -> Option<Keyword>
    ensures { result ≡ find_word (map keyword.Convert all_conversions) word.now }
{
    let keywords = [
        Keyword::Convert(ConvertOp::Wrap),
        Keyword::Convert(ConvertOp::ExtendS),
        Keyword::Convert(ConvertOp::ExtendU),
        Keyword::Convert(ConvertOp::I32From8S),
        Keyword::Convert(ConvertOp::I32From16S),
        Keyword::Convert(ConvertOp::I64From8S),
        Keyword::Convert(ConvertOp::I64From16S),
        Keyword::Convert(ConvertOp::I64From32S),
    ];
    find_word(keywords.as_slice(), word)
}

/// The keyword that a word is.
#[tactic(auto, using(crate::proofs::WordLists::keyword_is))]
pub fn keyword_of(word: &[u8]) -> Option<Keyword>
    ensures { result ≡ keyword_of word.now }
{
    if let Some(keyword) = control_of(word) {
        return Some(keyword);
    }
    if let Some(keyword) = access_of(word) {
        return Some(keyword);
    }
    if let Some(keyword) = numeric_of(ValType::I32, word) {
        return Some(keyword);
    }
    if let Some(keyword) = numeric_of(ValType::I64, word) {
        return Some(keyword);
    }
    conversion_of(word)
}
