//! What blocks take and give.

ghost use Rattle.std.specs.Prelude.{◌≡◌, MatchOption, Some, None};
ghost use Rattle.wasm_ast.specs.Types.{block_type};
ghost use Rattle.validator.specs.Inside.FunctionContext.{func_type_of};

use crate::packed_module::PackedModule;
use crate::type_list::TypeList;
use wasm_ast::{BlockType, ValType};

/// The types that a block takes and gives, in written order.
#[derive(Drop)]
pub struct BlockTypes<'a> {
    pub params: TypeList<'a>,
    pub results: TypeList<'a>,
}

/// What blocks of a type take and give (2.4.5; by index Core 2.0, 2.4.8). None if the type is not in the
/// module.
pub fn block_types<'a>(of: &'a PackedModule, kind: BlockType) -> Option<BlockTypes<'a>>
    ensures { MatchOption result
        (block_type of.now.types kind ≡ None)
        (λ b. block_type of.now.types kind ≡ Some (func_type_of b)) }
{
    let results: &'a [ValType] = match kind {
        BlockType::Empty => &[],
        BlockType::One(ValType::I32) => &[ValType::I32],
        BlockType::One(ValType::I64) => &[ValType::I64],
        BlockType::Index(index) => {
            return of.type_with(index);
        }
    };
    Some(BlockTypes {
        params: TypeList::plain(&[]),
        results: TypeList::plain(results),
    })
}
