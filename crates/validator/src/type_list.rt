//! Lists of types, of which long ones are compared eight types at a time.

ghost use Rattle.std.specs.Prelude.{◌≡◌, ◌≤◌, ◌-◌, ◌+◌, ◌*◌, ◌++◌, ◌∷◌, [], IsTrue, IfSome, MatchOption, length, take, drop};
ghost use Rattle.wasm_ast.specs.Types.{are_same_types};
ghost use Rattle.validator.specs.Inside.Packed.{AreRows, IsRow};

use crate::packed::PACKED;
use crate::rows::{Part, Row};
use std::marker::Model;
use wasm_ast::{ValType, are_same_types};

/// A list of types, in written order. Contracts see the list.
#[derive(Drop)]
pub struct TypeList<'a> {
    types: &'a [ValType],
    /// Rows of bytes of a packed list that begins with these types; none if it is not packed.
    rows: &'a [Row],
}

impl<'a> Model for TypeList<'a> {
    ghost use Rattle.std.specs.Prelude.{List};
    ghost use Rattle.wasm_ast.specs.declared.values.ValType.{ValType};
    ghost use Rattle.validator.specs.Inside.Packed.{AreRows};

    ghost Value = { List ValType };

    ghost view = { λ l. l.types.now };

    ghost invariant = { λ l. AreRows l.rows.now l.types.now };
}

impl<'a> TypeList<'a> {
    /// A list that is not packed.
    pub fn plain(types: &'a [ValType]) -> TypeList<'a>
        ensures { result ≡ types.now }
    {
        TypeList { types, rows: &[] }
    }

    /// A list with its rows of bytes.
    pub fn packed(types: &'a [ValType], rows: &'a [Row]) -> TypeList<'a>
        requires { AreRows rows.now types.now }
        ensures { result ≡ types.now }
    {
        TypeList { types, rows }
    }

    /// The same list.
    pub fn copy(&self) -> TypeList<'a>
        ensures { result ≡ self.now }
    {
        TypeList {
            types: self.types,
            rows: self.rows,
        }
    }

    /// The types.
    pub fn as_slice(&self) -> &'a [ValType]
        ensures { result.now ≡ self.now }
    {
        self.types
    }

    /// How many types there are.
    pub fn len(&self) -> usize
        ensures { result ≡ length self.now }
    {
        self.types.len()
    }

    /// The first types.
    pub fn first(&self, count: usize) -> TypeList<'a>
        requires { count ≤ length self.now }
        ensures { result ≡ take count self.now }
    {
        TypeList {
            types: &self.types[..count],
            rows: self.rows,
        }
    }

    /// The last type and those before it. None if there are no types.
    pub fn split_last(&self) -> Option<(ValType, TypeList<'a>)>
        ensures { MatchOption result
            (self.now ≡ [])
            (λ r. self.now ≡ r.1 ++ r.0 ∷ []) }
    {
        let (last, before) = self.types.split_last()?;
        Some((*last, self.first(before.len())))
    }

    /// Whether both lists are the same.
    pub fn is_same(&self, other: &TypeList<'_>) -> bool
        ensures { result ≡ are_same_types self.now other.now }
    {
        if self.len() != other.len() {
            return false;
        }
        self.is_same_from(0, other, 0)
    }

    /// Whether the types from an index on are those of another list, of which there are as many.
    pub fn is_same_from(&self, at: usize, other: &TypeList<'_>, from: usize) -> bool
        requires at { at ≤ length self.now }
        requires from { from ≤ length other.now }
        requires count { length self.now - at ≡ length other.now - from }
        ensures { result ≡ are_same_types (drop at self.now) (drop from other.now) }
    {
        self.has_same_bytes(at, other, from)
            || are_same_types(&self.types[at..], &other.types[from..])
    }

    // Whether the same is known by bytes.
    fn has_same_bytes(&self, at: usize, other: &TypeList<'_>, from: usize) -> bool
        requires at { at ≤ length self.now }
        requires from { from ≤ length other.now }
        requires count { length self.now - at ≡ length other.now - from }
        ensures { IsTrue result → drop at self.now ≡ drop from other.now }
    {
        let count = (self.types.len() - at) / PACKED;
        let Some(bytes) = self.bytes(at, count) else {
            return false;
        };
        let Some(others) = other.bytes(from, count) else {
            return false;
        };
        bytes.is_known_same(&others)
            && are_same_types(
                &self.types[at + PACKED * count..],
                &other.types[from + PACKED * count..],
            )
    }

    // The bytes of the types from an index on, if there are that many.
    fn bytes(&self, at: usize, count: usize) -> Option<Part<'a>>
        ensures row { IfSome result (λ bytes. IsRow bytes (drop at self.now)) }
        ensures count { IfSome result (λ bytes. length bytes ≡ count) }
    {
        if self.rows.len() <= at % PACKED {
            return None;
        }
        let row = &self.rows[at % PACKED];
        let first = at / PACKED;
        if row.len() < first || row.len() - first < count {
            return None;
        }
        Some(row.part(first, count))
    }
}
