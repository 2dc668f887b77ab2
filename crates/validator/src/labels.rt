//! The labels of the blocks that are open.

ghost use Rattle.std.specs.Prelude.{◌≡◌, ◌∷◌, ◌<◌, ◌≤◌, [], List, IfOk, OnOk, Some, slice_get, drop, length};
ghost use Rattle.wasm_ast.specs.declared.values.ValType.{ValType};
ghost use Rattle.validator.specs.Inside.Algorithm.{is_label};
ghost use Rattle.validator.specs.Inside.Labels.{AreAlike, HaveSameTypes, taken_by};

use crate::type_list::TypeList;
use std::alloc::{AllocError, Global};
use std::marker::Model;

/// A label.
#[derive(Drop)]
pub struct Label<'a> {
    /// The types that a branch to it takes.
    pub types: TypeList<'a>,
    /// A label that is known to take the same types, by its number from the outermost on: one
    /// outside it, or itself.
    pub alike: usize,
}

/// For each block that is open the types that a branch to its label takes. Contracts see the
/// innermost first.
#[derive(Drop)]
pub struct Labels<'a> {
    labels: Vec<Label<'a>>,
}

impl<'a> Model for Labels<'a> {
    ghost use Rattle.std.specs.Prelude.{List, reverse};
    ghost use Rattle.wasm_ast.specs.declared.values.ValType.{ValType};

    ghost Value = { List (List ValType) };

    ghost use Rattle.validator.specs.Inside.Labels.{AreAlike, taken_by};

    ghost view = { λ l. reverse (taken_by l.labels.items) };

    ghost invariant = { λ l. AreAlike l.labels.items };
}

impl<'a> Labels<'a> {
    /// No labels. No memory is taken.
    pub fn new(alloc: Global) -> Labels<'a>
        ensures { result ≡ [] }
    {
        Labels {
            labels: Vec::new(alloc),
        }
    }

    /// The same labels.
    pub fn copy(&self, alloc: Global) -> Result<Labels<'a>, AllocError>
        ensures { IfOk result (λ l. l ≡ self.now) }
    {
        let mut labels = Vec::with_capacity(alloc, self.labels.len())?;
        for label in &self.labels {
            labels.push_reserved(Label {
                types: label.types.copy(),
                alike: label.alike,
            });
        }
        Ok(Labels { labels })
    }

    /// Adds the label of a block inside all others.
    pub fn push(&mut self, types: &TypeList<'a>) -> Result<(), AllocError>
        ensures { OnOk result (self.new ≡ types.now ∷ self.old) }
    {
        let alike = self.labels.len();
        self.labels.push(Label {
            types: types.copy(),
            alike,
        })?;
        Ok(())
    }

    /// Removes the innermost label.
    pub fn pop(&mut self)
        ensures { self.new ≡ drop 1 self.old }
    {
        let _innermost = self.labels.pop();
    }

    /// How many labels there are.
    pub fn len(&self) -> usize
        ensures { result ≡ length self.now }
    {
        self.labels.len()
    }

    /// The types that a branch to this label takes, the innermost one being 0.
    pub fn get(&self, label: u32) -> Option<TypeList<'a>>
        ensures { result ≡ slice_get self.now label }
    {
        let count = self.labels.len();
        let index = label as usize;
        if index < count {
            Some(self.labels[count - 1 - index].types.copy())
        } else {
            None
        }
    }

    /// Whether both labels are there and take the same types. They are compared only while that is not known.
    pub fn take_same(&mut self, label: u32, other: u32) -> bool
        ensures same { (types : List ValType) → slice_get self.old other ≡ Some types
            → result ≡ is_label self.old types label }
        ensures labels { self.new ≡ self.old }
    {
        let count = self.labels.len();
        let first = label as usize;
        let second = other as usize;
        first < count
            && second < count
            && are_alike(&mut self.labels, count - 1 - first, count - 1 - second)
    }
}

// Labels are counted from the outermost on here.

// Whether two labels take the same types. If they do, it is noted.
fn are_alike(labels: &mut Vec<Label<'_>>, index: usize, other: usize) -> bool
    requires index { index < length labels.old.items }
    requires other { other < length labels.old.items }
    requires alike { AreAlike labels.old.items }
    ensures alike { AreAlike labels.new.items }
    ensures types { taken_by labels.new.items ≡ taken_by labels.old.items }
    ensures same { HaveSameTypes labels.old.items index other result }
{
    let first = outermost(labels.as_slice(), index);
    let second = outermost(labels.as_slice(), other);
    if !have_same_types(labels.as_slice(), first, second) {
        return false;
    }
    set_alike(labels, index, first);
    set_alike(labels, other, second);
    if first < second {
        set_alike(labels, second, first);
    } else {
        set_alike(labels, first, second);
    }
    true
}

// The outermost label that this one is known to be like.
fn outermost(labels: &[Label<'_>], index: usize) -> usize
    requires index { index < length labels.now }
    requires alike { AreAlike labels.now }
    ensures within { result ≤ index }
    ensures same { slice_get (taken_by labels.now) result ≡ slice_get (taken_by labels.now) index }
{
    let mut outermost = index;
    while labels[outermost].alike < outermost {
        outermost = labels[outermost].alike;
    }
    outermost
}

// Whether two labels take the same types. They are compared if they are not one label.
fn have_same_types(labels: &[Label<'_>], index: usize, other: usize) -> bool
    requires index { index < length labels.now }
    requires other { other < length labels.now }
    ensures { HaveSameTypes labels.now index other result }
{
    if index == other {
        return true;
    }
    compare(labels, index, other)
}

fn compare(labels: &[Label<'_>], index: usize, other: usize) -> bool
    requires index { index < length labels.now }
    requires other { other < length labels.now }
    ensures { HaveSameTypes labels.now index other result }
{
    labels[other].types.is_same(&labels[index].types)
}

// Notes that a label takes the same types as one that is not inside it.
fn set_alike(labels: &mut Vec<Label<'_>>, index: usize, alike: usize)
    requires index { index < length labels.old.items }
    requires within { alike ≤ index }
    requires same { slice_get (taken_by labels.old.items) alike
        ≡ slice_get (taken_by labels.old.items) index }
    requires alike { AreAlike labels.old.items }
    ensures alike { AreAlike labels.new.items }
    ensures types { taken_by labels.new.items ≡ taken_by labels.old.items }
{
    labels[index].alike = alike;
}
