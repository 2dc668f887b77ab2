//! The values of a line's keys, as they are taken from its members.

ghost use Rattle.std.specs.Prelude.{◌≡◌, ◌≢◌, IfSome, IfNone, Some, true};
ghost use Rattle.serde_json.specs.Data.{put};
ghost use Rattle.serde_json.specs.Find.{get_member};
ghost use Rattle.serde_json.specs.View.{members_view};
ghost use Rattle.request_lines.specs.Table.{key_name, key_slot};
ghost use Rattle.request_lines.specs.Inside.Parse.{without};
ghost use Rattle.request_lines.specs.declared.values.Values.{Values};
ghost use Rattle.request_lines.specs.Inside.Values.{value_in, keyed, is_row, IsKeptBut};

use crate::members::{Members, is_done, take_number, take_text};
use crate::table::{Key, Slot};
use std::alloc::Global;
use wasm_ast::Text;

/// The values of the keys of a line. One for which the line has no key is empty, or 0.
#[derive(Drop)]
pub(crate) struct Values {
    pub(crate) id: Text,
    /// That of the text other than the id.
    pub(crate) text: Text,
    /// That of the first number.
    pub(crate) first: u64,
    /// That of the second number.
    pub(crate) second: u64,
}

/// Takes the value of a key if it is a text or a number, as it has to be. The member is gone if it is
/// another value, too.
fn take_value(members: &mut Members, key: Key, values: &mut Values) -> Option<()>
    ensures value { IfSome result (λ _.
        members_view members.old.entries
        ≡ put (key_name key) (value_in (key_slot key) values.new)
        (members_view members.new.entries)) }
    ensures others { IfSome result (λ _. IsKeptBut (key_slot key) values.old values.new) }
    ensures none { IfNone result ((v : Values) →
        get_member (key_name key) (members_view members.old.entries)
        ≢ Some (value_in (key_slot key) v)) }
    ensures rest { members_view members.new.entries
        ≡ without (key_name key) (members_view members.old.entries) }
{
    match key.slot() {
        Slot::Id => {
            values.id = take_text(members, key.name())?;
            Some(())
        }
        Slot::Text => {
            values.text = take_text(members, key.name())?;
            Some(())
        }
        Slot::First => {
            values.first = take_number(members, key.name())?;
            Some(())
        }
        Slot::Second => {
            values.second = take_number(members, key.name())?;
            Some(())
        }
    }
}

/// Takes the values of these keys if the members are these and no others, and each is of its kind.
pub(crate) fn take_values(alloc: Global, keys: &[Key], members: Members) -> Option<Values>
    requires { is_row keys.now ≡ true }
    ensures some { IfSome result (λ v. members_view members.entries ≡ keyed keys.now v) }
    ensures none { IfNone result ((v : Values) → members_view members.entries ≢ keyed keys.now v) }
{
    let mut left = members;
    let mut values = Values {
        id: Text::new(String::new(alloc)),
        text: Text::new(String::new(alloc)),
        first: 0,
        second: 0,
    };
    for key in keys {
        take_value(&mut left, *key, &mut values)?;
    }
    if is_done(&left) { Some(values) } else { None }
}
