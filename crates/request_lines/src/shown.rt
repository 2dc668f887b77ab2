//! Members of replies, each a key and what it shows.

ghost use Rattle.std.specs.Prelude.{◌≡◌, IfOk, OnOk};
ghost use Rattle.serde_json.specs.Data.{object, no_members};
ghost use Rattle.serde_json.specs.View.{view, members_view};
ghost use Rattle.request_lines.specs.Inside.Rows.{shown_data, with_rows};

use crate::members::Members;
use serde_json::{Map, Value, put};
use std::alloc::{AllocError, Global};

/// What a member of a reply shows.
#[derive(Clone, Copy)]
pub(crate) enum Shown<'a> {
    Text(&'a str),
    Count(u64),
    Flag(bool),
}

/// The member that every accepted request has.
pub(crate) const OK: (&str, Shown<'static>) = ("ok", Shown::Flag(true));

/// The member that every refused request has.
pub(crate) const NOT_OK: (&str, Shown<'static>) = ("ok", Shown::Flag(false));

// The value of what a member shows.
fn value_of(alloc: Global, shown: Shown<'_>) -> Result<Value, AllocError>
    ensures { IfOk result (λ v. view v ≡ shown_data shown.entry) }
{
    match shown {
        Shown::Text(text) => Ok(Value::String(String::from_str(alloc, text)?)),
        Shown::Count(count) => Ok(Value::from(count)),
        Shown::Flag(flag) => Ok(Value::Bool(flag)),
    }
}

/// Adds members, one after another.
pub(crate) fn add(
    alloc: Global,
    members: &mut Members,
    rows: &[(&str, Shown<'_>)],
) -> Result<(), AllocError>
    ensures { OnOk result (members_view members.new.entries
        ≡ with_rows rows.now (members_view members.old.entries)) }
{
    for row in rows {
        let (key, shown) = *row;
        let value = value_of(alloc, shown)?;
        put(members, alloc, key, value)?;
    }
    Ok(())
}

/// The object with these members alone.
pub(crate) fn object(alloc: Global, rows: &[(&str, Shown<'_>)]) -> Result<Value, AllocError>
    ensures { IfOk result (λ v. view v ≡ object (with_rows rows.now no_members)) }
{
    let mut members = Map::new(alloc);
    add(alloc, &mut members, rows)?;
    Ok(Value::Object(members))
}
