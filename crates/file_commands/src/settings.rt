//! What a task is given beside its arguments.

ghost use Rattle.std.specs.Prelude.{◌≡◌, [], None};

use reasons::TaskWords;
use std::alloc::Global;

/// The settings of a task: the entries of its environment, `NAME=VALUE` each, in their order, and the limit
/// on its memory in bytes, if there is one.
#[derive(Drop)]
pub struct Settings {
    pub env: Vec<String>,
    pub memory: Option<u64>,
}

impl Settings {
    /// No environment, and no limit.
    pub fn none(alloc: Global) -> Settings
        ensures env { result.env.items ≡ [] }
        ensures memory { result.memory ≡ None }
    {
        Settings {
            env: Vec::new(alloc),
            memory: None,
        }
    }

    /// What a task of a file of this name is given with these arguments.
    pub(crate) fn words<'a>(&'a self, name: &'a str, args: &'a [String]) -> TaskWords<'a>
        ensures name { result.name.now ≡ name.now }
        ensures args { result.args.now ≡ args.now }
        ensures env { result.env.now ≡ self.now.env.items }
        ensures limit { result.limit ≡ self.now.memory }
    {
        TaskWords {
            name,
            args,
            env: self.env.as_slice(),
            limit: self.memory,
        }
    }
}
