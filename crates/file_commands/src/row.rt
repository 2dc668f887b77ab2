//! The commands of the program, as rows. Each has a file, with its name, its help, its options, what reads
//! them and what runs it.

ghost use Rattle.std.specs.Prelude.{◌≡◌, IfOk, IfSome, is_some, false, map, fold};
ghost use Rattle.clap.specs.Matches.{found_of};
ghost use Rattle.clap.specs.Simple.{app_of, shape_of, with_subcommand};
ghost use Rattle.clap.specs.Walk.{rows_of};
ghost use Rattle.clap.specs.declared.builder.command.Command.TheViews.{out-Command as fields_of};
ghost use Rattle.file_commands.specs.Command.{IsRead};
ghost use Rattle.file_commands.specs.Inside.Chosen.{row_shape, is_row_name, IsComplete};

use crate::command::Command;
use crate::{asm, check, replay, run, serve};
use clap::{ArgMatches, Command as Parser};
use std::alloc::{AllocError, Global};

/// A command of the program.
#[derive(Clone, Copy, Drop)]
pub(crate) enum CommandRow {
    Serve,
    Replay,
    Asm,
    Check,
    Run,
}

/// All of them, in the order of the help.
pub(crate) const ROWS: &[CommandRow] = &[
    CommandRow::Serve,
    CommandRow::Replay,
    CommandRow::Asm,
    CommandRow::Check,
    CommandRow::Run,
];

impl CommandRow {
    fn name(self) -> &'static str
        ensures { result.now ≡ (row_shape self).name }
    {
        match self {
            CommandRow::Serve => serve::NAME,
            CommandRow::Replay => replay::NAME,
            CommandRow::Asm => asm::NAME,
            CommandRow::Check => check::NAME,
            CommandRow::Run => run::NAME,
        }
    }

    // What parses its arguments.
    fn parser<'a>(self, alloc: Global) -> Result<Parser<'a>, AllocError>
        ensures shape { IfOk result (λ p. shape_of p ≡ row_shape self) }
        ensures local { IfOk result (λ p. (fields_of p).has_globals ≡ false) }
    {
        match self {
            CommandRow::Serve => serve::parser(alloc),
            CommandRow::Replay => replay::parser(alloc),
            CommandRow::Asm => asm::parser(alloc),
            CommandRow::Check => check::parser(alloc),
            CommandRow::Run => run::parser(alloc),
        }
    }

    /// The command with the arguments that were found.
    pub(crate) fn read(self, alloc: Global, found: &ArgMatches<'_>) -> Result<Command, AllocError>
        requires { IsComplete (row_shape self).name (rows_of (found_of found.now)) }
        ensures { IfOk result (IsRead (row_shape self).name (rows_of (found_of found.now))) }
    {
        match self {
            CommandRow::Serve => serve::read(alloc, found),
            CommandRow::Replay => replay::read(alloc, found),
            CommandRow::Asm => asm::read(alloc, found),
            CommandRow::Check => check::read(alloc, found),
            CommandRow::Run => run::read(alloc, found),
        }
    }
}

/// The parser with these commands too.
pub(crate) fn with_rows<'a>(
    alloc: Global,
    program: Parser<'a>,
    rows: &[CommandRow],
) -> Result<Parser<'a>, AllocError>
    ensures { IfOk result (λ p. app_of p
        ≡ fold with_subcommand (app_of program.entry) (map row_shape rows.now)) }
{
    let mut program = program;
    let mut left = rows;
    while let Some((row, rest)) = left.split_first() {
        let command = row.parser(alloc)?;
        program = program.subcommand(command)?;
        left = rest;
    }
    Ok(program)
}

/// The first of these commands that has this name.
pub(crate) fn find_row(rows: &[CommandRow], name: &str) -> Option<CommandRow>
    ensures found { is_some result ≡ is_row_name rows.now name.now }
    ensures name { IfSome result (λ row. (row_shape row).name ≡ name.now) }
{
    for row in rows {
        if row.name() == name {
            return Some(*row);
        }
    }
    None
}
