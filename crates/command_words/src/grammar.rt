//! The commands, as `clap` reads them.

ghost use Rattle.std.specs.Prelude.{◌≡◌, ◌≢◌, true, false, map, string_bytes, IfOk, IfErr};
ghost use Rattle.std.specs.List.{fold, list_all};
ghost use Rattle.clap.specs.Simple.{with_subcommand};
ghost use Rattle.clap.specs.Words.{app_of, kind_of, shape_of, subcommand_rows_of};
ghost use Rattle.clap.specs.declared.builder.command.Command.TheViews.{out-Command};
ghost use Rattle.clap.specs.declared.error.kind.ErrorKind.TheVariants.{OutOfMemory};
ghost use Rattle.command_words.specs.Command.{is_plain};
ghost use Rattle.command_words.specs.Grammar.{IsMatched, IsUnmatched, program, shape};

use crate::forms::{FORMS, Form, Values};
use clap::{Arg, ArgMatches, Command, Error};
use std::alloc::{AllocError, Global};

/// What is found in words of which none begins with `-`.
///
/// Fails with `OutOfMemory` for want of memory alone, and else exactly where the words are no command with the values that it needs.
pub(crate) fn matches_of<'a>(alloc: Global, words: &'a [String]) -> Result<ArgMatches<'a>, Error>
    requires { list_all is_plain (map string_bytes words.now) ≡ true }
    ensures matched { IfOk result (λ m. IsMatched (map string_bytes words.now) (subcommand_rows_of m)) }
    ensures fault { IfErr result (λ e. kind_of e ≢ OutOfMemory → IsUnmatched (map string_bytes words.now)) }
{
    program(alloc)?.try_get_matches_from(words)
}

/// The program: all words are its arguments, and it has neither options nor help.
fn program<'a>(alloc: Global) -> Result<Command<'a>, AllocError>
    ensures { IfOk result (λ made. app_of made ≡ program) }
{
    let program = Command::new(alloc, "v2g_charge")
        .no_binary_name(true)
        .disable_help_flag(true)
        .disable_help_subcommand(true)
        .subcommand_required(true);
    with_commands(alloc, program, &FORMS)
}

/// A program with a command for each form.
fn with_commands<'a>(
    alloc: Global,
    mut program: Command<'a>,
    forms: &[Form],
) -> Result<Command<'a>, AllocError>
    ensures { IfOk result (λ made. app_of made ≡ fold (λ app form. with_subcommand app (shape form.name.now form.values)) (app_of program.entry) forms.now) }
{
    for form in forms {
        let command = command_of(alloc, form)?;
        program = program.subcommand(command)?;
    }
    Ok(program)
}

/// The command of a form.
fn command_of<'a>(alloc: Global, form: &Form) -> Result<Command<'a>, AllocError>
    ensures shape { IfOk result (λ made. shape_of made ≡ shape form.now.name.now form.now.values) }
    ensures local { IfOk result (λ made. (out-Command made).has_globals ≡ false) }
{
    let first = Arg::new(alloc, "FIRST").required(true);
    let second = Arg::new(alloc, "SECOND").required(true);
    let third = Arg::new(alloc, "THIRD").required(true);
    let command = Command::new(alloc, form.name).arg(first)?;
    match form.values {
        Values::One => Ok(command),
        Values::Two => command.arg(second),
        Values::Three => command.arg(second)?.arg(third),
    }
}
