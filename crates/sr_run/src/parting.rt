ghost use Rattle.std.specs.Prelude.{◌≡◌, ◌++◌, IfOk, OnOk, [], map, string_bytes};
ghost use Rattle.clap.specs.Words.{app_of, first_value, found_of, rows_of, subcommand_rows_of};
ghost use Rattle.sr_run.specs.Command.{IsCommand};
ghost use Rattle.sr_run.specs.Parting.{argument_names, before, command_of_form, form_of, parts_of, program, texts, values_of};

use clap::error::ErrorKind;
use clap::{Arg, ArgMatches, Command};
use std::alloc::{AllocError, Global};

// A command's name, and the names of its arguments in their order.
type Form = (&'static str, &'static [&'static str]);

// The commands.
const FORMS: [Form; 6] = [
    ("one", &["VIP", "SERVERS"]),
    ("make", &["N", "PACKETS"]),
    ("replay", &["SCRIPT"]),
    ("audit", &["SCRIPT"]),
    ("steps", &["SCRIPT", "SEED"]),
    ("demo", &["N"]),
];

/// Parts the words of a command: its name, and then the text of each of its arguments. Any error is want of memory.
pub(crate) fn part<'a>(alloc: Global, words: &'a [String]) -> Result<Vec<&'a str>, AllocError>
    requires { IsCommand (map string_bytes words.now) }
    ensures { IfOk result (λ parts. texts parts.items ≡ map string_bytes words.entry.now) }
{
    match program(alloc)?.try_get_matches_from(words) {
        Ok(matches) => parts_of(alloc, &matches),
        Err(why) => match why.kind() {
            ErrorKind::OutOfMemory => Err(AllocError),
            _ => unreachable!(),
        },
    }
}

// The program as the library knows it: each command with its arguments.
fn program<'a>(alloc: Global) -> Result<Command<'a>, AllocError>
    ensures { IfOk result (λ c. app_of c ≡ program) }
{
    let mut program = Command::new(alloc, "silkroad").no_binary_name(true);
    for form in FORMS.as_slice() {
        program = program.subcommand(command(alloc, form)?)?;
    }
    Ok(program)
}

// One command.
fn command<'a>(alloc: Global, form: &Form) -> Result<Command<'a>, AllocError>
    ensures { IfOk result (λ c. app_of c ≡ command_of_form (form_of form.now)) }
{
    let mut command = Command::new(alloc, form.0);
    for argument in form.1 {
        command = command.arg(Arg::new(alloc, *argument))?;
    }
    Ok(command)
}

// The names of a command's arguments.
fn argument_names(name: &str) -> &'static [&'static str]
    ensures { texts result.now ≡ argument_names name.now }
{
    for form in FORMS.as_slice() {
        if form.0 == name {
            return form.1;
        }
    }
    &[]
}

// The parts that were found: the command's name, and the texts of its arguments.
#[tactic(auto, using(crate::proofs::Parts::met))]
fn parts_of<'a>(alloc: Global, matches: &ArgMatches<'a>) -> Result<Vec<&'a str>, AllocError>
    ensures { IfOk result (λ parts. texts parts.items ≡ parts_of (subcommand_rows_of matches.now)) }
{
    let mut parts = Vec::new(alloc);
    match matches.subcommand() {
        None => Ok(parts),
        Some((name, found)) => {
            parts.push(name)?;
            push_values(&mut parts, found, argument_names(name))?;
            Ok(parts)
        }
    }
}

// Appends the texts that were found of these arguments, in their order.
fn push_values<'a>(
    parts: &mut Vec<&'a str>,
    found: &ArgMatches<'a>,
    names: &[&str],
) -> Result<(), AllocError>
    ensures { OnOk result (texts parts.new.items ≡ texts parts.old.items ++ values_of (texts names.now) (rows_of (found_of found.now))) }
{
    for name in names {
        push_value(parts, found, *name)?;
    }
    Ok(())
}

// Appends the text that was found of this argument, if there is one.
fn push_value<'a>(
    parts: &mut Vec<&'a str>,
    found: &ArgMatches<'a>,
    name: &str,
) -> Result<(), AllocError>
    ensures { OnOk result (texts parts.new.items ≡ texts parts.old.items ++ before (first_value (found_of found.now) name.now) []) }
{
    match found.get_str(name) {
        None => Ok(()),
        Some(text) => {
            parts.push(text)?;
            Ok(())
        }
    }
}
