//! The commands that `clap` reads the words by, one for each mode.

ghost use Rattle.std.specs.Prelude.{◌≡◌, IfOk, false};
ghost use Rattle.clap.specs.Words.{app_of, rule_of};
ghost use Rattle.po_words.specs.Commands.{command_for, option, required, flag, opt_command, gen_command};

use crate::mode::Mode;
use clap::{Arg, ArgAction, Command};
use po_word::OutOfMemory;
use std::alloc::Global;

/// An option that takes one value.
fn option<'a>(alloc: Global, name: &'a str) -> Arg<'a>
    ensures rule { rule_of result ≡ option name.entry.now }
    ensures local { result.global ≡ false }
{
    Arg::new(alloc, name).long(name)
}

/// An option that takes one value and has to be given.
fn required<'a>(alloc: Global, name: &'a str) -> Arg<'a>
    ensures rule { rule_of result ≡ required name.entry.now }
    ensures local { result.global ≡ false }
{
    option(alloc, name).required(true)
}

/// An option that takes no value.
fn flag<'a>(alloc: Global, name: &'a str) -> Arg<'a>
    ensures rule { rule_of result ≡ flag name.entry.now }
    ensures local { result.global ≡ false }
{
    option(alloc, name).action(ArgAction::SetTrue)
}

fn opt_command<'a>(alloc: Global) -> Result<Command<'a>, OutOfMemory>
    ensures { IfOk result (λ command. app_of command ≡ opt_command) }
{
    let command = Command::new(alloc, "opt")
        .arg(option(alloc, "workers"))?
        .arg(option(alloc, "learners"))?
        .arg(flag(alloc, "stats"))?;
    Ok(command)
}

fn gen_command<'a>(alloc: Global) -> Result<Command<'a>, OutOfMemory>
    ensures { IfOk result (λ command. app_of command ≡ gen_command) }
{
    let command = Command::new(alloc, "gen")
        .arg(required(alloc, "seed"))?
        .arg(required(alloc, "units"))?;
    Ok(command)
}

/// The command that reads the words of a mode.
// ORDER: modes
pub fn command_for<'a>(alloc: Global, mode: Mode) -> Result<Command<'a>, OutOfMemory>
    ensures { IfOk result (λ command. app_of command ≡ command_for mode) }
{
    match mode {
        Mode::Naive => Ok(Command::new(alloc, "naive")),
        Mode::Slow => Ok(Command::new(alloc, "slow")),
        Mode::Opt => opt_command(alloc),
        Mode::Gen => gen_command(alloc),
    }
}
