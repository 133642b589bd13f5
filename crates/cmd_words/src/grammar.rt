// The commands with their arguments and options, by clap's builder.
use crate::commands::{COMMANDS, CommandWords, SEARCH, SEARCH_BY_STAGES};
use crate::help::{BRIEF, PROGRAM};
use crate::words::{Argument, Flag, Text};
use clap::{Arg, ArgAction, Command};
use cmd_options::{NoMemory, Number, REACHES, VERSION};
use std::alloc::Global;

/// The program with its commands. Usage calls it `bb`, whatever the program's file is called.
pub(crate) fn program<'a>(alloc: Global) -> Result<Command<'a>, NoMemory> {
    let mut program = Command::new(alloc, "bb")
        .version(VERSION)
        .about("A verified tool for the busy beaver problem.")
        .after_help(PROGRAM)
        .subcommand_required(true)
        .arg_required_else_help(true)
        .bin_name("bb")?;
    for words in &COMMANDS {
        program = program.subcommand(command(alloc, words)?)?;
    }
    Ok(program)
}

fn command<'a>(alloc: Global, words: &CommandWords) -> Result<Command<'a>, NoMemory> {
    let empty = Command::new(alloc, words.name)
        .about(words.about)
        .after_help(BRIEF)
        .after_long_help(words.after_help);
    let command = with_arguments(alloc, empty, words.arguments)?;
    if words.searches {
        with_search(alloc, command)
    } else {
        Ok(command)
    }
}

fn with_search<'a>(alloc: Global, command: Command<'a>) -> Result<Command<'a>, NoMemory> {
    let mut command = with_arguments(alloc, command, &SEARCH)?;
    for reach in &REACHES {
        command = command.arg(number_arg(alloc, reach))?;
    }
    with_arguments(alloc, command, &SEARCH_BY_STAGES)
}

fn with_arguments<'a>(
    alloc: Global,
    command: Command<'a>,
    arguments: &[Argument],
) -> Result<Command<'a>, NoMemory> {
    let mut command = command;
    for argument in arguments {
        command = command.arg(built(alloc, argument)?)?;
    }
    Ok(command)
}

fn built<'a>(alloc: Global, argument: &Argument) -> Result<Arg<'a>, NoMemory> {
    match argument {
        Argument::Number(number) => Ok(number_arg(alloc, number)),
        Argument::Text(text) => Ok(text_arg(alloc, text)),
        Argument::TextUnless(text, flag) => text_unless(alloc, text, *flag),
        Argument::TextWith(text, option) => text_arg(alloc, text).requires_arg(*option),
        Argument::Texts(text, option) => texts_arg(alloc, text, *option),
        Argument::Flag(flag) => flag_arg(alloc, flag),
    }
}

// A text for clap, which knows no numbers with `_` or `e`: `number_of` reads it.
fn number_arg<'a>(alloc: Global, number: &Number) -> Arg<'a> {
    let arg = valued(alloc, number.name, number.value).help(number.help);
    match number.default {
        Some(default) => arg.default_value(default),
        None => arg,
    }
}

fn text_arg<'a>(alloc: Global, text: &Text) -> Arg<'a> {
    valued(alloc, text.name, text.value).help(text.help)
}

// A text in whose place the flag may stand.
fn text_unless<'a>(alloc: Global, text: &Text, flag: &'static str) -> Result<Arg<'a>, NoMemory> {
    text_arg(alloc, text)
        .required(false)
        .required_unless_present(flag)?
        .conflicts_with(flag)
}

// Any number of texts, in whose place the option may stand.
fn texts_arg<'a>(alloc: Global, text: &Text, option: &'static str) -> Result<Arg<'a>, NoMemory> {
    text_arg(alloc, text)
        .required(false)
        .action(ArgAction::Append)
        .conflicts_with(option)
}

// An option, where help has a name for its value; else an argument.
fn valued<'a>(alloc: Global, name: &'static str, value: Option<&'static str>) -> Arg<'a> {
    match value {
        Some(value) => Arg::new(alloc, name).long(name).value_name(value),
        None => Arg::new(alloc, name).required(true),
    }
}

fn flag_arg<'a>(alloc: Global, flag: &Flag) -> Result<Arg<'a>, NoMemory> {
    Arg::new(alloc, flag.name)
        .long(flag.name)
        .action(ArgAction::SetTrue)
        .help(flag.help)
        .requires_all(flag.needs)?
        .conflicts_with_all(flag.excludes)
}
