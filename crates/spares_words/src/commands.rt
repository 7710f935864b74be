//! The commands, for `clap`.
ghost use Rattle.std.specs.Prelude.{◌≡◌, IfOk, false};
ghost use Rattle.clap.specs.Words.{app_of, rule_of};
ghost use Rattle.spares_words.specs.Commands.{
  app_named,
  bare,
  command_named,
  rule_of_parameter,
  with_parameters,
};

use self::Parameter::{Optional, Positional, Required};
use clap::{Arg, Command};
use std::alloc::{AllocError, Global};

/// A command of the program.
#[derive(Clone, Copy)]
pub(crate) enum CommandName {
    Single,
    Eval,
    Plan,
    Check,
    Demo,
    Sweep,
    Target,
    Session,
    Compare,
}

/// The command of this name.
pub(crate) fn command_named(name: &str) -> Option<CommandName>
    ensures { result ≡ command_named name.now }
{
    match name {
        "single" => Some(CommandName::Single),
        "eval" => Some(CommandName::Eval),
        "plan" => Some(CommandName::Plan),
        "check" => Some(CommandName::Check),
        "demo" => Some(CommandName::Demo),
        "sweep" => Some(CommandName::Sweep),
        "target" => Some(CommandName::Target),
        "session" => Some(CommandName::Session),
        "compare" => Some(CommandName::Compare),
        _ => None,
    }
}

/// An argument of a command, with its name.
#[derive(Clone, Copy)]
enum Parameter<'a> {
    /// A required value without an option name.
    Positional(&'a str),
    /// `--id VALUE` or `--id=VALUE`, which may be left out.
    Optional(&'a str),
    /// `--id VALUE` or `--id=VALUE`, which is required.
    Required(&'a str),
}

/// The argument, for `clap`.
fn arg_of<'a>(alloc: Global, parameter: Parameter<'a>) -> Arg<'a>
    ensures rule { rule_of result ≡ rule_of_parameter parameter.entry }
    ensures local { result.global ≡ false }
{
    match parameter {
        Positional(id) => Arg::new(alloc, id).required(true),
        Optional(id) => Arg::new(alloc, id).long(id),
        Required(id) => Arg::new(alloc, id).long(id).required(true),
    }
}

/// A command with only its own name, without help and version.
fn bare<'a>(alloc: Global, name: &'a str) -> Command<'a>
    ensures { app_of result ≡ bare name.entry.now }
{
    Command::new(alloc, name)
        .disable_help_flag(true)
        .disable_version_flag(true)
}

/// A command with its name and its arguments, in order.
fn command_with<'a>(
    alloc: Global,
    name: &'a str,
    parameters: &[Parameter<'a>],
) -> Result<Command<'a>, AllocError>
    ensures { IfOk result (λ c. app_of c ≡ with_parameters (bare name.entry.now) parameters.now) }
{
    let mut command = bare(alloc, name);
    for parameter in parameters {
        command = command.arg(arg_of(alloc, *parameter))?;
    }
    Ok(command)
}

/// `single MEAN STOCK [--variance V]`.
static SINGLE: [Parameter<'static>; 3] = [
    Positional("mean"),
    Positional("stock"),
    Optional("variance"),
];

/// `eval --sites F --parts F --rates F --stocks F [--bits N]`.
static EVAL: [Parameter<'static>; 5] = [
    Required("sites"),
    Required("parts"),
    Required("rates"),
    Required("stocks"),
    Optional("bits"),
];

/// `plan --sites F --parts F --rates F [--on-hand F] --budget N [--format N] [--objective NAME] --certificate F`.
static PLAN: [Parameter<'static>; 8] = [
    Required("sites"),
    Required("parts"),
    Required("rates"),
    Required("budget"),
    Optional("on-hand"),
    Optional("objective"),
    Required("certificate"),
    Optional("format"),
];

/// `check --certificate F`.
static CHECK: [Parameter<'static>; 1] = [Required("certificate")];

/// `demo NUMBER LINES`.
static DEMO: [Parameter<'static>; 2] = [Positional("number"), Positional("lines")];

/// `sweep --sites F --parts F --rates F`.
static SWEEP: [Parameter<'static>; 3] = [Required("sites"), Required("parts"), Required("rates")];

/// `target --sites F --parts F --rates F --backorders X`.
static TARGET: [Parameter<'static>; 4] = [
    Required("sites"),
    Required("parts"),
    Required("rates"),
    Required("backorders"),
];

/// `session --sites F --parts F --rates F --edits F`.
static SESSION: [Parameter<'static>; 4] = [
    Required("sites"),
    Required("parts"),
    Required("rates"),
    Required("edits"),
];

/// `compare --sites F --parts F --rates F --stocks F`.
static COMPARE: [Parameter<'static>; 4] = [
    Required("sites"),
    Required("parts"),
    Required("rates"),
    Required("stocks"),
];

/// The word for a command, and its arguments in order.
#[tactic(auto, unfolding(crate::specs::Commands::single_app, crate::specs::Commands::eval_app, crate::specs::Commands::plan_app, crate::specs::Commands::check_app, crate::specs::Commands::demo_app, crate::specs::Commands::sweep_app, crate::specs::Commands::target_app, crate::specs::Commands::session_app, crate::specs::Commands::compare_app))]
fn form_of<'a>(name: CommandName) -> (&'a str, &'a [Parameter<'a>])
    ensures { with_parameters (bare result.0.now) result.1.now ≡ app_named name }
{
    match name {
        CommandName::Single => ("single", SINGLE.as_slice()),
        CommandName::Eval => ("eval", EVAL.as_slice()),
        CommandName::Plan => ("plan", PLAN.as_slice()),
        CommandName::Check => ("check", CHECK.as_slice()),
        CommandName::Demo => ("demo", DEMO.as_slice()),
        CommandName::Sweep => ("sweep", SWEEP.as_slice()),
        CommandName::Target => ("target", TARGET.as_slice()),
        CommandName::Session => ("session", SESSION.as_slice()),
        CommandName::Compare => ("compare", COMPARE.as_slice()),
    }
}

/// A command with its arguments and options.
pub(crate) fn command_of<'a>(alloc: Global, name: CommandName) -> Result<Command<'a>, AllocError>
    ensures { IfOk result (λ c. app_of c ≡ app_named name) }
{
    let (word, parameters) = form_of(name);
    command_with(alloc, word, parameters)
}
