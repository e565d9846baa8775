// The command line as `clap` is told of it.
ghost use Rattle.std.specs.Prelude.{◌≡◌, IfOk, false};
ghost use Rattle.clap.specs.Words.{app_of, shape_of};
ghost use Rattle.clap.specs.declared.builder.command.Command.TheViews.{out-Command};
ghost use Rattle.ebs_words.specs.inner.Grammar as spec;

use clap::{Arg, Command};
use std::alloc::{AllocError, Global};

/// One level of commands, with neither help nor version.
pub fn grammar<'a>(alloc: Global) -> Result<Command<'a>, AllocError>
    ensures { IfOk result (λ command. app_of command ≡ spec.grammar_app) }
{
    level(alloc)
        .subcommand(Command::new(alloc, "session"))?
        .subcommand(init(alloc)?)?
        .subcommand(Command::new(alloc, "tick"))?
        .subcommand(Command::new(alloc, "collect"))?
        .subcommand(Command::new(alloc, "usage"))?
        .subcommand(Command::new(alloc, "check"))?
        .subcommand(sample(alloc)?)
}

fn level<'a>(alloc: Global) -> Command<'a>
    ensures { app_of result ≡ spec.level }
{
    Command::new(alloc, "ebs")
        .no_binary_name(true)
        .disable_help_flag(true)
        .disable_help_subcommand(true)
        .disable_version_flag(true)
        .subcommand_required(true)
}

fn init<'a>(alloc: Global) -> Result<Command<'a>, AllocError>
    ensures shape { IfOk result (λ command. shape_of command ≡ spec.init) }
    ensures local { IfOk result (λ command. (out-Command command).has_globals ≡ false) }
{
    let secret = Arg::new(alloc, "secret").long("secret");
    Command::new(alloc, "init").arg(secret)
}

fn sample<'a>(alloc: Global) -> Result<Command<'a>, AllocError>
    ensures shape { IfOk result (λ command. shape_of command ≡ spec.sample) }
    ensures local { IfOk result (λ command. (out-Command command).has_globals ≡ false) }
{
    let rounds = Arg::new(alloc, "rounds").required(true);
    Command::new(alloc, "sample").arg(rounds)
}
