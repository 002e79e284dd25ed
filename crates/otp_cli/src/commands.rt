//! The commands of the program, as `clap` is told them.

ghost use Rattle.std.specs.Prelude.{◌≡◌, true, false, codes, IfOk};
ghost use Rattle.clap.specs.Words.{app_of, new_app, rule_of, with_rule, with_subcommand};
ghost use Rattle.otp_cli.specs.Commands.{asked_app, bare_app, check_app, checked_app, clock_rule, diff_app, file_app, file_rule, files_rule, flag_rule, import_app, limits_app, needed_rule, number_rule, option_rule, otp_app, picked_app, place_rule, played_app, replay_app, replayed_app, run_app, scheduled_app, script_rule, shown_app, shown_replay_app, shutdown_app, suggest_app, tree_app, tried_app, try_app};

use crate::help::*;
use clap::{Arg, ArgAction};
use std::alloc::{AllocError, Global};

/// An argument of this name that is no value and is set or not.
fn flag_arg<'a>(alloc: Global, name: &'a str, help: &'a str) -> Arg<'a>
    ensures rule { rule_of result ≡ flag_rule name.entry.now }
    ensures local { result.global ≡ false }
{
    Arg::new(alloc, name)
        .long(name)
        .action(ArgAction::SetTrue)
        .help(help)
}

/// A file of this name, which has to be named.
fn place_arg<'a>(alloc: Global, name: &'a str, help: &'a str) -> Arg<'a>
    ensures rule { rule_of result ≡ place_rule name.entry.now }
    ensures local { result.global ≡ false }
{
    Arg::new(alloc, name).required(true).help(help)
}

/// The tree file.
fn file_arg<'a>(alloc: Global, help: &'a str) -> Arg<'a>
    ensures rule { rule_of result ≡ file_rule }
    ensures local { result.global ≡ false }
{
    place_arg(alloc, "FILE", help)
}

/// Tree files, at least one.
fn files_arg<'a>(alloc: Global, help: &'a str) -> Arg<'a>
    ensures rule { rule_of result ≡ files_rule }
    ensures local { result.global ≡ false }
{
    Arg::new(alloc, "FILE")
        .required(true)
        .num_args(1..)
        .help(help)
}

/// A text with this long name, which may be given.
fn option_arg<'a>(alloc: Global, name: &'a str, value_name: &'a str, help: &'a str) -> Arg<'a>
    ensures rule { rule_of result ≡ option_rule name.entry.now }
    ensures local { result.global ≡ false }
{
    Arg::new(alloc, name)
        .long(name)
        .value_name(value_name)
        .help(help)
}

/// A text with this long name, which has to be given.
fn needed_arg<'a>(alloc: Global, name: &'a str, value_name: &'a str, help: &'a str) -> Arg<'a>
    ensures rule { rule_of result ≡ needed_rule name.entry.now }
    ensures local { result.global ≡ false }
{
    option_arg(alloc, name, value_name, help).required(true)
}

/// How many threads serve.
fn schedulers_arg<'a>(alloc: Global) -> Arg<'a>
    ensures rule { rule_of result ≡ number_rule (codes "schedulers") 8 (codes "2") }
    ensures local { result.global ≡ false }
{
    Arg::new(alloc, "schedulers")
        .long("schedulers")
        .value_name("N")
        .value_parser(clap::value_parser!(u8).range(1..9))
        .default_value("2")
        .help("How many threads serve, 1 to 8")
}

/// How many turns each thread takes.
fn turns_arg<'a>(alloc: Global) -> Arg<'a>
    ensures rule { rule_of result ≡ number_rule (codes "turns") 10000000 (codes "100000") }
    ensures local { result.global ≡ false }
{
    Arg::new(alloc, "turns")
        .long("turns")
        .value_name("N")
        .value_parser(clap::value_parser!(u32).range(1..10_000_001))
        .default_value("100000")
        .help(TURNS_HELP)
}

/// By which clock a trial is played.
fn clock_arg<'a>(alloc: Global) -> Arg<'a>
    ensures rule { rule_of result ≡ clock_rule }
    ensures local { result.global ≡ false }
{
    Arg::new(alloc, "clock")
        .long("clock")
        .value_name("CLOCK")
        .default_value("milliseconds")
        .help(CLOCK_HELP)
}

/// How wide a picture is.
fn width_arg<'a>(alloc: Global) -> Arg<'a>
    ensures rule { rule_of result ≡ number_rule (codes "width") 1000 (codes "80") }
    ensures local { result.global ≡ false }
{
    Arg::new(alloc, "width")
        .long("width")
        .value_name("N")
        .value_parser(clap::value_parser!(u32).range(1..1001))
        .default_value("80")
        .help(WIDTH_HELP)
}

/// A command: its name, what it does, and an example.
fn new_command<'a>(
    alloc: Global,
    name: &'a str,
    about: &'a str,
    example: &'a str,
) -> clap::Command<'a>
    ensures { app_of result ≡ new_app name.entry.now }
{
    clap::Command::new(alloc, name)
        .about(about)
        .after_help(example)
}

/// A command with an argument more.
fn with_arg<'a>(command: clap::Command<'a>, arg: Arg<'a>) -> Result<clap::Command<'a>, AllocError>
    requires local { arg.global ≡ false }
    ensures { IfOk result (λ c. app_of c ≡ with_rule (app_of command.entry) (rule_of arg.entry)) }
{
    command.arg(arg)
}

/// A command with a subcommand more.
fn with_command<'a>(
    command: clap::Command<'a>,
    subcommand: clap::Command<'a>,
) -> Result<clap::Command<'a>, AllocError>
    requires plain { (app_of subcommand).top.is_plain ≡ true }
    ensures { IfOk result (λ c. app_of c ≡ with_subcommand (app_of command.entry) (app_of subcommand.entry).top) }
{
    command.subcommand(subcommand)
}

/// A command over a tree file, by these words for it.
fn file_command<'a>(
    alloc: Global,
    name: &'a str,
    about: &'a str,
    example: &'a str,
    help: &'a str,
) -> Result<clap::Command<'a>, AllocError>
    ensures { IfOk result (λ c. app_of c ≡ (file_app name.entry.now)) }
{
    with_arg(
        new_command(alloc, name, about, example),
        file_arg(alloc, help),
    )
}

/// `check FILE.. [--run] [--lint]`.
fn checked_command<'a>(alloc: Global) -> Result<clap::Command<'a>, AllocError>
    ensures { IfOk result (λ c. app_of c ≡ checked_app) }
{
    let command = new_command(alloc, "check", CHECK_ABOUT, CHECK_EXAMPLE);
    let command = with_arg(command, files_arg(alloc, FILES_OR_INPUT))?;
    let command = with_arg(command, flag_arg(alloc, "run", STARTS_HELP))?;
    with_arg(command, flag_arg(alloc, "lint", REMARKS_HELP))
}

/// `check FILE..` with what is looked for, and `[--all] [--json]`.
fn check_command<'a>(alloc: Global) -> Result<clap::Command<'a>, AllocError>
    ensures { IfOk result (λ c. app_of c ≡ check_app) }
{
    let command = checked_command(alloc)?;
    let command = with_arg(command, flag_arg(alloc, "all", ALL_HELP))?;
    with_arg(command, flag_arg(alloc, "json", JSON_HELP))
}

/// The scripts, or one, or none.
fn scripts_arg<'a>(alloc: Global) -> Arg<'a>
    ensures rule { rule_of result ≡ script_rule }
    ensures local { result.global ≡ false }
{
    Arg::new(alloc, "SCRIPT").num_args(1..).help(SCRIPT_HELP)
}

/// `try FILE [SCRIPT].. [--prompt] [--timeline]`.
fn played_command<'a>(alloc: Global) -> Result<clap::Command<'a>, AllocError>
    ensures { IfOk result (λ c. app_of c ≡ played_app) }
{
    let command = file_command(alloc, "try", TRY_ABOUT, TRY_EXAMPLE, FILE_OR_INPUT)?;
    let command = with_arg(command, scripts_arg(alloc))?;
    let command = with_arg(command, flag_arg(alloc, "prompt", PROMPT_HELP))?;
    with_arg(command, flag_arg(alloc, "timeline", TIMELINE_HELP))
}

/// `try FILE [SCRIPT].. [--prompt] [--timeline] [--quiet] [--clock CLOCK] [--width N]`.
fn tried_command<'a>(alloc: Global) -> Result<clap::Command<'a>, AllocError>
    ensures { IfOk result (λ c. app_of c ≡ tried_app) }
{
    let command = played_command(alloc)?;
    let command = with_arg(command, flag_arg(alloc, "quiet", QUIET_HELP))?;
    let command = with_arg(command, clock_arg(alloc))?;
    with_arg(command, width_arg(alloc))
}

/// `try`, with `[--tap] [--json] [--html PAGE]`.
fn try_command<'a>(alloc: Global) -> Result<clap::Command<'a>, AllocError>
    ensures { IfOk result (λ c. app_of c ≡ try_app) }
{
    let command = tried_command(alloc)?;
    let command = with_arg(command, flag_arg(alloc, "tap", TAP_HELP))?;
    let command = with_arg(command, flag_arg(alloc, "json", OBJECT_HELP))?;
    with_arg(command, option_arg(alloc, "html", "PAGE", PAGE_HELP))
}

/// `tree FILE [--json] [--html PAGE]`.
fn tree_command<'a>(alloc: Global) -> Result<clap::Command<'a>, AllocError>
    ensures { IfOk result (λ c. app_of c ≡ tree_app) }
{
    let command = file_command(alloc, "tree", TREE_ABOUT, TREE_EXAMPLE, FILE_OR_INPUT)?;
    let command = with_arg(command, flag_arg(alloc, "json", OBJECT_HELP))?;
    with_arg(command, option_arg(alloc, "html", "PAGE", PAGE_HELP))
}

/// `limits FILE [--child NAME] [--table NAME] [--each]`.
fn picked_command<'a>(alloc: Global) -> Result<clap::Command<'a>, AllocError>
    ensures { IfOk result (λ c. app_of c ≡ picked_app) }
{
    let command = file_command(alloc, "limits", LIMITS_ABOUT, LIMITS_EXAMPLE, FILE_OR_INPUT)?;
    let command = with_arg(command, option_arg(alloc, "child", "NAME", CHILD_HELP))?;
    let command = with_arg(command, option_arg(alloc, "table", "NAME", TABLE_HELP))?;
    with_arg(command, flag_arg(alloc, "each", EACH_HELP))
}

/// `limits`, with `[--json] [--html PAGE]`.
fn limits_command<'a>(alloc: Global) -> Result<clap::Command<'a>, AllocError>
    ensures { IfOk result (λ c. app_of c ≡ limits_app) }
{
    let command = picked_command(alloc)?;
    let command = with_arg(command, flag_arg(alloc, "json", OBJECT_HELP))?;
    with_arg(command, option_arg(alloc, "html", "PAGE", PAGE_HELP))
}

/// `suggest FILE --child NAME [--every TIME]`.
fn asked_command<'a>(alloc: Global) -> Result<clap::Command<'a>, AllocError>
    ensures { IfOk result (λ c. app_of c ≡ asked_app) }
{
    let command = file_command(
        alloc,
        "suggest",
        SUGGEST_ABOUT,
        SUGGEST_EXAMPLE,
        FILE_OR_INPUT,
    )?;
    let command = with_arg(command, needed_arg(alloc, "child", "NAME", WORKER_HELP))?;
    with_arg(command, option_arg(alloc, "every", "TIME", EVERY_HELP))
}

/// `suggest`, with `[--times N] [--within TIME] [--root] [--json]`.
fn suggest_command<'a>(alloc: Global) -> Result<clap::Command<'a>, AllocError>
    ensures { IfOk result (λ c. app_of c ≡ suggest_app) }
{
    let command = asked_command(alloc)?;
    let command = with_arg(command, option_arg(alloc, "times", "N", TIMES_HELP))?;
    let command = with_arg(command, option_arg(alloc, "within", "TIME", WITHIN_HELP))?;
    let command = with_arg(command, flag_arg(alloc, "root", ROOT_HELP))?;
    with_arg(command, flag_arg(alloc, "json", OBJECT_HELP))
}

/// `diff FILE OTHER [--json]`.
fn diff_command<'a>(alloc: Global) -> Result<clap::Command<'a>, AllocError>
    ensures { IfOk result (λ c. app_of c ≡ diff_app) }
{
    let command = file_command(alloc, "diff", DIFF_ABOUT, DIFF_EXAMPLE, FILE_OR_INPUT)?;
    let command = with_arg(command, place_arg(alloc, "OTHER", OTHER_HELP))?;
    with_arg(command, flag_arg(alloc, "json", OBJECT_HELP))
}

/// `replay FILE LOG [--unmatched] [--timeline]`.
fn replayed_command<'a>(alloc: Global) -> Result<clap::Command<'a>, AllocError>
    ensures { IfOk result (λ c. app_of c ≡ replayed_app) }
{
    let command = file_command(alloc, "replay", REPLAY_ABOUT, REPLAY_EXAMPLE, FILE_OR_INPUT)?;
    let command = with_arg(command, place_arg(alloc, "LOG", LOG_FILE_HELP))?;
    let command = with_arg(command, flag_arg(alloc, "unmatched", UNMATCHED_HELP))?;
    with_arg(command, flag_arg(alloc, "timeline", TIMELINE_HELP))
}

/// `replay` with what it shows: `[--unmatched] [--timeline] [--quiet] [--clock CLOCK] [--width N]`.
fn shown_replay_command<'a>(alloc: Global) -> Result<clap::Command<'a>, AllocError>
    ensures { IfOk result (λ c. app_of c ≡ shown_replay_app) }
{
    let command = replayed_command(alloc)?;
    let command = with_arg(command, flag_arg(alloc, "quiet", QUIET_HELP))?;
    let command = with_arg(command, clock_arg(alloc))?;
    with_arg(command, width_arg(alloc))
}

/// `replay FILE LOG`, also with `[--ids IDS] [--strict] [--json]`.
fn replay_command<'a>(alloc: Global) -> Result<clap::Command<'a>, AllocError>
    ensures { IfOk result (λ c. app_of c ≡ replay_app) }
{
    let command = shown_replay_command(alloc)?;
    let command = with_arg(command, option_arg(alloc, "ids", "IDS", IDS_HELP))?;
    let command = with_arg(command, flag_arg(alloc, "strict", STRICT_HELP))?;
    with_arg(command, flag_arg(alloc, "json", OBJECT_HELP))
}

/// `run FILE [--schedulers N] [--turns N]`.
fn scheduled_command<'a>(alloc: Global) -> Result<clap::Command<'a>, AllocError>
    ensures { IfOk result (λ c. app_of c ≡ scheduled_app) }
{
    let command = file_command(alloc, "run", RUN_ABOUT, RUN_EXAMPLE, FILE_OR_INPUT)?;
    let command = with_arg(command, schedulers_arg(alloc))?;
    with_arg(command, turns_arg(alloc))
}

/// `run FILE [--schedulers N] [--turns N] [--counts] [--tree] [--why]`.
fn shown_command<'a>(alloc: Global) -> Result<clap::Command<'a>, AllocError>
    ensures { IfOk result (λ c. app_of c ≡ shown_app) }
{
    let command = scheduled_command(alloc)?;
    let command = with_arg(command, flag_arg(alloc, "counts", COUNTS_HELP))?;
    let command = with_arg(command, flag_arg(alloc, "tree", PICTURE_HELP))?;
    with_arg(command, flag_arg(alloc, "why", WHY_HELP))
}

/// `run`, with `[--for TIME] [--grace TIME] [--log] [--json]`.
fn run_command<'a>(alloc: Global) -> Result<clap::Command<'a>, AllocError>
    ensures { IfOk result (λ c. app_of c ≡ run_app) }
{
    let command = shown_command(alloc)?;
    let command = with_arg(command, option_arg(alloc, "for", "TIME", FOR_HELP))?;
    let command = with_arg(command, option_arg(alloc, "grace", "TIME", GRACE_HELP))?;
    let command = with_arg(command, flag_arg(alloc, "log", LOG_HELP))?;
    with_arg(command, flag_arg(alloc, "json", OBJECT_HELP))
}

/// `shutdown FILE [--within TIME] [--json]`.
fn shutdown_command<'a>(alloc: Global) -> Result<clap::Command<'a>, AllocError>
    ensures { IfOk result (λ c. app_of c ≡ shutdown_app) }
{
    let command = file_command(
        alloc,
        "shutdown",
        SHUTDOWN_ABOUT,
        SHUTDOWN_EXAMPLE,
        FILE_OR_INPUT,
    )?;
    let command = with_arg(command, option_arg(alloc, "within", "TIME", LONGEST_HELP))?;
    with_arg(command, flag_arg(alloc, "json", OBJECT_HELP))
}

/// `sim FILE`.
fn sim_command<'a>(alloc: Global) -> Result<clap::Command<'a>, AllocError>
    ensures { IfOk result (λ c. app_of c ≡ file_app (codes "sim")) }
{
    file_command(alloc, "sim", SIM_ABOUT, SIM_EXAMPLE, FILE_ALONE)
}

/// `import FILE [--commands]`.
fn import_command<'a>(alloc: Global) -> Result<clap::Command<'a>, AllocError>
    ensures { IfOk result (λ c. app_of c ≡ import_app) }
{
    let command = file_command(alloc, "import", IMPORT_ABOUT, IMPORT_EXAMPLE, IMPORTED_HELP)?;
    with_arg(command, flag_arg(alloc, "commands", COMMANDS_HELP))
}

/// The program without its commands.
fn bare_command<'a>(alloc: Global) -> clap::Command<'a>
    ensures { app_of result ≡ bare_app }
{
    clap::Command::new(alloc, "otp")
        .about(OTP_ABOUT)
        .version(VERSION)
        .after_help(OTP_STATUSES)
}

/// The program's command.
///
/// What is made so far is let go by name where a command more can't be made: `CONTRIBUTING.md` says why.
pub(crate) fn otp_command<'a>(alloc: Global) -> Result<clap::Command<'a>, AllocError>
    ensures { IfOk result (λ c. app_of c ≡ otp_app) }
{
    let run = run_command(alloc)?;
    let command = with_command(bare_command(alloc), run)?;
    let Ok(tried) = try_command(alloc) else {
        drop(command);
        return Err(AllocError);
    };
    let command = with_command(command, tried)?;
    let Ok(check) = check_command(alloc) else {
        drop(command);
        return Err(AllocError);
    };
    let command = with_command(command, check)?;
    let Ok(tree) = tree_command(alloc) else {
        drop(command);
        return Err(AllocError);
    };
    let command = with_command(command, tree)?;
    let Ok(limits) = limits_command(alloc) else {
        drop(command);
        return Err(AllocError);
    };
    let command = with_command(command, limits)?;
    let Ok(shutdown) = shutdown_command(alloc) else {
        drop(command);
        return Err(AllocError);
    };
    let command = with_command(command, shutdown)?;
    let Ok(suggest) = suggest_command(alloc) else {
        drop(command);
        return Err(AllocError);
    };
    let command = with_command(command, suggest)?;
    let Ok(diff) = diff_command(alloc) else {
        drop(command);
        return Err(AllocError);
    };
    let command = with_command(command, diff)?;
    let Ok(replay) = replay_command(alloc) else {
        drop(command);
        return Err(AllocError);
    };
    let command = with_command(command, replay)?;
    let Ok(import) = import_command(alloc) else {
        drop(command);
        return Err(AllocError);
    };
    let command = with_command(command, import)?;
    let Ok(sim) = sim_command(alloc) else {
        drop(command);
        return Err(AllocError);
    };
    with_command(command, sim)
}
