//! What one tree file is used for: how a question about it, and the other files that it needs, come to an end of the program.

ghost use Rattle.std.specs.Prelude.{Bool, Option, Some, ◌≡◌, ◌⊎◌, ◌≤◌, false, IfErr, IfOk, OnOk, vec_len};
ghost use Rattle.otp_sim.specs.Devices.{Readable, devices};
ghost use Rattle.otp_commands.specs.Used.{IsComparedWith, IsDrawnIn, IsRead, IsReplayOf, IsRunPaged, IsTrialFor, IsTrialOf, IsUsed, Uses, has_remarks};
ghost use Rattle.otp_exit.specs.Told.{TellsFirst};
ghost use Rattle.otp_exit.specs.declared.files.TheConstants.{LARGEST_TREE};
ghost use Rattle.otp_exit.specs.declared.ending.ProgramEnd.TheVariants.{FileNotRead, OutOfMemory};
ghost use Rattle.otp_questions.specs.Limited.{IsLimited};
ghost use Rattle.otp_questions.specs.Paged.{IsRunTold};
ghost use Rattle.otp_questions.specs.Tried.{IsTrial};

use crate::importing::import_file;
use crate::logs::replay_log;
use crate::pages::{ask, put_limits, put_run, put_tree};
use otp_cli::{Form, LogReading, Page, TrialShows, Usage};
use otp_costs::{Grain, Pick, Progress, Unseen};
use otp_exit::{ProgramEnd, TreeFiles, read_any_file, read_script, read_tree_file};
use otp_questions::{
    Asking, compare_files, draw_file, limit_file, root_file, stop_file, suggest_file, tell_run,
    tell_tree, try_file,
};
use otp_replay::Replaying;
use otp_sim::{Counted, Input, Output};
use otp_try::{Clock, Playing, Shows, Writer};
use std::alloc::Global;

/// Uses the tree file of this name.
pub(crate) fn use_named<'a, F: TreeFiles, R: Input, W: Output, E: Output>(
    alloc: Global,
    files: &F,
    name: &'a str,
    usage: Usage<'a>,
    input: &mut R,
    output: &mut W,
    errors: &mut E,
) -> ProgramEnd<'a>
    ensures done { Uses (F.known files.now) name.now usage.entry result
        (devices (R.seen input.old) (W.seen output.old))
        (devices (R.seen input.new) (W.seen output.new)) }
    ensures first { TellsFirst (has_remarks usage.entry) result (E.seen errors.old) (E.seen errors.new) }
    ensures kept { (E.seen errors.old).failures ≤ (E.seen errors.new).failures }
{
    match read_used(files, name, &usage, errors) {
        Ok(file) => use_file(alloc, files, name, &file, usage, input, output, errors),
        Err(ending) => ending,
    }
}

/// The bytes of the file of this name that is used so: of a tree file, or of what is imported.
fn read_used<'a, F: TreeFiles, E: Output>(
    files: &F,
    name: &'a str,
    usage: &Usage<'_>,
    errors: &mut E,
) -> Result<Vec<u8>, ProgramEnd<'a>>
    ensures holds { IfOk result (λ file. (F.known files.now).holds name.now file.items) }
    ensures small { IfOk result (λ file. vec_len file ≤ LARGEST_TREE) }
    ensures silent { OnOk result (errors.new ≡ errors.old) }
    ensures ending { IfErr result (λ ending. (ending ≡ FileNotRead) ⊎ (ending ≡ OutOfMemory)) }
    ensures first { IfErr result (λ ending. (drawn : Bool) → TellsFirst drawn ending (E.seen errors.old) (E.seen errors.new)) }
    ensures kept { (E.seen errors.old).failures ≤ (E.seen errors.new).failures }
{
    match usage {
        Usage::Import { .. } => read_any_file(files, name, errors),
        _ => read_tree_file(files, name, errors),
    }
}

/// Uses a tree file that was read.
fn use_file<'a, F: TreeFiles, R: Input, W: Output, E: Output>(
    alloc: Global,
    files: &F,
    name: &'a str,
    file: &[u8],
    usage: Usage<'a>,
    input: &mut R,
    output: &mut W,
    errors: &mut E,
) -> ProgramEnd<'a>
    ensures done { IsUsed (F.known files.now) name.now usage.entry result file.now
        (devices (R.seen input.old) (W.seen output.old))
        (devices (R.seen input.new) (W.seen output.new)) }
    ensures first { TellsFirst (has_remarks usage.entry) result (E.seen errors.old) (E.seen errors.new) }
    ensures kept { (E.seen errors.old).failures ≤ (E.seen errors.new).failures }
{
    match usage {
        Usage::Try {
            script,
            writer,
            shows,
            form,
        } => try_as(
            alloc, files, name, file, script, writer, shows, form, input, output, errors,
        ),
        Usage::Draw { form } => draw_as(alloc, files, name, file, form, output),
        Usage::Stop { within, is_json } => { stop_file(alloc, name, file, within, is_json, output) }
        Usage::Limit { pick, grain, form } => match form {
            Form::Text => limit_seen(alloc, files, name, file, pick, grain, output),
            Form::Object => {
                let asking = Asking {
                    pick,
                    grain,
                    is_json: true,
                };
                limit_file(alloc, name, file, asking, &Unseen, output)
            },
            Form::Page(page) => put_limits(alloc, files, name, file, pick, grain, page, output),
        },
        Usage::Suggest {
            child,
            asked,
            is_json,
        } => suggest_file(alloc, name, file, child, asked, is_json, output),
        Usage::Root {
            child,
            times,
            within,
            is_json,
        } => root_file(alloc, name, file, child, times, within, is_json, output),
        Usage::Compare { other, is_json } => compare_with(
            alloc, files, name, file, other, is_json, output, errors,
        ),
        Usage::Replay {
            log,
            reading,
            is_listed,
            shows,
            is_json,
        } => replay_shown(
            alloc, files, name, file, log, reading, is_listed, shows, is_json, output, errors,
        ),
        Usage::Import { of_commands } => import_file(
            alloc,
            name,
            file,
            of_commands,
            output,
            errors,
        ),
    }
}

/// Writes the tree of a file in this form.
fn draw_as<'a, F: TreeFiles, W: Output>(
    alloc: Global,
    files: &F,
    name: &'a str,
    file: &[u8],
    form: Form<'a>,
    output: &mut W,
) -> ProgramEnd<'a>
    ensures { IsDrawnIn (F.known files.now) form.entry name.now result file.now
        (W.seen output.old) (W.seen output.new) }
{
    match form {
        Form::Text => draw_file(alloc, name, file, output),
        Form::Object => tell_tree(alloc, name, file, output),
        Form::Page(page) => put_tree(alloc, files, name, file, page, output),
    }
}

/// Somebody at a terminal sees how far an answer is.
#[derive(Drop)]
struct ShownProgress<'a, F> {
    files: &'a F,
}

impl<F: TreeFiles> Progress for ShownProgress<'_, F> {
    fn saw(&self, made: usize, of: usize) {
        self.files.saw(made, of);
    }
}

/// Writes what crashes of the children of a tree cost, and shows at a terminal how far that is.
fn limit_seen<'a, F: TreeFiles, W: Output>(
    alloc: Global,
    files: &F,
    name: &'a str,
    file: &[u8],
    pick: Pick<'a>,
    grain: Grain,
    output: &mut W,
) -> ProgramEnd<'a>
    ensures { IsLimited false grain pick.entry name.now result file.now
        (W.seen output.old) (W.seen output.new) }
{
    let seen = ShownProgress { files };
    let asking = Asking {
        pick,
        grain,
        is_json: false,
    };
    limit_file(alloc, name, file, asking, &seen, output)
}

/// Tries the tree of a file by the lines of a script, and writes the run in this form.
fn try_as<'a, F: TreeFiles, R: Input, W: Output, E: Output>(
    alloc: Global,
    files: &F,
    name: &'a str,
    file: &[u8],
    script: Option<&'a str>,
    writer: Writer,
    shows: TrialShows,
    form: Form<'a>,
    input: &mut R,
    output: &mut W,
    errors: &mut E,
) -> ProgramEnd<'a>
    ensures done { IsTrialFor (F.known files.now) name.now script.entry form.entry result file.now
        (devices (R.seen input.old) (W.seen output.old))
        (devices (R.seen input.new) (W.seen output.new)) }
    ensures first { TellsFirst false result (E.seen errors.old) (E.seen errors.new) }
    ensures kept { (E.seen errors.old).failures ≤ (E.seen errors.new).failures }
{
    match form {
        Form::Text => try_by(
            alloc, files, name, file, script, writer, shows, input, output, errors,
        ),
        Form::Object => tell_whole(
            alloc,
            files,
            name,
            file,
            script,
            shows.clock,
            output,
            errors,
        ),
        Form::Page(page) => put_whole(
            alloc,
            files,
            name,
            file,
            script,
            shows.clock,
            page,
            output,
            errors,
        ),
    }
}

/// Writes a run of the script of this name as an object.
fn tell_whole<'a, F: TreeFiles, W: Output, E: Output>(
    alloc: Global,
    files: &F,
    name: &'a str,
    file: &[u8],
    script: Option<&'a str>,
    clock: Clock,
    output: &mut W,
    errors: &mut E,
) -> ProgramEnd<'a>
    ensures done { IsRead (λ ending. IsRunTold name.now script.entry ending file.now)
        result (W.seen output.old) (W.seen output.new) }
    ensures first { TellsFirst false result (E.seen errors.old) (E.seen errors.new) }
    ensures kept { (E.seen errors.old).failures ≤ (E.seen errors.new).failures }
{
    match read_script(files, script.unwrap_or("-"), errors) {
        Ok(lines) => tell_run(alloc, name, file, script, &lines, clock, output),
        Err(ending) => ending,
    }
}

/// Writes a run of the script of this name as a page, which may go there.
fn put_whole<'a, F: TreeFiles, W: Output, E: Output>(
    alloc: Global,
    files: &F,
    name: &'a str,
    file: &[u8],
    script: Option<&'a str>,
    clock: Clock,
    page: Page<'a>,
    output: &mut W,
    errors: &mut E,
) -> ProgramEnd<'a>
    ensures done { IsRunPaged (F.known files.now) page.entry name.now script.entry file.now result
        (W.seen output.old) (W.seen output.new) }
    ensures first { TellsFirst false result (E.seen errors.old) (E.seen errors.new) }
    ensures kept { (E.seen errors.old).failures ≤ (E.seen errors.new).failures }
{
    if let Err(ending) = ask(files, page, name, script) {
        return ending;
    }
    match read_script(files, script.unwrap_or("-"), errors) {
        Ok(lines) => put_run(
            alloc, files, name, file, script, &lines, clock, page, output,
        ),
        Err(ending) => ending,
    }
}

/// Tries the tree of a file by the lines of a script, which is another file or the input.
fn try_by<'a, F: TreeFiles, R: Input, W: Output, E: Output>(
    alloc: Global,
    files: &F,
    name: &'a str,
    file: &[u8],
    script: Option<&'a str>,
    writer: Writer,
    shows: TrialShows,
    input: &mut R,
    output: &mut W,
    errors: &mut E,
) -> ProgramEnd<'a>
    ensures done { IsTrialOf name.now script.entry result file.now
        (devices (R.seen input.old) (W.seen output.old))
        (devices (R.seen input.new) (W.seen output.new)) }
    ensures first { TellsFirst false result (E.seen errors.old) (E.seen errors.new) }
    ensures kept { (E.seen errors.old).failures ≤ (E.seen errors.new).failures }
{
    let seen = shows_of(files, shows);
    let Some(script) = script else {
        let playing = Playing {
            writer: writer_at(files, writer),
            shows: seen,
            clock: shows.clock,
        };
        return try_file(alloc, name, file, None, playing, input, output);
    };
    match read_script(files, script, errors) {
        Ok(lines) => {
            let playing = Playing {
                writer,
                shows: seen,
                clock: shows.clock,
            };
            try_lines(alloc, name, file, script, playing, &lines, output)
        }
        Err(ending) => ending,
    }
}

/// Who writes the lines of the input: a person at a terminal does, whatever the words say.
fn writer_at<F: TreeFiles>(files: &F, writer: Writer) -> Writer {
    if files.is_terminal() {
        Writer::Person
    } else {
        writer
    }
}

/// What of a trial is written: a picture has colours where they may be.
fn shows_of<F: TreeFiles>(files: &F, shows: TrialShows) -> Shows {
    if shows.is_drawn {
        Shows::Timeline {
            is_coloured: files.has_colours(),
            width: shows.width,
        }
    } else if shows.is_quiet {
        Shows::Ends
    } else {
        Shows::Orders
    }
}

/// Tries the tree of a file by these lines, those of the script of this name.
fn try_lines<'a, W: Output>(
    alloc: Global,
    name: &'a str,
    file: &[u8],
    script: &'a str,
    playing: Playing,
    lines: &[u8],
    output: &mut W,
) -> ProgramEnd<'a>
    ensures { (unread : Readable) → IsTrial name.now (Some script.entry) result file.now
        (devices unread (W.seen output.old)) (devices unread (W.seen output.new)) }
{
    let mut read = Counted::new(lines);
    try_file(alloc, name, file, Some(script), playing, &mut read, output)
}

/// Says what differs between the tree of a file and that of another.
fn compare_with<'a, F: TreeFiles, W: Output, E: Output>(
    alloc: Global,
    files: &F,
    name: &'a str,
    file: &[u8],
    other: &'a str,
    is_json: bool,
    output: &mut W,
    errors: &mut E,
) -> ProgramEnd<'a>
    ensures done { IsComparedWith ((F.known files.now).holds other.now) is_json name.now other.now
        result file.now (W.seen output.old) (W.seen output.new) }
    ensures first { TellsFirst false result (E.seen errors.old) (E.seen errors.new) }
    ensures kept { (E.seen errors.old).failures ≤ (E.seen errors.new).failures }
{
    match read_tree_file(files, other, errors) {
        Ok(other_file) => compare_files(alloc, name, file, other, &other_file, is_json, output),
        Err(ending) => ending,
    }
}

/// Plays what the log of this name tells on the tree of a file, and writes so much of it.
fn replay_shown<'a, F: TreeFiles, W: Output, E: Output>(
    alloc: Global,
    files: &F,
    name: &'a str,
    file: &[u8],
    log: &'a str,
    reading: LogReading<'a>,
    is_listed: bool,
    shows: TrialShows,
    is_json: bool,
    output: &mut W,
    errors: &mut E,
) -> ProgramEnd<'a>
    ensures done { IsReplayOf ((F.known files.now).holds log.now) is_json log.entry is_listed name.now
        result file.now (W.seen output.old) (W.seen output.new) }
    ensures first { TellsFirst false result (E.seen errors.old) (E.seen errors.new) }
    ensures kept { (E.seen errors.old).failures ≤ (E.seen errors.new).failures }
{
    let replaying = Replaying {
        shows: shows_of(files, shows),
        clock: shows.clock,
        is_listed,
    };
    replay_log(
        alloc, files, name, file, log, reading, replaying, is_json, output, errors,
    )
}
