//! `try --tap`: whether all was as a script expects, told of each script in the form of TAP (the Test Anything Protocol).

ghost use Rattle.std.specs.Prelude.{Bool, ◌≡◌, ◌⊎◌, ◌≤◌, ◌++◌, ◌<◌, false, IfErr, IfOk, IfSome, OnOk, codes, count_by, length, position};
ghost use Rattle.std.specs.List.{flat_map};
ghost use Rattle.otp_commands.specs.Judged.{AreJudged, AreJudgedOn, IsJudged, IsJudgedBy, IsTold, IsVerdictOf, Judges, end_line, end_why, ending_of, fails, has_failed, has_number, is_failed, place_text, plain_byte, plain_text, plan_text, reason_text, result_text, tap_text, text_at, unmet_in, unmet_text, verdict_text, why_if, why_text};
ghost use Rattle.otp_commands.specs.Used.{IsWithoutTree};
ghost use Rattle.otp_exit.specs.Told.{TellsFirst};
ghost use Rattle.otp_exit.specs.declared.ending.ProgramEnd.TheVariants.{HistoryFull, OutOfMemory};

use otp_exit::{ProgramEnd, TreeFiles, Unread, read_tree_file, take_script};
use otp_file::{TreeSpec, read_tree};
use otp_questions::end_of_halt;
use otp_sim::{Failed, Output, write_all};
use otp_text::write_number;
use otp_trial::Clock;
use otp_try::account::{Account, Played, play_script};
use otp_try::{TryEnd, Writer};
use std::alloc::{AllocError, Global};

/// What came of a script.
#[derive(Drop)]
pub(crate) enum Verdict {
    /// It was played, and ended so.
    Played(TryEnd),
    /// It was played, and what its line with this number and text expected is not so.
    Unmet(u64, Vec<u8>),
    /// It can't be read, for this reason.
    Unread(&'static str),
}

/// A script, and what came of it.
#[derive(Drop)]
pub(crate) struct Judged<'a> {
    pub script: &'a str,
    pub verdict: Verdict,
}

/// The line whose expectation failed, of a run that ended so.
#[tactic(auto, unfolding(crate::specs::Judged::unmet_in))]
fn unmet_in(end: TryEnd) -> Option<u64>
    ensures { result ≡ unmet_in end }
{
    match end {
        TryEnd::ExpectationFailed(line) => Some(line),
        _ => None,
    }
}

/// The place of the line with this number.
fn place_with(played: &[Played], number: u64) -> Option<usize>
    ensures place { result ≡ position (has_number number) played.now }
    ensures inside { IfSome result (λ place. place < length played.now) }
{
    played.iter().position(|one| one.number == number)
}

/// The text of the line at this place, if there is such a place.
#[tactic(auto, unfolding(crate::specs::Judged::text_at, crate::specs::Judged::text_in))]
fn text_at(alloc: Global, played: &[Played], place: Option<usize>) -> Result<Vec<u8>, AllocError>
    requires { IfSome place (λ at. at < length played.now) }
    ensures { IfOk result (λ text. text.items ≡ text_at played.now place) }
{
    let mut text = Vec::new(alloc);
    if let Some(place) = place {
        let one = &played[place];
        text.extend_from_slice(one.line.as_slice())?;
    }
    Ok(text)
}

/// What came of a script whose run is kept.
fn verdict_of(alloc: Global, account: &Account) -> Result<Verdict, AllocError>
    ensures { IfOk result (IsVerdictOf account.now) }
{
    match unmet_in(account.end) {
        None => Ok(Verdict::Played(account.end)),
        Some(line) => {
            let played = account.lines.as_slice();
            let text = text_at(alloc, played, place_with(played, line))?;
            Ok(Verdict::Unmet(line, text))
        }
    }
}

/// What came of a script whose run was kept, which isn't any more.
///
/// # Errors
///
/// How the program ends where memory is refused.
fn verdict_of_run<'a>(alloc: Global, account: Account) -> Result<Verdict, ProgramEnd<'a>>
    ensures judged { IfOk result (IsVerdictOf account) }
    ensures ending { IfErr result (λ ending. (ending ≡ HistoryFull) ⊎ (ending ≡ OutOfMemory)) }
{
    let verdict = verdict_of(alloc, &account);
    drop(account);
    match verdict {
        Ok(verdict) => Ok(verdict),
        Err(AllocError) => Err(ProgramEnd::OutOfMemory),
    }
}

/// What comes of the script of this name on a tree.
///
/// # Errors
///
/// How the program ends where memory is refused, or a history is full.
fn judge<'a, F: TreeFiles>(
    alloc: Global,
    files: &F,
    tree: &TreeSpec,
    script: &str,
    clock: Clock,
) -> Result<Verdict, ProgramEnd<'a>>
    ensures judged { IfOk result (λ verdict. IsJudgedBy ((F.known files.now).holds script.now) tree.now verdict) }
    ensures ending { IfErr result (λ ending. (ending ≡ HistoryFull) ⊎ (ending ≡ OutOfMemory)) }
{
    let lines = match take_script(files, script) {
        Ok(lines) => lines,
        Err(Unread::OutOfMemory) => return Err(ProgramEnd::OutOfMemory),
        Err(Unread::Since(why)) => return Ok(Verdict::Unread(why)),
    };
    match play_script(alloc, tree, clock, Writer::Script, &lines) {
        Ok(account) => verdict_of_run(alloc, account),
        Err(halt) => Err(end_of_halt(halt)),
    }
}

/// What comes of each of these scripts on a tree.
///
/// # Errors
///
/// Those of [`judge`].
fn judge_each<'a, F: TreeFiles>(
    alloc: Global,
    files: &F,
    tree: &TreeSpec,
    scripts: &[&'a str],
    clock: Clock,
) -> Result<Vec<Judged<'a>>, ProgramEnd<'a>>
    ensures judged { IfOk result (λ all. AreJudged (F.known files.now).holds tree.now scripts.now all.items) }
    ensures ending { IfErr result (λ ending. (ending ≡ HistoryFull) ⊎ (ending ≡ OutOfMemory)) }
{
    let mut all = Vec::new(alloc);
    for script in scripts {
        let verdict = match judge(alloc, files, tree, script, clock) {
            Ok(verdict) => verdict,
            Err(ending) => return Err(ending),
        };
        let Ok(()) = all.push(Judged {
            script: *script,
            verdict,
        }) else {
            return Err(ProgramEnd::OutOfMemory);
        };
    }
    Ok(all)
}

/// Whether a run that ended so failed.
#[tactic(auto, unfolding(crate::specs::Judged::is_failed))]
fn is_failed(end: TryEnd) -> bool
    ensures { result ≡ is_failed end }
{
    !matches!(end, TryEnd::Done)
}

/// Whether a script failed of which this came.
#[tactic(auto, unfolding(crate::specs::Judged::fails))]
fn fails(verdict: &Verdict) -> bool
    ensures { result ≡ fails verdict.now }
{
    match verdict {
        Verdict::Played(end) => is_failed(*end),
        Verdict::Unmet(..) => true,
        Verdict::Unread(_) => true,
    }
}

/// Whether a script failed.
fn has_failed(judged: &Judged<'_>) -> bool
    ensures { result ≡ has_failed judged.now }
{
    fails(&judged.verdict)
}

/// How many of them failed.
fn count_failed(all: &[Judged<'_>]) -> usize
    ensures { result ≡ count_by has_failed all.now }
{
    all.iter().filter(|judged| has_failed(judged)).count()
}

/// How the program ends that told of these.
#[tactic(auto, unfolding(crate::specs::Judged::ending_of))]
fn ending_of<'a>(all: &[Judged<'a>]) -> ProgramEnd<'a>
    ensures { result ≡ ending_of all.now }
{
    let failed = count_failed(all);
    if failed == 0 {
        ProgramEnd::Done
    } else {
        ProgramEnd::ScriptsFailed(failed as u64, all.len() as u64)
    }
}

/// Appends a byte of a name so that it ends no line and begins no directive.
#[tactic(auto, unfolding(crate::specs::Judged::plain_byte))]
fn put_byte(byte: u8, out: &mut Vec<u8>) -> Result<(), AllocError>
    ensures { OnOk result (out.new.items ≡ out.old.items ++ plain_byte byte) }
{
    if byte == b'#' || byte == b'\\' {
        out.extend_from_slice(&[b'\\', byte])
    } else if byte < 32 || byte == 127 {
        out.extend_from_slice(b"?")
    } else {
        out.extend_from_slice(&[byte])
    }
}

/// Appends a name.
fn put_plain(name: &[u8], out: &mut Vec<u8>) -> Result<(), AllocError>
    ensures { OnOk result (out.new.items ≡ out.old.items ++ plain_text name.now) }
{
    for byte in name {
        put_byte(*byte, out)?;
    }
    Ok(())
}

/// The number of the line that ended a run, or that was not as it expects.
#[tactic(auto, unfolding(crate::specs::Judged::end_line))]
fn line_of(end: TryEnd) -> Option<u64>
    ensures { result ≡ end_line end }
{
    match end {
        TryEnd::LineRefused(line, _) => Some(line),
        TryEnd::LineMissed(line, ..) => Some(line),
        TryEnd::ExpectationFailed(line) => Some(line),
        TryEnd::LeftOut(line, ..) => Some(line),
        TryEnd::Done | TryEnd::NothingPlayed | TryEnd::HistoryFull => None,
        TryEnd::InputFailed | TryEnd::OutputFailed | TryEnd::OutOfMemory => None,
    }
}

/// Why a run failed.
#[tactic(auto, unfolding(crate::specs::Judged::end_why))]
fn why_of(end: TryEnd) -> &'static str
    ensures { result.now ≡ end_why end }
{
    match end {
        TryEnd::Done => "",
        TryEnd::LineRefused(_, fault) => fault.text(),
        TryEnd::LineMissed(_, taken, _) => taken.text(),
        TryEnd::ExpectationFailed(_) => "it is not so as the script expects",
        TryEnd::LeftOut(_, taken, _) => taken.text(),
        TryEnd::NothingPlayed => "nothing was played: no line says what happens",
        TryEnd::HistoryFull => "history full",
        TryEnd::InputFailed => "input not read",
        TryEnd::OutputFailed => "output not written",
        TryEnd::OutOfMemory => "out of memory",
    }
}

/// Appends the number of a line behind the name of its script, if there is one.
#[tactic(auto, unfolding(crate::specs::Judged::place_text))]
fn put_place(line: Option<u64>, out: &mut Vec<u8>) -> Result<(), AllocError>
    ensures { OnOk result (out.new.items ≡ out.old.items ++ place_text line) }
{
    match line {
        None => Ok(()),
        Some(line) => {
            out.extend_from_slice(b":")?;
            write_number(line, out)
        }
    }
}

/// Appends the line that says why a script failed: at which line of it, if one is to blame.
#[tactic(auto, unfolding(crate::specs::Judged::reason_text))]
fn put_reason(
    script: &[u8],
    line: Option<u64>,
    why: &[u8],
    out: &mut Vec<u8>,
) -> Result<(), AllocError>
    ensures { OnOk result (out.new.items ≡ out.old.items ++ reason_text script.now line why.now) }
{
    out.extend_from_slice(b"# ")?;
    put_plain(script, out)?;
    put_place(line, out)?;
    out.extend_from_slice(b": ")?;
    out.extend_from_slice(why)?;
    out.extend_from_slice(b"\n")
}

/// Appends which line of a script expected what is not so.
#[tactic(auto, unfolding(crate::specs::Judged::unmet_text))]
fn put_unmet(script: &[u8], line: u64, text: &[u8], out: &mut Vec<u8>) -> Result<(), AllocError>
    ensures { OnOk result (out.new.items ≡ out.old.items ++ unmet_text script.now line text.now) }
{
    out.extend_from_slice(b"# ")?;
    put_plain(script, out)?;
    put_place(Some(line), out)?;
    out.extend_from_slice(b": it is not so: ")?;
    put_plain(text, out)?;
    out.extend_from_slice(b"\n")
}

/// Appends why a script failed.
#[tactic(auto, unfolding(crate::specs::Judged::why_text))]
fn put_why(script: &[u8], verdict: &Verdict, out: &mut Vec<u8>) -> Result<(), AllocError>
    ensures { OnOk result (out.new.items ≡ out.old.items ++ why_text script.now verdict.now) }
{
    match verdict {
        Verdict::Played(end) => put_reason(script, line_of(*end), why_of(*end).as_bytes(), out),
        Verdict::Unmet(line, text) => put_unmet(script, *line, text.as_slice(), out),
        Verdict::Unread(why) => put_reason(script, None, why.as_bytes(), out),
    }
}

/// Appends the line of a script that failed, or didn't.
#[tactic(auto, unfolding(crate::specs::Judged::verdict_text))]
fn put_verdict(has_failed: bool, script: &[u8], out: &mut Vec<u8>) -> Result<(), AllocError>
    ensures { OnOk result (out.new.items ≡ out.old.items ++ verdict_text has_failed script.now) }
{
    if has_failed {
        out.extend_from_slice(b"not ok - ")?;
        put_plain(script, out)?;
        out.extend_from_slice(b"\n")
    } else {
        out.extend_from_slice(b"ok - ")?;
        put_plain(script, out)?;
        out.extend_from_slice(b"\n")
    }
}

/// Appends why a script failed, if it did.
#[tactic(auto, unfolding(crate::specs::Judged::why_if))]
fn put_why_if(
    has_failed: bool,
    script: &[u8],
    verdict: &Verdict,
    out: &mut Vec<u8>,
) -> Result<(), AllocError>
    ensures { OnOk result (out.new.items ≡ out.old.items ++ why_if has_failed script.now verdict.now) }
{
    if has_failed {
        put_why(script, verdict, out)
    } else {
        Ok(())
    }
}

/// Appends what came of a script: a line, and why it failed, if it did.
#[tactic(auto, unfolding(crate::specs::Judged::result_text))]
fn put_result(judged: &Judged<'_>, out: &mut Vec<u8>) -> Result<(), AllocError>
    ensures { OnOk result (out.new.items ≡ out.old.items ++ result_text judged.now) }
{
    let failed = has_failed(judged);
    let script = judged.script.as_bytes();
    put_verdict(failed, script, out)?;
    put_why_if(failed, script, &judged.verdict, out)
}

/// Appends what came of each script.
fn put_results(all: &[Judged<'_>], out: &mut Vec<u8>) -> Result<(), AllocError>
    ensures { OnOk result (out.new.items ≡ out.old.items ++ flat_map result_text all.now) }
{
    for judged in all {
        put_result(judged, out)?;
    }
    Ok(())
}

/// Ends a line.
fn put_line_end(out: &mut Vec<u8>) -> Result<(), AllocError>
    ensures { OnOk result (out.new.items ≡ out.old.items ++ codes "\n") }
{
    out.extend_from_slice(b"\n")
}

/// Appends the version of TAP, and how many results follow.
#[tactic(auto, unfolding(crate::specs::Judged::plan_text))]
fn put_plan(count: u64, out: &mut Vec<u8>) -> Result<(), AllocError>
    ensures { OnOk result (out.new.items ≡ out.old.items ++ plan_text count) }
{
    out.extend_from_slice(b"TAP version 13\n1..")?;
    write_number(count, out)?;
    put_line_end(out)
}

/// Appends the whole.
#[tactic(auto, unfolding(crate::specs::Judged::tap_text))]
fn put_tap(all: &[Judged<'_>], out: &mut Vec<u8>) -> Result<(), AllocError>
    ensures { OnOk result (out.new.items ≡ out.old.items ++ tap_text all.now) }
{
    put_plan(all.len() as u64, out)?;
    put_results(all, out)
}

/// Writes what came of scripts, and ends as they did.
fn tell_judged<'a, W: Output>(alloc: Global, all: &[Judged<'a>], output: &mut W) -> ProgramEnd<'a>
    ensures { IsTold all.now result (W.seen output.old) (W.seen output.new) }
{
    let mut text = Vec::new(alloc);
    let Ok(()) = put_tap(all, &mut text) else {
        return ProgramEnd::OutOfMemory;
    };
    match write_all(output, text.as_slice()) {
        Ok(()) => ending_of(all),
        Err(Failed) => ProgramEnd::OutputFailed,
    }
}

/// What comes of each of these scripts on the tree that a file says.
///
/// # Errors
///
/// How the program ends where the file says no tree, or those of [`judge_each`].
fn judged_on<'a, F: TreeFiles>(
    alloc: Global,
    files: &F,
    name: &'a str,
    file: &[u8],
    scripts: &[&'a str],
    clock: Clock,
) -> Result<Vec<Judged<'a>>, ProgramEnd<'a>>
    ensures judged { IfOk result (λ all. AreJudgedOn (F.known files.now).holds file.now scripts.now all.items) }
    ensures ending { IfErr result (λ ending. IsWithoutTree name.now ending file.now ⊎ ((ending ≡ HistoryFull) ⊎ (ending ≡ OutOfMemory))) }
{
    let tree = match read_tree(alloc, file) {
        Ok(tree) => tree,
        Err(fault) => return Err(ProgramEnd::of_no_tree(fault, name)),
    };
    let judged = judge_each(alloc, files, &tree, scripts, clock);
    drop(tree);
    match judged {
        Ok(all) => Ok(all),
        Err(ending) => Err(ending),
    }
}

/// Tells what comes of each of these scripts on the tree of a file that was read.
fn judge_file<'a, F: TreeFiles, W: Output>(
    alloc: Global,
    files: &F,
    name: &'a str,
    file: &[u8],
    scripts: &[&'a str],
    clock: Clock,
    output: &mut W,
) -> ProgramEnd<'a>
    ensures { IsJudged (F.known files.now).holds name.now scripts.now result file.now (W.seen output.old) (W.seen output.new) }
{
    match judged_on(alloc, files, name, file, scripts, clock) {
        Ok(all) => tell_judged(alloc, all.as_slice(), output),
        Err(ending) => ending,
    }
}

/// Tells what comes of each of these scripts on the tree of the file of this name.
pub(crate) fn judge_scripts<'a, F: TreeFiles, W: Output, E: Output>(
    alloc: Global,
    files: &F,
    name: &'a str,
    scripts: &[&'a str],
    clock: Clock,
    output: &mut W,
    errors: &mut E,
) -> ProgramEnd<'a>
    ensures done { Judges (F.known files.now) name.now scripts.now result (W.seen output.old) (W.seen output.new) }
    ensures first { TellsFirst false result (E.seen errors.old) (E.seen errors.new) }
    ensures kept { (E.seen errors.old).failures ≤ (E.seen errors.new).failures }
{
    match read_tree_file(files, name, errors) {
        Ok(file) => judge_file(alloc, files, name, &file, scripts, clock, output),
        Err(ending) => ending,
    }
}
