//! Serving the lines of the input as it comes.

ghost use Rattle.std.specs.Prelude.{◌≡◌, ◌==◌, ◌∷◌, ℕ, List, ◌+◌, ◌<◌, ◌≤◌, ◌++◌, [], length, position, OnOk, IfSome};
ghost use Rattle.otp_sim.specs.Runs.{with_text, LineEnds, Played, PieceEnds, RanFrom, RanLine, NoEnd};
ghost use Rattle.otp_sim.specs.declared.driven.TheConstants.{LINE_LIMIT};

use crate::device::Output;
use crate::driven::Driven;
use crate::engine::SimEnd;
use crate::writing::{out_of_memory, write_much};

/// Serves all lines whose end is in the piece, and keeps the beginning of the next line.
///
/// # Errors
///
/// [`SimEnd::Memory`], once the text of the lines before is written, and [`SimEnd::OutputFailed`], where a beginning
/// of it is.
pub(crate) fn serve_piece<S: Driven, W: Output>(
    driven: &mut S,
    kept: &mut Vec<u8>,
    ready: &mut Vec<u8>,
    output: &mut W,
    piece: &[u8],
) -> Result<(), SimEnd>
    requires lines { (S.sim driven.old).lines + length piece.now < LINE_LIMIT }
    requires kept { NoEnd kept.old.items }
    ensures ok { OnOk result (RanFrom ready.old.items (S.sim driven.old) (S.sim driven.new) (W.seen output.old) (W.seen output.new) ready.new.items (kept.old.items ++ piece.now) kept.new.items) }
    ensures no_end { OnOk result (NoEnd kept.new.items) }
    ensures lines { OnOk result ((S.sim driven.new).lines ≤ (S.sim driven.old).lines + length piece.now) }
    ensures err { PieceEnds result (with_text ready.old.items (S.sim driven.old)) (W.seen output.old) (W.seen output.new) (kept.old.items ++ piece.now) }
    ensures failures { (W.seen output.old).failures ≤ (W.seen output.new).failures }
{
    let mut rest = piece;
    while let Some(end) = line_end(rest) {
        if let Err(why) = serve_next(driven, kept, ready, output, &rest[..end]) {
            return Err(why);
        }
        rest = &rest[end + 1..];
    }
    let Ok(()) = kept.extend_from_slice(rest) else {
        return Err(out_of_memory(output, ready));
    };
    Ok(())
}

/// Serves the line of what was kept and a last part.
fn serve_next<S: Driven, W: Output>(
    driven: &mut S,
    kept: &mut Vec<u8>,
    ready: &mut Vec<u8>,
    output: &mut W,
    part: &[u8],
) -> Result<(), SimEnd>
    requires lines { (S.sim driven.old).lines + 1 < LINE_LIMIT }
    requires kept { NoEnd (kept.old.items ++ part.now) }
    ensures ok { OnOk result (RanLine ready.old.items (S.sim driven.old) (S.sim driven.new) (W.seen output.old) (W.seen output.new) ready.new.items (kept.old.items ++ part.now)) }
    ensures empty { OnOk result (kept.new.items ≡ []) }
    ensures lines { OnOk result ((S.sim driven.new).lines ≤ (S.sim driven.old).lines + 1) }
    ensures err { (others : List ℕ) → PieceEnds result (with_text ready.old.items (S.sim driven.old)) (W.seen output.old) (W.seen output.new) (kept.old.items ++ part.now ++ 10 ∷ others) }
    ensures failures { (W.seen output.old).failures ≤ (W.seen output.new).failures }
{
    if kept.is_empty() {
        return serve_line(driven, ready, output, part);
    }
    let Ok(()) = kept.extend_from_slice(part) else {
        return Err(out_of_memory(output, ready));
    };
    if let Err(why) = serve_line(driven, ready, output, kept.as_slice()) {
        return Err(why);
    }
    kept.clear();
    Ok(())
}

/// The place of the first LF.
fn line_end(bytes: &[u8]) -> Option<usize>
    ensures found { result ≡ position (λ byte. byte == 10) bytes.now }
    ensures inside { IfSome result (λ end. end < length bytes.now) }
{
    bytes.iter().position(|byte| *byte == b'\n')
}

/// Serves a line, event by event: what is ready is written as soon as it is much, so that a run never holds more of what a
/// line prints than a piece and the text of one event.
///
/// # Errors
///
/// [`SimEnd::Memory`], once the text of the events before is written, and [`SimEnd::OutputFailed`], where a beginning
/// of it is.
pub(crate) fn serve_line<S: Driven, W: Output>(
    driven: &mut S,
    ready: &mut Vec<u8>,
    output: &mut W,
    line: &[u8],
) -> Result<(), SimEnd>
    requires { (S.sim driven.old).lines + 1 < LINE_LIMIT }
    ensures ok { OnOk result (Played (with_text ready.old.items (S.sim driven.old)) (S.sim driven.new) line.now (W.seen output.old).bytes (W.seen output.new).bytes ready.new.items) }
    ensures lines { OnOk result ((S.sim driven.new).lines ≤ (S.sim driven.old).lines + 1) }
    ensures err { LineEnds result (with_text ready.old.items (S.sim driven.old)) line.now (W.seen output.old) (W.seen output.new) }
    ensures failures { (W.seen output.old).failures ≤ (W.seen output.new).failures }
{
    let Ok(()) = driven.begin_line(line, ready) else {
        return Err(out_of_memory(output, ready));
    };
    let mut is_going = true;
    while is_going {
        let Ok(()) = write_much(output, ready) else {
            return Err(SimEnd::OutputFailed);
        };
        let Ok(went_on) = driven.go_on(ready) else {
            return Err(out_of_memory(output, ready));
        };
        is_going = went_on;
    }
    Ok(())
}
