//! The files of transcripts.

ghost use Rattle.std.specs.Prelude.{◌≡◌, ◌++◌, IfSome};
ghost use Rattle.otp_parity.specs.Cut.{whole};

/// What a supervisor is told, and what it orders.
#[derive(Clone, Copy, Debug)]
pub struct Transcript<'a> {
    /// What it shows.
    pub name: &'a str,
    /// Where the orders are from: the OTP that gave them, or why they were worked out by hand.
    pub origin: &'a str,
    /// The tree file of the supervisor.
    pub tree: &'a str,
    /// The event lines.
    pub lines: &'a str,
    /// A line for each order; or the line that says that the tree is refused.
    pub orders: &'a str,
}

/// Reads a transcript: a line with its name, one with its origin, the tree, and the event lines and the orders, each
/// after a line that announces them. `None` for a text that lacks one of these.
pub fn read_transcript(text: &str) -> Option<Transcript<'_>>
    ensures { IfSome result (λ t. text.now ≡ whole t.name.now t.origin.now t.tree.now t.lines.now t.orders.now) }
{
    let (name, rest) = cut(text, "\n")?;
    let (origin, rest) = cut(rest, "\n")?;
    let (tree, rest) = cut(rest, "-- lines\n")?;
    let (lines, orders) = cut(rest, "-- orders\n")?;
    Some(Transcript {
        name,
        origin,
        tree,
        lines,
        orders,
    })
}

/// The text before a mark, and the text after it.
fn cut<'a>(text: &'a str, mark: &str) -> Option<(&'a str, &'a str)>
    ensures { IfSome result (λ parts. text.now ≡ parts.0.now ++ (mark.now ++ parts.1.now)) }
{
    text.split_once(mark)
}
