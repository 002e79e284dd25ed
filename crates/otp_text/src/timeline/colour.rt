//! Colours of a picture.

ghost use Rattle.std.specs.Prelude.{◌≡◌, ◌++◌, OnOk};
ghost use Rattle.otp_text.specs.Picture.{colour_of, opening, painted};

use otp_table::RowState;
use std::alloc::AllocError;

/// What a text is shown in.
#[derive(Clone, Copy, Debug, PartialEq, Eq)]
pub(crate) enum Colour {
    Plain,
    Green,
    Yellow,
    Red,
}

impl Colour {
    /// The colour of a child in this state: it runs, it is on its way, or it has no process.
    #[tactic(auto, unfolding(crate::specs::Picture::colour_of))]
    pub fn of(state: RowState) -> Self
        ensures { result ≡ colour_of state }
    {
        match state {
            RowState::Up(_) => Colour::Green,
            RowState::Starting(..) | RowState::Asked(..) | RowState::Killed(_) => Colour::Yellow,
            RowState::Undefined | RowState::Restarting(_) => Colour::Red,
        }
    }

    /// The escape sequence that a terminal takes for it.
    #[tactic(auto, unfolding(crate::specs::Picture::opening))]
    fn opening(self) -> &'static [u8]
        ensures { result.now ≡ opening self }
    {
        match self {
            Colour::Plain => b"",
            Colour::Green => b"\x1b[32m",
            Colour::Yellow => b"\x1b[33m",
            Colour::Red => b"\x1b[31m",
        }
    }
}

/// The escape sequence after which all is plain again.
const CLOSING: &[u8] = b"\x1b[0m";

/// Appends a text, in a colour where colours are wanted.
#[tactic(auto, unfolding(crate::specs::Picture::painted))]
pub(crate) fn write_painted(
    is_coloured: bool,
    colour: Colour,
    text: &[u8],
    out: &mut Vec<u8>,
) -> Result<(), AllocError>
    ensures { OnOk result (out.new.items ≡ out.old.items ++ painted is_coloured colour text.now) }
{
    if !is_coloured || colour == Colour::Plain {
        return out.extend_from_slice(text);
    }
    out.extend_from_slice(colour.opening())?;
    out.extend_from_slice(text)?;
    out.extend_from_slice(CLOSING)
}
