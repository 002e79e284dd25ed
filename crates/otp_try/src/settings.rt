//! How a run is told.

ghost use Rattle.std.specs.Prelude.{◌≡◌};
ghost use Rattle.otp_try.specs.Pages.{tells_orders};

use crate::play::Writer;
use crate::remarks::Sketch;
use otp_trial::Clock;
use std::alloc::Global;

/// What of a run is written.
#[derive(Clone, Copy, Debug, PartialEq, Eq)]
pub enum Shows {
    /// A line for each order.
    Orders,
    /// The ends of supervisors, what is not as expected, and the verdict.
    Ends,
    /// A picture, with a column for each line of the script.
    Timeline {
        /// With the escape sequences of a terminal.
        is_coloured: bool,
        /// So many columns a line may have; a column of the picture stands there at the least.
        width: u32,
    },
}

/// How a script is played: who writes its lines, what of the run is written, and by which clock.
#[derive(Clone, Copy, Debug, PartialEq, Eq)]
pub struct Playing {
    pub writer: Writer,
    pub shows: Shows,
    pub clock: Clock,
}

/// How a run is told.
#[derive(Clone, Copy, Debug, PartialEq, Eq)]
pub(crate) struct Settings {
    pub writer: Writer,
    /// All orders are told, and not the ends of supervisors alone.
    pub tells: bool,
    /// At the end the verdict alone is told.
    pub is_quiet: bool,
}

/// Whether all orders are told: where a script is drawn, or little is to be told, the ends of supervisors alone are.
pub(crate) fn tells_orders(writer: Writer, shows: Shows) -> bool
    ensures { result ≡ tells_orders writer shows }
{
    match writer {
        Writer::Person => true,
        Writer::Script | Writer::Log => shows == Shows::Orders,
    }
}

/// Whether at the end of a run the verdict alone is told.
pub(crate) fn is_quiet(writer: Writer, shows: Shows) -> bool {
    writer != Writer::Person && shows == Shows::Ends
}

/// The picture that is wanted, if one is.
pub(crate) fn sketch_of(alloc: Global, shows: Shows) -> Option<Sketch> {
    match shows {
        Shows::Orders | Shows::Ends => None,
        Shows::Timeline { is_coloured, width } => Some(Sketch::new(alloc, is_coloured, width)),
    }
}
