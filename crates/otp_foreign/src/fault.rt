//! Why a text says no tree.

ghost use Rattle.std.specs.Prelude.{◌≡◌, ◌≤◌};
ghost use Rattle.otp_foreign.specs.Faults.{place_of};
ghost use Rattle.otp_foreign.specs.declared.fault.ImportFault.TheVariants.{OutOfMemory};

use std::alloc::AllocError;

/// Why a text says no tree, and the place of the byte where that shows.
#[derive(Clone, Copy, Debug, PartialEq, Eq)]
pub enum ImportFault {
    /// Memory was refused, which says nothing of the text.
    OutOfMemory,
    /// This, at the byte of this place, from 0.
    At(usize, Why),
    /// What was read has no tree file: its tree would be refused for this fault.
    NoTree(usize, &'static str),
}

impl ImportFault {
    /// This fault, at the byte of this place at most.
    #[tactic(auto, unfolding(crate::specs::Faults::place_of))]
    pub fn within(self, size: usize) -> ImportFault
        ensures { place_of result ≤ size }
    {
        match self {
            ImportFault::OutOfMemory => ImportFault::OutOfMemory,
            ImportFault::At(place, why) => ImportFault::At(place.min(size), why),
            ImportFault::NoTree(place, why) => ImportFault::NoTree(place.min(size), why),
        }
    }

    /// What is wrong, and what to do.
    pub fn text(&self) -> &'static str {
        match self {
            ImportFault::OutOfMemory => "out of memory",
            ImportFault::At(_, why) => why.text(),
            ImportFault::NoTree(_, why) => *why,
        }
    }

    /// The place of the byte where it shows, from 0.
    #[tactic(auto, unfolding(crate::specs::Faults::place_of))]
    pub fn place(&self) -> usize
        ensures { result ≡ place_of self.now }
    {
        match self {
            ImportFault::OutOfMemory => 0,
            ImportFault::At(place, _) => *place,
            ImportFault::NoTree(place, _) => *place,
        }
    }
}

impl From<AllocError> for ImportFault {
    ghost from_gives = { λ _ fault. fault ≡ OutOfMemory };

    fn from(_error: AllocError) -> ImportFault {
        ImportFault::OutOfMemory
    }
}

/// What is wrong with a text.
#[derive(Clone, Copy, Debug, PartialEq, Eq)]
pub enum Why {
    Nothing,
    SeveralTerms,
    Unexpected,
    OpenQuote,
    OpenBracket,
    WrongBracket,
    NoValue,
    NoComma,
    NoArrow,
    CutOff,
    StopInside,
    NoSupervisor,
    BadFlags,
    BadChildren,
    NoChild,
    NoId,
    NoStart,
    BadStart,
    BadStrategy,
    BadNumber,
    BadAutoShutdown,
    BadRestart,
    BadSignificant,
    BadShutdown,
    BadType,
    BadModules,
    TooDeep,
    TooMany,
    NoPrograms,
    NoSection,
    NoAssignment,
    NoCommand,
    NotUtf8,
    NoServices,
    BadTime,
    OtherText,
    IsTree,
    BadAutorestart,
}

impl Why {
    /// What is wrong, and what to do.
    fn text(self) -> &'static str {
        match self {
            Why::Nothing => "nothing stands here; write a term as {ok, {SupFlags, ChildSpecs}}",
            Why::SeveralTerms => "a second term; import one at a time",
            Why::Unexpected =>
                "not of a term: calls, variables and records have to be written as what they come to, as io:format(\"~p.\") does",
            Why::OpenQuote => "the quote that opens here is never closed",
            Why::OpenBracket => "the bracket that opens here is never closed",
            Why::WrongBracket => "this bracket closes none that is open",
            Why::NoValue => "a value is missing here",
            Why::NoComma => "a comma is missing before this",
            Why::NoArrow => "a key of a map has no value; write KEY => VALUE",
            Why::CutOff =>
                "the term was cut off; print all of it, by io:format(\"~p.~n\", [Term]) or by IO.inspect(term, limit: :infinity)",
            Why::StopInside => "a full stop inside a bracket",
            Why::NoSupervisor =>
                "no supervisor; write {ok, {SupFlags, ChildSpecs}}, {SupFlags, ChildSpecs} or a list of child specifications",
            Why::BadFlags =>
                "not the flags of a supervisor; write a map with strategy, intensity and period, or {Strategy, Intensity, Period}",
            Why::BadChildren => "not a list of child specifications",
            Why::NoChild =>
                "not a child specification; write a map with id and start, or {Id, {M, F, A}, Restart, Shutdown, Type, Modules}",
            Why::NoId => "this child has no id",
            Why::NoStart => "this child has no start; write start => {Module, Function, Arguments}",
            Why::BadStart => "not a start function; write {Module, Function, Arguments}",
            Why::BadStrategy =>
                "not a strategy: one_for_one, one_for_all, rest_for_one or simple_one_for_one",
            Why::BadNumber => "not a whole number from 0 on",
            Why::BadAutoShutdown =>
                "not a word of auto_shutdown: never, any_significant or all_significant",
            Why::BadRestart => "not a restart type: permanent, transient or temporary",
            Why::BadSignificant => "neither true nor false",
            Why::BadShutdown => "not a shutdown: milliseconds, brutal_kill or infinity",
            Why::BadType => "not a type of a child: worker or supervisor",
            Why::BadModules => "neither a list of modules nor dynamic",
            Why::TooDeep => "supervisors are nested more than 16 deep",
            Why::TooMany => "more than 256 children of one supervisor",
            Why::NoPrograms =>
                "no [program:NAME] stands here that is started, so there is no child",
            Why::NoSection => "this stands in front of the first [section]",
            Why::NoAssignment => "neither KEY=VALUE nor a [section]",
            Why::NoCommand => "this program has no command",
            Why::NoServices => "no service stands here, so there is no child",
            Why::BadTime => "not a time; write one like 90, 1min 30s, 100ms or infinity",
            Why::NotUtf8 => "the text isn't UTF-8; save it so",
            Why::OtherText =>
                "neither a term of Erlang or Elixir, as {ok, {SupFlags, ChildSpecs}}, nor the file of supervisord, nor units of systemd",
            Why::IsTree => "this is a tree file already, as import writes them",
            Why::BadAutorestart => "not a word of autorestart: true, unexpected or false",
        }
    }
}
