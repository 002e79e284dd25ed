ghost use Rattle.std.specs.Prelude.{◌≡◌, Contains, IfSome, Some, option_copied};
ghost use Rattle.otp_spec.specs.Children.{default_shutdown, default_spec, default_spec_of, are_lawful_modules};
ghost use Rattle.otp_spec.specs.Lawful.{is_permanent};
ghost use Rattle.otp_spec.specs.Words.{child_type_of, modules_of, modules_word, restart_of, restart_word, shutdown_of, shutdown_word, type_word};

use crate::limits::DEFAULT_SHUTDOWN;
use crate::word::{has_word, is_word};
use otp_reason::Name;

/// After which ends a child is restarted (Supervisor Behaviour, "Child Specification", `restart`).
#[derive(Clone, Copy, Debug, PartialEq, Eq)]
pub enum Restart {
    /// After each.
    Permanent,
    /// Unless its reason is quiet.
    Transient,
    /// Never.
    Temporary,
}

impl Restart {
    /// All restart types.
    pub fn all() -> [Self; 3]
        ensures { (each : Restart) → Contains result each }
    {
        [Restart::Permanent, Restart::Transient, Restart::Temporary]
    }

    /// Its word, as it is printed and read.
    #[tactic(auto, unfolding(crate::specs::Words::restart_word, crate::specs::Words::restart_of))]
    pub fn word(self) -> &'static str
        ensures word { result.now ≡ restart_word self }
        ensures read_back { restart_of result.now ≡ Some self }
    {
        match self {
            Restart::Permanent => "permanent",
            Restart::Transient => "transient",
            Restart::Temporary => "temporary",
        }
    }

    /// The restart type of a word, if it is the word of one.
    #[tactic(auto, unfolding(crate::specs::Words::restart_of))]
    pub fn of_word(word: &[u8]) -> Option<Self>
        ensures { result ≡ restart_of word.now }
    {
        if is_word(word, Restart::Permanent.word()) {
            Some(Restart::Permanent)
        } else if is_word(word, Restart::Transient.word()) {
            Some(Restart::Transient)
        } else if is_word(word, Restart::Temporary.word()) {
            Some(Restart::Temporary)
        } else {
            None
        }
    }

    /// Whether a child with this key is always restarted.
    pub fn is_permanent(self) -> bool
        ensures { result ≡ is_permanent self }
    {
        matches!(self, Restart::Permanent)
    }
}

/// How a child is stopped (Supervisor Behaviour, "Child Specification", `shutdown`).
#[derive(Clone, Copy, Debug, PartialEq, Eq)]
pub enum Shutdown {
    /// It is killed.
    BrutalKill,
    /// It is asked to end, and killed where it has not ended after so many milliseconds.
    Milliseconds(u32),
    /// It is asked to end, and waited for.
    Infinity,
}

impl Shutdown {
    /// What a specification of this type has where it names no other: 5000 milliseconds for a worker,
    /// infinity for a supervisor.
    pub fn default_of(kind: ChildType) -> Self
        ensures { result ≡ default_shutdown kind }
    {
        match kind {
            ChildType::Worker => Shutdown::Milliseconds(DEFAULT_SHUTDOWN),
            ChildType::Supervisor => Shutdown::Infinity,
        }
    }

    /// Its word, as it is printed and read; milliseconds are a number and have none.
    #[tactic(auto, unfolding(crate::specs::Words::shutdown_word, crate::specs::Words::shutdown_of))]
    pub fn word(self) -> Option<&'static str>
        ensures word { option_copied result ≡ shutdown_word self }
        ensures read_back { IfSome result (λ word. shutdown_of word.now ≡ Some self) }
    {
        match self {
            Shutdown::BrutalKill => Some("brutal_kill"),
            Shutdown::Milliseconds(_) => None,
            Shutdown::Infinity => Some("infinity"),
        }
    }

    /// The shutdown of a word, if it is the word of one.
    #[tactic(auto, unfolding(crate::specs::Words::shutdown_of))]
    pub fn of_word(word: &[u8]) -> Option<Self>
        ensures { result ≡ shutdown_of word.now }
    {
        if has_word(word, Shutdown::BrutalKill.word()) {
            Some(Shutdown::BrutalKill)
        } else if has_word(word, Shutdown::Infinity.word()) {
            Some(Shutdown::Infinity)
        } else {
            None
        }
    }
}

/// What a child is (Supervisor Behaviour, "Child Specification", `type`).
#[derive(Clone, Copy, Debug, PartialEq, Eq)]
pub enum ChildType {
    /// A process that has no children.
    Worker,
    /// A supervisor.
    Supervisor,
}

impl ChildType {
    /// All types of a child.
    pub fn all() -> [Self; 2]
        ensures { (each : ChildType) → Contains result each }
    {
        [ChildType::Worker, ChildType::Supervisor]
    }

    /// Its word, as it is printed and read.
    #[tactic(auto, unfolding(crate::specs::Words::type_word, crate::specs::Words::child_type_of))]
    pub fn word(self) -> &'static str
        ensures word { result.now ≡ type_word self }
        ensures read_back { child_type_of result.now ≡ Some self }
    {
        match self {
            ChildType::Worker => "worker",
            ChildType::Supervisor => "supervisor",
        }
    }

    /// The type of a word, if it is the word of one.
    #[tactic(auto, unfolding(crate::specs::Words::child_type_of))]
    pub fn of_word(word: &[u8]) -> Option<Self>
        ensures { result ≡ child_type_of word.now }
    {
        if is_word(word, ChildType::Worker.word()) {
            Some(ChildType::Worker)
        } else if is_word(word, ChildType::Supervisor.word()) {
            Some(ChildType::Supervisor)
        } else {
            None
        }
    }
}

/// The modules of a child: at most four, or `dynamic` (Supervisor Behaviour, "Child Specification", `modules`).
#[derive(Clone, Copy, Debug, PartialEq, Eq)]
pub enum Modules {
    /// Which modules they are is not known beforehand.
    Dynamic,
    /// An empty list, as those with names are lists of so many.
    None,
    One(Name),
    Two(Name, Name),
    Three(Name, Name, Name),
    Four(Name, Name, Name, Name),
}

impl Modules {
    /// Whether each of the names is lawful.
    pub fn are_lawful(&self) -> bool
        ensures { result ≡ are_lawful_modules self.now }
    {
        match self {
            Modules::Dynamic | Modules::None => true,
            Modules::One(first) => first.is_lawful(),
            Modules::Two(first, second) => first.is_lawful() && second.is_lawful(),
            Modules::Three(first, second, third) => {
                first.is_lawful() && second.is_lawful() && third.is_lawful()
            }
            Modules::Four(first, second, third, fourth) => {
                first.is_lawful() && second.is_lawful() && third.is_lawful() && fourth.is_lawful()
            }
        }
    }
}

/// The specification of a child (Supervisor Behaviour, "Child Specification").
#[derive(Clone, Copy, Debug, PartialEq, Eq)]
pub struct ChildSpec {
    /// What the supervisor knows the child by; no two of its children have the same.
    pub id: Name,
    /// The module of the start function.
    pub start: Name,
    pub restart: Restart,
    /// Whether the child's end counts for the supervisor's automatic shutdown.
    pub significant: bool,
    pub shutdown: Shutdown,
    pub kind: ChildType,
    pub modules: Modules,
}

impl Modules {
    /// Its word, as it is printed and read; a list of names has none.
    #[tactic(auto, unfolding(crate::specs::Words::modules_word, crate::specs::Words::modules_of))]
    pub fn word(&self) -> Option<&'static str>
        ensures word { option_copied result ≡ modules_word self.now }
        ensures read_back { IfSome result (λ word. modules_of word.now ≡ Some self.now) }
    {
        match self {
            Modules::Dynamic => Some("dynamic"),
            _ => None,
        }
    }

    /// The modules of a word, if it is the word of some.
    #[tactic(auto, unfolding(crate::specs::Words::modules_of))]
    pub fn of_word(word: &[u8]) -> Option<Self>
        ensures { result ≡ modules_of word.now }
    {
        if has_word(word, Modules::Dynamic.word()) {
            Some(Modules::Dynamic)
        } else {
            None
        }
    }
}

impl Modules {
    ghost use Rattle.std.specs.Prelude.{◌↔◌, IsTrue};

    /// Whether the others are these in every byte that is kept (`Name::is_same`).
    pub fn is_same(&self, other: &Modules) -> bool
        ensures { IsTrue result ↔ (self.now ≡ other.now) }
    {
        match (self, other) {
            (Modules::Dynamic, Modules::Dynamic) | (Modules::None, Modules::None) => true,
            (Modules::One(a), Modules::One(e)) => a.is_same(e),
            (Modules::Two(a, b), Modules::Two(e, f)) => a.is_same(e) && b.is_same(f),
            (Modules::Three(a, b, c), Modules::Three(e, f, g)) => {
                a.is_same(e) && b.is_same(f) && c.is_same(g)
            }
            (Modules::Four(a, b, c, d), Modules::Four(e, f, g, h)) => {
                a.is_same(e) && b.is_same(f) && c.is_same(g) && d.is_same(h)
            }
            _ => false,
        }
    }
}

impl ChildSpec {
    /// A specification with the manual's default for every key but these two: a permanent worker that is not
    /// significant, has 5000 milliseconds to shut down, and is of the one module of its start function. For a child that is a
    /// supervisor there is [`ChildSpec::of`], which gives it the default of its type.
    pub fn new(id: Name, start: Name) -> Self
        ensures { result ≡ default_spec id start }
    {
        ChildSpec {
            id,
            start,
            restart: Restart::Permanent,
            significant: false,
            shutdown: Shutdown::default_of(ChildType::Worker),
            kind: ChildType::Worker,
            modules: Modules::One(start),
        }
    }

    /// A specification with the manual's defaults for a child of this type: a supervisor has as much time to shut down as it wants
    /// (Supervisor Behaviour, "Child Specification", shutdown).
    pub fn of(kind: ChildType, id: Name, start: Name) -> Self
        ensures { result ≡ default_spec_of kind id start }
    {
        ChildSpec {
            shutdown: Shutdown::default_of(kind),
            kind,
            ..ChildSpec::new(id, start)
        }
    }
}
