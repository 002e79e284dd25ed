//! What a child runs by the word of its start.
ghost use Rattle.std.specs.Prelude.{◌≡◌};
ghost use Rattle.otp_file.specs.Roles.{role_at, role_of};

use crate::roles::work::{JobWork, is_word};
use otp_spec::ChildSpec;

/// What the word of a start stands for.
#[derive(Clone, Copy, Debug, PartialEq, Eq)]
pub enum Role {
    /// A job of its own.
    Worker(JobWork),
    /// A bridge to a subsystem.
    Bridge,
}

impl Role {
    /// What a word stands for, if it is a word of one.
    #[tactic(auto, unfolding(crate::specs::Roles::role_of))]
    pub fn of_word(word: &[u8]) -> Option<Role>
        ensures { result ≡ role_of word.now }
    {
        if is_word(word, "bridge") {
            return Some(Role::Bridge);
        }
        let work = JobWork::of_word(word)?;
        Some(Role::Worker(work))
    }
}

/// What a specification's start stands for.
pub fn role_at(spec: &ChildSpec) -> Option<Role>
    ensures { result ≡ role_at spec.now }
{
    Role::of_word(spec.start.as_bytes())
}
