//! The client of a tree that runs, which all its hands share under a lock.
ghost use Rattle.std.specs.Prelude.{◌≡◌};
ghost use Rattle.otp_hand.specs.Standings.{reach_of};

use otp_inbox::InboxNaming;
use otp_job::Body;
use otp_rules::Call;
use otp_signals::WordsNaming;
use otp_sup::PlanNaming;
use otp_tree::{System, TreeClient, Uncalled};
use std::alloc::Global;
use std::marker::{Brand, Model, PhantomData};
use std::sync::Wait;

/// A name for how far a client reaches: from which inbox it takes the root's notes, and its parts of the right to send.
///
/// What lies under a lock is known by its type alone. A client there carries this name in its type's fact, so that it is known when
/// it comes out again. A function that is generic in the name is called at [`Brand`]: that call picks it.
pub trait ReachNaming {
    ghost use Rattle.otp_hand.specs.Standings.{Reach};

    ghost reach: { Reach };
}

impl ReachNaming for Brand {
    ghost use Rattle.otp_live.specs.Reaches.{no_reach};

    ghost reach = { no_reach };
}

/// The client as it lies under the lock: whatever is done by it, it reaches as far as when it was put there.
#[derive(Drop)]
pub struct Locked<N: WordsNaming + InboxNaming, K: ReachNaming, J: Drop, S: Drop> {
    client: TreeClient<N, Body<J, S>>,
    of: PhantomData<K>,
}

impl<N: WordsNaming + InboxNaming, K: ReachNaming, J: Drop, S: Drop> Model for Locked<N, K, J, S> {
    ghost use Rattle.std.specs.Prelude.{◌≡◌};
    ghost use Rattle.otp_hand.specs.Hands.{TreeClientView};
    ghost use Rattle.otp_hand.specs.Standings.{reach_of};

    ghost Value = { TreeClientView };

    ghost view = { λ l. l.client };

    ghost invariant = { λ l. reach_of l.client ≡ K.reach };
}

impl<N: WordsNaming + InboxNaming, K: ReachNaming, J: Drop, S: Drop> Locked<N, K, J, S> {
    /// A client that is to lie under a lock.
    pub fn of(client: TreeClient<N, Body<J, S>>) -> Self
        requires { reach_of client ≡ K.reach }
    {
        Locked {
            client,
            of: PhantomData,
        }
    }

    /// The client, which reaches as far as it did.
    pub fn into_client(self) -> TreeClient<N, Body<J, S>>
        ensures { reach_of result ≡ K.reach }
    {
        let Locked { client, of: _ } = self;
        client
    }

    /// Asks the root to shut down ([`System::stop`]).
    pub fn stop(&mut self, system: &System<N, J, S>)
    where
        N: PlanNaming,
    {
        system.stop(&mut self.client);
    }

    /// Calls a supervisor ([`System::submit`]).
    pub fn submit<R: Wait>(
        &mut self,
        rt: &R,
        alloc: Global,
        system: &System<N, J, S>,
        table: usize,
        call: Call,
        body: Option<Body<J, S>>,
    ) -> Result<u64, Uncalled<Body<J, S>>>
    where
        N: PlanNaming,
    {
        system.submit(rt, alloc, &mut self.client, table, call, body)
    }
}
