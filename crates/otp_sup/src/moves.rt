//! Where bodies go: at an event, and when an order is sent.
ghost use Rattle.std.specs.Prelude.{◌≡◌, ◌+◌, ◌++◌, ◌∷◌, ◌<◌, ◌≤◌, true, false, List, [], if◌then◌else◌, is_some, length, ℕ, IsTrue, IfSome, Some};
ghost use Rattle.std.specs.List.{list_any};
ghost use Rattle.otp_spec.specs.declared.limits.TheConstants.{MAX_READING};
ghost use Rattle.otp_core.specs.View.{state_of};
ghost use Rattle.otp_rules.specs.State.{State, is_over};
ghost use Rattle.otp_rules.specs.Waits.{starts_waiting};
ghost use Rattle.otp_table.specs.declared.row.Row.{Row};
ghost use Rattle.otp_bodies.specs.Bodies.{AreThere, CanComeBack, bodies_in, calls_waiting, came_for, count_away, count_home, place_of_call, taken_up};
ghost use Rattle.otp_bodies.specs.Loose.{is_with_call};
ghost use Rattle.otp_sup.specs.Moves.{IsPlan, NoneWaits, bodies_after, brings_body, given_among, let_go, moved};
ghost use Rattle.otp_bodies.specs.declared.bodies.Kept.{Kept};
ghost use Rattle.otp_bodies.specs.declared.bodies.Origin.TheVariants as origin;
ghost use Rattle.otp_bodies.specs.Letters.{one_if};
ghost use Rattle.otp_sup.specs.Facts.{HasBodies};
ghost use Rattle.otp_bodies.specs.Events.{IsOpening, Happened};
ghost use Rattle.otp_core.specs.Full.{is_full};

use crate::plans::{BodiesPlan, plan_of, slot_given};
use otp_bodies::Bodies;
use otp_bodies::office::Office;
use otp_laws::laws::{stop_keeps_children, up_keeps_children};
use otp_rules::{Item, Kind, laws, lives};
use otp_signals::{Words, WordsNaming};

/// One event, with the body that its item brought: each body is where the event puts it.
pub(crate) fn happen<N: WordsNaming, B: Drop>(
    office: &mut Office<N>,
    bodies: &mut Bodies<B>,
    words: &Words<N>,
    reading: u64,
    kind: Kind,
    body: Option<B>,
)
    requires prepared { IsTrue office.old.core.prepared }
    requires room { is_full office.old.core ≡ false }
    requires quota { 0 < office.old.owner.quota }
    requires reading { reading ≤ MAX_READING }
    requires outbox { office.old.outbox ≡ [] }
    requires space { 0 < bodies.old.room }
    requires carries { is_some body ≡ brings_body kind }
    requires over { IsOpening kind → is_over (state_of office.old.core).phase ≡ true }
    requires one_body { (slot : ℕ) → count_home slot bodies.old.kept + count_away slot bodies.old.kept ≤ 1 }
    requires there { AreThere (state_of office.old.core).rows bodies.old.kept }
    requires waits { NoneWaits (state_of office.old.core) bodies.old.kept }
    ensures happened { Happened reading kind office.old office.new }
    ensures bodies { bodies.new.kept ≡ bodies_after (state_of office.old.core) (state_of office.new.core) kind bodies.old.kept }
    ensures count { bodies_in bodies.new.kept ≡ bodies_in bodies.old.kept + one_if (brings_body kind) }
    ensures calls { calls_waiting bodies.old.kept ≡ starts_waiting (state_of office.old.core).waiting → calls_waiting bodies.new.kept ≡ starts_waiting (state_of office.new.core).waiting }
    ensures homes { calls_waiting bodies.old.kept ≡ starts_waiting (state_of office.old.core).waiting → HasBodies office.old bodies.old.kept → HasBodies office.new bodies.new.kept }
{
    laws::start_calls_wait();
    laws::runs_are_joined();
    laws::homes_are_kept();
    laws::processes_are_owned();
    laws::slots_are_owned();
    laws::orders_name_rows();
    laws::number_starts_work();
    laws::step_keeps_plan();
    lives::ends_tell_started();
    lives::processes_stay();
    lives::ended_has_no_rows();
    lives::processes_lived();
    up_keeps_children();
    stop_keeps_children();
    office.keeps_rules();
    let plan = plan_of(office, &kind);
    office.happen(words, reading, kind);
    let slot = slot_given(office, plan.free);
    move_bodies(bodies, &kind, &plan, slot, body);
    if !lets_none_go(bodies, office, &kind, plan.keeps_children) {
        let_go(bodies, office, &kind);
    }
}

/// The body that the event brought goes where it belongs, and so does that of a call that was taken up.
fn move_bodies<B: Drop>(
    bodies: &mut Bodies<B>,
    kind: &Kind,
    plan: &BodiesPlan,
    slot: Option<usize>,
    body: Option<B>,
)
    requires space { 0 < bodies.old.room }
    requires carries { is_some body ≡ brings_body kind.now }
    requires one_body { (slot : ℕ) → count_home slot bodies.old.kept + count_away slot bodies.old.kept ≤ 1 }
    ensures { (s : State) (rows : List Row) → IsPlan s kind.now plan.now → slot ≡ given_among plan.now.free rows → bodies.new.kept ≡ moved s rows kind.now bodies.old.kept }
{
    match kind {
        Kind::Took(Item::Note(_)) => {
            let Some(body) = body else {
                return;
            };
            // Most often it is at the place of its slot in the list; no other is looked at then.
            match plan.home {
                Some(slot) if bodies.is_away_at(slot, slot) => bodies.come_back(slot, slot, body),
                home => bodies.come(home, body),
            }
        }
        Kind::Took(Item::Call(call, _)) => bring(bodies, *call, plan.waits, slot, body),
        Kind::Resumed => take_up(bodies, plan.is_taken_up, slot),
        Kind::Opened(_) | Kind::Ticked | Kind::Stopped => {}
    }
}

/// A start call brought this body, another call none.
fn bring<B: Drop>(
    bodies: &mut Bodies<B>,
    call: u64,
    waits: bool,
    slot: Option<usize>,
    body: Option<B>,
)
    requires { 0 < bodies.old.room }
    ensures { bodies.new.kept ≡ (if is_some body then bodies.old.kept ++ record { origin = origin.Call call; place = place_of_call waits slot } ∷ [] else bodies.old.kept) }
{
    if let Some(body) = body {
        bodies.bring(call, waits, slot, body);
    }
}

/// The first call that waited, if it is one that brought a body, was taken up.
fn take_up<B: Drop>(bodies: &mut Bodies<B>, is_taken_up: bool, slot: Option<usize>)
    ensures { bodies.new.kept ≡ taken_up is_taken_up slot bodies.old.kept }
{
    if is_taken_up {
        bodies.take_up(slot);
    }
}

/// Whether no body is to be let go after the event, so that each stays where it is. Where no child can have gone, unless the
/// supervisor has ended, no body is looked at. At an opening all children are new: then it isn't so.
fn lets_none_go<N: WordsNaming, B: Drop>(
    bodies: &Bodies<B>,
    office: &Office<N>,
    kind: &Kind,
    keeps_children: bool,
) -> bool
    requires there { keeps_children ≡ true → is_over (state_of office.now.core).phase ≡ false → AreThere (state_of office.now.core).rows bodies.now.kept }
    requires calls { keeps_children ≡ true → list_any is_with_call bodies.now.kept ≡ false }
    ensures { IsTrue result → let_go (state_of office.now.core) kind.now bodies.now.kept ≡ bodies.now.kept }
{
    let rows = office.rows();
    let is_any_waiting = office.core().has_waiting();
    if let Kind::Opened(_) = kind {
        false
    } else if keeps_children && !office.has_ended() {
        bodies.are_settled(rows, is_any_waiting);
        true
    } else {
        bodies.is_settled(rows, is_any_waiting)
    }
}

/// Bodies of children that are gone are whose they were before; at an opening all children are new.
fn let_go<N: WordsNaming, B: Drop>(bodies: &mut Bodies<B>, office: &Office<N>, kind: &Kind)
    ensures { bodies.new.kept ≡ let_go (state_of office.now.core) kind.now bodies.old.kept }
{
    let rows = office.rows();
    let is_any_waiting = office.core().has_waiting();
    if let Kind::Opened(_) = kind {
        bodies.settle(&[], is_any_waiting);
        bodies.open(rows);
    } else {
        bodies.settle(rows, is_any_waiting);
    }
}

/// A body that left, and that the port didn't take, goes back to where it was.
pub(crate) fn take_back<B: Drop>(
    bodies: &mut Bodies<B>,
    slot: Option<usize>,
    at: Option<usize>,
    body: B,
)
    requires { IfSome at (λ i. i < length bodies.old.kept) }
    ensures { (older : List Kept) → CanComeBack slot at bodies.old.kept older → bodies.new.kept ≡ older }
{
    if let (Some(slot), Some(at)) = (slot, at) {
        bodies.come_back(at, slot, body);
    }
}
