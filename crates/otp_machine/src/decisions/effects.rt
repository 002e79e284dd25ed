//! Orders without the replies (`specs/Effects` of the rules).

ghost use Rattle.std.specs.Prelude.{[], ◌≡◌, ◌+◌, ◌≤◌, ◌++◌, length, not, count_by, vec_len, vec_capacity};
ghost use Rattle.std.specs.List.{filter};
ghost use Rattle.otp_rules.specs.Effects.{is_reply};

use otp_rules::Effect;

fn is_reply(effect: &Effect) -> bool
    ensures { result ≡ is_reply effect.now }
{
    matches!(effect, Effect::Reply(_))
}

fn count_no_replies(effects: &[Effect]) -> usize
    ensures { result ≡ count_by (λ effect. not (is_reply effect)) effects.now }
{
    effects.iter().filter(|effect| !is_reply(effect)).count()
}

/// How many orders there are beside replies.
pub fn count_orders(effects: &[Effect]) -> usize
    ensures { result ≡ length (filter (λ effect. not (is_reply effect)) effects.now) }
{
    count_no_replies(effects)
}

/// Moves the orders but for replies into a list that has room.
pub fn move_orders(orders: &mut Vec<Effect>, list: &mut Vec<Effect>)
    requires { vec_len list.old + length (filter (λ effect. not (is_reply effect)) orders.old.items) ≤ vec_capacity list.old }
    ensures list { list.new.items ≡ list.old.items ++ filter (λ effect. not (is_reply effect)) orders.old.items }
    ensures orders { orders.new.items ≡ [] }
    ensures len { vec_len orders.new ≤ vec_len orders.old }
    ensures capacity { vec_capacity orders.new ≡ vec_capacity orders.old }
{
    for effect in orders.drain(..) {
        if !is_reply(&effect) {
            list.push_reserved(effect);
        }
    }
}
