//! Effects that wait to count.

ghost use Rattle.std.specs.Prelude.{◌≡◌, vec_capacity, MatchOption};
ghost use Rattle.events.specs.Effects.{without_pending, with_settled, is_pending_at};
ghost use Rattle.interleave.specs.Effects.{AreInSequence, HasNoneUnsettled, IsUnsettledAt};

use events::Effect;

/// Whether it is the effect of the call at the place, and waits to count.
fn waits(effect: Effect, place: usize) -> bool
    ensures { result ≡ is_pending_at place effect }
{
    effect.place == place && !effect.settled
}

/// Where the effect of the call at the place stands, if it waits to count. The search begins at the end, and goes
/// back no further than the call's beginning.
fn unsettled(effects: &[Effect], place: usize) -> Option<usize>
    requires { AreInSequence effects.now }
    ensures { MatchOption result (HasNoneUnsettled place effects.now) (λ i. IsUnsettledAt place effects.now i) }
{
    let mut after = effects.len();
    while after > 0 {
        after -= 1;
        let effect = effects[after];
        if effect.moment <= place {
            return None;
        }
        if waits(effect, place) {
            return Some(after);
        }
    }
    None
}

/// What the call at the place found counts no more, if it waits to.
pub(crate) fn forget(effects: &mut Vec<Effect>, place: usize)
    requires { AreInSequence effects.old.items }
    ensures effects { effects.new.items ≡ without_pending place effects.old.items }
    ensures capacity { vec_capacity effects.new ≡ vec_capacity effects.old }
{
    if let Some(i) = unsettled(effects, place) {
        effects.remove(i);
    }
}

/// What the call at the place found counts, where it stands.
pub(crate) fn settle(effects: &mut [Effect], place: usize)
    requires { AreInSequence effects.old }
    ensures { effects.new ≡ with_settled place effects.old }
{
    if let Some(i) = unsettled(effects, place) {
        effects[i].settled = true;
    }
}
