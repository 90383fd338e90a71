//! Lists that grow.

ghost use Rattle.std.specs.Prelude.{◌≡◌, ◌++◌, ◌∷◌, [], OnOk, IfErr};

use words::Refusal;

/// Adds an item. It is refused for want of memory (NoMemory).
pub fn push<T: Drop>(items: &mut Vec<T>, item: T) -> Result<(), Refusal>
    ensures items { OnOk result (items.new.items ≡ items.old.items ++ item ∷ []) }
    ensures errors { IfErr result (λ e. e ≡ Refusal.NoMemory) }
{
    items.push(item).map_err(|_| Refusal::NoMemory)
}
