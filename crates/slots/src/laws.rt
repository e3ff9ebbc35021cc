//! What holds of every slab. A law is the clause of a function of its own, whose number says nothing.
ghost use Rattle.std.specs.Prelude.{[], ◌∷◌};
ghost use Rattle.slots.specs.Events.{Event.insert, Event.set, Event.remove};
ghost use Rattle.slots.specs.Laws.{Carries, SlabLaws};

use crate::slab::Slab;
use records::Id;

/// Whatever is asked of a slab, an id finds its entry from its insertion to its removal, and nothing ever after.
pub fn ids_resolve_until_removal<T: Copy>() -> u8
    ensures { SlabLaws T }
{
    0
}

// The record that the laws speak of is what the contracts give: here with one call of each kind.
pub(crate) fn calls_make_a_record<T: Copy>(
    entries: &mut Slab<T>,
    id: Id,
    x: T,
) -> (Option<Id>, bool, Option<T>)
    ensures { Carries entries.old entries.new (remove id result.2 ∷ (set id x result.1 ∷ (insert x result.0 ∷ []))) }
{
    let given = entries.insert(x);
    let live = entries.set(id, x);
    let taken = entries.remove(id);
    (given, live, taken)
}
