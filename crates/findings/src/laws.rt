//! What each pattern shows.
// A law's clause begins with all that it speaks of, so some of them are longer than 120 columns.

ghost use Rattle.std.specs.Prelude.{◌↔◌, ◌⊎◌, List, Option};
ghost use Rattle.words.specs.declared.told.Outcome.{Outcome};
ghost use Rattle.events.specs.declared.event.Event.{Event};
ghost use Rattle.events.specs.declared.event.Entry.{Entry};
ghost use Rattle.findings.specs.Filling.{HasFewClients, IsRecorded, IsRecordedOfAny, SomeFillingIsExplained};
ghost use Rattle.findings.specs.Findings.{ExplainsFindings, HasNoOrder};
ghost use Rattle.findings.specs.FourPatterns.{HasOrder, HasPattern, IsOfQueue};
ghost use Rattle.findings.specs.Shows.{Shows};
ghost use Rattle.findings.specs.declared.witness.Witness.{Witness};

/// Where a witness shows its pattern, no order explains what is known.
pub fn patterns_refute()
    ensures { (events : List Event) (learnt : List (Option Outcome)) (witness : Witness)
        → Shows events learnt witness → HasNoOrder events learnt }
{}

/// Of a recorded history an order explains what is known exactly if some filling of the Readys is explained by it.
pub fn findings_are_fillings()
    ensures { (events : List Event) (learnt : List (Option Outcome)) (order : List Entry)
        → IsRecorded events learnt
        → (ExplainsFindings events learnt order ↔ SomeFillingIsExplained events learnt order) }
{}

/// A recording of a queue has an order, or one of the four patterns is in it.
pub fn recordings_have_an_order_or_a_pattern()
    ensures { (events : List Event) (learnt : List (Option Outcome))
        → IsOfQueue events learnt → HasOrder events learnt ⊎ HasPattern events learnt }
{}

/// So it has an order exactly if none of the four is in it.
pub fn recordings_have_an_order_without_patterns()
    ensures { (events : List Event) (learnt : List (Option Outcome))
        → IsOfQueue events learnt → (HasOrder events learnt ↔ (HasPattern events learnt → ⊥)) }
{}

/// What a witness shows is one of the four.
pub fn witnesses_show_patterns()
    ensures { (events : List Event) (learnt : List (Option Outcome)) (witness : Witness)
        → Shows events learnt witness → HasPattern events learnt }
{}

/// A recorded history of any clients is one that may arise, where its clients are those of one queue.
pub fn few_clients_are_recorded()
    ensures { (events : List Event) (learnt : List (Option Outcome))
        → IsRecordedOfAny events learnt → HasFewClients events → IsRecorded events learnt }
{}
