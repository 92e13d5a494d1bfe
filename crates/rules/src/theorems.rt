//! What is proved of the rules: each function says one theorem, and has nothing to do.
ghost use Rattle.rules.specs.Theorems.{LimitsAreThese, TwelveCasesHold, FreshIsInShape, ShapeIsKept, PartsMakeTheNote, NoteHasItsParts, FoundIsEarliest, NoneFoundWhereNoneWaits, OneSourceForEachNew, NewOnlyOnce, NewInNoLaterState, TotalIsTheSourcesAdded};

/// The numbers of the limits that the rules name.
pub fn limits_are_these()
    ensures { LimitsAreThese }
{}

/// The twelve cases, on both sides of each line that the rules draw.
pub fn twelve_cases_hold()
    ensures { TwelveCasesHold }
{}

/// The fresh floor of settings within the limits is in shape.
pub fn fresh_is_in_shape()
    ensures { FreshIsInShape }
{}

/// Every action keeps a floor in shape, a refused one too.
pub fn shape_is_kept()
    ensures { ShapeIsKept }
{}

/// Notes with equal parts are equal.
pub fn parts_make_the_note()
    ensures { PartsMakeTheNote }
{}

/// Equal notes have equal parts.
pub fn note_has_its_parts()
    ensures { NoteHasItsParts }
{}

/// The search gives the place of the earliest note that is looked for, of equal ones the first, and no other place.
pub fn found_is_earliest()
    ensures { FoundIsEarliest }
{}

/// The search gives none exactly where no waiting note is one that is looked for.
pub fn none_found_where_none_waits()
    ensures { NoneFoundWhereNoneWaits }
{}

/// All sets together grow by one source with each action that is new, and by none with any other, refused ones among them.
pub fn one_source_for_each_new()
    ensures { OneSourceForEachNew }
{}

/// Once a note was received, another from the same desk about the same entry is not new, whatever is done in between.
pub fn new_only_once()
    ensures { NewOnlyOnce }
{}

/// Nor is it new in any later state, whatever led there, in which no desk has forgotten anything.
pub fn new_in_no_later_state()
    ensures { NewInNoLaterState }
{}

/// A run's total is the number of sources by which all sets have grown.
pub fn total_is_the_sources_added()
    ensures { TotalIsTheSourcesAdded }
{}
