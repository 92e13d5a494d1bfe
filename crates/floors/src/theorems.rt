//! What is proved of a floor and its area, seen as a state of the rules: each function says one theorem, and has nothing to do.
ghost use Rattle.floors.specs.Theorems.{FloorIsItsState, StepIsNext, OpenedIsFresh, OpenedIsInShape, ShapeIsKept, RefusedChangesNothing};

/// A floor is the floor of the state that it holds.
pub fn floor_is_its_state()
    ensures { FloorIsItsState }
{}

/// What a step leaves holds the rules' next state.
pub fn step_is_next()
    ensures { StepIsNext }
{}

/// What an opening leaves holds the fresh state.
pub fn opened_is_fresh()
    ensures { OpenedIsFresh }
{}

/// What an opening leaves is in shape.
pub fn opened_is_in_shape()
    ensures { OpenedIsInShape }
{}

/// Every step keeps a floor in shape, a refused one too.
pub fn shape_is_kept()
    ensures { ShapeIsKept }
{}

/// What is refused of a floor and an area, whatever they hold, leaves both as they were.
pub fn refused_changes_nothing()
    ensures { RefusedChangesNothing }
{}
