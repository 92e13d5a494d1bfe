//! What is proved of holds: each function says one theorem, and has nothing to do.
ghost use Rattle.holds.specs.Theorems.{
  HoldIsPromised,
  NotedClockStays,
  PrintedOnce,
  RefusedChangesNothing,
  ShapeIsKept,
  WholeIsPromised,
  WholeIsTheLibrarys,
};

/// The floor is the rules', what is noted is what their run says, and a print that is carried out finds the entry on the list of every
/// good desk.
pub fn hold_is_promised()
    ensures { HoldIsPromised }
{}

/// Neither a crash nor a repeated announcement nor anything else moves a noted clock.
pub fn noted_clock_stays()
    ensures { NotedClockStays }
{}

pub fn printed_once()
    ensures { PrintedOnce }
{}

/// A refused action leaves the floor, the notes and what is noted as they were.
pub fn refused_changes_nothing()
    ensures { RefusedChangesNothing }
{}

/// Every action and every print keeps a hold in shape, a refused one too.
pub fn shape_is_kept()
    ensures { ShapeIsKept }
{}

/// The hold that a whole sequence leaves has the promise of one that was kept step by step.
pub fn whole_is_promised()
    ensures { WholeIsPromised }
{}

/// A whole sequence goes on a hold as it goes on a floor alone.
pub fn whole_is_the_librarys()
    ensures { WholeIsTheLibrarys }
{}
