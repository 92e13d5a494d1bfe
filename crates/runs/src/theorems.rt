//! What is proved of runs: each function says one theorem, and has nothing to do.
ghost use Rattle.runs.specs.Theorems.{
  RunIsTheRulesRun,
  WholeIsTheRulesRun,
  RunLeavesItsActions,
  WaitHoldsAtCalls,
  WaitHoldsOfWhole,
  WaitHoldsAfterWhole,
};

/// A run that is not refused before its first record is the run of the rules: as many actions, the same total, the same last answer and
/// the same state. What it leaves is in shape.
pub fn run_is_the_rules_run()
    ensures { RunIsTheRulesRun }
{}

/// A whole sequence whose opening is accepted is the run of the rules from the fresh floor with its settings. What it leaves is in shape.
pub fn whole_is_the_rules_run()
    ensures { WholeIsTheRulesRun }
{}

/// A run leaves the state after the actions of the records that it counts, refused or not.
pub fn run_leaves_its_actions()
    ensures { RunLeavesItsActions }
{}

/// The wait holds after an opening and any calls, refused ones among them.
pub fn wait_holds_at_calls()
    ensures { WaitHoldsAtCalls }
{}

/// The wait holds of every whole sequence, for the actions that it counts.
pub fn wait_holds_of_whole()
    ensures { WaitHoldsOfWhole }
{}

/// The wait holds after a whole sequence and any calls on the floor that it leaves.
pub fn wait_holds_after_whole()
    ensures { WaitHoldsAfterWhole }
{}
