// Laws of runs with a budget.
ghost use Rattle.rewriting.specs.Runs.{OutermostChoosesAnOuterSite};
ghost use Rattle.rewriting.specs.Runs.{RunIsItsTurns};
ghost use Rattle.rewriting.specs.Runs.{RunStopsRightly};
ghost use Rattle.rewriting.specs.Runs.{RunIsReached};
ghost use Rattle.rewriting.specs.Runs.{RunsAddUp};

// Outermost answers a place of every list, and of a tree's sites one that is outer.
pub fn outermost_chooses_an_outer_site()
    ensures { OutermostChoosesAnOuterSite }
{}

// The computed run is the only outcome that the rules for its turns allow.
pub fn run_is_its_turns()
    ensures { RunIsItsTurns }
{}

// Stop word and count fit the budget and the last tree; it is `normal` exactly if that tree has no site.
pub fn run_stops_rightly()
    ensures { RunStopsRightly }
{}

// A run's last tree is reached from its first.
pub fn run_is_reached()
    ensures { RunIsReached }
{}

// A run in two parts counts and leaves what the whole does, and stops alike if the second part has a budget.
pub fn runs_add_up()
    ensures { RunsAddUp }
{}
