// Whole runs of calls on a hub. Nothing runs here: each function pins one claim of specs/, so that it can't be dropped or weakened.
#![tactic(auto)]

ghost use Rattle.hub.specs.Step.{step};
ghost use Rattle.runs.specs.Machine.{rules};
ghost use Rattle.runs.specs.Refusals.{Refusals};
ghost use Rattle.runs.specs.RefusalMistakes.{RefusalMistakesShutOut};
ghost use Rattle.runs.specs.Demand2.{Reached};
ghost use Rattle.runs.specs.EmptyPrograms.{EmptyProgramsShutOut};
ghost use Rattle.runs.specs.Demand3.{Demand3};
ghost use Rattle.runs.specs.Order.{LaunchOrder};
ghost use Rattle.runs.specs.OrderMistakes.{OrderMistakesShutOut};
ghost use Rattle.runs.specs.ErrorReports.{ErrorReports};
ghost use Rattle.runs.specs.ReportMistakes.{ReportMistakesShutOut};
ghost use Rattle.runs.specs.Mistakes.{MistakesShutOut};
ghost use Rattle.runs.specs.HidingMistakes.{HidingMistakesShutOut};
ghost use Rattle.runs.specs.Tally.{active_buffers, TallyHolds};
ghost use Rattle.runs.specs.Share.{LaneShare};
ghost use Rattle.runs.specs.LaneMistakes.{LaneMistakesShutOut};
ghost use Rattle.runs.specs.TallyMistakes.{TallyMistakesShutOut};

// Which calls are refused, with which number.
fn refusals()
    ensures { Refusals step }
{}

// Rules with one mistake in what they refuse break it.
fn refusal_mistakes_shut_out()
    ensures { RefusalMistakesShutOut }
{}

fn reached()
    ensures { Reached }
{}

// The four empty programs break demand 2, and so do answers with zeros for bytes or 0 for one of their numbers.
fn empty_programs_shut_out()
    ensures { EmptyProgramsShutOut }
{}

fn demand_3()
    ensures { Demand3 rules }
{}

fn launch_order()
    ensures { LaunchOrder rules }
{}

// Rules with one mistake in what a launch answers break it.
fn order_mistakes_shut_out()
    ensures { OrderMistakesShutOut }
{}

// The host sees C_PORT_ENABLE exactly where a port error stands reported.
fn error_reports()
    ensures { ErrorReports rules }
{}

// Rules with one mistake in what sets it break that.
fn report_mistakes_shut_out()
    ensures { ReportMistakesShutOut }
{}

// Rules with one mistake in the translator break demand 3 or the order.
fn mistakes_shut_out()
    ensures { MistakesShutOut }
{}

// Rules with one mistake break the part of demand 3 that is to shut it out.
fn hiding_mistakes_shut_out()
    ensures { HidingMistakesShutOut }
{}

// Start-splits stored are those answered, those emptied before that, and those pending or ready now.
fn tally_holds()
    ensures { TallyHolds rules active_buffers }
{}

// Rules with one mistake break it.
fn tally_mistakes_shut_out()
    ensures { TallyMistakesShutOut }
{}

// A lane holds at most B minus 1 buffers, and one that holds none is never answered 3.
fn lane_share()
    ensures { LaneShare rules }
{}

// Rules with one mistake about lanes break the claims.
fn lane_mistakes_shut_out()
    ensures { LaneMistakesShutOut }
{}
