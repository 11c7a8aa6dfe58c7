// The chart of crate `chart` is that of every port of the hub. No code that ships runs this.
#![tactic(auto)]

ghost use Rattle.chart.specs.Chart.{looked_up};
ghost use Rattle.hub.specs.Step.{step};
ghost use Rattle.hub_chart.specs.HubChart.{HubFollows, OnlyInputsMove};
ghost use Rattle.hub_chart.specs.Mistakes.{HubChartMistakesShutOut};

// The chart, by which every valid hub serves its ports.
pub fn hub_chart() -> [u32; 1104]
    ensures { HubFollows (looked_up result) }
{
    chart::chart()
}

// No other call moves a port; the function does nothing.
fn only_inputs_move()
    ensures { OnlyInputsMove step }
{}

// Engines and a rule with one mistake break the claims; the function does nothing.
fn hub_chart_mistakes_shut_out()
    ensures { HubChartMistakesShutOut }
{}
