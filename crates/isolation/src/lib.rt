// C-21: one port cannot disturb another. Nothing runs here: each function pins one claim of specs/, so that it can't be dropped or weakened.
#![tactic(auto)]

ghost use Rattle.runs.specs.Machine.{rules};
ghost use Rattle.isolation.specs.Isolation.{PortIsolation};
ghost use Rattle.isolation.specs.Disturbances.{DisturbancesShutOut};
ghost use Rattle.isolation.specs.Cases.{IsolationCases};

fn port_isolation()
    ensures { PortIsolation rules (λ h. h) }
{}

// Rules in which one port disturbs another, the translator or an answer break it.
fn disturbances_shut_out()
    ensures { DisturbancesShutOut }
{}

// Which calls name a port, and polls that differ through it.
fn isolation_cases()
    ensures { IsolationCases }
{}
