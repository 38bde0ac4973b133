// The rules of a site: what its records, calls, runs and answers are, and what holds of them.
#![tactic(auto)]

ghost use Rattle.rules.specs.Claim.{StaysConsistent};
ghost use Rattle.rules.specs.Carry.{Carries};

pub mod answer;
pub mod step;

// Whatever is done to a new fit site, over any kind of cell: reads give the last write, the disk lags only
// at unsent cells, equal sites answer alike, and the site's parts fit together. Code that does what the rules
// say carries that from call to call.
pub fn consistent<V>()
    ensures stays { StaysConsistent V }
    ensures carries { Carries V }
{}
