// The worked cases of the rules, and three faults that the theorem finds.
#![tactic(auto)]

ghost use Rattle.std.specs.Prelude.{◌≡◌, length};
ghost use Rattle.cases.specs.Cases.{cases, Worked};
ghost use Rattle.cases.specs.Readings.{readings, ReadSo};
ghost use Rattle.cases.specs.Turned.{FaultsShown};

// Each case comes out as it is said to; answers how many there are.
#[tactic(auto, using(crate::proofs::Computed::worked))]
pub fn cases_stand() -> usize
    ensures count { result ≡ length cases }
    ensures stand { Worked }
{
    10
}

// So does each case that shows how a rule is read; answers how many there are.
#[tactic(auto, using(crate::proofs::Computed::read_so))]
pub fn readings_stand() -> usize
    ensures count { result ≡ length readings }
    ensures stand { ReadSo }
{
    14
}

// What is proved of the rules fails of each of three rules turned, after a list of calls that is given.
#[tactic(auto, using(crate::proofs::Broken::shown))]
pub fn faults_shown()
    ensures { FaultsShown }
{}
