// The interval machine that a controller is held to, and the laws of its histories. The crate has definitions and theorems;
// its functions have no result, their promises are the theorems.
#![tactic(auto)]

ghost use Rattle.machine.specs.Claims.{MachineIsLawful, GoesOn, IntervalsGo};
ghost use Rattle.machine.specs.Lists.{ListsBounded};
ghost use Rattle.machine.specs.Example.{WorkedRun};

// Whatever is called, the machine's own history is lawful, and one more of its answers keeps a history lawful.
// The calls of an interval, each in its turn, are accepted.
pub fn laws_stand()
    ensures lawful { MachineIsLawful }
    ensures on { GoesOn }
    ensures turns { IntervalsGo }
{}

// The laws are laws of every list: its trails are never empty, and never longer than its figures.
pub fn lists_stand()
    ensures { ListsBounded }
{}

// The worked run comes out as stated.
pub fn worked_run_stands()
    ensures { WorkedRun }
{}
