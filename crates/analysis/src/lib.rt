// The plain analyser. What is proved of it are the contracts of these functions.

#![tactic(auto)]

ghost use Rattle.analysis.specs.Statements.{EvalSound, TestSound, JoinSound, RoundsSuffice, MoreRoundsSame, LoopFreeSame, AnalyseSound, MissesNothing};
ghost use Rattle.analysis.specs.IntervalDomain.{AnalyseIsWalk};
ghost use Rattle.analysis.specs.OnePass.{OnePass};
ghost use Rattle.analysis.specs.Padding.{PaddingTells};
ghost use Rattle.analysis.specs.Worked.{Worked, WorkedRuns};

// An expression's value lies in its interval, and its fault is among those told.
pub fn eval_sound() -> u8
    ensures { EvalSound }
{
    0
}

// What is assumed of a test's outcome is so, and a test's fault is among those told.
pub fn test_sound() -> u8
    ensures { TestSound }
{
    0
}

// A test worked out once tells both outcomes and the faults.
pub fn one_pass() -> u8
    ensures { OnePass }
{
    0
}

// A join holds what either side holds, and what lies within holds no more.
pub fn join_sound() -> u8
    ensures { JoinSound }
{
    0
}

// After the round limit one more round of a loop brings nothing new.
pub fn rounds_suffice() -> u8
    ensures { RoundsSuffice }
{
    0
}

// A run that had rounds enough goes the same with more.
pub fn more_rounds_same() -> u8
    ensures { MoreRoundsSame }
{
    0
}

// Without loops no rounds are needed.
pub fn loop_free_same() -> u8
    ensures { LoopFreeSame }
{
    0
}

// The plain analyser is the analyser over any domain, at intervals.
pub fn analyse_is_walk() -> u8
    ensures { AnalyseIsWalk }
{
    0
}

// Every run of a valid statement is told by its analysis, from wherever it begins.
pub fn analyse_sound() -> u8
    ensures { AnalyseSound }
{
    0
}

// Nothing is missed in a valid program, whatever comes in and however long it runs.
pub fn nothing_missed() -> u8
    ensures { MissesNothing }
{
    0
}

// Variables and arrays that a program does not have change nothing.
pub fn padding_tells() -> u8
    ensures { PaddingTells }
{
    0
}

// Six programs: their alarms and what is known at their ends.
pub fn worked_programs() -> u8
    ensures { Worked }
{
    0
}

// Runs of these programs: to the end, to a fault that is one of the alarms, and on for ever.
pub fn worked_runs() -> u8
    ensures { WorkedRuns }
{
    0
}
