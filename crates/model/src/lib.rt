// The machine on lists of numbers: that it answers as defined and misses nothing. What is proved of it are the contracts of these functions.

#![tactic(auto)]

ghost use Rattle.program.specs.Command.{everything};
ghost use Rattle.model.specs.Promise.{Whole};
ghost use Rattle.model.specs.Entry.{own};
ghost use Rattle.model.specs.Session.{StartStands, CommandAnswered, TextRefused, FaultShown, EndShown};

// The machine keeps its memory small, answers whatever it is told as defined, and nothing is missed.
pub fn whole() -> u8
    ensures { Whole everything own }
{
    0
}

// The memory at the start stands for the program that does nothing.
pub fn start_stands() -> u8
    ensures { StartStands }
{
    0
}

// A valid command is answered as defined, in any memory that stands for a program.
pub fn command_answered() -> u8
    ensures { CommandAnswered }
{
    0
}

// A text that encodes no valid command is refused with 1.
pub fn text_refused() -> u8
    ensures { TextRefused }
{
    0
}

// A fault that some run has is among the rows of the alarms.
pub fn fault_shown() -> u8
    ensures { FaultShown }
{
    0
}

// What a variable ends with in some run lies between the two numbers of its row.
pub fn end_shown() -> u8
    ensures { EndShown }
{
    0
}
