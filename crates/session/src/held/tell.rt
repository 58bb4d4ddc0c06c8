// What a session is told, and what it answers.
ghost use Rattle.std.specs.Prelude.{[], ◌∷◌, IfOk, OnErr};
ghost use Rattle.program.specs.Syntax.{Program};
ghost use Rattle.program.specs.Command.{empty_program};
ghost use Rattle.session.specs.Answers.{Answered, Kept, FaultsShown, EndsShown};
ghost use Rattle.session.specs.Sessions.{Holds, held_words};

use super::Session;
use crate::run::{Answer, run_command};
use program::{ALARMS, AT_END};
use std::alloc::{AllocError, Global};
use tables::WORDS;
use valid::load_command;

impl Session {
    // At first there is the program that does nothing.
    pub fn new(heap: Global) -> Result<Session, AllocError>
        ensures { IfOk result (λ s. Holds s empty_program) }
    {
        let memory = vec![in heap; 0; WORDS]?;
        Ok(Session { memory })
    }

    // The answer to a command, given as its bytes. Where memory runs out the program stays.
    pub fn tell(&mut self, heap: Global, text: &[u8]) -> Result<Answer, AllocError>
        ensures answers { IfOk result (λ a. (p : Program) → Holds self.old p → Answered text.now a.rows.items a.end (held_words self.new) p) }
        ensures faults { IfOk result (λ a. (p : Program) → Holds self.old p → FaultsShown text.now a.rows.items p) }
        ensures ends { IfOk result (λ a. (p : Program) → Holds self.old p → EndsShown text.now a.rows.items p) }
        ensures kept { OnErr result (Kept (held_words self.old) (held_words self.new)) }
    {
        run_command(self.memory.as_mut_slice(), heap, text)
    }

    // Where the program can go wrong: every fault of any run is there.
    pub fn alarms(&mut self, heap: Global) -> Result<Answer, AllocError>
        ensures answers { IfOk result (λ a. (p : Program) → Holds self.old p → Answered (2 ∷ []) a.rows.items a.end (held_words self.new) p) }
        ensures faults { IfOk result (λ a. (p : Program) → Holds self.old p → FaultsShown (2 ∷ []) a.rows.items p) }
        ensures kept { OnErr result (Kept (held_words self.old) (held_words self.new)) }
    {
        self.tell(heap, &[ALARMS])
    }

    // Where variable `x` lies when a run ends: every value that it can end with is within.
    pub fn at_end(&mut self, heap: Global, x: u8) -> Result<Answer, AllocError>
        ensures answers { IfOk result (λ a. (p : Program) → Holds self.old p → Answered (3 ∷ x ∷ []) a.rows.items a.end (held_words self.new) p) }
        ensures ends { IfOk result (λ a. (p : Program) → Holds self.old p → EndsShown (3 ∷ x ∷ []) a.rows.items p) }
        ensures kept { OnErr result (Kept (held_words self.old) (held_words self.new)) }
    {
        self.tell(heap, &[AT_END, x])
    }

    // The program from now on, given as its bytes.
    pub fn load(&mut self, heap: Global, program: &[u8]) -> Result<Answer, AllocError>
        ensures answers { IfOk result (λ a. (p : Program) → Holds self.old p → Answered (1 ∷ program.now) a.rows.items a.end (held_words self.new) p) }
        ensures kept { OnErr result (Kept (held_words self.old) (held_words self.new)) }
    {
        let text = load_command(heap, program)?;
        self.tell(heap, text.as_slice())
    }
}
