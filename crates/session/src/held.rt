// The session: the machine's memory, which stands for a program.
ghost use Rattle.program.specs.Syntax.{Program};
ghost use Rattle.model.specs.Session.{StandsFor};

mod tell;

#[derive(Drop)]
pub struct Session {
    memory: Vec<u64>,
    ghost stands: { ∥ ((p : Program) × StandsFor memory.items p) ∥₁ },
}
