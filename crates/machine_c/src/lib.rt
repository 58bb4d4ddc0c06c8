// The static library that C calls: each function is the machine's own of that name, with its clauses.

#![tactic(auto)]

ghost use Rattle.std.specs.Prelude.{◌≡◌};
ghost use Rattle.model.specs.Memory.{memory_size};
ghost use Rattle.machine.specs.Export.{StepCoded};

// How many words the memory has.
#[unsafe(no_mangle)]
pub extern "C" fn yunthrewi_memory_len() -> u64
    ensures { result ≡ memory_size }
{
    machine::yunthrewi_memory_len()
}

// One step: 0 if the command has ended, 1000 and the length of the row in `out`, or the number of the refusal; 999 if the memory has
// another length, `kind` is neither 0 nor 1, or `out` has fewer than 16 bytes.
#[unsafe(no_mangle)]
pub extern "C" fn yunthrewi_step(memory: &mut [u64], kind: u64, text: &[u8], out: &mut [u8]) -> u64
    ensures { StepCoded memory.old kind text.now out.old result memory.new out.new }
{
    machine::yunthrewi_step(memory, kind, text, out)
}
