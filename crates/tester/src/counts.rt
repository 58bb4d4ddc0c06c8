// What has been seen in all runs.
use runner::Outcome;
use std::fmt;

#[derive(Clone, Copy, Default)]
pub struct Counts {
    pub programs: u64,
    pub discarded: u64,
    pub runs: u64,
    pub faults: u64,
    pub ends: u64,
    pub out_of_rounds: u64,
    pub alarms: u64,
    pub met: u64,
    pub missing: u64,
}

impl Counts {
    pub fn discard(&mut self) {
        self.discarded = self.discarded.saturating_add(1);
    }

    // A program, of whose alarms some were met.
    pub fn program(&mut self, alarms: u64, met: u64) {
        self.programs = self.programs.saturating_add(1);
        self.alarms = self.alarms.saturating_add(alarms);
        self.met = self.met.saturating_add(met);
    }

    pub fn run(&mut self, outcome: &Outcome) {
        self.runs = self.runs.saturating_add(1);
        match outcome {
            Outcome::Fault { .. } => self.faults = self.faults.saturating_add(1),
            Outcome::Finished(_) => self.ends = self.ends.saturating_add(1),
            Outcome::OutOfRounds => self.out_of_rounds = self.out_of_rounds.saturating_add(1),
        }
    }

    pub fn miss(&mut self) {
        self.missing = self.missing.saturating_add(1);
    }
}

impl fmt::Display for Counts {
    fn fmt<W: fmt::Write>(&self, f: &mut fmt::Formatter<W>) -> fmt::Result {
        let c = *self;
        writeln!(f, "{} programs, {} discarded", c.programs, c.discarded)?;
        writeln!(
            f,
            "{} runs: {} faults, {} ends, {} out of rounds",
            c.runs, c.faults, c.ends, c.out_of_rounds
        )?;
        writeln!(
            f,
            "{} alarms, {} never met",
            c.alarms,
            c.alarms.saturating_sub(c.met)
        )?;
        write!(f, "{} missing", c.missing)
    }
}
