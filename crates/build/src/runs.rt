// Runs: units of one kind that join in the register's order, until there are enough.
ghost use Rattle.std.specs.Prelude.{◌≡◌, ◌+◌, ◌<◌, ◌≤◌, IfOk, Ok};
ghost use Rattle.model.specs.History.{Rewound, listed};
ghost use Rattle.build.specs.Runs.{Small, grow_step, grown, met_by, no_run, walked_run, with_unit};
ghost use Rattle.std.proofs.Common.{rules};

use super::kinds::{Kind, is_old};
use model::{BuildFault, Layer, PowerUnit};
use register::{Fold, Register, walk};

// More units than a walk takes.
const ALL: u16 = 4_001;

// A sample run has at least so many units, or all there are.
const SAMPLE: u16 = 5;

#[derive(Clone, Copy, Default)]
pub struct Tally {
    pub units: u16,
    // In MWh.
    pub generation: u64,
}

#[derive(Clone, Copy, Default)]
pub struct Run {
    pub all: Tally,
    // Those of them that are not old.
    pub young: Tally,
}

// Which units join, and how long: until there are at least so many, and five times their generation is no longer below `missing`.
#[derive(Clone, Copy)]
pub struct Quota {
    kind: Kind,
    least: u16,
    missing: u64,
}

// A run while it is walked.
#[derive(Clone, Copy)]
struct Growing {
    reference: u32,
    quota: Quota,
    run: Run,
}

impl Tally {
    fn grown(self, generation: u32) -> Tally
        requires { (self.units < 4000) × (self.generation ≤ 400000000000) }
        ensures { result ≡ grown generation self }
    {
        Tally {
            units: self.units + 1,
            generation: self.generation + u64::from(generation),
        }
    }
}

impl Run {
    fn with(self, generation: u32, old: bool) -> Run
        requires all_room { (self.all.units < 4000) × (self.all.generation ≤ 400000000000) }
        requires young_room { (self.young.units < 4000) × (self.young.generation ≤ 400000000000) }
        ensures { result ≡ with_unit old generation self }
    {
        let all = self.all.grown(generation);
        let young = if old {
            self.young
        } else {
            self.young.grown(generation)
        };
        Run { all, young }
    }
}

impl Quota {
    // Every unregistered home unit.
    pub(crate) fn all() -> Quota
        ensures { result ≡ record { kind = Kind.Unregistered; least = 4001; missing = 0 } }
    {
        Quota {
            kind: Kind::Unregistered,
            least: ALL,
            missing: 0,
        }
    }

    // The sample run, where the unregistered home units generate so much.
    pub(crate) fn sample(target: u64) -> Quota
        ensures { result ≡ record { kind = Kind.Unregistered; least = 5; missing = target } }
    {
        Quota {
            kind: Kind::Unregistered,
            least: SAMPLE,
            missing: target,
        }
    }

    // Units that join while something is missing.
    pub(crate) fn joining(kind: Kind, missing: u64) -> Quota
        ensures { result ≡ record { kind = kind; least = 0; missing = missing } }
    {
        Quota {
            kind,
            least: 0,
            missing,
        }
    }

    fn met_by(self, tally: Tally) -> bool
        requires { tally.generation ≤ 400000000000 }
        ensures { result ≡ met_by self tally.units tally.generation }
    {
        tally.units >= self.least && 5 * tally.generation >= self.missing
    }
}

impl Fold for Growing {
    ghost cleared = { λ j. record { reference = j.reference; quota = j.quota; run = no_run } };

    ghost step = { grow_step };

    ghost fits = { λ j n. Small j.run n };

    ghost begins = { Prim.search rules };

    ghost room = { Prim.search rules };

    fn clear(&mut self) {
        self.run = Run::default();
    }

    fn take(&mut self, unit: &PowerUnit) {
        if self.quota.kind.has(self.reference, unit) && !self.quota.met_by(self.run.all) {
            self.run = self.run.with(unit.generation, is_old(self.reference, unit));
        }
    }
}

// The first units that meet the quota, or all of its kind. It leaves the register restarted. What it shares with `walk_members` is
// `walk`; a generic function around that would take as many lines.
pub(crate) fn walk_run<R: Register>(
    register: &mut R,
    reference: u32,
    quota: Quota,
) -> Result<Run, BuildFault>
    ensures left { Rewound (R.Register.contents register.old) (R.Register.contents register.new) (R.Register.coming register.new) }
    ensures small { IfOk result (λ s. Small s 4000) }
    ensures answer { result ≡ walked_run reference quota (listed (R.Register.contents register.old)) }
{
    let mut growing = Growing {
        reference,
        quota,
        run: Run::default(),
    };
    let _ = walk(register, Layer::Build, &mut growing)?;
    Ok(growing.run)
}
