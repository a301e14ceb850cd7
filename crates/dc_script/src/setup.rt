//! A script's head, put together line by line.
ghost use Rattle.std.specs.Prelude.{◌≡◌, ◌≤◌, length, IfOk};
ghost use Rattle.dc_model.specs.Rules.{add_permit, add_zone};
ghost use Rattle.dc_script.specs.Head as spec;
ghost use Rattle.dc_script.specs.Heads.{heading_in, stage_of, head_in, Steps};

use crate::heading::{Heading, read_heading};
use dc_name::Name;
use dc_rules::{Config, Permit, Rule, Zones};
use std::alloc::{AllocError, Global};

/// The lines that may come next.
#[derive(Clone, Copy, PartialEq, Eq)]
pub(crate) enum Stage {
    /// The version.
    Version,
    /// The size of the cache.
    Size,
    /// Whether all questions are forwarded.
    Forward,
    /// Permissions, and then the root's zone.
    Allows,
    /// Other zones, and then the seed.
    Zones,
    /// The end of the head.
    Begin,
}

/// What a line made of a head.
#[derive(Clone, Copy, PartialEq, Eq)]
pub(crate) enum Step {
    /// The line doesn't belong there.
    Refused,
    /// Other lines may come.
    Going,
    /// The head is whole.
    Begun,
}

/// What was read of a head.
#[derive(Drop)]
pub(crate) struct Setup {
    pub(crate) stage: Stage,
    pub(crate) version: u64,
    pub(crate) config: Config,
    pub(crate) seed: [u8; 32],
}

impl Setup {
    /// Nothing. It takes all memory that a head needs.
    pub(crate) fn new(alloc: Global) -> Result<Setup, AllocError>
        ensures stage { IfOk result (λ setup. stage_of setup.stage ≡ spec.at_version) }
        ensures head { IfOk result (λ setup. head_in setup ≡ spec.no_head) }
    {
        let config = Config {
            size: 0,
            forward: false,
            ip: [0; 4],
            ipsend: [0; 4],
            zones: Zones::new(alloc)?,
            permit: Permit::new(alloc)?,
        };
        Ok(Setup {
            stage: Stage::Version,
            version: 0,
            config,
            seed: [0; 32],
        })
    }

    /// The version's line.
    #[tactic(auto, unfolding(crate::specs::Head::step_by))]
    fn at_version(&mut self, line: Heading<'_>) -> Step
        ensures { Steps result self.new (spec.step_by spec.at_version (head_in self.old) (heading_in line.entry)) }
    {
        let Heading::Version(version) = line else {
            return Step::Refused;
        };
        let rule = if version < 2 { Rule::One } else { Rule::Two };
        self.config.zones.set_rule(rule);
        self.version = version;
        self.stage = Stage::Size;
        Step::Going
    }

    /// The line of the cache's size.
    #[tactic(auto, unfolding(crate::specs::Head::step_by))]
    fn at_size(&mut self, line: Heading<'_>) -> Step
        ensures { Steps result self.new (spec.step_by spec.at_size (head_in self.old) (heading_in line.entry)) }
    {
        let Heading::Size(size) = line else {
            return Step::Refused;
        };
        self.config.size = size;
        self.stage = Stage::Forward;
        Step::Going
    }

    /// The line that says whether all questions are forwarded.
    #[tactic(auto, unfolding(crate::specs::Head::step_by))]
    fn at_forward(&mut self, line: Heading<'_>) -> Step
        ensures { Steps result self.new (spec.step_by spec.at_forward (head_in self.old) (heading_in line.entry)) }
    {
        let Heading::Forward(forward) = line else {
            return Step::Refused;
        };
        self.config.forward = forward;
        self.stage = Stage::Allows;
        Step::Going
    }

    /// The line of a permission, or of the root's zone.
    #[tactic(auto, unfolding(crate::specs::Head::step_by))]
    fn at_allows(&mut self, line: Heading<'_>) -> Step
        ensures { Steps result self.new (spec.step_by spec.at_allows (head_in self.old) (heading_in line.entry)) }
    {
        match line {
            Heading::Allow(text) => self.add_permit(text),
            Heading::Root(places) => self.add_zone(Name::root(), places),
            _ => Step::Refused,
        }
    }

    /// The line of another zone, or of the seed.
    #[tactic(auto, unfolding(crate::specs::Head::step_by))]
    fn at_zones(&mut self, line: Heading<'_>) -> Step
        ensures { Steps result self.new (spec.step_by spec.at_zones (head_in self.old) (heading_in line.entry)) }
    {
        match line {
            Heading::Zone(name, places) => self.add_zone(name, places),
            Heading::Seed(seed) => {
                self.seed = seed;
                self.stage = Stage::Begin;
                Step::Going
            }
            _ => Step::Refused,
        }
    }

    /// The line of the head's end.
    #[tactic(auto, unfolding(crate::specs::Head::step_by))]
    fn at_begin(&mut self, line: Heading<'_>) -> Step
        ensures { Steps result self.new (spec.step_by spec.at_begin (head_in self.old) (heading_in line.entry)) }
    {
        match line {
            Heading::Begin => Step::Begun,
            _ => Step::Refused,
        }
    }

    /// Adds a permission.
    fn add_permit(&mut self, text: &[u8]) -> Step
        ensures { Steps result self.new (spec.with_permit (head_in self.old) (add_permit text.now self.old.config.permit)) }
    {
        if self.config.permit.add(text).is_err() {
            return Step::Refused;
        }
        self.stage = Stage::Allows;
        Step::Going
    }

    /// Adds a zone.
    fn add_zone(&mut self, name: Name, places: [[u8; 4]; 16]) -> Step
        ensures { Steps result self.new (spec.with_zone (head_in self.old) (add_zone name places self.old.config.zones)) }
    {
        if self.config.zones.add(&name, &places).is_err() {
            return Step::Refused;
        }
        self.stage = Stage::Zones;
        Step::Going
    }

    /// What a line of these says.
    fn take(&mut self, line: Heading<'_>) -> Step
        ensures { Steps result self.new (spec.step_by (stage_of self.old.stage) (head_in self.old) (heading_in line.entry)) }
    {
        match self.stage {
            Stage::Version => self.at_version(line),
            Stage::Size => self.at_size(line),
            Stage::Forward => self.at_forward(line),
            Stage::Allows => self.at_allows(line),
            Stage::Zones => self.at_zones(line),
            Stage::Begin => self.at_begin(line),
        }
    }

    /// Reads the next line of the head.
    #[tactic(auto, unfolding(crate::specs::Head::head_step))]
    pub(crate) fn read(&mut self, line: &[u8]) -> Step
        requires { length line.now ≤ 131200 }
        ensures { Steps result self.new (spec.head_step (stage_of self.old.stage) (head_in self.old) line.now) }
    {
        match read_heading(line) {
            Some(said) => self.take(said),
            None => Step::Refused,
        }
    }
}
