//! Laws on kept caches.
ghost use Rattle.std.specs.Prelude.{◌≡◌, ◌≤◌, ℕ, true, List, length, Ok, None, Some};
ghost use Rattle.std.specs.declared.option.Option.{Option};
ghost use Rattle.std.specs.Io.KnownBytes.{IsAtEnd};
ghost use Rattle.dc_model.specs.Cache.{Cache};
ghost use Rattle.dc_model.specs.Event.{Event};
ghost use Rattle.dc_rules.specs.declared.config.Config.{Config};
ghost use Rattle.dc_config.specs.Environment.{Environment};
ghost use Rattle.dc_config.specs.Tree.{Tree};
ghost use Rattle.dc_config.specs.Conf.{conf_of};
ghost use Rattle.dc_config.specs.Modes.{bad_kept};
ghost use Rattle.dc_image.specs.Image.{IsImage, at_rest};
ghost use Rattle.dc_serving.specs.Serving.{IsConfigured, IsFault, machine_from};
ghost use Rattle.dc_status.specs.Faults.{fault_of, files_well, source_well, world_well};
ghost use Rattle.dc_status.specs.declared.status.Status.{Status};
ghost use Rattle.dc_keep.specs.Complete.{IsGood};
ghost use Rattle.dc_keep.specs.First.{IsFirst};
ghost use Rattle.dc_keep.specs.Keeping.{FitsKept, Unserved, size_of};

use dc_event::World;

/// The last cache of a run has the size of the first, and the first has the configured size. So the image of the last cache is one of that size.
pub fn runs_keep_the_size()
    ensures first { (size : ℕ) (bytes : List ℕ) (left : Option (List ℕ)) (first : Cache) → IsFirst size bytes left first → first.size ≡ size }
    ensures last { (c : Config) (first : Cache) (seed : List ℕ) (events : List Event) → (machine_from c first seed events).cache.size ≡ first.size }
{}

/// A service that begins with the image that another one saved begins with the last cache of that.
pub fn saved_caches_come_back()
    ensures { (size : ℕ) (image : List ℕ) (last : Cache) (left : Option (List ℕ)) (first : Cache) → IsImage size image last → IsFirst size image left first
        → first ≡ at_rest last }
{}

/// Where no variable is bad, the configuration is defined, the source has a whole seed, and what there is for an image is nothing or one of the
/// configured size, nothing but a fault or want of memory keeps events from being served.
pub fn only_faults_prevent_keeping<W: World>()
    ensures { (old new : W) (env : Environment) (t : Tree) (c : Config) (taken : List ℕ) (left : Option (List ℕ)) (image : List ℕ) (image_left : Option (List ℕ)) (status : Status)
        → conf_of env t ≡ Ok c → (IsAtEnd left → 32 ≤ length taken) → IsGood (size_of c) image image_left
        → FitsKept status (conf_of env t) → Unserved W.history old new (IsConfigured env (Some t)) taken left image image_left status → IsFault status }
{}

/// So where no call failed either, nothing but want of memory does.
pub fn only_memory_prevents_keeping<W: World>()
    ensures { (old new : W) (env : Environment) (t : Tree) (c : Config) (taken : List ℕ) (left : Option (List ℕ)) (image : List ℕ) (image_left : Option (List ℕ)) (status : Status)
        → conf_of env t ≡ Ok c → (IsAtEnd left → 32 ≤ length taken) → IsGood (size_of c) image image_left
        → FitsKept status (conf_of env t) → Unserved W.history old new (IsConfigured env (Some t)) taken left image image_left status
        → files_well (fault_of status) ≡ true → source_well (fault_of status) ≡ true → world_well (fault_of status) ≡ true → status ≡ Status.NoMemory }
{}
