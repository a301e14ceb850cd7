//! What an operator sees of the program, as laws.
ghost use Rattle.std.specs.Prelude.{ℕ, List, Some};
ghost use Rattle.std.specs.declared.option.Option.{Option};
ghost use Rattle.dc_model.specs.Cache.{Cache};
ghost use Rattle.dc_config.specs.Environment.{Environment};
ghost use Rattle.dc_config.specs.Tree.{Tree};
ghost use Rattle.dc_core.specs.Running.{Running};
ghost use Rattle.dc_sock.specs.World.{Shown};
ghost use Rattle.dc_rules.specs.declared.config.Config.{Config};
ghost use Rattle.dc_serving.specs.Serving.{IsSession, IsConfigured, ServingFrom};
ghost use Rattle.dc_shards.specs.Serving.{SplitServing};
ghost use Rattle.dc_status.specs.declared.status.Status.{Status};
ghost use Rattle.dc_program.specs.Service.{IsService, IsServiceFrom, IsSplitService};

use dc_event::World;
use dc_sock::SocketWorld;
use dc_system::System;
use std::sync::Wait;

/// Where a session over sockets left a core, as the top call says of `serve`, the service was the machine's: for the configuration and the
/// seed there are events, each within its bounds, and calls of the system, such that each request and each datagram is the bytes and the
/// sender of one that was received, each reply is one datagram with exactly its bytes to its client, each query is one from the address that
/// is sent from and the chosen port to port 53 of its server, and each line of the log is printed whole and in order. It holds of every
/// system, whatever it answers.
pub fn services_are_the_machine<R: Wait, S: System>()
    ensures { (old new : Shown S) (env : Environment) (tree : Option Tree) (taken : List ℕ) (left : Option (List ℕ)) (limit : ℕ) (status : Status) (core : Running)
        → IsSession ⟦<SocketWorld<R, S> as World>⟧.history ⟦<SocketWorld<R, S> as World>⟧.used_up ⟦<SocketWorld<R, S> as World>⟧.broken old new (IsConfigured env tree) taken left limit status (Some core)
        → IsService S.called (IsConfigured env tree) taken status old new }
{}

/// The same of a service that keeps its cache, where the run begins with the cache of its image.
pub fn kept_services_are_the_machine<R: Wait, S: System>()
    ensures { (old new : Shown S) (c : Config) (first : Cache) (seed : List ℕ) (limit : ℕ) (status : Status) (core : Running)
        → ServingFrom ⟦<SocketWorld<R, S> as World>⟧.history ⟦<SocketWorld<R, S> as World>⟧.used_up ⟦<SocketWorld<R, S> as World>⟧.broken old new c first seed limit status core
        → IsServiceFrom S.called c first seed status old new }
{}

/// The same of a service over several cores, whose actions are those of the machine over several cores.
pub fn split_services_are_the_machine<R: Wait, S: System>()
    ensures { (old new : Shown S) (c : Config) (cores : ℕ) (seed : List ℕ) (limit : ℕ) (status : Status) (finals : List Running)
        → SplitServing ⟦<SocketWorld<R, S> as World>⟧.history ⟦<SocketWorld<R, S> as World>⟧.used_up ⟦<SocketWorld<R, S> as World>⟧.broken old new c cores seed limit status finals
        → IsSplitService S.called c cores seed status old new }
{}
