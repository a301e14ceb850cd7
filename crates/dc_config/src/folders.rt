//! The folders that are read: `servers` and `ip`.
ghost use Rattle.std.specs.Prelude.{◌≡◌, ◌≢◌, [], ◌∷◌, ◌++◌, Some, IfOk, IfErr, codes, string_bytes};
ghost use Rattle.dc_model.specs.Name.{root};
ghost use Rattle.dc_model.specs.Rules.{servers};
ghost use Rattle.dc_event.specs.Causes.{Fares};
ghost use Rattle.dc_config.specs.Tree.{Tree};
ghost use Rattle.dc_config.specs.Answered.{Answers, Leaves, IsPassing};
ghost use Rattle.dc_config.specs.Asked.{well, path_of, paths_of, AskedZones};
ghost use Rattle.dc_config.specs.Folders as defined;
ghost use Rattle.dc_config.specs.declared.error.Variable.{Variable as Named};

use crate::{ConfigError, FileName, FileRead, Files, Listed};
use dc_name::Name;
use dc_rules::{Permit, Zones, read_servers};
use std::alloc::{AllocError, Global};

/// The names in the order of their bytes.
fn sorted(names: Vec<FileName>) -> Result<Vec<FileName>, AllocError>
    ensures { IfOk result (λ sorted. sorted.items ≡ defined.in_order names.items) }
{
    let mut names = names;
    names.sort()?;
    Ok(names)
}

/// The names of a folder's files in the order of their bytes. An absent folder has none.
fn names_in<F: Files>(
    alloc: Global,
    files: &mut F,
    folder: &str,
) -> Result<Vec<FileName>, ConfigError>
    ensures names { (t : Tree) → F.tree files.old ≡ Some t → IfOk result (λ names. names.items ≡ defined.listing (t.names folder.now)) }
    ensures passing { IfErr result IsPassing }
    ensures named { (v : Named) → result ≢ Err (ConfigError.BadVariable v) }
    ensures same { F.tree files.new ≡ F.tree files.old }
    ensures asked { IfOk result (λ _. F.asked files.old (folder.now ∷ []) files.new) }
    ensures fares { Fares F.asked F.refused F.faults (well result) files.old files.new }
{
    match files.list(alloc, folder) {
        Listed::Names(names) => Ok(sorted(names)?),
        Listed::Absent => Ok(Vec::new(alloc)),
        Listed::Failed => Err(ConfigError::FilesFault),
        Listed::NoMemory => Err(ConfigError::NoMemory),
    }
}

/// Whether a file counts: its name doesn't begin with a dot.
fn is_shown(file: &FileName) -> bool
    ensures { result ≡ defined.is_shown file.now }
{
    match file.text().as_bytes() {
        [first, ..] => *first != b'.',
        [] => true,
    }
}

/// The zone that a file's name is: `@` is the root.
fn zone_named(file: &FileName) -> Option<Name>
    ensures { result ≡ defined.zone_named file.now }
{
    if file.text() == "@" {
        return Some(Name::root());
    }
    Name::from_dotted(file.text().as_bytes()).ok()
}

/// The path of a file in `servers`.
fn zone_path(alloc: Global, file: &FileName) -> Result<String, AllocError>
    ensures { IfOk result (λ path. string_bytes path ≡ codes "servers/" ++ file.now) }
{
    let mut path = String::from_str(alloc, "servers/")?;
    path.push_str(file.text())?;
    Ok(path)
}

/// Adds the zone of a file in `servers`. A file that is absent is skipped.
fn add_zone_file<F: Files>(
    alloc: Global,
    files: &mut F,
    file: FileName,
    zones: &mut Zones,
) -> Result<(), ConfigError>
    ensures zones { (t : Tree) → F.tree files.old ≡ Some t → Leaves result zones.new (defined.with_zone_file t file zones.old) }
    ensures named { (v : Named) → result ≢ Err (ConfigError.BadVariable v) }
    ensures same { F.tree files.new ≡ F.tree files.old }
    ensures asked { IfOk result (λ _. F.asked files.old (path_of file) files.new) }
    ensures fares { Fares F.asked F.refused F.faults (well result) files.old files.new }
{
    if !is_shown(&file) {
        return Ok(());
    }
    let Some(name) = zone_named(&file) else {
        return Err(ConfigError::BadZone(file));
    };
    let path = zone_path(alloc, &file)?;
    match files.read(alloc, path.as_str()) {
        FileRead::Bytes(text) => match zones.add(&name, &read_servers(&text)) {
            Ok(()) => Ok(()),
            Err(_) => Err(ConfigError::BadZone(file)),
        },
        FileRead::Absent => Ok(()),
        FileRead::Failed => Err(ConfigError::FilesFault),
        FileRead::NoMemory => Err(ConfigError::NoMemory),
    }
}

/// Adds the zones of files in `servers`, one after another.
fn add_zone_files<F: Files>(
    alloc: Global,
    files: &mut F,
    names: Vec<FileName>,
    zones: &mut Zones,
) -> Result<(), ConfigError>
    ensures zones { (t : Tree) → F.tree files.old ≡ Some t → Leaves result zones.new (defined.with_zone_files t names.items zones.old) }
    ensures named { (v : Named) → result ≢ Err (ConfigError.BadVariable v) }
    ensures same { F.tree files.new ≡ F.tree files.old }
    ensures asked { IfOk result (λ _. F.asked files.old (paths_of names.items) files.new) }
    ensures fares { Fares F.asked F.refused F.faults (well result) files.old files.new }
{
    let mut rest = names.into_iter();
    while let Some(file) = rest.next() {
        add_zone_file(alloc, files, file, zones)?;
    }
    Ok(())
}

/// Whether a place isn't empty.
fn has_server(servers: &[[u8; 4]; 16]) -> bool
    ensures { result ≡ defined.has_server (Some servers.now) }
{
    for server in servers {
        if *server != [0; 4] {
            return true;
        }
    }
    false
}

/// Whether the root has a server.
fn has_root(zones: &Zones) -> bool
    ensures { result ≡ defined.has_server (servers zones.now root) }
{
    match zones.servers(&Name::root()) {
        None => false,
        Some(servers) => has_server(&servers),
    }
}

/// The zones that the folder `servers` gives.
pub(crate) fn zones_of<F: Files>(alloc: Global, files: &mut F) -> Result<Zones, ConfigError>
    ensures zones { (t : Tree) → F.tree files.old ≡ Some t → Answers result (defined.zones_of t) }
    ensures named { (v : Named) → result ≢ Err (ConfigError.BadVariable v) }
    ensures same { F.tree files.new ≡ F.tree files.old }
    ensures asked { IfOk result (λ _. AskedZones F.tree F.asked [] files.old files.new) }
    ensures fares { Fares F.asked F.refused F.faults (well result) files.old files.new }
{
    let names = names_in(alloc, files, "servers")?;
    let mut zones = Zones::new(alloc)?;
    add_zone_files(alloc, files, names, &mut zones)?;
    if !has_root(&zones) {
        return Err(ConfigError::NoRoot);
    }
    Ok(zones)
}

/// Adds the permission that the name of a file in `ip` is. A name with a first dot is skipped.
fn add_permit_file(file: FileName, permit: &mut Permit) -> Result<(), ConfigError>
    ensures permit { Leaves result permit.new (defined.with_permit_file file permit.old) }
    ensures named { (v : Named) → result ≢ Err (ConfigError.BadVariable v) }
    ensures failed { result ≢ Err ConfigError.FilesFault }
{
    if !is_shown(&file) {
        return Ok(());
    }
    match permit.add(file.text().as_bytes()) {
        Ok(()) => Ok(()),
        Err(_) => Err(ConfigError::BadPermit(file)),
    }
}

/// Adds the permissions of files in `ip`, one after another.
fn add_permit_files(names: Vec<FileName>, permit: &mut Permit) -> Result<(), ConfigError>
    ensures permit { Leaves result permit.new (defined.with_permit_files names.items permit.old) }
    ensures named { (v : Named) → result ≢ Err (ConfigError.BadVariable v) }
    ensures failed { result ≢ Err ConfigError.FilesFault }
{
    let mut rest = names.into_iter();
    while let Some(file) = rest.next() {
        add_permit_file(file, permit)?;
    }
    Ok(())
}

/// The permissions that the folder `ip` gives.
pub(crate) fn permit_of<F: Files>(alloc: Global, files: &mut F) -> Result<Permit, ConfigError>
    ensures permit { (t : Tree) → F.tree files.old ≡ Some t → Answers result (defined.permits_of t) }
    ensures named { (v : Named) → result ≢ Err (ConfigError.BadVariable v) }
    ensures same { F.tree files.new ≡ F.tree files.old }
    ensures asked { IfOk result (λ _. F.asked files.old (codes "ip" ∷ []) files.new) }
    ensures fares { Fares F.asked F.refused F.faults (well result) files.old files.new }
{
    let names = names_in(alloc, files, "ip")?;
    let mut permit = Permit::new(alloc)?;
    add_permit_files(names, &mut permit)?;
    Ok(permit)
}
