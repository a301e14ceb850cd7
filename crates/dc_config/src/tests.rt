//! Configurations of environments and files.
ghost use Rattle.std.specs.Prelude.{◌≡◌, length, IfOk};

use crate::{
    ConfigError, Env, FileName, FileRead, Files, HostFiles, Listed, MemoryFiles, NoMemory,
    QuietFiles, Variable, cores_in, events_in, first_bad, first_bad_kept, first_bad_recorded,
    first_bad_split, is_set, load,
};
use dc_name::Name;
use dc_rules::Config;
use std::alloc::Global;
use std::os::unix::fs::symlink;
use std::test::Fail;
use std::{env, fs, io, process};

/// An environment of three variables.
fn env_of(alloc: Global, settings: [(&str, &str); 3]) -> Result<Env, NoMemory>
    ensures { IfOk result (λ env. length env ≡ 3) }
{
    let [(a, x), (b, y), (c, z)] = settings;
    let mut env = Env::new(alloc)?;
    env.set(String::from_str(alloc, a)?, String::from_str(alloc, x)?);
    env.set(String::from_str(alloc, b)?, String::from_str(alloc, y)?);
    env.set(String::from_str(alloc, c)?, String::from_str(alloc, z)?);
    Ok(env)
}

/// A path with the bytes of its file.
fn file_of(alloc: Global, file: (&str, &[u8])) -> Result<(String, Vec<u8>), NoMemory> {
    let (path, bytes) = file;
    Ok((
        String::from_str(alloc, path)?,
        Vec::from_slice(alloc, bytes)?,
    ))
}

/// Three files of these paths and bytes.
fn files_of(alloc: Global, files: [(&str, &[u8]); 3]) -> Result<Vec<(String, Vec<u8>)>, NoMemory> {
    let [first, second, third] = files;
    let mut kept = Vec::new(alloc);
    kept.push(file_of(alloc, first)?)?;
    kept.push(file_of(alloc, second)?)?;
    kept.push(file_of(alloc, third)?)?;
    Ok(kept)
}

/// A file that no folder lists.
const OTHER: (&str, &[u8]) = ("x/y", b"");

/// An answer, in words.
fn told(answer: &Result<Config, ConfigError>) -> (&str, &str) {
    match answer {
        Ok(_) => ("ok", ""),
        Err(ConfigError::BadVariable(variable)) => ("variable", variable.name()),
        Err(ConfigError::BadZone(file)) => ("zone", file.text()),
        Err(ConfigError::NoRoot) => ("root", ""),
        Err(ConfigError::BadPermit(file)) => ("permit", file.text()),
        Err(ConfigError::FilesFault) => ("files", ""),
        Err(ConfigError::NoMemory) => ("memory", ""),
    }
}

/// Variables that can be read.
const GOOD: [(&str, &str); 3] = [
    ("IP", "127.0.0.1"),
    ("IPSEND", "0.0.0.0"),
    ("CACHESIZE", "5"),
];

#[test]
fn variables_come_first(rt: HostRuntime) -> Result<(), Fail> {
    let rows = [
        ([("X", ""), ("IPSEND", "x"), ("CACHESIZE", "")], "IP"),
        ([("IP", "1.2.3"), ("IPSEND", "x"), ("CACHESIZE", "")], "IP"),
        ([("IP", "1.2.3.4"), ("X", ""), ("CACHESIZE", "")], "IPSEND"),
        (
            [("IP", "1.2.3.4"), ("IPSEND", "1.2.3.256"), ("X", "")],
            "IPSEND",
        ),
        (
            [("IP", "1.2.3.4"), ("IPSEND", "0.0.0.0"), ("CACHESIZE", "")],
            "CACHESIZE",
        ),
        (
            [
                ("IP", "1.2.3.4"),
                ("IPSEND", "0.0.0.0"),
                ("CACHESIZE", "1a"),
            ],
            "CACHESIZE",
        ),
        (
            [
                ("IP", "1.2.3.4"),
                ("IPSEND", "0.0.0.0"),
                ("CACHESIZE", "1000000000000000000"),
            ],
            "CACHESIZE",
        ),
    ];
    for (settings, variable) in rows {
        let env = env_of(rt.alloc(), settings)?;
        assert!(rt; first_bad(&env).is_some());
        let mut files = QuietFiles::new(files_of(
            rt.alloc(),
            [("servers/a..b", b""), OTHER, OTHER],
        )?);
        assert!(rt; told(&load(rt.alloc(), &env, &mut files)) == ("variable", variable));
    }
    assert!(rt; first_bad(&env_of(rt.alloc(), GOOD)?).is_none());
    Ok(())
}

#[test]
fn files_come_in_order(rt: HostRuntime) -> Result<(), Fail> {
    let root: (&str, &[u8]) = ("servers/@", b"198.51.100.1\n");
    let rows: [([(&str, &[u8]); 3], (&str, &str)); 9] = [
        ([root, ("ip/127", b""), OTHER], ("ok", "")),
        ([root, ("ip/.x", b""), ("servers/.x..", b"")], ("ok", "")),
        (
            [("servers/com", b"198.51.100.1"), ("ip/x", b""), OTHER],
            ("root", ""),
        ),
        (
            [("servers/@", b"0.0.0.0"), ("ip/x", b""), OTHER],
            ("root", ""),
        ),
        ([("ip/127", b""), OTHER, OTHER], ("root", "")),
        (
            [("servers/a..b", b""), ("ip/x", b""), OTHER],
            ("zone", "a..b"),
        ),
        (
            [("servers/com", b""), ("servers/COM", b""), root],
            ("zone", "com"),
        ),
        ([root, ("ip/256", b""), ("ip/127", b"")], ("permit", "256")),
        ([root, ("ip/b", b""), ("ip/a", b"")], ("permit", "a")),
    ];
    let env = env_of(rt.alloc(), GOOD)?;
    for (files, wanted) in rows {
        let mut files = QuietFiles::new(files_of(rt.alloc(), files)?);
        assert!(rt; told(&load(rt.alloc(), &env, &mut files)) == wanted);
    }
    Ok(())
}

#[test]
fn a_configuration_is_read(rt: HostRuntime) -> Result<(), Fail> {
    let mut env = env_of(rt.alloc(), GOOD)?;
    let kept = files_of(
        rt.alloc(),
        [
            ("ip/127", b""),
            ("servers/@", b"198.51.100.1\n"),
            ("servers/com", b"198.51.100.2\n"),
        ],
    )?;
    let mut files = QuietFiles::new(kept);
    match load(rt.alloc(), &env, &mut files) {
        Ok(config) => {
            assert!(rt; config.size == 100 && !config.forward);
            assert!(rt; config.ip == [127, 0, 0, 1] && config.ipsend == [0; 4]);
            assert!(rt;
                config.permit.allows([127, 0, 0, 1]) && !config.permit.allows([10, 0, 0, 1])
            );
            assert!(rt; config.zones.servers(&Name::root()).is_some());
        }
        Err(_) => panic!(rt; "no configuration"),
    }
    env.set(
        String::from_str(rt.alloc(), "FORWARDONLY")?,
        String::from_str(rt.alloc(), "")?,
    );
    match load(rt.alloc(), &env, &mut files) {
        Ok(config) => assert!(rt; config.forward),
        Err(_) => panic!(rt; "no configuration"),
    }
    Ok(())
}

#[test]
fn faults_are_counted(rt: HostRuntime) -> Result<(), Fail> {
    let env = env_of(rt.alloc(), GOOD)?;
    for call in 1..5 {
        let kept = files_of(
            rt.alloc(),
            [("servers/@", b"198.51.100.1"), ("ip/127", b""), OTHER],
        )?;
        let mut files = MemoryFiles::new(kept, vec![in rt.alloc(); call]?);
        let wanted = if call < 4 { ("files", "") } else { ("ok", "") };
        assert!(rt; told(&load(rt.alloc(), &env, &mut files)) == wanted);
        assert!(rt; files.faults() == u64::from(call < 4));
    }
    Ok(())
}

/// A path below a folder.
fn below(alloc: Global, folder: &str, path: &str) -> Result<String, NoMemory> {
    format!(in alloc; "{folder}/{path}")
}

/// A new folder in the folder for what is temporary, with an empty folder `servers`.
fn made_folder(rt: &HostRuntime, name: &str) -> io::Result<String> {
    let alloc = rt.alloc();
    let parent = env::temp_dir(rt)?;
    let name = format!(in alloc; "dc_config_{name}_{}", process::id(rt.process()))?;
    let folder = below(alloc, parent.as_str(), name.as_str())?;
    fs::create_dir_all(rt, below(alloc, folder.as_str(), "servers")?.as_str())?;
    Ok(folder)
}

/// Whether these are the two names, in any order.
fn are_two(names: &[FileName], first: &str, second: &str) -> bool {
    match names {
        [a, b] => {
            (a.text() == first && b.text() == second) || (a.text() == second && b.text() == first)
        }
        _ => false,
    }
}

/// Whether a file was read, with these bytes.
fn is_read(answer: &FileRead, wanted: &[u8]) -> bool {
    match answer {
        FileRead::Bytes(bytes) => bytes.as_slice() == wanted,
        _ => false,
    }
}

#[test]
fn real_folders_are_read(rt: HostRuntime) -> Result<(), Fail> {
    let alloc = rt.alloc();
    let folder = made_folder(&rt, "read")?;
    let servers = below(alloc, folder.as_str(), "servers")?;
    let root = below(alloc, servers.as_str(), "@")?;
    let com = below(alloc, servers.as_str(), "com")?;
    let absent = below(alloc, servers.as_str(), "net")?;
    let mut files = HostFiles::new(rt.clone()?);
    assert!(rt;
        matches!(files.list(alloc, servers.as_str()), Listed::Names(names) if names.is_empty())
    );
    fs::write(&rt, root.as_str(), b"198.51.100.1\n")?;
    let most = vec![in alloc; b'1'; 1000000]?;
    fs::write(&rt, com.as_str(), most.as_slice())?;
    assert!(rt;
        matches!(files.list(alloc, servers.as_str()), Listed::Names(names) if are_two(&names, "@", "com"))
    );
    assert!(rt; is_read(&files.read(alloc, root.as_str()), b"198.51.100.1\n"));
    assert!(rt; is_read(&files.read(alloc, com.as_str()), &most));
    assert!(rt; matches!(files.list(alloc, absent.as_str()), Listed::Absent));
    assert!(rt; matches!(files.read(alloc, absent.as_str()), FileRead::Absent));
    assert!(rt; files.faults() == 0);
    fs::remove_dir_all(&rt, folder.as_str())?;
    Ok(())
}

/// A folder that leads to itself can't be read, by no user.
#[test]
fn real_faults_are_counted(rt: HostRuntime) -> Result<(), Fail> {
    let alloc = rt.alloc();
    let folder = made_folder(&rt, "faults")?;
    let servers = below(alloc, folder.as_str(), "servers")?;
    let circle = below(alloc, folder.as_str(), "circle")?;
    symlink(&rt, "circle", circle.as_str())?;
    let long = below(alloc, folder.as_str(), "long")?;
    fs::write(
        &rt,
        long.as_str(),
        vec![in alloc; 0u8; 64000001]?.as_slice(),
    )?;
    let behind = below(alloc, long.as_str(), "@")?;
    let mut strange = Vec::from_slice(alloc, servers.as_bytes())?;
    strange.extend_from_slice(b"/com\xff")?;
    assert!(rt; os::mkdir(&strange) == 0);
    let mut files = HostFiles::new(rt.clone()?);
    for (place, path) in [&circle, &long, &behind, &servers].into_iter().enumerate() {
        assert!(rt; matches!(files.list(alloc, path.as_str()), Listed::Failed));
        assert!(rt; matches!(files.read(alloc, path.as_str()), FileRead::Failed));
        assert!(rt; files.faults() == 2 * place as u64 + 2);
    }
    assert!(rt; os::rmdir(&strange) == 0);
    fs::remove_dir_all(&rt, folder.as_str())?;
    Ok(())
}

#[test]
fn modes_are_read(rt: HostRuntime) -> Result<(), Fail> {
    let alloc = rt.alloc();
    let cores = [
        ("1", Some(1)),
        ("8", Some(8)),
        ("0", None),
        ("9", None),
        ("08", None),
        ("", None),
        ("two", None),
        ("18446744073709551617", None),
    ];
    for (text, count) in cores {
        let env = env_of(alloc, [("CORES", text), ("X", ""), ("Y", "")])?;
        assert!(rt; cores_in(&env) == count);
        assert!(rt; is_set(Variable::Cores, &env) && !is_set(Variable::Image, &env));
    }
    let events = [
        ("0", Some(0)),
        ("18446744073709551615", Some(u64::MAX)),
        ("18446744073709551616", None),
        ("+1", None),
    ];
    for (text, count) in events {
        let env = env_of(alloc, [("EVENTS", text), ("X", ""), ("Y", "")])?;
        assert!(rt; events_in(&env) == count);
    }
    Ok(())
}

#[test]
fn modes_are_refused_behind_the_others(rt: HostRuntime) -> Result<(), Fail> {
    let alloc = rt.alloc();
    let rows = [(
        [("CORES", "2"), ("IMAGE", "i"), ("EVENTS", "x")],
        (Some(Variable::Ip), Some(Variable::Ip), Some(Variable::Ip)),
    )];
    for (settings, (split, kept, recorded)) in rows {
        let env = env_of(alloc, settings)?;
        assert!(rt; first_bad_split(&env) == split);
        assert!(rt; first_bad_kept(&env) == kept);
        assert!(rt; first_bad_recorded(&env) == recorded);
    }
    let rows = [
        ("X", "", "Y", "", (Some(Variable::Cores), None, None)),
        (
            "CORES",
            "2",
            "Y",
            "",
            (None, Some(Variable::Image), Some(Variable::Record)),
        ),
        (
            "CORES",
            "9",
            "EVENTS",
            "x",
            (
                Some(Variable::Cores),
                Some(Variable::Image),
                Some(Variable::Record),
            ),
        ),
        (
            "IMAGE",
            "i",
            "EVENTS",
            "x",
            (
                Some(Variable::Cores),
                Some(Variable::Events),
                Some(Variable::Record),
            ),
        ),
        (
            "IMAGE",
            "i",
            "EVENTS",
            "7",
            (Some(Variable::Cores), None, Some(Variable::Record)),
        ),
    ];
    for (a, x, b, y, (split, kept, recorded)) in rows {
        let mut env = env_of(alloc, GOOD)?;
        env.set(String::from_str(alloc, a)?, String::from_str(alloc, x)?);
        env.set(String::from_str(alloc, b)?, String::from_str(alloc, y)?);
        assert!(rt; first_bad_split(&env) == split);
        assert!(rt; first_bad_kept(&env) == kept);
        assert!(rt; first_bad_recorded(&env) == recorded);
    }
    Ok(())
}
