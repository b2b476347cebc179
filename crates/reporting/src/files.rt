// The files of a command line, one after the other.
ghost use Rattle.std.specs.Prelude.{◌≡◌, [], true, false, IfOk};
ghost use Rattle.std.specs.List.{All};
ghost use Rattle.std.specs.String.{string_bytes};
ghost use Rattle.reporting.specs.Files.{IsWell};

use std::fs::File;
use std::io;
use std::io::Read;
use std::rt::Files;

// The most bytes of a list.
pub const LONGEST_LIST: u64 = 16384;

// A file that was read: its name and its bytes.
#[derive(Clone, Copy)]
pub struct Source<'a> {
    pub name: &'a str,
    pub bytes: &'a [u8],
}

// A file's bytes; of one that is longer than `longest`, enough to see that it is.
fn bytes_of<R: Files + Alloc>(rt: &R, file: &str, longest: u64) -> io::Result<Vec<u8, R::A>> {
    let mut bytes = Vec::new(rt.alloc());
    let most = longest.saturating_add(1);
    File::open(rt, file)?.take(most).read_to_end(&mut bytes)?;
    Ok(bytes)
}

// Gives a file to a step, or says that it cannot be read. Whether all was well.
pub fn with_file<R, F>(rt: &R, file: &str, longest: u64, step: F) -> io::Result<bool>
where
    R: Files + Alloc + Eprint,
    F: FnOnce(Source<'_>) -> io::Result<bool>,
    requires { F.IsAlwaysCallable step }

    // All was well only if the step says so.
    ensures { IfOk result (λ well. well ≡ true → (source : _) × (source.name.now ≡ file.now) × F.post step source result) }
{
    match bytes_of(rt, file, longest) {
        Ok(bytes) => step(Source {
            name: file,
            bytes: bytes.as_slice(),
        }),
        Err(e) => {
            eprintln!(rt; "{file}: cannot be read: {e}")?;
            Ok(false)
        }
    }
}

// Does the same with each file of a command, whatever comes of one. Whether all was well.
pub fn each_file<R, F>(
    rt: &R,
    command: &str,
    files: &[String],
    longest: u64,
    step: F,
) -> io::Result<bool>
where
    R: Files + Alloc + Eprint,
    F: Fn(Source<'_>) -> io::Result<bool>,
    requires { F.IsAlwaysCallable step }
    ensures no_file { files.now ≡ [] → IfOk result (λ well. well ≡ false) }

    // All was well only if the step says so of each file.
    ensures each { IfOk result (λ well. well ≡ true → All (λ file. IsWell (F.post step) (string_bytes file)) files.now) }
{
    if files.is_empty() {
        eprintln!(rt; "kirlomp {command}: no file is given")?;
        return Ok(false);
    }
    let mut all = true;
    for file in files {
        all &= with_file(rt, file.as_str(), longest, |source| step(source))?;
    }
    Ok(all)
}
