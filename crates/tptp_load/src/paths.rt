// Where the file of an include is looked for. No name is rewritten: what `..` or a link means is the system's matter.
ghost use Rattle.std.specs.Prelude.{◌≡◌, ◌≤◌, ◌∷◌, ◌++◌, [], IfOk, IfErr, IsTrue, Some, length, option_map, take};
ghost use Rattle.std.specs.Str.{IsCharBoundary, IsUtf8};
ghost use Rattle.std.specs.String.{string_bytes};
ghost use Rattle.outside_io.specs.Told.{Follows};
ghost use Rattle.inst_logic.specs.Printing.{is_readable_name};
ghost use Rattle.tptp_load.specs.Includes.{begins_with_slash, directory, path_of, tries, under_root};
ghost use Rattle.tptp_load.specs.Loading.{limit};
ghost use Rattle.tptp_load.specs.Finding.{IsFirst, IsNotFound, IsNotRead};
ghost use Rattle.tptp_load.specs.Found.{pair_of};
ghost use Rattle.inst_logic.specs.Codes as byte;

use crate::error::LoadError;
use crate::file::read_named;
use crate::stated::copy_of;
use inst_logic::{ByteList, Memory, Name};
use outside_io::Library;
use std::alloc::Global;

/// Where a file stands: the root for what it includes, how many levels of includes may stand below it, and its name.
#[derive(Clone, Copy)]
pub(crate) struct Site<'a> {
    pub(crate) root: Option<&'a str>,
    pub(crate) levels: usize,
    pub(crate) name: &'a str,
}

/// A file that an include means.
#[derive(Drop)]
pub(crate) struct IncludedFile {
    pub(crate) name: String,
    pub(crate) bytes: ByteList,
}

// Where the directory ends: behind the last `/`, or at the front.
fn directory_end(name: &[u8]) -> usize
    ensures value { take result name.now ≡ directory name.now }
    ensures within { result ≤ length name.now }
    ensures boundary { IsUtf8 name.now → IsCharBoundary name.now result }
{
    let mut end = 0;
    for (i, byte) in name.iter().enumerate() {
        if *byte == b'/' {
            end = i + 1;
        }
    }
    end
}

// The directory of the file, and then the name.
fn beside(alloc: Global, from: &str, wanted: &str) -> Result<String, Memory>
    ensures { IfOk result (λ s. string_bytes s ≡ directory from.now ++ wanted.now) }
{
    let end = directory_end(from.as_bytes());
    let mut name = String::from_str(alloc, &from[..end])?;
    name.push_str(wanted)?;
    Ok(name)
}

// The root, `/` and the name.
fn below(alloc: Global, root: &str, wanted: &str) -> Result<String, Memory>
    ensures { IfOk result (λ s. string_bytes s ≡ root.now ++ byte.slash ∷ wanted.now) }
{
    let mut name = String::from_str(alloc, root)?;
    name.push('/')?;
    name.push_str(wanted)?;
    Ok(name)
}

// The name as it is.
fn copy(alloc: Global, wanted: &str) -> Result<String, Memory>
    ensures { IfOk result (λ s. string_bytes s ≡ wanted.now) }
{
    Ok(String::from_str(alloc, wanted)?)
}

// The name as text: it has bytes of ASCII only.
fn text_of(name: &Name) -> &str
    requires { IsTrue (is_readable_name name.now) }
    ensures { result.now ≡ name.now }
{
    match str::from_utf8(name.bytes()) {
        Ok(text) => text,
        Err(_) => unreachable!(),
    }
}

// The file of this name, where there is one.
#[tactic(auto, using(std::proofs::lemmas::Grind::common_steps, crate::proofs::Firsts::held_first, crate::proofs::Firsts::none_first, crate::proofs::Firsts::unread_first))]
fn read_one<L: Library>(
    alloc: Global,
    name: String,
    used: usize,
    files: &mut L,
) -> Result<Option<IncludedFile>, LoadError>
    requires used { used ≤ limit }
    ensures follows { Follows (L.told files.old) (L.told files.new) }
    ensures ok { IfOk result (λ found. IsFirst (L.told files.old).files (string_bytes name ∷ []) used (option_map pair_of found)) }
    ensures err { IfErr result (IsNotRead (L.told files.old).files (L.told files.old).faults (L.told files.new).faults (string_bytes name ∷ []) used) }
{
    match read_named(alloc, name.as_str(), used, files) {
        Ok(Some(bytes)) => Ok(Some(IncludedFile { name, bytes })),
        Ok(None) => Ok(None),
        Err(why) => Err(why),
    }
}

// The file of the name below the root, where there is a root and such a file.
fn read_below<L: Library>(
    alloc: Global,
    root: Option<&str>,
    wanted: &str,
    used: usize,
    files: &mut L,
) -> Result<Option<IncludedFile>, LoadError>
    requires used { used ≤ limit }
    ensures follows { Follows (L.told files.old) (L.told files.new) }
    ensures ok { IfOk result (λ found. IsFirst (L.told files.old).files (under_root (path_of root.entry) wanted.now) used (option_map pair_of found)) }
    ensures err { IfErr result (IsNotRead (L.told files.old).files (L.told files.old).faults (L.told files.new).faults (under_root (path_of root.entry) wanted.now) used) }
{
    match root {
        Some(root) => match below(alloc, root, wanted) {
            Ok(name) => read_one(alloc, name, used, files),
            Err(_) => Err(LoadError::Memory),
        },
        None => Ok(None),
    }
}

// The file of a name that does not begin with `/`.
#[tactic(auto, using(std::proofs::lemmas::Grind::common_steps, crate::proofs::Firsts::here_first, crate::proofs::Firsts::later_first, crate::proofs::Firsts::here_not_read, crate::proofs::Firsts::later_not_read))]
fn read_relative<L: Library>(
    alloc: Global,
    site: &Site,
    wanted: &str,
    used: usize,
    files: &mut L,
) -> Result<Option<IncludedFile>, LoadError>
    requires used { used ≤ limit }
    ensures follows { Follows (L.told files.old) (L.told files.new) }
    ensures ok { IfOk result (λ found. IsFirst (L.told files.old).files ((directory site.now.name.now ++ wanted.now) ∷ under_root (path_of site.now.root) wanted.now) used (option_map pair_of found)) }
    ensures err { IfErr result (IsNotRead (L.told files.old).files (L.told files.old).faults (L.told files.new).faults ((directory site.now.name.now ++ wanted.now) ∷ under_root (path_of site.now.root) wanted.now) used) }
{
    let name = beside(alloc, site.name, wanted)?;
    match read_one(alloc, name, used, files) {
        Ok(Some(found)) => Ok(Some(found)),
        Ok(None) => read_below(alloc, site.root, wanted, used, files),
        Err(why) => Err(why),
    }
}

fn begins_with_slash(wanted: &str) -> bool
    ensures { result ≡ begins_with_slash wanted.now }
{
    wanted.as_bytes().first() == Some(&b'/')
}

// The file of a name, tried in each place.
fn read_tries<L: Library>(
    alloc: Global,
    site: &Site,
    wanted: &str,
    used: usize,
    files: &mut L,
) -> Result<Option<IncludedFile>, LoadError>
    requires used { used ≤ limit }
    ensures follows { Follows (L.told files.old) (L.told files.new) }
    ensures ok { IfOk result (λ found. IsFirst (L.told files.old).files (tries (path_of site.now.root) site.now.name.now wanted.now) used (option_map pair_of found)) }
    ensures err { IfErr result (IsNotRead (L.told files.old).files (L.told files.old).faults (L.told files.new).faults (tries (path_of site.now.root) site.now.name.now wanted.now) used) }
{
    if begins_with_slash(wanted) {
        let name = copy(alloc, wanted)?;
        read_one(alloc, name, used, files)
    } else {
        read_relative(alloc, site, wanted, used, files)
    }
}

/// The file that an include of the file at the site means. So many bytes were read before it.
#[tactic(auto, using(std::proofs::lemmas::Grind::common_steps, crate::proofs::Firsts::found_or_absent, crate::proofs::Firsts::none_is_absent))]
pub(crate) fn find<L: Library>(
    alloc: Global,
    site: &Site,
    wanted: &Name,
    used: usize,
    files: &mut L,
) -> Result<IncludedFile, LoadError>
    requires used { used ≤ limit }
    requires readable { IsTrue (is_readable_name wanted.now) }
    ensures follows { Follows (L.told files.old) (L.told files.new) }
    ensures ok { IfOk result (λ found. IsFirst (L.told files.old).files (tries (path_of site.now.root) site.now.name.now wanted.now) used (Some (pair_of found))) }
    ensures err { IfErr result (IsNotFound (L.told files.old).files (L.told files.old).faults (L.told files.new).faults (tries (path_of site.now.root) site.now.name.now wanted.now) wanted.now used) }
{
    match read_tries(alloc, site, text_of(wanted), used, files) {
        Ok(Some(found)) => Ok(found),
        Ok(None) => Err(LoadError::Absent {
            wanted: copy_of(wanted)?,
        }),
        Err(why) => Err(why),
    }
}
