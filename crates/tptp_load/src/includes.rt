// Files with what they include, by recursion over the levels, of which there are few. The bytes of a file are dropped once
// its statements are read.
ghost use Rattle.std.specs.Prelude.{◌≡◌, ◌≤◌, ◌+◌, ◌∷◌, ◌++◌, [], None, Some, All, IfOk, IfErr, OnOk, IsTrue, length};
ghost use Rattle.outside_io.specs.Told.{Follows};
ghost use Rattle.inst_logic.specs.Printing.{is_readable_name};
ghost use Rattle.tptp_read.specs.Names.{HasReadableNames};
ghost use Rattle.tptp_read.specs.Text.{Readable, IsFormedStatement};
ghost use Rattle.tptp_load.specs.Loading.{Includes, Loading, StatementsGive, limit};
ghost use Rattle.tptp_load.specs.declared.error.LoadError.TheVariants as errors;
ghost use Rattle.tptp_load.specs.Parts.{Adds, Including, IsGathered, IsMisread, IsPartCause, StatementGives};
ghost use Rattle.tptp_load.specs.Includes.{path_of};

use crate::error::LoadError;
use crate::paths::{IncludedFile, Site, find};
use crate::stated::{StatedClause, select};
use inst_logic::{ByteList, Memory, Name, NameList};
use outside_io::Library;
use std::alloc::Global;
use tptp_read::{ReadError, Statement, StatementList, read_text};

/// What was gathered from the statements so far, and how many bytes were read over all files.
#[derive(Drop)]
pub(crate) struct Gathered {
    pub(crate) stated: Vec<StatedClause>,
    pub(crate) used: usize,
}

/// The name as a value that is kept.
pub(crate) fn name_of(alloc: Global, name: &str) -> Result<Name, Memory>
    ensures { IfOk result (λ n. n ≡ name.now) }
{
    Name::of(alloc, name.as_bytes())
}

// The statements of the file of this name with these bytes, which are dropped.
#[tactic(auto, using(std::proofs::lemmas::Grind::common_steps, crate::proofs::Parts::fault_stays))]
fn read_statements(alloc: Global, name: &str, bytes: ByteList) -> Result<StatementList, LoadError>
    ensures readable { IfOk result (Readable bytes) }
    ensures formed { IfOk result (All IsFormedStatement) }
    ensures names { IfOk result (All HasReadableNames) }
    ensures err { IfErr result (IsMisread name.now bytes) }
{
    match read_text(alloc, bytes.as_slice()) {
        Ok(statements) => Ok(statements),
        Err(ReadError::Memory) => Err(LoadError::Memory),
        Err(fault) => Err(LoadError::Text {
            file: name_of(alloc, name)?,
            fault,
        }),
    }
}

/// Adds the file at this site with these bytes.
#[cycle(levels)]
pub(crate) fn add_file<L: Library>(
    alloc: Global,
    site: &Site,
    bytes: ByteList,
    files: &mut L,
    gathered: &mut Gathered,
) -> Result<(), LoadError>
    requires fits { gathered.old.used + length bytes ≤ limit }
    requires good { IsGathered gathered.old.stated.items gathered.old.used }
    ensures follows { Follows (L.told files.old) (L.told files.new) }
    ensures good { OnOk result (IsGathered gathered.new.stated.items gathered.new.used) }
    ensures ok { OnOk result (Adds (L.told files.old).files (λ told. Loading told (path_of site.now.root) site.now.levels gathered.old.used site.now.name.now bytes) gathered.old.stated.items gathered.new.stated.items gathered.new.used) }
    ensures err { IfErr result (IsPartCause (L.told files.old).files (λ told. Loading told (path_of site.now.root) site.now.levels gathered.old.used site.now.name.now bytes) (L.told files.old).faults (L.told files.new).faults) }
{
    gathered.used += bytes.len();
    let statements = read_statements(alloc, site.name, bytes)?;
    add_statements(alloc, site, statements, files, gathered)
}

// Adds the statements of the file at the site in order.
#[cycle(levels)]
fn add_statements<L: Library>(
    alloc: Global,
    site: &Site,
    statements: StatementList,
    files: &mut L,
    gathered: &mut Gathered,
) -> Result<(), LoadError>
    requires good { IsGathered gathered.old.stated.items gathered.old.used }
    requires formed { All IsFormedStatement statements }
    requires names { All HasReadableNames statements }
    ensures follows { Follows (L.told files.old) (L.told files.new) }
    ensures good { OnOk result (IsGathered gathered.new.stated.items gathered.new.used) }
    ensures ok { OnOk result (Adds (L.told files.old).files (λ told. StatementsGive (Including told (path_of site.now.root) site.now.levels) site.now.name.now gathered.old.used statements) gathered.old.stated.items gathered.new.stated.items gathered.new.used) }
    ensures err { IfErr result (IsPartCause (L.told files.old).files (λ told. StatementsGive (Including told (path_of site.now.root) site.now.levels) site.now.name.now gathered.old.used statements) (L.told files.old).faults (L.told files.new).faults) }
{
    let list: Vec<Statement> = Vec::from(statements);
    for statement in list {
        add_statement(alloc, site, statement, files, gathered)?;
    }
    Ok(())
}

// Adds what one statement of the file at the site gives.
#[cycle(levels)]
fn add_statement<L: Library>(
    alloc: Global,
    site: &Site,
    statement: Statement,
    files: &mut L,
    gathered: &mut Gathered,
) -> Result<(), LoadError>
    requires good { IsGathered gathered.old.stated.items gathered.old.used }
    requires formed { IsFormedStatement statement }
    requires names { HasReadableNames statement }
    ensures follows { Follows (L.told files.old) (L.told files.new) }
    ensures good { OnOk result (IsGathered gathered.new.stated.items gathered.new.used) }
    ensures ok { OnOk result (Adds (L.told files.old).files (λ told. StatementGives (Including told (path_of site.now.root) site.now.levels) site.now.name.now gathered.old.used statement) gathered.old.stated.items gathered.new.stated.items gathered.new.used) }
    ensures err { IfErr result (IsPartCause (L.told files.old).files (λ told. StatementGives (Including told (path_of site.now.root) site.now.levels) site.now.name.now gathered.old.used statement) (L.told files.old).faults (L.told files.new).faults) }
{
    match statement {
        Statement::Cnf {
            name,
            always,
            clause,
            ..
        } => add_clause(
            gathered,
            StatedClause {
                name,
                always,
                clause,
            },
        ),
        Statement::Include { file, selection } => {
            if site.levels == 0 {
                return Err(LoadError::IncludeDepth { file });
            }
            let below = Site {
                root: site.root,
                levels: site.levels - 1,
                name: site.name,
            };
            match selection {
                None => add_included(alloc, &below, &file, files, gathered),
                Some(names) => add_selected(alloc, &below, &file, &names, files, gathered),
            }
        }
    }
}

// Adds a clause at the end.
fn add_clause(gathered: &mut Gathered, stated: StatedClause) -> Result<(), LoadError>
    ensures used { gathered.new.used ≡ gathered.old.used }
    ensures ok { OnOk result (gathered.new.stated.items ≡ gathered.old.stated.items ++ stated ∷ []) }
    ensures err { IfErr result (λ e. e ≡ errors.Memory) }
{
    match gathered.stated.push(stated) {
        Ok(()) => Ok(()),
        Err(_) => Err(LoadError::Memory),
    }
}

// Adds the whole file of an include, in the file at the site.
#[cycle(levels)]
fn add_included<L: Library>(
    alloc: Global,
    site: &Site,
    file: &Name,
    files: &mut L,
    gathered: &mut Gathered,
) -> Result<(), LoadError>
    requires good { IsGathered gathered.old.stated.items gathered.old.used }
    requires name { IsTrue (is_readable_name file.now) }
    ensures follows { Follows (L.told files.old) (L.told files.new) }
    ensures good { OnOk result (IsGathered gathered.new.stated.items gathered.new.used) }
    ensures ok { OnOk result (Adds (L.told files.old).files (λ told. Includes told (path_of site.now.root) (Loading told (path_of site.now.root) site.now.levels) gathered.old.used site.now.name.now file.now None) gathered.old.stated.items gathered.new.stated.items gathered.new.used) }
    ensures err { IfErr result (IsPartCause (L.told files.old).files (λ told. Includes told (path_of site.now.root) (Loading told (path_of site.now.root) site.now.levels) gathered.old.used site.now.name.now file.now None) (L.told files.old).faults (L.told files.new).faults) }
{
    let IncludedFile { name, bytes } = find(alloc, site, file, gathered.used, files)?;
    let found = Site {
        root: site.root,
        levels: site.levels,
        name: name.as_str(),
    };
    add_file(alloc, &found, bytes, files, gathered)
}

// Adds the selected clauses of an include, in the file at the site.
#[cycle(levels)]
fn add_selected<L: Library>(
    alloc: Global,
    site: &Site,
    file: &Name,
    names: &NameList,
    files: &mut L,
    gathered: &mut Gathered,
) -> Result<(), LoadError>
    requires good { IsGathered gathered.old.stated.items gathered.old.used }
    requires name { IsTrue (is_readable_name file.now) }
    ensures follows { Follows (L.told files.old) (L.told files.new) }
    ensures good { OnOk result (IsGathered gathered.new.stated.items gathered.new.used) }
    ensures ok { OnOk result (Adds (L.told files.old).files (λ told. Includes told (path_of site.now.root) (Loading told (path_of site.now.root) site.now.levels) gathered.old.used site.now.name.now file.now (Some names.now)) gathered.old.stated.items gathered.new.stated.items gathered.new.used) }
    ensures err { IfErr result (IsPartCause (L.told files.old).files (λ told. Includes told (path_of site.now.root) (Loading told (path_of site.now.root) site.now.levels) gathered.old.used site.now.name.now file.now (Some names.now)) (L.told files.old).faults (L.told files.new).faults) }
{
    let mut part = Gathered {
        stated: Vec::new(alloc),
        used: gathered.used,
    };
    add_included(alloc, site, file, files, &mut part)?;
    gathered.used = part.used;
    select(alloc, file, names, part.stated, &mut gathered.stated)
}
