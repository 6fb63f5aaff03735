//! What files ask as a list of sources.

ghost use Rattle.std.specs.Prelude.{IfOk, map, MatchOption};
ghost use Rattle.nextest_config.specs.NextestVersion.{AreDocumentsOf};
ghost use Rattle.nextest_config_command.specs.FileList.{AreDocuments, given_file, IsListed, IsRefusedList};
ghost use Rattle.nextest_config_command.specs.Found.{all_files, files_of};

use crate::parsed_file::{ParsedFile, ParsedFiles};
use nextest_config::nextest_version::{Edition, ListRefusal, SourceDocument, VersionOnlyConfig};
use std::alloc::{AllocError, Global};

/// The configuration that stands for the files, if each of them is in its grammar.
pub(crate) fn configuration_of_files(
    alloc: Global,
    edition: Edition,
    files: &ParsedFiles<'_>,
) -> Result<Option<VersionOnlyConfig>, AllocError>
    ensures { IfOk result (λ config. MatchOption config
        (IsRefusedList edition (all_files (files_of files.now)))
        (λ config. AreDocuments (all_files (files_of files.now))
        × IsListed edition (all_files (files_of files.now)) config)) }
{
    let Some(documents) = all_documents(alloc, files)? else {
        return Ok(None);
    };
    match VersionOnlyConfig::from_documents(alloc, edition, documents.as_slice()) {
        Ok(config) => Ok(Some(config)),
        Err(ListRefusal::Refused { .. }) => Ok(None),
        Err(ListRefusal::Memory) => Err(AllocError),
    }
}

// All files as sources, if each of them is a document.
fn all_documents<'f>(
    alloc: Global,
    files: &'f ParsedFiles<'_>,
) -> Result<Option<Vec<SourceDocument<'f>>>, AllocError>
    ensures { IfOk result (λ documents.
        MatchOption documents (¬ AreDocuments (all_files (files_of files.now)))
        (λ documents. AreDocuments (all_files (files_of files.now))
        × AreDocumentsOf (map given_file (all_files (files_of files.now))) documents.items)) }
{
    let Some(mut all) = documents(alloc, files.tools.as_slice())? else {
        return Ok(None);
    };
    let Some(mut rest) = documents(alloc, files.repository.as_slice())? else {
        return Ok(None);
    };
    all.append(&mut rest)?;
    Ok(Some(all))
}

// The files as sources, if each of them is a document.
fn documents<'f>(
    alloc: Global,
    files: &'f [ParsedFile<'_>],
) -> Result<Option<Vec<SourceDocument<'f>>>, AllocError>
    ensures { IfOk result (λ documents. MatchOption documents (¬ AreDocuments files.now)
        (λ documents. AreDocuments files.now
        × AreDocumentsOf (map given_file files.now) documents.items)) }
{
    let mut documents = Vec::new(alloc);
    for file in files {
        match file.document() {
            Some(document) => documents.push(document)?,
            None => return Ok(None),
        }
    }
    Ok(Some(documents))
}
