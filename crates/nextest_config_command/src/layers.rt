//! Files as the layers of which profiles are made.

ghost use Rattle.std.specs.Prelude.{IfOk};
ghost use Rattle.std.specs.List.{AllZip};
ghost use Rattle.nextest_config_command.specs.FileList.{AreDocuments, IsDocumentFile};
ghost use Rattle.nextest_config_command.specs.Found.{all_files, files_of};
ghost use Rattle.nextest_config_command.specs.Layers.{IsIndexed, IsLent};

use crate::parsed_file::{ParsedFile, ParsedFiles};
use nextest_config::nextest_version::ConfigSource;
use nextest_config_profiles::Layer;
use std::alloc::{AllocError, Global};
use toml::Table;
use toml_spans::Index;

/// A file that is a document, with the index of its places.
#[derive(Drop)]
pub(crate) struct IndexedFile<'f> {
    source: &'f ConfigSource,
    document: &'f Table,
    index: Index,
}

/// The files, each of which is a document, with their indices.
pub(crate) fn indexed_files<'f>(
    alloc: Global,
    files: &'f ParsedFiles<'_>,
) -> Result<Vec<IndexedFile<'f>>, AllocError>
    requires { AreDocuments (all_files (files_of files.now)) }
    ensures { IfOk result
        (λ indexed. AllZip IsIndexed (all_files (files_of files.now)) indexed.items) }
{
    let mut all = indexed_each(alloc, files.tools.as_slice())?;
    let mut rest = indexed_each(alloc, files.repository.as_slice())?;
    all.append(&mut rest)?;
    Ok(all)
}

fn indexed_each<'f>(
    alloc: Global,
    files: &'f [ParsedFile<'_>],
) -> Result<Vec<IndexedFile<'f>>, AllocError>
    requires { AreDocuments files.now }
    ensures { IfOk result (λ indexed. AllZip IsIndexed files.now indexed.items) }
{
    let mut indexed = Vec::new(alloc);
    for file in files {
        indexed.push(indexed_file(alloc, file)?)?;
    }
    Ok(indexed)
}

// A file, which is a document, with its index.
fn indexed_file<'f>(alloc: Global, file: &'f ParsedFile<'_>) -> Result<IndexedFile<'f>, AllocError>
    requires { IsDocumentFile file.now }
    ensures { IfOk result (IsIndexed file.now) }
{
    let Some((text, document)) = file.text() else {
        unreachable!()
    };
    match Index::of(alloc, text)? {
        Some(index) => Ok(IndexedFile {
            source: file.source(),
            document,
            index,
        }),
        None => unreachable!(),
    }
}

/// Files with their indices, as layers.
pub(crate) fn layers<'a>(
    alloc: Global,
    files: &'a [IndexedFile<'a>],
) -> Result<Vec<Layer<'a>>, AllocError>
    ensures { IfOk result (λ layers. AllZip IsLent files.now layers.items) }
{
    let mut layers = Vec::new(alloc);
    for file in files {
        layers.push(Layer {
            source: file.source,
            document: file.document,
            index: &file.index,
        })?;
    }
    Ok(layers)
}
