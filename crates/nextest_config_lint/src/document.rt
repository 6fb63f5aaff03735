//! All that is found in a document.

ghost use Rattle.std.specs.Prelude.{◌≡◌, ◌++◌, [], IfOk, List};
ghost use Rattle.toml.specs.View.{table_view};
ghost use Rattle.nextest_config_lint.specs.Defined.{IsDefinedBy, ListFile};
ghost use Rattle.nextest_config_lint.specs.Document.{AreFindings, HasFound};
ghost use Rattle.nextest_config_lint.specs.Found.{Found, Reports};

use crate::defined::{Defined, ListedFile, names_of_file};
use crate::finding::Finding;
use crate::references::add_reference;
use crate::references::judged_file::JudgedFile;
use crate::settings::Setting;
use crate::traversal::{Visitor, visit_document};
use crate::unknown::{add_beside, add_keys_in};
use crate::values::{ValueFindings, find_in_value};
use nextest_config::nextest_version::{ConfigSourceKind, Edition};
use nextest_config_elements::keys::file_fields;
use nextest_config_elements::named::NamedKind;
use std::alloc::{AllocError, Global};
use toml::Table;

/// All that is found in the document of a source of this kind: what its readers refuse, value by
/// value; the features that a tool's file names, or the unknown feature names; the keys that aren't
/// known where they stand; the names that refer to nothing, and the rules between keys, as in the
/// file at this position of a list that defines this; and what isn't judged or is to change one
/// day.
pub fn findings(
    alloc: Global,
    source: &ConfigSourceKind,
    edition: Edition,
    document: &Table,
    defined: &Defined,
    position: usize,
) -> Result<Vec<Finding>, AllocError>
    ensures { IfOk result (λ findings. (files : List ListFile) → IsDefinedBy files defined.now
        → (all_found : List Found)
        × AreFindings edition source.now files position (table_view document.now) all_found
        × Reports findings.items all_found) }
{
    let listed = ListedFile {
        source,
        document: Some(document),
    };
    let setup_scripts = names_of_file(alloc, NamedKind::SETUP_SCRIPT, &listed)?;
    let file = JudgedFile {
        source,
        edition,
        position,
        defined,
        setup_scripts: &setup_scripts,
    };
    let mut unknown = Vec::new(alloc);
    add_beside(alloc, file_fields(), &[], document, &mut unknown)?;
    let found = visit_document(alloc, document, FoundInValues::new(alloc, file))?;
    found.behind(unknown)
}

// What is found so far of the values of a file, by kind.
#[derive(Drop)]
struct FoundInValues<'f> {
    file: JudgedFile<'f>,
    values: ValueFindings,
    unknown: Vec<Finding>,
    references: Vec<Finding>,
}

impl<'f> FoundInValues<'f> {
    // Nothing so far.
    fn new(alloc: Global, file: JudgedFile<'f>) -> FoundInValues<'f>
        ensures file { result.file ≡ file.entry }
        ensures found { HasFound result [] result }
    {
        FoundInValues {
            file,
            values: ValueFindings::new(alloc),
            unknown: Vec::new(alloc),
            references: Vec::new(alloc),
        }
    }

    // All findings, in the order of their kinds; these unknown keys stand in front of the others.
    fn behind(self, mut unknown: Vec<Finding>) -> Result<Vec<Finding>, AllocError>
        ensures { IfOk result (λ findings. findings.items ≡ self.entry.values.faults.items
            ++ (self.entry.values.features.items ++ ((unknown.items ++ self.entry.unknown.items)
            ++ (self.entry.references.items ++ self.entry.values.notes.items)))) }
    {
        let FoundInValues {
            file: _,
            values,
            unknown: mut inner,
            mut references,
        } = self;
        let ValueFindings {
            mut faults,
            mut features,
            mut notes,
        } = values;
        references.append(&mut notes)?;
        unknown.append(&mut inner)?;
        unknown.append(&mut references)?;
        features.append(&mut unknown)?;
        faults.append(&mut features)?;
        Ok(faults)
    }
}

impl Visitor for FoundInValues<'_> {
    ghost has_visited = { HasFound };

    fn visit(&mut self, alloc: Global, setting: &Setting) -> Result<(), AllocError> {
        let found = find_in_value(alloc, self.file.source, self.file.edition, setting)?;
        self.values.add(found)?;
        add_keys_in(alloc, setting, &mut self.unknown)?;
        add_reference(alloc, &self.file, setting, &mut self.references)?;
        Ok(())
    }
}
