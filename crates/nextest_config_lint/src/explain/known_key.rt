//! All keys of the table of keys, each with the table of a file in which it stands.

ghost use Rattle.std.specs.Prelude.{◌≡◌, ◌++◌, ◌∷◌, [], IfOk, OnOk, map};
ghost use Rattle.nextest_config_elements.specs.Fields.{fields_view, parts_of};
ghost use Rattle.nextest_config_lint.specs.Settings.{seen_field};
ghost use Rattle.nextest_config_lint.specs.Explain.KnownKey.{has_elements, index_if, keys_among, keys_at, keys_within, known_key, path_of, steps_to, table_step};

use nextest_config_elements::field::{Field, Parts};
use std::alloc::{AllocError, Global};

/// A step to a table.
#[derive(Clone, Copy)]
pub(crate) enum TableStep {
    Key(&'static str),
    /// A name that users choose.
    Name,
    Index,
}

/// A key, and the steps to the table in which it stands.
#[derive(Drop)]
pub(crate) struct KnownKey {
    pub table: Vec<TableStep>,
    pub field: &'static Field,
}

impl KnownKey {
    /// All keys that stand in a table with these fields, depth-first.
    pub(crate) fn all(alloc: Global, fields: &'static [Field]) -> Result<Vec<KnownKey>, AllocError>
        ensures { IfOk result (λ all. map known_key all.items
            ≡ keys_among (fields_view fields.now) []) }
    {
        let mut all = Vec::new(alloc);
        KnownKey::collect_fields(alloc, fields, &[], &mut all)?;
        Ok(all)
    }

    /// The path of the key.
    pub(crate) fn path(&self, alloc: Global) -> Result<Vec<TableStep>, AllocError>
        ensures { IfOk result (λ path. map table_step path.items ≡ path_of (known_key self.now)) }
    {
        path_to(alloc, self.table.as_slice(), TableStep::Key(self.field.key))
    }

    /// The steps to the key, and into an element of its value, which counts as the key.
    pub(crate) fn steps(&self, alloc: Global) -> Result<Vec<TableStep>, AllocError>
        ensures { IfOk result (λ steps. map table_step steps.items
            ≡ steps_to (known_key self.now)) }
    {
        let mut steps = self.path(alloc)?;
        push_index(&mut steps, &self.field.parts)?;
        Ok(steps)
    }

    // Adds the keys of the table to which these steps lead, and those that stand in their values.
    #[cycle(known)]
    fn collect_fields(
        alloc: Global,
        fields: &'static [Field],
        table: &[TableStep],
        all: &mut Vec<KnownKey>,
    ) -> Result<(), AllocError>
        ensures { OnOk result (map known_key all.new.items ≡ map known_key all.old.items
            ++ keys_among (fields_view fields.now) (map table_step table.now)) }
    {
        for field in fields {
            KnownKey::collect_field(alloc, field, table, all)?;
        }
        Ok(())
    }

    // Adds the key of a field, and those that stand in its value.
    #[cycle(known)]
    fn collect_field(
        alloc: Global,
        field: &'static Field,
        table: &[TableStep],
        all: &mut Vec<KnownKey>,
    ) -> Result<(), AllocError>
        ensures { OnOk result (map known_key all.new.items ≡ map known_key all.old.items
            ++ keys_at (seen_field field.now) (map table_step table.now)) }
    {
        all.push(key_at(alloc, table, field)?)?;
        let path = path_to(alloc, table, TableStep::Key(field.key))?;
        KnownKey::collect_within(alloc, &field.parts, path.as_slice(), all)
    }

    // Adds the keys that stand in a value, to which these steps lead.
    #[cycle(known)]
    fn collect_within(
        alloc: Global,
        parts: &'static Parts,
        path: &[TableStep],
        all: &mut Vec<KnownKey>,
    ) -> Result<(), AllocError>
        ensures { OnOk result (map known_key all.new.items ≡ map known_key all.old.items
            ++ keys_within (parts_of parts.now) (map table_step path.now)) }
    {
        match parts {
            Parts::Nothing => Ok(()),
            Parts::Fields(fields)
            | Parts::Versions(fields)
            | Parts::Features(fields)
            | Parts::ElementsOrFields(_, fields)
            | Parts::Retries { open: fields, .. } => {
                KnownKey::collect_fields(alloc, fields, path, all)
            }
            Parts::Names(_, each) => {
                let path = path_to(alloc, path, TableStep::Name)?;
                KnownKey::collect_within(alloc, each, path.as_slice(), all)
            }
            Parts::Elements(_, each) => {
                let path = path_to(alloc, path, TableStep::Index)?;
                KnownKey::collect_within(alloc, each, path.as_slice(), all)
            }
        }
    }
}

// Adds the step into an element, if the value may be an array whose elements are judged.
fn push_index(steps: &mut Vec<TableStep>, parts: &Parts) -> Result<(), AllocError>
    ensures { OnOk result (map table_step steps.new.items
        ≡ map table_step steps.old.items ++ index_if (has_elements (parts_of parts.now))) }
{
    match parts {
        Parts::Features(_) | Parts::Elements(_, _) | Parts::ElementsOrFields(_, _) => {
            steps.push(TableStep::Index)?;
        }
        Parts::Nothing
        | Parts::Fields(_)
        | Parts::Versions(_)
        | Parts::Retries { .. }
        | Parts::Names(_, _) => {}
    }
    Ok(())
}

// The key of a field in the table to which these steps lead.
fn key_at(alloc: Global, table: &[TableStep], field: &'static Field) -> Result<KnownKey, AllocError>
    ensures table { IfOk result (λ key. (known_key key).table ≡ map table_step table.now) }
    ensures rule { IfOk result (λ key. (known_key key).rule ≡ (seen_field field.now).0) }
    ensures parts { IfOk result (λ key. (known_key key).parts ≡ (seen_field field.now).1) }
{
    let mut steps = Vec::new(alloc);
    steps.extend_from_slice(table)?;
    Ok(KnownKey {
        table: steps,
        field,
    })
}

// The steps with one more.
fn path_to(
    alloc: Global,
    table: &[TableStep],
    step: TableStep,
) -> Result<Vec<TableStep>, AllocError>
    ensures { IfOk result (λ path. map table_step path.items
        ≡ map table_step table.now ++ (table_step step ∷ [])) }
{
    let mut path = Vec::new(alloc);
    path.extend_from_slice(table)?;
    path.push(step)?;
    Ok(path)
}
