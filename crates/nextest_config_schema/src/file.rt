//! The schema of a whole file.

ghost use Rattle.std.specs.Prelude.{IfOk, string_bytes};
ghost use Rattle.serde_json.specs.View.{view};
ghost use Rattle.nextest_config_schema.specs.File.{IsFileSchema, IsFileSchemaText};

use crate::fields::table;
use crate::schema_place::SchemaPlace;
use crate::values::saying;
use nextest_config_elements::keys::file_fields;
use serde_json::Value;
use std::alloc::{AllocError, Global};

const DRAFT: &str = "http://json-schema.org/draft-07/schema#";

const TITLE: &str = "The configuration file of nextest";

const COMMENT: &str = "\
The configuration file of a repository, .config/nextest.toml, as nextest 0.129.0 (nextest-runner) \
knows it. Not in it: rules between keys, references, what filters and platforms say, editions, \
files of tools, and values of other kinds that nextest may convert.";

/// The JSON Schema (draft-07) of nextest's configuration file.
pub fn schema(alloc: Global) -> Result<Value, AllocError>
    ensures { IfOk result (λ schema. IsFileSchema (view schema)) }
{
    let schema = table(alloc, SchemaPlace::File, file_fields())?;
    let schema = saying(alloc, "title", TITLE, schema)?;
    let schema = saying(alloc, "$comment", COMMENT, schema)?;
    let schema = saying(alloc, "$schema", DRAFT, schema)?;
    Ok(schema)
}

/// The text of the JSON Schema of nextest's configuration file, in lines.
pub fn schema_text(alloc: Global) -> Result<String, AllocError>
    ensures { IfOk result (λ text. IsFileSchemaText (string_bytes text)) }
{
    let mut text = schema(alloc)?.to_string_pretty(alloc)?;
    text.push_str("\n")?;
    Ok(text)
}
