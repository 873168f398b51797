//! Concepts and bases as one line of JSON.

ghost use Rattle.std.specs.Prelude.{◌≡◌, ◌++◌, [], List, IfOk, false, map, string_bytes, slice_get, unwrap_or};
ghost use Rattle.serde_json.specs.Data.{string};
ghost use Rattle.serde_json.specs.View.{view};
ghost use Rattle.serde_json.specs.Written.{compact_text, has_float};
ghost use Rattle.expert_wire.specs.Texts.{line_end, names_of};
ghost use Rattle.report_texts.specs.Reports.{names_at};
ghost use Rattle.json_reports.specs.Json.{names_data, concept_data, concepts_data, implication_data, basis_data, concepts_json};
ghost use Rattle.json_reports.specs.Json.{basis_json};

use attr_bits::Attrs;
use context_table::Table;
use fca_model::Memory;
use implication_closure::{Implication, ImplicationList};
use lectic_concepts::Concept;
use report_texts::object_text;
use serde_json::{Value, json};
use std::alloc::{AllocError, Global};

/// The concepts as one line of JSON.
pub fn concepts_json(alloc: Global, table: &Table, concepts: &[Concept]) -> Result<Vec<u8>, Memory>
    ensures { IfOk result (λ v. v.items ≡ concepts_json table.now concepts.now) }
{
    let value = concepts_value(alloc, table, concepts)?;
    Ok(line_of(alloc, &value)?)
}

/// The members of the list as one line of JSON.
pub fn basis_json(alloc: Global, table: &Table, list: &ImplicationList) -> Result<Vec<u8>, Memory>
    ensures { IfOk result (λ v. v.items ≡ basis_json table.now.attributes list.now.members) }
{
    let value = basis_value(alloc, table, list.as_slice())?;
    Ok(line_of(alloc, &value)?)
}

/// The compact text of the value and the end of its line.
fn line_of(alloc: Global, value: &Value) -> Result<Vec<u8>, AllocError>
    requires { has_float (view value.now) ≡ false }
    ensures { IfOk result (λ v. v.items ≡ compact_text (view value.now) ++ line_end) }
{
    let mut line = value.to_string(alloc)?.into_bytes();
    line.push(b'\n')?;
    Ok(line)
}

/// The value of the concepts.
fn concepts_value(alloc: Global, table: &Table, concepts: &[Concept]) -> Result<Value, AllocError>
    ensures { IfOk result (λ v. view v ≡ concepts_data table.now concepts.now) }
{
    let mut list = Vec::with_capacity(alloc, concepts.len())?;
    for concept in concepts {
        list.push(concept_value(alloc, table, concept)?)?;
    }
    json!(in alloc; {"concepts": list})
}

/// The value of one concept.
fn concept_value(alloc: Global, table: &Table, concept: &Concept) -> Result<Value, AllocError>
    ensures { IfOk result (λ v. view v ≡ concept_data table.now concept.now) }
{
    let extent = object_names(alloc, table, concept.extent.as_slice())?;
    let intent = attribute_names(alloc, table, &concept.intent)?;
    json!(in alloc; {"extent": extent, "intent": intent})
}

/// The value of the members of a basis.
fn basis_value(alloc: Global, table: &Table, members: &[Implication]) -> Result<Value, AllocError>
    ensures { IfOk result (λ v. view v ≡ basis_data table.now.attributes members.now) }
{
    let mut list = Vec::with_capacity(alloc, members.len())?;
    for implication in members {
        list.push(implication_value(alloc, table, implication)?)?;
    }
    json!(in alloc; {"implications": list})
}

/// The value of one implication. Its conclusion has only what the premise lacks.
fn implication_value(
    alloc: Global,
    table: &Table,
    implication: &Implication,
) -> Result<Value, AllocError>
    ensures { IfOk result (λ v. view v ≡ implication_data table.now.attributes implication.now) }
{
    let gained = implication.conclusion.minus(&implication.premise);
    let conclusion = attribute_names(alloc, table, &gained)?;
    let premise = attribute_names(alloc, table, &implication.premise)?;
    json!(in alloc; {"conclusion": conclusion, "premise": premise})
}

/// The names of the objects at these places.
fn object_names(alloc: Global, table: &Table, places: &[usize]) -> Result<Value, AllocError>
    ensures { IfOk result (λ v. view v ≡ names_data (names_at table.now.objects places.now)) }
{
    let mut names = Vec::with_capacity(alloc, places.len())?;
    for place in places {
        names.push(Value::try_from_str(alloc, object_text(table, *place))?)?;
    }
    Ok(Value::Array(names))
}

/// The names of the members of the set.
fn attribute_names(alloc: Global, table: &Table, set: &Attrs) -> Result<Value, AllocError>
    ensures { IfOk result (λ v. view v ≡ names_data (names_of table.now.attributes set.now)) }
{
    let mut names = Vec::new(alloc);
    for attribute in 0..set.width().min(table.rows().width()) {
        if set.has(attribute) {
            let name = table.attribute_name(attribute);
            names.push(Value::try_from_str(alloc, name.text())?)?;
        }
    }
    Ok(Value::Array(names))
}
