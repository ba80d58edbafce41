//! Maps and lists that are written: their fields and items, one behind the other.
ghost use Rattle.std.specs.Prelude.{◌≡◌, OnOk};
ghost use Rattle.yaml_terms.specs.Spelling.{fields as fields_def, no_fields, Items};
ghost use Rattle.yaml_terms.specs.Spelling.{items as items_def, no_items, one_item};
ghost use Rattle.yaml_terms.specs.SpellingView.{spelling_view};
ghost use Rattle.object_terms.specs.Form.{own};
ghost use Rattle.object_writing.specs.Adding.{before, Adds, items_before};

use std::alloc::AllocError;
use yaml_terms::{FieldKey, ScalarText, Spelling};

/// Adds a field whose key stands plain.
#[tactic(auto, using(crate::proofs::AddLemmas::before_more))]
pub(crate) fn put(
    fields: &mut Vec<(FieldKey, Spelling)>,
    key: &str,
    value: Spelling,
) -> Result<(), AllocError>
    ensures { OnOk result (Adds fields.old.items fields.new.items
        (own key.now (spelling_view value))) }
{
    let text = ScalarText::of(Vec::from_slice(*fields.allocator(), key.as_bytes())?);
    fields.push((FieldKey::Plain(text), value))?;
    Ok(())
}

/// The map of these fields.
pub(crate) fn map_of(fields: Vec<(FieldKey, Spelling)>) -> Spelling
    ensures { spelling_view result ≡ fields_def (before fields.items no_fields) }
{
    Spelling::Fields(fields)
}

/// Adds an item to a list.
#[tactic(auto, using(crate::proofs::AddLemmas::items_before_more))]
pub(crate) fn put_item(items: &mut Vec<Spelling>, item: Spelling) -> Result<(), AllocError>
    ensures { OnOk result ((behind : Items)
        → items_before items.new.items behind
        ≡ items_before items.old.items (one_item (spelling_view item) behind)) }
{
    items.push(item)?;
    Ok(())
}

/// The list of these items.
pub(crate) fn list_of(items: Vec<Spelling>) -> Spelling
    ensures { spelling_view result ≡ items_def (items_before items.items no_items) }
{
    Spelling::Items(items)
}
