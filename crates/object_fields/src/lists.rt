//! Lists of names: references, and objects that stand inline in the place of one.
ghost use Rattle.std.specs.Prelude.{◌≡◌, ℕ, Bool, List, []};
ghost use Rattle.yaml_terms.specs.Tree.{Tree};
ghost use Rattle.yaml_terms.specs.NodeView.{node_view};
ghost use Rattle.object_terms.specs.Form.{Key, Answer, each, list_read};
ghost use Rattle.object_fields.specs.Reading.{Gives, Reads, trees_view};

use crate::fields::fail_at;
use crate::shape::{item_count, list_items};
use exact_fraction::Label;
use object_terms::{Names, Objects, ReadError, Rule};
use yaml_terms::Node;

/// How an item of a list of names is read, and how many items the list may have.
pub trait ReadItem {
    ghost item: { Self → Key → List Key → Tree → Answer Key };

    ghost may_have: { Self → ℕ → Bool };

    /// Whether a list may have so many items.
    fn may_have(&self, count: usize) -> bool
        ensures { result ≡ may_have self.now count };

    /// Reads an item, behind the names before it. A fault of its form is the list's.
    fn read_item(
        &self,
        found: &mut Objects,
        listed: &str,
        before: &Names,
        node: &Node,
    ) -> Result<Label, ReadError>
        ensures { Reads found.old found.new result
            (item self.now listed.now before.now (node_view node.now)) };
}

/// The names of the items, one behind the other.
fn each_name<I: ReadItem>(
    found: &mut Objects,
    key: &str,
    items: &[Node],
    how: &I,
) -> Result<Names, ReadError>
    ensures { Gives (λ names. (found.new, names)) result
        (each (I.item how.now key.now) found.old [] (trees_view items.now)) }
{
    let mut names = Names::new(found.allocator());
    for node in items {
        let name = how.read_item(found, key, &names, node)?;
        names.push(name)?;
    }
    Ok(names)
}

/// A list of names.
pub fn names_of<I: ReadItem>(
    found: &mut Objects,
    key: &str,
    node: &Node,
    how: &I,
) -> Result<Names, ReadError>
    ensures { Reads found.old found.new result
        (list_read (I.may_have how.now) (I.item how.now) key.now (node_view node.now)) }
{
    let Some(items) = list_items(node) else {
        return fail_at(found, key, Rule::NotList);
    };
    if !how.may_have(item_count(items)) {
        return fail_at(found, key, Rule::ListLength);
    }
    each_name(found, key, items, how)
}
