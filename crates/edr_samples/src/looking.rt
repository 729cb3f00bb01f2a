//! Looking into trees of JSON.
ghost use Rattle.std.specs.Prelude.{◌≡◌, is_some, option_map};
ghost use Rattle.serde_json.specs.Find.{as_array, as_null, as_number, as_object, as_str, get, get_member};
ghost use Rattle.serde_json.specs.View.{number_view};
ghost use Rattle.edr_samples.specs.Trees.{list_view, members_view, tree_view};

use crate::trees::{List, Tree};
use serde_json::{Map, Number};

impl Tree {
    /// The member of a name, where the tree is an object that has it.
    pub fn get(&self, name: &str) -> Option<&Tree>
        ensures { option_map (λ t. tree_view t.now) result ≡ get name.now (tree_view self.now) }
    {
        match self {
            Tree::Object(members) => member(members, name),
            _ => None,
        }
    }

    /// The members of an object.
    pub fn as_object(&self) -> Option<&Map<String, Tree>>
        ensures { option_map (λ m. members_view m.now.entries) result ≡ as_object (tree_view self.now) }
    {
        if let Tree::Object(members) = self {
            Some(members)
        } else {
            None
        }
    }

    /// The list that the tree is, in either form.
    pub fn as_list(&self) -> Option<List<'_>>
        ensures { option_map list_view result ≡ as_array (tree_view self.now) }
    {
        match self {
            Tree::Samples(samples) => Some(List::Samples(samples)),
            Tree::Items(items) => Some(List::Items(items)),
            _ => None,
        }
    }

    /// The text that the tree is.
    pub fn as_str(&self) -> Option<&str>
        ensures { option_map (λ s. s.now) result ≡ as_str (tree_view self.now) }
    {
        if let Tree::Text(text) = self {
            Some(text.as_str())
        } else {
            None
        }
    }

    /// The number that the tree is.
    pub fn as_number(&self) -> Option<&Number>
        ensures { option_map (λ n. number_view n.now) result ≡ as_number (tree_view self.now) }
    {
        if let Tree::Number(number) = self {
            Some(number)
        } else {
            None
        }
    }

    /// Whether the tree is `null`.
    pub fn is_null(&self) -> bool
        ensures { result ≡ is_some (as_null (tree_view self.now)) }
    {
        matches!(self, Tree::Null)
    }
}

// The member of a name among those of an object.
fn member<'a>(members: &'a Map<String, Tree>, name: &str) -> Option<&'a Tree>
    ensures { option_map (λ t. tree_view t.now) result ≡ get_member name.now (members_view members.now.entries) }
{
    members.get(name)
}
