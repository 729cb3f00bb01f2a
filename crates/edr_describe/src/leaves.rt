//! Small trees of which pages are made: arrays of few items.
ghost use Rattle.std.specs.Prelude.{◌≡◌, ◌∷◌, [], IfOk};
ghost use Rattle.serde_json.specs.Data.{array, string, no_items, item};
ghost use Rattle.serde_json.specs.View.{view};
ghost use Rattle.covjson_value.specs.Trees.{array_of};

use edr_base::OutOfMemory;
use serde_json::Value;
use std::alloc::Global;

/// An array of one item.
pub fn only_item(alloc: Global, tree: Value) -> Result<Value, OutOfMemory>
    ensures { IfOk result (λ v. view v ≡ array (item (view tree) no_items)) }
{
    let mut items = Vec::new(alloc);
    items.push(tree)?;
    Ok(Value::Array(items))
}

/// An array of one text.
pub fn only_text(alloc: Global, text: &str) -> Result<Value, OutOfMemory>
    ensures { IfOk result (λ v. view v ≡ array_of string (text.now ∷ [])) }
{
    let tree = Value::try_from_str(alloc, text)?;
    only_item(alloc, tree)
}

/// An array of two items.
pub fn pair_of(alloc: Global, first: Value, second: Value) -> Result<Value, OutOfMemory>
    ensures { IfOk result (λ v. view v ≡ array (item (view first) (item (view second) no_items))) }
{
    let mut items = Vec::new(alloc);
    items.push(first)?;
    items.push(second)?;
    Ok(Value::Array(items))
}
