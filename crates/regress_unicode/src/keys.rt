//! The keys of properties, with the sets that they stand for ("UnicodeMatchProperty", "UnicodeMatchPropertyValue").
ghost use Rattle.std.specs.Prelude.{◌≡◌, ◌++◌, ◌∷◌, [], map, IfOk, OnOk};
ghost use Rattle.ucd_sets.specs.declared.set.Set.TheVariants as set;
ghost use Rattle.regress_unicode.specs.Keys.{unicode_keys, shown, behind};

use crate::names::binary::binary_names;
use crate::names::category::category_names;
use crate::names::script::script_names;
use std::alloc::{AllocError, Global};
use unicode::properties::Script;
use unicode::sets::Set;

/// All keys.
pub(crate) fn unicode_keys(alloc: Global) -> Result<Vec<(String, Set)>, AllocError>
    ensures { IfOk result (λ keys. map shown keys.items ≡ unicode_keys) }
{
    let binary = binary_names();
    let categories = category_names();
    let scripts = script_names();
    let mut keys = Vec::new(alloc);
    push_sets(&mut keys, "", binary)?;
    push_sets(&mut keys, "", categories)?;
    push_sets(&mut keys, "gc=", categories)?;
    push_sets(&mut keys, "General_Category=", categories)?;
    push_scripts(&mut keys, "sc=", scripts)?;
    push_scripts(&mut keys, "Script=", scripts)?;
    push_extensions(&mut keys, "scx=", scripts)?;
    push_extensions(&mut keys, "Script_Extensions=", scripts)?;
    Ok(keys)
}

/// Adds each name behind a text, with its set.
fn push_sets(
    keys: &mut Vec<(String, Set)>,
    front: &str,
    names: &[(&str, Set)],
) -> Result<(), AllocError>
    ensures { OnOk result (map shown keys.new.items ≡ map shown keys.old.items ++ behind (λ s. s) front.now (map (λ n. (n.0.now, n.1)) names.now)) }
{
    for (name, set) in names {
        push_key(keys, front, name, *set)?;
    }
    Ok(())
}

/// Adds each name behind a text, with the set of the characters of its script.
fn push_scripts(
    keys: &mut Vec<(String, Set)>,
    front: &str,
    names: &[(&str, Script)],
) -> Result<(), AllocError>
    ensures { OnOk result (map shown keys.new.items ≡ map shown keys.old.items ++ behind set.Script front.now (map (λ n. (n.0.now, n.1)) names.now)) }
{
    for (name, script) in names {
        push_key(keys, front, name, Set::Script(*script))?;
    }
    Ok(())
}

/// Adds each name behind a text, with the set of the characters that its script is an extension of.
fn push_extensions(
    keys: &mut Vec<(String, Set)>,
    front: &str,
    names: &[(&str, Script)],
) -> Result<(), AllocError>
    ensures { OnOk result (map shown keys.new.items ≡ map shown keys.old.items ++ behind set.ScriptExtension front.now (map (λ n. (n.0.now, n.1)) names.now)) }
{
    for (name, script) in names {
        push_key(keys, front, name, Set::ScriptExtension(*script))?;
    }
    Ok(())
}

/// Adds a name behind a text, with a set.
fn push_key(
    keys: &mut Vec<(String, Set)>,
    front: &str,
    name: &str,
    set: Set,
) -> Result<(), AllocError>
    ensures { OnOk result (map shown keys.new.items ≡ map shown keys.old.items ++ (front.now ++ name.now, set) ∷ []) }
{
    let mut key = String::from_str(*keys.allocator(), front)?;
    key.push_str(name)?;
    keys.push((key, set))?;
    Ok(())
}
