//! The owners of all methods of a sign, and of all fields: which class has the nearest, from each class up.
ghost use Rattle.std.specs.Prelude.{◌≡◌, ◌++◌, ◌∷◌, [], None, length, IfOk, IfErr, OnOk};
ghost use Rattle.arc_fault.specs.declared.class.ClassFault.TheVariants.{Memory};
ghost use Rattle.arc_class.specs.Lookups.{superclass_among};
ghost use Rattle.arc_class.specs.Owners.{IsOwners, views, entry_view, FindsMethods, FindsFields};

use crate::fields::ClassFields;
use crate::owners::Owners;
use crate::table::Entry;
use arc_ast::tree::Sign;
use arc_fault::class::ClassFault;
use std::alloc::Global;

/// Adds the next class, with its methods of the sign. The root, class 0, is taken to have all selectors.
fn add_entry<'a>(
    owners: &mut Owners<'a>,
    class: usize,
    entry: &Entry<'a>,
    sign: Sign,
) -> Result<(), ClassFault>
    requires owners { IsOwners owners.old }
    requires next { class ≡ length (views owners.old) }
    ensures owners { OnOk result (IsOwners owners.new) }
    ensures added { OnOk result (views owners.new ≡ views owners.old ++ entry_view class entry.now sign (views owners.old) ∷ []) }
    ensures refused { IfErr result (λ fault. fault ≡ Memory) }
{
    if class == 0 {
        owners.add_root()?;
        return Ok(());
    }
    owners.add_class(entry.superclass, entry.methods.of(sign))?;
    Ok(())
}

/// Which class has the nearest method of the sign with each selector, from each class up, of a source with so many
/// selectors. Memory: there was none, or so many classes or selectors have no numbers.
pub fn method_owners<'a>(
    alloc: Global,
    entries: &[Entry<'a>],
    selectors: usize,
    sign: Sign,
) -> Result<Owners<'a>, ClassFault>
    requires { superclass_among entries.now 0 ≡ None }
    ensures finds { IfOk result (λ owners. FindsMethods entries.now sign owners) }
    ensures refused { IfErr result (λ fault. fault ≡ Memory) }
{
    let mut owners = Owners::new(alloc, selectors);
    for (class, entry) in entries.iter().enumerate() {
        add_entry(&mut owners, class, entry, sign)?;
    }
    Ok(owners)
}

/// How many fields the objects of these classes have, one of each, as far as there is a number for it.
fn field_count(classes: &[ClassFields]) -> usize {
    let mut count = 0_usize;
    for known in classes {
        count = count.saturating_add(known.counted.total());
    }
    count
}

/// Which class has the nearest field with each name, from each class up. Memory: there was none, or
/// so many classes or names have no numbers.
pub fn field_owners<'a>(
    alloc: Global,
    classes: &[ClassFields<'a>],
) -> Result<Owners<'a>, ClassFault>
    ensures finds { IfOk result (λ owners. FindsFields classes.now owners) }
    ensures refused { IfErr result (λ fault. fault ≡ Memory) }
{
    let mut owners = Owners::new(alloc, field_count(classes));
    for known in classes {
        owners.add_class(known.superclass, &known.named)?;
    }
    Ok(owners)
}
