//! A source's table. Rows of `arc_rows` show the sources that are refused.
use crate::source::tree;
use arc_ast::tree::{Kind, Qual, Sign, TranslationUnit};
use arc_class::table::{ClassId, ClassTable, Field, MethodId, Sel};
use arc_spec::event::NoMemory;
use std::alloc::Global;

/// `B` has a class method and its superclass `A` has one of its objects, both named `f`.
const TWO_CLASSES: &[u8] =
    b"@interface A : NSObject - (int)f; @end @interface B : A + (int)f; @end \
    @implementation A - (int)f { } @end @implementation B + (int)f { } @end int main(void) { }";

/// The numbers of a name that is registered twice, and of another one.
fn register_names(table: &mut ClassTable) -> Result<(Sel, Sel, Sel), NoMemory> {
    let first = table.sel_register_name(b"zip:")?;
    let second = table.sel_register_name(b"zip:")?;
    let other = table.sel_register_name(b"zip")?;
    Ok((first, second, other))
}

/// Whether a table has the names that were registered, and the selectors and the method of `TWO_CLASSES`.
fn has_names(table: &ClassTable) -> bool {
    table.sel_get_name(Sel(9)) == b"zip:".as_slice()
        && table.sel_get_name(Sel(10)) == b"zip".as_slice()
        && table.selector(b"f") == Some(Sel(8))
        && table.selector(b"dealloc") == Some(Sel(3))
        && table.method(ClassId(2), Sign::Instance, Sel(8)) == Some(MethodId(1))
}

/// The numbers of the names that are registered in the table of this tree, if it has them then.
fn registered_in(alloc: Global, unit: &TranslationUnit) -> Option<(Sel, Sel, Sel)> {
    let table = ClassTable::build(alloc, unit).ok()?;
    let mut table = Box::new(alloc, table).ok()?;
    registered_with(&mut table)
}

/// The same, with the tree's table.
fn registered_with(table: &mut ClassTable) -> Option<(Sel, Sel, Sel)> {
    let registered = register_names(table).ok()?;
    has_names(table).then_some(registered)
}

#[test]
fn registers(rt: HostRuntime) {
    let alloc = rt.alloc();
    let unit = tree(alloc, TWO_CLASSES).expect(&rt, "no tree");
    let registered = registered_in(alloc, &unit);
    assert_eq!(rt; registered, Some((Sel(9), Sel(9), Sel(10))));
}

/// `A` has a number and an object, and `B` an object more, which its implementation declares.
const FIELDS: &[u8] = b"@interface A : NSObject { int n; id o; } @end @interface B : A @end \
    @implementation A @end @implementation B { A *p; } @end int main(void) { }";

/// Whether the field has this name, kind and sort, and this class declares it.
fn is_field(field: &Field, name: &[u8], kind: Kind, qual: Option<Qual>, owner: ClassId) -> bool {
    field.name == name && field.kind == kind && field.qual == qual && field.owner == owner
}

/// Whether a table has the fields of `FIELDS`, those of the superclass first.
fn has_fields(table: &ClassTable) -> bool {
    let (above, class) = (ClassId(1), ClassId(2));
    let [number, object, own] = table.fields(class) else {
        return false;
    };
    table.superclass(class) == Some(above)
        && is_field(number, b"n", Kind::Int, None, above)
        && is_field(object, b"o", Kind::Object, Some(Qual::Strong), above)
        && is_field(own, b"p", Kind::Object, Some(Qual::Strong), class)
}

/// Whether the table of this tree has them; None where it is refused, or memory is.
fn has_fields_in(alloc: Global, unit: &TranslationUnit) -> Option<bool> {
    let table = ClassTable::build(alloc, unit).ok()?;
    let table = Box::new(alloc, table).ok()?;
    Some(has_fields(&table))
}

#[test]
fn knows_fields(rt: HostRuntime) {
    let alloc = rt.alloc();
    let unit = tree(alloc, FIELDS).expect(&rt, "no tree");
    assert_eq!(rt; has_fields_in(alloc, &unit), Some(true));
}
