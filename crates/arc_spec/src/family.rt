//! The families of methods.
ghost use Rattle.std.specs.Prelude.{◌≡◌, ◌==◌, ◌≤◌, not, length};
ghost use Rattle.std.specs.List.{prefix_len};
ghost use Rattle.arc_spec.specs.Families as families;

use crate::signature::{Family, Signature};
use arc_ast::tree::{Kind, Sign};

/// The method's family (Objective-C Automatic Reference Counting, "Method families"), from its selector, as `initWith:`, and its signature. It is `None` where the
/// selector names no family, where the method returns no object, and for a class method whose selector is one of init's.
pub fn family(name: &str, signature: &Signature) -> Family
    ensures { result ≡ families.family_of name.now signature.now }
{
    family_of_selector(name.as_bytes(), signature)
}

/// The same, of a selector's bytes.
pub fn family_of_selector(selector: &[u8], signature: &Signature) -> Family
    ensures { result ≡ families.family_of selector.now signature.now }
{
    let sign = if signature.instance {
        Sign::Instance
    } else {
        Sign::Class
    };
    method_family(sign, selector, signature.result)
}

/// How many underscores lead the name.
fn leading_underscores(name: &[u8]) -> usize
    ensures count { result ≡ prefix_len (λ c. c == 95) name.now }
    ensures within { result ≤ length name.now }
{
    name.iter().take_while(|c| **c == b'_').count()
}

/// The name without the underscores that lead it.
fn without_underscores(name: &[u8]) -> &[u8]
    ensures { result.now ≡ families.without_underscores name.now }
{
    &name[leading_underscores(name)..]
}

/// How many bytes stand before the first colon, or in all where there is none.
fn component_length(selector: &[u8]) -> usize
    ensures { result ≡ prefix_len (λ c. not (c == 58)) selector.now }
{
    selector.iter().take_while(|c| **c != b':').count()
}

/// The selector up to its first colon, or all of it where there is none.
fn first_component(selector: &[u8]) -> &[u8]
    ensures { result.now ≡ families.first_component selector.now }
{
    &selector[..component_length(selector)]
}

/// Whether a word ends before the bytes: there are none, or the first is no lowercase letter.
fn ends_before(bytes: &[u8]) -> bool
    ensures { result ≡ families.ends_before bytes.now }
{
    match bytes {
        [] => true,
        [first, ..] => !first.is_ascii_lowercase(),
    }
}

/// Whether the component is the word, or begins with it followed by no lowercase letter.
fn begins_with_word(component: &[u8], word: &[u8]) -> bool
    ensures { result ≡ families.begins_with_word component.now word.now }
{
    component.starts_with(word) && ends_before(&component[word.len()..])
}

/// The family that a first component names.
fn named_family(component: &[u8]) -> Family
    ensures { result ≡ families.named_family component.now }
{
    if begins_with_word(component, b"alloc") {
        Family::Alloc
    } else if begins_with_word(component, b"copy") {
        Family::Copy
    } else if begins_with_word(component, b"init") {
        Family::Init
    } else if begins_with_word(component, b"mutableCopy") {
        Family::MutableCopy
    } else if begins_with_word(component, b"new") {
        Family::New
    } else {
        Family::None
    }
}

/// Whether a method with the sign that gives a value of the kind may have the family.
fn may_have(sign: Sign, family: Family, gives: Kind) -> bool
    ensures { result ≡ families.may_have sign family gives }
{
    match (sign, family) {
        (Sign::Class, Family::Init) => false,
        _ => matches!(gives, Kind::Object),
    }
}

/// The family of a method, from its sign, its selector and the kind of what it gives.
pub fn method_family(sign: Sign, selector: &[u8], gives: Kind) -> Family
    ensures { result ≡ families.method_family sign selector.now gives }
{
    let named = named_family(first_component(without_underscores(selector)));
    if may_have(sign, named, gives) {
        named
    } else {
        Family::None
    }
}

/// Whether what a method gives is retained for who sent the message.
pub fn is_owning(family: Family) -> bool
    ensures { result ≡ families.is_owning family }
{
    !matches!(family, Family::None)
}

/// Whether a method gives an object of the class that gets the message although its type says `id`.
pub fn gives_related(sign: Sign, family: Family) -> bool
    ensures { result ≡ families.gives_related sign family }
{
    match (sign, family) {
        (Sign::Class, Family::Alloc | Family::New) | (Sign::Instance, Family::Init) => true,
        _ => false,
    }
}
